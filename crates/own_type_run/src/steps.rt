// What is done to a store, whatever the type of its values.
use crate::failure::Failure;
use branch_address::Sha256Address;
use branch_disk::Disk;
use branch_names::Name;
use mrdt_model::Mrdt;
use store_core::{Core, Kind, PairStep};

/// Lands an operation on what a branch has now.
pub fn operate<T: Mrdt, D: Disk + Drop>(
    core: &mut Core<T, D, Sha256Address>,
    branch: &Name,
    op: T::Op,
) -> Result<Kind<T::Reply>, Failure> {
    let seen = core.look(branch)?;
    let prepared = seen.prepare(op)?;
    Ok(core.land(prepared)?.kind)
}

/// Merges what a branch has now into another; `None` where there is nothing to merge.
pub fn merge<T: Mrdt, D: Disk + Drop>(
    core: &mut Core<T, D, Sha256Address>,
    into: &Name,
    from: &Name,
) -> Result<Option<Kind<T::Reply>>, Failure> {
    let seen = core.look(into)?;
    let pair = core.pair(&seen, from)?;
    match pair.prepare()? {
        PairStep::Same => Ok(None),
        PairStep::Land(prepared) => Ok(Some(core.land(prepared)?.kind)),
    }
}

/// What a branch answers to a query now.
pub fn ask<T: Mrdt, D: Disk + Drop>(
    core: &Core<T, D, Sha256Address>,
    branch: &Name,
    query: &T::Query,
) -> Result<T::Answer, Failure> {
    let seen = core.look(branch)?;
    Ok(seen.ask(query)?)
}
