// Entries with texts that several live sets share.
ghost use Rattle.std.specs.Prelude.{◌≡◌, ◌++◌, IfOk, OnOk};

use crate::kept::Kept;
use crate::live::Live;
use mrdt_model::{Bytes, Memory, Shared};

/// An equal entry with a text of its own.
pub fn own_copy(kept: &Kept<Shared<Bytes>>) -> Result<Kept<Bytes>, Memory>
    ensures { IfOk result (λ copy. copy ≡ kept.now) }
{
    Ok(Kept {
        time: kept.time,
        payload: kept.payload.get().copy()?,
    })
}

/// Puts equal entries, with texts of their own, behind those of a list.
#[tactic(auto, using(crate::proofs::Sharing::first_is, crate::proofs::Sharing::first_not, crate::proofs::Sharing::walk_shorter))]
pub fn push_texts(live: &Live<Shared<Bytes>>, list: &mut Vec<Kept<Bytes>>) -> Result<(), Memory>
    ensures { OnOk result (list.new.items ≡ list.old.items ++ live.now) }
{
    let mut ahead = live.walk();
    while let Some(kept) = ahead.first() {
        list.push(own_copy(kept)?)?;
        ahead.skip();
    }
    Ok(())
}
