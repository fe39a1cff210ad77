// The register of several values, and its laws.
ghost use Rattle.std.specs.Prelude.{◌≡◌, map, IfOk};

use crate::op::RegisterOp;
use live_set::{Live, unit_reply, whole_text};
use mrdt_model::{Bytes, Listing, Memory, Mrdt, Shared, Time, Unread};
use std::alloc::Global;
use std::marker::Model;

/// The payloads that no other has replaced, with the times when they were written. Contracts see them by rising
/// time.
#[derive(Drop)]
pub struct Multi {
    alloc: Global,
    live: Live<Shared<Bytes>>,
}

impl Model for Multi {
    ghost use Rattle.std.specs.Prelude.{List, ℕ};
    ghost use Rattle.live_set.specs.declared.kept.Kept.{Kept};

    ghost Value = { List (Kept (List ℕ)) };

    ghost view = { λ m. m.live };
}

/// A query of a register of several values.
#[derive(Clone, Copy, Debug, PartialEq, Eq)]
pub enum MultiQuery {
    /// The payloads, the one that was written first standing first.
    Values,
}

// The payloads of entries, copied.
#[tactic(auto, using(live_set::proofs::Sharing::first_is, live_set::proofs::Sharing::first_not, live_set::proofs::Sharing::walk_shorter))]
fn payloads(alloc: Global, live: &Live<Shared<Bytes>>) -> Result<Listing<Bytes>, Memory>
    ensures { IfOk result (λ list. list ≡ map (λ k. k.payload) live.now) }
{
    let mut list = Vec::new(alloc);
    let mut ahead = live.walk();
    while let Some(kept) = ahead.first() {
        list.push(kept.payload.get().copy()?)?;
        ahead.skip();
    }
    Ok(Listing::from_vec(list))
}

impl Mrdt for Multi {
    ghost use Rattle.mrdt_register.specs.Multi.{multi_meaning};
    ghost use Rattle.mrdt_register.specs.MultiLaws.{multi_laws};

    type Op = RegisterOp;

    type Query = MultiQuery;

    type Answer = Listing<Bytes>;

    type Reply = ();

    ghost meaning = { multi_meaning };

    fn initial(alloc: Global) -> Multi {
        Multi {
            alloc,
            live: Live::new(alloc),
        }
    }

    fn copy(&self) -> Result<Multi, Memory> {
        Ok(Multi {
            alloc: self.alloc,
            live: self.live.copy()?,
        })
    }

    fn same(&self, other: &Multi) -> bool {
        self.live.same(&other.live)
    }

    fn apply(&self, op: &RegisterOp, time: Time) -> Result<(Multi, ()), Memory> {
        let payload = op.shared(self.alloc)?;
        let mut live = Live::new(self.alloc);
        live.add(time, payload)?;
        let multi = Multi {
            alloc: self.alloc,
            live,
        };
        Ok((multi, ()))
    }

    fn merge(base: &Multi, left: &Multi, right: &Multi) -> Result<Multi, Memory> {
        Ok(Multi {
            alloc: left.alloc,
            live: Live::merge(&base.live, &left.live, &right.live)?,
        })
    }

    fn answer(&self, query: &MultiQuery) -> Result<Listing<Bytes>, Memory> {
        match query {
            MultiQuery::Values => Ok(payloads(self.alloc, &self.live)?),
        }
    }

    fn put(&self, out: &mut Vec<u8>) -> Result<(), Memory> {
        self.live.put(out)
    }

    fn spelled_length(&self) -> u64 {
        self.live.spelled_length()
    }

    fn get(alloc: Global, bytes: &[u8]) -> Result<Multi, Unread> {
        Ok(Multi {
            alloc,
            live: Live::get(alloc, bytes)?,
        })
    }

    fn put_op(op: &RegisterOp, out: &mut Vec<u8>) -> Result<(), Memory> {
        Ok(out.extend_from_slice(op.payload().as_slice())?)
    }

    fn get_op(alloc: Global, bytes: &[u8]) -> Result<RegisterOp, Unread> {
        Ok(RegisterOp::Set(whole_text(alloc, bytes)?))
    }

    fn put_reply(reply: &(), out: &mut Vec<u8>) -> Result<(), Memory> {
        unit_reply::put(reply, out)
    }

    fn get_reply(_alloc: Global, bytes: &[u8]) -> Result<(), Unread> {
        unit_reply::get(bytes)
    }

    ghost laws = { multi_laws };
}
