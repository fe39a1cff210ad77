// The parents of a commit.
ghost use Rattle.std.specs.Prelude.{◌≡◌, ◌≤◌, take, IfOk};
ghost use Rattle.branch_graph.specs.Pairs.{pair_of};

use mrdt_model::Memory;
use shared_chunks::Entry;
use std::alloc::Global;
use std::marker::Model;

/// The parents of a commit. Contracts see their list.
#[derive(Drop)]
pub(crate) struct Parents {
    // the parents, where they are at most two
    pair: [u32; 2],
    // how many of the pair there are
    count: usize,
    // the parents, where they are more
    more: Option<Vec<u32>>,
}

impl Model for Parents {
    ghost use Rattle.std.specs.Prelude.{ℕ, ◌≤◌, List, take};
    ghost use Rattle.std.specs.Option.{option_map_or};

    ghost Value = { List ℕ };

    ghost view = { λ p. option_map_or (λ parents. parents.items) p.more (take p.count p.pair) };

    ghost invariant = { λ p. p.count ≤ 2 };
}

impl Parents {
    // The parents of a slice. At most two take no memory.
    pub(crate) fn from_slice(alloc: Global, parents: &[u32]) -> Result<Parents, Memory>
        ensures { IfOk result (λ list. list ≡ parents.now) }
    {
        match parents {
            [] => Ok(few([0, 0], 0)),
            [one] => Ok(few([*one, 0], 1)),
            [one, other] => Ok(few([*one, *other], 2)),
            _ => Ok(Parents {
                pair: [0, 0],
                count: 0,
                more: Some(Vec::from_slice(alloc, parents)?),
            }),
        }
    }

    // The parents.
    pub(crate) fn as_slice(&self) -> &[u32]
        ensures { result.now ≡ self.now }
    {
        match &self.more {
            Some(parents) => parents,
            None => &self.pair[..self.count],
        }
    }
}

// The first of two numbers.
fn few(pair: [u32; 2], count: usize) -> Parents
    requires { count ≤ 2 }
    ensures { result ≡ take count pair }
{
    Parents {
        pair,
        count,
        more: None,
    }
}

impl Entry for Parents {
    ghost key_of = { pair_of };

    fn copy(&self) -> Result<Parents, Memory> {
        let more = match &self.more {
            Some(parents) => Some(parents.clone()?),
            None => None,
        };
        Ok(Parents {
            pair: self.pair,
            count: self.count,
            more,
        })
    }

    fn key(&self) -> Option<(u32, u32)> {
        match self.as_slice() {
            [one, other] => Some(((*one).min(*other), (*one).max(*other))),
            _ => None,
        }
    }
}
