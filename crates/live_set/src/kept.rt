// An entry of a live set.
ghost use Rattle.std.specs.Prelude.{◌≡◌, ◌↔◌, ◌++◌, List, ℕ, IsTrue, IfOk};
ghost use Rattle.mrdt_model.specs.Times.{IsTime};
ghost use Rattle.live_set.specs.Spelling.{kept_spelling};

use crate::payload::Payload;
use mrdt_model::{Memory, Time};

/// A payload with the time of the operation that put it.
#[derive(Drop)]
pub struct Kept<V> {
    /// The time of the operation.
    pub time: Time,
    /// What it put.
    pub payload: V,
}

// Whether two times are the same.
fn is_same_time(mine: Time, theirs: Time) -> bool
    ensures same { IsTrue result ↔ (mine ≡ theirs) }
    ensures in_range { IsTime mine × IsTime theirs }
{
    mine == theirs
}

impl<V: Payload> Kept<V> {
    /// An equal entry.
    pub fn copy(&self) -> Result<Kept<V>, Memory>
        ensures { IfOk result (λ kept. kept ≡ self.now) }
    {
        Ok(Kept {
            time: self.time,
            payload: self.payload.copy()?,
        })
    }

    /// Whether two entries are equal. Those whose spellings stand at the front of the same bytes are. It takes no
    /// memory.
    pub fn same(&self, other: &Kept<V>) -> bool
        ensures same { IsTrue result ↔ (self.now ≡ other.now) }
        ensures spelled { (a b : List ℕ)
            → kept_spelling V.spelling self.now ++ a ≡ kept_spelling V.spelling other.now ++ b
            → self.now ≡ other.now }
    {
        is_same_time(self.time, other.time) && self.payload.same(&other.payload)
    }
}
