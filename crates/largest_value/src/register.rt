// The register, its operation, and its laws.
ghost use Rattle.std.specs.Prelude.{◌≡◌, List, ℕ};
ghost use Rattle.greatest_row.specs.declared.mark.Mark.{Mark as SpecMark};
ghost use Rattle.largest_value.specs.Largest.{IsRaise, largest_meaning, largest_laws};

use greatest_row::{Mark, Row};
use live_set::unit_reply;
use mrdt_model::{Memory, Mrdt, Time, Unread};
use std::alloc::Global;
use std::marker::Model;

/// Sets the register to a number, where it has no greater one. Contracts see the mark that it raises: the number, at
/// place 0.
#[derive(Drop)]
pub struct Raise {
    mark: Mark,
}

impl Model for Raise {
    ghost Value = { SpecMark };

    ghost view = { λ r. r.mark };

    ghost invariant = { λ r. IsRaise r.mark };
}

impl Raise {
    /// The operation that sets a number. It takes no memory.
    ///
    /// `Raise::new(7)` sets the register to 7.
    pub fn new(number: u64) -> Raise
        ensures { result ≡ record { place = 0; number = number } }
    {
        Raise {
            mark: Mark { place: 0, number },
        }
    }
}

/// A register of the largest value: it answers its one query, `()`, with the greatest number that was set, and with none
/// where none was. Contracts see a row of one place with the number, or of no place.
#[derive(Drop)]
pub struct Largest {
    row: Row,
}

impl Model for Largest {
    ghost Value = { List ℕ };

    ghost view = { λ l. l.row };
}

impl Mrdt for Largest {
    type Op = Raise;

    type Query = ();

    type Answer = Option<u64>;

    type Reply = ();

    ghost meaning = { largest_meaning };

    fn initial(alloc: Global) -> Largest {
        Largest {
            row: Row::new(alloc),
        }
    }

    fn copy(&self) -> Result<Largest, Memory> {
        Ok(Largest {
            row: self.row.copy()?,
        })
    }

    fn same(&self, other: &Largest) -> bool {
        self.row.same(&other.row)
    }

    fn apply(&self, op: &Raise, _time: Time) -> Result<(Largest, ()), Memory> {
        let row = self.row.raised(op.mark)?;
        Ok((Largest { row }, ()))
    }

    fn merge(_base: &Largest, left: &Largest, right: &Largest) -> Result<Largest, Memory> {
        Ok(Largest {
            row: Row::merged(&left.row, &right.row)?,
        })
    }

    fn answer(&self, _query: &()) -> Result<Option<u64>, Memory> {
        if self.row.spelled_length() == 0 {
            Ok(None)
        } else {
            Ok(Some(self.row.at(0)))
        }
    }

    fn put(&self, out: &mut Vec<u8>) -> Result<(), Memory> {
        self.row.put(out)
    }

    fn spelled_length(&self) -> u64 {
        self.row.spelled_length()
    }

    fn get(alloc: Global, bytes: &[u8]) -> Result<Largest, Unread> {
        Ok(Largest {
            row: Row::get(alloc, bytes)?,
        })
    }

    fn put_op(op: &Raise, out: &mut Vec<u8>) -> Result<(), Memory> {
        op.mark.put(out)
    }

    fn get_op(_alloc: Global, bytes: &[u8]) -> Result<Raise, Unread> {
        Ok(Raise {
            mark: Mark::get(bytes, 1, 0, u64::MAX)?,
        })
    }

    fn put_reply(reply: &(), out: &mut Vec<u8>) -> Result<(), Memory> {
        unit_reply::put(reply, out)
    }

    fn get_reply(_alloc: Global, bytes: &[u8]) -> Result<(), Unread> {
        unit_reply::get(bytes)
    }

    ghost laws = { largest_laws };
}
