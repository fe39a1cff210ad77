// The board, its operations and queries, and its laws.
ghost use Rattle.std.specs.Prelude.{◌≡◌, ◌+◌, IfSome, IsNone};
ghost use Rattle.greatest_row.specs.declared.mark.Mark.{Mark as SpecMark};
ghost use Rattle.greatest_row.specs.Rows.{highest};
ghost use Rattle.own_type.specs.Board.{IsRaise, standing_of};

use greatest_row::{Mark, Row};
use live_set::unit_reply;
use mrdt_model::{Memory, Mrdt, Time, Unread};
use std::alloc::Global;
use std::marker::Model;

// How many candidates there are.
const CANDIDATES: usize = 64;

// One more than the greatest number.
const MOST: u64 = 0x1_0000_0000;

/// Sets a candidate's number, where it has no greater one. Contracts see the mark that it raises: the candidate, and one
/// more than the number.
#[derive(Drop)]
pub struct Raise {
    mark: Mark,
}

impl Model for Raise {
    ghost use Rattle.greatest_row.specs.declared.mark.Mark.{Mark};
    ghost use Rattle.own_type.specs.Board.{IsRaise};

    ghost Value = { Mark };

    ghost view = { λ r. r.mark };

    ghost invariant = { λ r. IsRaise r.mark };
}

impl Raise {
    /// The operation that sets a candidate's number; `None` exactly where the candidate is 64 or more.
    ///
    /// `Raise::new(7, 100)` sets the number of candidate 7 to 100.
    pub fn new(candidate: usize, number: u32) -> Option<Raise>
        ensures made { IfSome result (λ op. op ≡ record {
          place = candidate;
          number = number + 1;
        }) }
        ensures none { IsNone result
            → ¬ IsRaise (record { place = candidate; number = number + 1 }) }
    {
        if candidate < CANDIDATES {
            Some(Raise {
                mark: Mark {
                    place: candidate,
                    number: number as u64 + 1,
                },
            })
        } else {
            None
        }
    }

    // What it raises.
    fn mark(&self) -> Mark
        ensures value { result ≡ self.now }
        ensures known { IsRaise self.now }
    {
        self.mark
    }
}

/// A candidate with its number.
#[derive(Clone, Copy, Debug, PartialEq, Eq)]
pub struct Standing {
    /// The candidate, from 0 to 63.
    pub candidate: usize,
    /// The greatest number that was set.
    pub number: u64,
}

/// A query of a board.
#[derive(Clone, Copy, Debug, PartialEq, Eq)]
pub enum BoardQuery {
    /// The candidate with the greatest number, the least of several; none where no number was set.
    Highest,
}

/// A tally board. Contracts see one more than the greatest number of each candidate, from candidate 0 on, and 0 where
/// none was set.
#[derive(Drop)]
pub struct Board {
    row: Row,
}

impl Model for Board {
    ghost use Rattle.std.specs.Prelude.{List, ℕ};

    ghost Value = { List ℕ };

    ghost view = { λ b. b.row };
}

impl Board {
    /// The candidate with the greatest number, the least of several. It takes no memory.
    ///
    /// `board.highest()` of a board of no operations is `None`.
    pub fn highest(&self) -> Option<Standing>
        ensures { result ≡ standing_of (highest self.now) }
    {
        let mark = self.row.highest();
        if mark.number == 0 {
            None
        } else {
            Some(Standing {
                candidate: mark.place,
                number: mark.number - 1,
            })
        }
    }
}

impl Mrdt for Board {
    ghost use Rattle.own_type.specs.Board.{board_meaning};
    ghost use Rattle.own_type.specs.BoardLaws.{board_laws};

    type Op = Raise;

    type Query = BoardQuery;

    type Answer = Option<Standing>;

    type Reply = ();

    ghost meaning = { board_meaning };

    fn initial(alloc: Global) -> Board {
        Board {
            row: Row::new(alloc),
        }
    }

    fn copy(&self) -> Result<Board, Memory> {
        Ok(Board {
            row: self.row.copy()?,
        })
    }

    fn same(&self, other: &Board) -> bool {
        self.row.same(&other.row)
    }

    fn apply(&self, op: &Raise, _time: Time) -> Result<(Board, ()), Memory> {
        let row = self.row.raised(op.mark())?;
        Ok((Board { row }, ()))
    }

    fn merge(_base: &Board, left: &Board, right: &Board) -> Result<Board, Memory> {
        Ok(Board {
            row: Row::merged(&left.row, &right.row)?,
        })
    }

    fn answer(&self, query: &BoardQuery) -> Result<Option<Standing>, Memory> {
        match query {
            BoardQuery::Highest => Ok(self.highest()),
        }
    }

    fn put(&self, out: &mut Vec<u8>) -> Result<(), Memory> {
        self.row.put(out)
    }

    fn spelled_length(&self) -> u64 {
        self.row.spelled_length()
    }

    fn get(alloc: Global, bytes: &[u8]) -> Result<Board, Unread> {
        Ok(Board {
            row: Row::get(alloc, bytes)?,
        })
    }

    fn put_op(op: &Raise, out: &mut Vec<u8>) -> Result<(), Memory> {
        op.mark().put(out)
    }

    fn get_op(_alloc: Global, bytes: &[u8]) -> Result<Raise, Unread> {
        Ok(Raise {
            mark: Mark::get(bytes, CANDIDATES, 1, MOST)?,
        })
    }

    fn put_reply(reply: &(), out: &mut Vec<u8>) -> Result<(), Memory> {
        unit_reply::put(reply, out)
    }

    fn get_reply(_alloc: Global, bytes: &[u8]) -> Result<(), Unread> {
        unit_reply::get(bytes)
    }

    ghost laws = { board_laws };
}
