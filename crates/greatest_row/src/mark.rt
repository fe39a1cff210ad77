// Numbers at places, and how they are spelled.
ghost use Rattle.std.specs.Prelude.{◌≡◌, ◌↔◌, ◌++◌, IsTrue, IfOk, OnOk, OnErr, IsErrOf};
ghost use Rattle.mrdt_model.specs.Spelled.{AppendsPart};
ghost use Rattle.greatest_row.specs.declared.mark.Mark.{Mark as SpecMark};
ghost use Rattle.greatest_row.specs.Rows.{mark_spelling, InRange, IsMarkSpelling};

use branch_wire::{Cursor, put_u64};
use mrdt_model::{Memory, Unread};

/// A number at a place of a row.
///
/// `Mark { place: 7, number: 100 }` is 100 at place 7. Its spelling is sixteen bytes, the place and the number, the
/// greatest byte of each first.
#[derive(Clone, Copy, Debug, PartialEq, Eq)]
pub struct Mark {
    /// The place, from 0 on.
    pub place: usize,
    /// The number; 0 is none.
    pub number: u64,
}

// The mark, where it is in range.
fn checked(mark: Mark, places: usize, least: u64, most: u64) -> Result<Mark, Unread>
    ensures same { IfOk result (λ own. own ≡ mark) }
    ensures inside { OnOk result (InRange places least most mark) }
    ensures outside { IsErrOf result Unread.NotCanonical → ¬ InRange places least most mark }
{
    if mark.is_in(places, least, most) {
        Ok(mark)
    } else {
        Err(Unread::NotCanonical)
    }
}

impl Mark {
    /// Whether the place is below a number of places, and the number lies between two, which it may be too.
    ///
    /// `Mark { place: 7, number: 100 }.is_in(64, 1, 100)` is `true`.
    pub fn is_in(&self, places: usize, least: u64, most: u64) -> bool
        ensures { IsTrue result ↔ InRange places least most self.now }
    {
        self.place < places && least <= self.number && self.number <= most
    }

    /// Writes the mark's spelling at the end of `out`; after `Memory`, a first part of it.
    ///
    /// `mark.put(&mut out)?` appends sixteen bytes.
    pub fn put(&self, out: &mut Vec<u8>) -> Result<(), Memory>
        ensures ok { OnOk result (out.new.items ≡ out.old.items ++ mark_spelling self.now) }
        ensures err { OnErr result (AppendsPart out.old.items out.new.items
            (mark_spelling self.now)) }
    {
        put_u64(self.place as u64, out)?;
        put_u64(self.number, out)
    }

    /// Reads a mark in range (`is_in`) whose spelling is the whole of the bytes. `NotCanonical` comes exactly where there
    /// is none. It takes no memory.
    ///
    /// `Mark::get(&bytes, 64, 1, 100)` reads one at the places 0 to 63 with a number from 1 to 100.
    pub fn get(bytes: &[u8], places: usize, least: u64, most: u64) -> Result<Mark, Unread>
        ensures spelled { IfOk result (λ mark. mark_spelling mark ≡ bytes.now) }
        ensures known { IfOk result (λ mark. InRange places least most mark) }
        ensures equal { IfOk result (λ mark. (other : SpecMark) → InRange places least most other
            → mark_spelling other ≡ bytes.now → mark ≡ other) }
        ensures inside { OnOk result (IsMarkSpelling places least most bytes.now) }
        ensures outside { IsErrOf result Unread.NotCanonical
            → ¬ IsMarkSpelling places least most bytes.now }
    {
        let mut cursor = Cursor::new(bytes);
        let place = cursor.take_u64()?;
        let number = cursor.take_u64()?;
        if cursor.is_at_end() {
            let place = place as usize;
            checked(Mark { place, number }, places, least, most)
        } else {
            Err(Unread::NotCanonical)
        }
    }
}
