// The row, and its calls.
ghost use Rattle.std.specs.Prelude.{◌≡◌, ◌↔◌, ◌++◌, ◌∷◌, ◌<◌, ◌^◌, [], List, ℕ, length, get_or, max, replicate, IsTrue, IfOk, OnOk, OnErr, IsErrOf};
ghost use Rattle.mrdt_model.specs.Spelled.{AppendsPart, capped};
ghost use Rattle.greatest_row.specs.Rows.{join, one, row_spelling, AreNumbers, IsRowSpelling, highest, best_of, greater, IsHighest};

use crate::mark::Mark;
use branch_wire::{Cursor, put_u64};
use mrdt_model::{Memory, Unread};
use std::alloc::Global;
use std::marker::Model;

/// The greatest number of each place, from place 0 on; a place behind the end has 0. Contracts see the list of the
/// numbers.
///
/// Its spelling is eight bytes for each place, the number's, the greatest byte first. It takes memory for each place
/// up to the greatest that was raised, so places should be small numbers.
#[derive(Drop)]
pub struct Row {
    alloc: Global,
    numbers: Vec<u64>,
}

impl Model for Row {
    ghost use Rattle.std.specs.Prelude.{List, ℕ};

    ghost Value = { List ℕ };

    ghost view = { λ r. r.numbers.items };
}

// Puts a number behind the others.
fn push(number: u64, numbers: &mut Vec<u64>) -> Result<(), Memory>
    ensures { OnOk result (numbers.new.items ≡ numbers.old.items ++ number ∷ []) }
{
    Ok(numbers.push(number)?)
}

// The greater of two numbers.
fn greater_of(left: u64, right: u64) -> u64
    ensures { result ≡ max left right }
{
    if left < right { right } else { left }
}

// The greater numbers of two rows, place by place.
fn joined(alloc: Global, left: &[u64], right: &[u64]) -> Result<Vec<u64>, Memory>
    ensures { IfOk result (λ numbers. numbers.items ≡ join left.now right.now) }
{
    let mut mine = left;
    let mut theirs = right;
    let mut numbers = Vec::new(alloc);
    while let (Some((m, more)), Some((n, others))) = (mine.split_first(), theirs.split_first()) {
        push(greater_of(*m, *n), &mut numbers)?;
        mine = more;
        theirs = others;
    }
    numbers.extend_from_slice(mine)?;
    numbers.extend_from_slice(theirs)?;
    Ok(numbers)
}

// Whether the numbers are the same; those that are spelled alike are.
fn are_same(left: &[u64], right: &[u64]) -> bool
    ensures same { IsTrue result ↔ (left.now ≡ right.now) }
    ensures spelled { row_spelling left.now ≡ row_spelling right.now → left.now ≡ right.now }
{
    let same = left == right;
    // What is read has numbers of 64 bits.
    let _counts = (left.len(), right.len());
    same
}

// How many bytes the spelling of numbers has, or 2^64 - 1 where it has more.
fn length_of(numbers: &[u64]) -> u64
    ensures { result ≡ capped (length (row_spelling numbers.now)) }
{
    (numbers.len() as u64).saturating_mul(8)
}

// Writes the spelling of numbers.
fn put_numbers(numbers: &[u64], out: &mut Vec<u8>) -> Result<(), Memory>
    ensures ok { OnOk result (out.new.items ≡ out.old.items ++ row_spelling numbers.now) }
    ensures err { OnErr result (AppendsPart out.old.items out.new.items
        (row_spelling numbers.now)) }
{
    for number in numbers {
        put_u64(*number, out)?;
    }
    Ok(())
}

// Reads numbers to the end of the bytes.
fn get_numbers(alloc: Global, bytes: &[u8]) -> Result<Vec<u64>, Unread>
    ensures spelled { IfOk result (λ numbers. row_spelling numbers.items ≡ bytes.now) }
    ensures known { IfOk result (λ numbers. AreNumbers numbers.items) }
    ensures outside { IsErrOf result Unread.NotCanonical → ¬ IsRowSpelling bytes.now }
{
    let mut cursor = Cursor::new(bytes);
    let mut numbers = Vec::new(alloc);
    while !cursor.is_at_end() {
        let number = cursor.take_u64()?;
        push(number, &mut numbers)?;
    }
    Ok(numbers)
}

// The number at a place, where it is greater than the best so far; else that one.
fn better(best: Mark, place: usize, number: u64) -> Mark
    ensures { result ≡ greater best place number }
{
    if best.number < number {
        Mark { place, number }
    } else {
        best
    }
}

// The greatest number, and the least place that has it.
fn highest_of(numbers: &[u64]) -> Mark
    ensures { result ≡ highest numbers.now }
{
    let mut best = Mark {
        place: 0,
        number: 0,
    };
    for (place, number) in numbers.iter().enumerate() {
        best = better(best, place, *number);
    }
    best
}

impl Row {
    /// The row of no numbers. It takes no memory.
    ///
    /// `Row::new(alloc).at(0)` is 0.
    pub fn new(alloc: Global) -> Row
        ensures { result ≡ [] }
    {
        Row {
            alloc,
            numbers: Vec::new(alloc),
        }
    }

    /// The same row, in memory of its own.
    ///
    /// `row.copy()?` of the row 5, 7 is the row 5, 7.
    pub fn copy(&self) -> Result<Row, Memory>
        ensures { IfOk result (λ row. row ≡ self.now) }
    {
        Ok(Row {
            alloc: self.alloc,
            numbers: self.numbers.clone()?,
        })
    }

    /// Whether two rows are the same; those that are spelled alike are. It takes no memory.
    ///
    /// `row.same(&row.copy()?)` is `true`.
    pub fn same(&self, other: &Row) -> bool
        ensures same { IsTrue result ↔ (self.now ≡ other.now) }
        ensures spelled { row_spelling self.now ≡ row_spelling other.now → self.now ≡ other.now }
    {
        are_same(&self.numbers, &other.numbers)
    }

    /// The number at a place, which is 0 behind the row's end. It takes no memory.
    ///
    /// Of the row 5, 7 `row.at(1)` is 7, and `row.at(2)` is 0.
    pub fn at(&self, place: usize) -> u64
        ensures { result ≡ get_or self.now place 0 }
    {
        if place < self.numbers.len() {
            self.numbers[place]
        } else {
            0
        }
    }

    /// The row with a number raised at a place: the mark's, where it is greater than the one that is there.
    ///
    /// Of the row 5, 7 `row.raised(Mark { place: 3, number: 9 })?` is the row 5, 7, 0, 9.
    pub fn raised(&self, mark: Mark) -> Result<Row, Memory>
        ensures { IfOk result (λ row. row ≡ join (one mark) self.now) }
    {
        let mut single = Vec::from_elem(self.alloc, 0u64, mark.place)?;
        single.push(mark.number)?;
        Ok(Row {
            alloc: self.alloc,
            numbers: joined(self.alloc, &single, &self.numbers)?,
        })
    }

    /// The greater number of each place of two rows.
    ///
    /// `Row::merged(&left, &right)?` of the rows 5, 7 and 6 is the row 6, 7.
    pub fn merged(left: &Row, right: &Row) -> Result<Row, Memory>
        ensures { IfOk result (λ row. row ≡ join left.now right.now) }
    {
        Ok(Row {
            alloc: left.alloc,
            numbers: joined(left.alloc, &left.numbers, &right.numbers)?,
        })
    }

    /// The greatest number with the least place that has it, which is number 0 at place 0 where there is none. It
    /// takes no memory.
    ///
    /// Of the row 5, 7, 7 `row.highest()` is 7 at place 1.
    pub fn highest(&self) -> Mark
        ensures value { result ≡ highest self.now }
    {
        highest_of(&self.numbers)
    }

    /// Writes the row's spelling at the end of `out`; after `Memory`, a first part of it.
    ///
    /// `row.put(&mut out)?` of the row 5 appends seven bytes 0 and a byte 5.
    pub fn put(&self, out: &mut Vec<u8>) -> Result<(), Memory>
        ensures ok { OnOk result (out.new.items ≡ out.old.items ++ row_spelling self.now) }
        ensures err { OnErr result (AppendsPart out.old.items out.new.items
            (row_spelling self.now)) }
    {
        put_numbers(&self.numbers, out)
    }

    /// How many bytes the row's spelling has, or 2^64 - 1 where it has more. It takes no memory.
    ///
    /// Of the row 5, 7 `row.spelled_length()` is 16.
    pub fn spelled_length(&self) -> u64
        ensures { result ≡ capped (length (row_spelling self.now)) }
    {
        length_of(&self.numbers)
    }

    /// Reads a row whose spelling is the whole of the bytes. `NotCanonical` comes exactly where there is none,
    /// which is where their count is no multiple of eight.
    ///
    /// `Row::get(alloc, &bytes)?` of eight bytes is a row of one place.
    pub fn get(alloc: Global, bytes: &[u8]) -> Result<Row, Unread>
        ensures spelled { IfOk result (λ row. row_spelling row ≡ bytes.now) }
        ensures equal { IfOk result (λ row. (other : List ℕ) → AreNumbers other
            → row_spelling other ≡ bytes.now → row ≡ other) }
        ensures inside { OnOk result (IsRowSpelling bytes.now) }
        ensures outside { IsErrOf result Unread.NotCanonical → ¬ IsRowSpelling bytes.now }
    {
        Ok(Row {
            alloc,
            numbers: get_numbers(alloc, bytes)?,
        })
    }
}
