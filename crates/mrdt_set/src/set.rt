// The set, its operations and its laws.
ghost use Rattle.std.specs.Prelude.{◌≡◌, ◌++◌, ◌∷◌, IfOk, OnOk, OnErr, IsErrOf};
ghost use Rattle.std.specs.Option.{option_copied};
ghost use Rattle.mrdt_model.specs.Spelled.{AppendsPart};
ghost use Rattle.mrdt_set.specs.declared.set.SetOp.{SetOp as SpecOp};
ghost use Rattle.mrdt_set.specs.Set.{IsSetOp, element_of, op_spelling, IsOpSpelling};

use crate::members::{Sides, elements_in_order, first_times, merged, with_times};
use crate::same::same_tables;
use crate::slot::Times;
use crate::spelled::{members_length, put_members, take_members};
use crate::table::Table;
use branch_wire::Cursor;
use live_set::{unit_reply, whole_text};
use mrdt_model::{Bytes, Listing, Memory, Mrdt, Time, Unread};
use std::alloc::Global;
use std::marker::Model;

const ADD: u8 = 1;

const REMOVE: u8 = 2;

const CLEAR: u8 = 3;

/// An operation of a set.
#[derive(Drop)]
pub enum SetOp {
    /// Adds an element.
    Add(Bytes),
    /// Takes an element away where it has been seen.
    Remove(Bytes),
    /// Takes all elements away where they have been seen.
    Clear,
}

impl SetOp {
    /// The element that the operation adds or takes away. A Clear names none.
    pub fn element(&self) -> Option<&Bytes>
        ensures { option_copied result ≡ element_of self.now }
    {
        match self {
            SetOp::Add(element) | SetOp::Remove(element) => Some(element),
            SetOp::Clear => None,
        }
    }
}

// Writes a byte, and behind it an element.
fn put_word(word: u8, element: &[u8], out: &mut Vec<u8>) -> Result<(), Memory>
    ensures ok { OnOk result (out.new.items ≡ out.old.items ++ word ∷ element.now) }
    ensures err { OnErr result (AppendsPart out.old.items out.new.items (word ∷ element.now)) }
{
    out.push(word)?;
    Ok(out.extend_from_slice(element)?)
}

// Reads an operation that is the whole of the bytes. What is outside the grammar is refused before any memory is
// taken.
fn get_op(alloc: Global, bytes: &[u8]) -> Result<SetOp, Unread>
    ensures spelled { IfOk result (λ op. op_spelling op ≡ bytes.now) }
    ensures known { IfOk result IsSetOp }
    ensures equal { IfOk result (λ op. (other : SpecOp) → IsSetOp other
        → op_spelling other ≡ bytes.now → op ≡ other) }
    ensures inside { OnOk result (IsOpSpelling bytes.now) }
    ensures outside { IsErrOf result Unread.NotCanonical → ¬ IsOpSpelling bytes.now }
    ensures refused { ¬ IsOpSpelling bytes.now → IsErrOf result Unread.NotCanonical }
{
    match bytes.split_first() {
        Some((&ADD, rest)) => Ok(SetOp::Add(whole_text(alloc, rest)?)),
        Some((&REMOVE, rest)) => Ok(SetOp::Remove(whole_text(alloc, rest)?)),
        Some((&CLEAR, [])) => Ok(SetOp::Clear),
        _ => Err(Unread::NotCanonical),
    }
}

/// A query of a set.
#[derive(Drop)]
pub enum SetQuery {
    /// Whether the element is in the set.
    Contains(Bytes),
    /// The elements in the set, in byte order.
    Members,
    /// How many elements are in the set.
    Size,
}

/// The answer to a query of a set.
#[derive(Drop)]
pub enum SetAnswer {
    /// Whether the element is in the set.
    IsIn(bool),
    /// The elements in the set, in byte order.
    All(Listing<Bytes>),
    /// How many they are.
    Count(u64),
}

/// A set. Contracts see its elements, in byte order, each with the times of the Adds that no operation on it and no
/// Clear has seen.
#[derive(Drop)]
pub struct Set {
    alloc: Global,
    members: Table,
}

impl Model for Set {
    ghost use Rattle.std.specs.Prelude.{List, ℕ};
    ghost use Rattle.live_set.specs.declared.kept.Kept.{Kept};

    ghost Value = { List (List ℕ × List (Kept (Unit {0}))) };

    ghost view = { λ s. s.members };
}

impl Set {
    ghost use Rattle.std.specs.Prelude.{◌≡◌, [], length, is_some, IfOk};
    ghost use Rattle.mrdt_model.specs.Spelled.{IsBytes};
    ghost use Rattle.mrdt_set.specs.Members.{times_at, AreInOrder, ChangesOnly};
    ghost use Rattle.mrdt_set.specs.Set.{IsSetOp, IsAfter};

    /// Whether the element is in the set. It takes no memory.
    pub fn contains(&self, element: &[u8]) -> bool
        ensures { result ≡ is_some (times_at self.now element.now) }
    {
        self.members.has(element)
    }

    /// How many elements are in the set. It takes no memory.
    pub fn size(&self) -> u64
        ensures { result ≡ length self.now }
    {
        self.members.size()
    }

    /// The set after a Clear that has seen all. It takes no memory, and looks at no element.
    pub fn cleared(&self) -> Set
        ensures { result ≡ [] }
    {
        Set {
            alloc: self.alloc,
            members: Table::new(self.alloc),
        }
    }

    // The same set, but for the times of one element, which leaves where there are none.
    fn with_times(&self, element: &Bytes, times: Option<Times>) -> Result<Set, Memory>
        ensures times { IfOk result (ChangesOnly element.now times self.now) }
        ensures sorted { IfOk result AreInOrder }
        ensures known { IsBytes element.now }
    {
        Ok(Set {
            alloc: self.alloc,
            members: with_times(self.alloc, &self.members, element.as_slice(), times)?,
        })
    }

    // The set after an operation that has seen all.
    fn after(&self, op: &SetOp, time: Time) -> Result<Set, Memory>
        ensures known { IfOk result (λ _set. IsSetOp op.now) }
        ensures times { IfOk result (IsAfter op.now time self.now) }
        ensures sorted { IfOk result AreInOrder }
    {
        match op {
            SetOp::Add(element) => {
                let times = first_times(self.alloc, time)?;
                self.with_times(element, Some(times))
            }
            SetOp::Remove(element) => self.with_times(element, None),
            SetOp::Clear => Ok(self.cleared()),
        }
    }
}

impl Mrdt for Set {
    ghost use Rattle.mrdt_set.specs.Set.{set_meaning};
    ghost use Rattle.mrdt_set.specs.SetLaws.{set_laws};

    type Op = SetOp;

    type Query = SetQuery;

    type Answer = SetAnswer;

    type Reply = ();

    ghost meaning = { set_meaning };

    fn initial(alloc: Global) -> Set {
        Set {
            alloc,
            members: Table::new(alloc),
        }
    }

    fn copy(&self) -> Result<Set, Memory> {
        Ok(Set {
            alloc: self.alloc,
            members: self.members.copy()?,
        })
    }

    fn same(&self, other: &Set) -> bool {
        same_tables(&self.members, &other.members)
    }

    fn apply(&self, op: &SetOp, time: Time) -> Result<(Set, ()), Memory> {
        Ok((self.after(op, time)?, ()))
    }

    fn merge(base: &Set, left: &Set, right: &Set) -> Result<Set, Memory> {
        let sides = Sides {
            base: &base.members,
            left: &left.members,
            right: &right.members,
        };
        Ok(Set {
            alloc: left.alloc,
            members: merged(left.alloc, sides)?,
        })
    }

    fn answer(&self, query: &SetQuery) -> Result<SetAnswer, Memory> {
        match query {
            SetQuery::Contains(element) => Ok(SetAnswer::IsIn(self.contains(element.as_slice()))),
            SetQuery::Members => Ok(SetAnswer::All(elements_in_order(self.alloc, &self.members)?)),
            SetQuery::Size => Ok(SetAnswer::Count(self.size())),
        }
    }

    fn put(&self, out: &mut Vec<u8>) -> Result<(), Memory> {
        put_members(&self.members, out)
    }

    fn spelled_length(&self) -> u64 {
        members_length(&self.members)
    }

    fn get(alloc: Global, bytes: &[u8]) -> Result<Set, Unread> {
        let mut cursor = Cursor::new(bytes);
        let count = cursor.take_u64()?;
        let members = take_members(alloc, &mut cursor, count)?;
        if cursor.is_at_end() {
            Ok(Set { alloc, members })
        } else {
            Err(Unread::NotCanonical)
        }
    }

    fn put_op(op: &SetOp, out: &mut Vec<u8>) -> Result<(), Memory> {
        match op {
            SetOp::Add(element) => put_word(ADD, element.as_slice(), out),
            SetOp::Remove(element) => put_word(REMOVE, element.as_slice(), out),
            SetOp::Clear => put_word(CLEAR, &[], out),
        }
    }

    fn get_op(alloc: Global, bytes: &[u8]) -> Result<SetOp, Unread> {
        get_op(alloc, bytes)
    }

    fn put_reply(reply: &(), out: &mut Vec<u8>) -> Result<(), Memory> {
        unit_reply::put(reply, out)
    }

    fn get_reply(_alloc: Global, bytes: &[u8]) -> Result<(), Unread> {
        unit_reply::get(bytes)
    }

    ghost laws = { set_laws };
}
