// The set without Clear, its operations and its laws.
ghost use Rattle.std.specs.Prelude.{◌≡◌, ◌++◌, ◌∷◌, IfOk, OnOk, OnErr, IsErrOf};
ghost use Rattle.mrdt_model.specs.Spelled.{AppendsPart};
ghost use Rattle.mrdt_set.specs.Set.{IsSetOp, op_spelling};
ghost use Rattle.mrdt_old_doc.specs.declared.elements.ElementsOp.{ElementsOp as SpecOp};
ghost use Rattle.mrdt_old_doc.specs.Elements.{renewed_elements_op, IsOpSpelling};

use live_set::whole_text;
use mrdt_model::{Bytes, Memory, Mrdt, Time, Unread};
use mrdt_set::{Set, SetAnswer, SetOp, SetQuery};
use std::alloc::Global;
use std::marker::Model;

const ADD: u8 = 1;

const REMOVE: u8 = 2;

/// An operation of a set without Clear.
#[derive(Drop)]
pub enum ElementsOp {
    /// Adds an element.
    Add(Bytes),
    /// Takes an element away where it has been seen.
    Remove(Bytes),
}

impl ElementsOp {
    /// The set's operation that it is renewed to. It takes no memory.
    pub fn renewed(self) -> SetOp
        ensures { result ≡ renewed_elements_op self }
    {
        match self {
            ElementsOp::Add(element) => SetOp::Add(element),
            ElementsOp::Remove(element) => SetOp::Remove(element),
        }
    }

    // The same, beside this one.
    fn renewed_copy(&self) -> Result<SetOp, Memory>
        ensures { IfOk result (λ op. op ≡ renewed_elements_op self.now) }
    {
        match self {
            ElementsOp::Add(element) => Ok(SetOp::Add(element.copy()?)),
            ElementsOp::Remove(element) => Ok(SetOp::Remove(element.copy()?)),
        }
    }
}

// Writes a byte, and behind it an element.
fn put_word(word: u8, element: &[u8], out: &mut Vec<u8>) -> Result<(), Memory>
    ensures ok { OnOk result (out.new.items ≡ out.old.items ++ word ∷ element.now) }
    ensures err { OnErr result (AppendsPart out.old.items out.new.items (word ∷ element.now)) }
{
    out.push(word)?;
    Ok(out.extend_from_slice(element)?)
}

// Reads an operation that is the whole of the bytes. What is outside the grammar is refused before any memory is
// taken.
fn get_op(alloc: Global, bytes: &[u8]) -> Result<ElementsOp, Unread>
    ensures spelled { IfOk result (λ op. op_spelling (renewed_elements_op op) ≡ bytes.now) }
    ensures known { IfOk result (λ op. IsSetOp (renewed_elements_op op)) }
    ensures equal { IfOk result (λ op. (other : SpecOp) → IsSetOp (renewed_elements_op other)
        → op_spelling (renewed_elements_op other) ≡ bytes.now → op ≡ other) }
    ensures inside { OnOk result (IsOpSpelling bytes.now) }
    ensures outside { IsErrOf result Unread.NotCanonical → ¬ IsOpSpelling bytes.now }
    ensures refused { ¬ IsOpSpelling bytes.now → IsErrOf result Unread.NotCanonical }
{
    match bytes.split_first() {
        Some((&ADD, rest)) => Ok(ElementsOp::Add(whole_text(alloc, rest)?)),
        Some((&REMOVE, rest)) => Ok(ElementsOp::Remove(whole_text(alloc, rest)?)),
        _ => Err(Unread::NotCanonical),
    }
}

/// A set whose operations add and remove elements, and never clear it. Contracts see what they see of a set.
#[derive(Drop)]
pub struct Elements {
    set: Set,
}

impl Model for Elements {
    ghost use Rattle.std.specs.Prelude.{List, ℕ};
    ghost use Rattle.live_set.specs.declared.kept.Kept.{Kept};

    ghost Value = { List (List ℕ × List (Kept (Unit {0}))) };

    ghost view = { λ e. e.set };
}

impl Mrdt for Elements {
    ghost use Rattle.mrdt_old_doc.specs.Elements.{elements_meaning, elements_laws};

    type Op = ElementsOp;

    type Query = SetQuery;

    type Answer = SetAnswer;

    type Reply = ();

    ghost meaning = { elements_meaning };

    fn initial(alloc: Global) -> Elements {
        Elements {
            set: Set::initial(alloc),
        }
    }

    fn copy(&self) -> Result<Elements, Memory> {
        Ok(Elements {
            set: self.set.copy()?,
        })
    }

    fn same(&self, other: &Elements) -> bool {
        self.set.same(&other.set)
    }

    fn apply(&self, op: &ElementsOp, time: Time) -> Result<(Elements, ()), Memory> {
        let (set, reply) = self.set.apply(&op.renewed_copy()?, time)?;
        Ok((Elements { set }, reply))
    }

    fn merge(base: &Elements, left: &Elements, right: &Elements) -> Result<Elements, Memory> {
        Ok(Elements {
            set: Set::merge(&base.set, &left.set, &right.set)?,
        })
    }

    fn answer(&self, query: &SetQuery) -> Result<SetAnswer, Memory> {
        self.set.answer(query)
    }

    fn put(&self, out: &mut Vec<u8>) -> Result<(), Memory> {
        self.set.put(out)
    }

    fn spelled_length(&self) -> u64 {
        self.set.spelled_length()
    }

    fn get(alloc: Global, bytes: &[u8]) -> Result<Elements, Unread> {
        Ok(Elements {
            set: Set::get(alloc, bytes)?,
        })
    }

    fn put_op(op: &ElementsOp, out: &mut Vec<u8>) -> Result<(), Memory> {
        match op {
            ElementsOp::Add(element) => put_word(ADD, element.as_slice(), out),
            ElementsOp::Remove(element) => put_word(REMOVE, element.as_slice(), out),
        }
    }

    fn get_op(alloc: Global, bytes: &[u8]) -> Result<ElementsOp, Unread> {
        get_op(alloc, bytes)
    }

    fn put_reply(reply: &(), out: &mut Vec<u8>) -> Result<(), Memory> {
        Set::put_reply(reply, out)
    }

    fn get_reply(alloc: Global, bytes: &[u8]) -> Result<(), Unread> {
        Set::get_reply(alloc, bytes)
    }

    ghost laws = { elements_laws };
}
