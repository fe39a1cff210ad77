// The sides of a product's values.
ghost use Rattle.std.specs.Prelude.{◌≡◌, IfOk};
ghost use Rattle.mrdt_model.specs.Laws.{Merges, StandsAsWell};

use mrdt_model::{Memory, Mrdt, Shared};
use std::alloc::Global;
use std::marker::Model;

// A value of its own, or one that is shared.
#[derive(Drop)]
enum Kept<T> {
    Own(T),
    Held(Shared<T>),
}

// A side's value, which contracts see. An initial value takes no memory, so it is not shared; each other one is.
#[derive(Drop)]
pub struct Part<T> {
    kept: Kept<T>,
}

impl<T> Model for Part<T> {
    ghost use Rattle.mrdt_both.specs.Kept.{value_of};

    ghost Value = { T };

    ghost view = { λ p. value_of p.kept };
}

impl<T> Part<T> {
    // A value of its own. It takes no memory.
    pub(crate) fn own(value: T) -> Part<T>
        ensures { result ≡ value }
    {
        Part {
            kept: Kept::Own(value),
        }
    }

    // The value.
    pub(crate) fn get(&self) -> &T
        ensures { result.now ≡ self.now }
    {
        match &self.kept {
            Kept::Own(value) => value,
            Kept::Held(value) => value.get(),
        }
    }
}

impl<T: Drop> Part<T> {
    // A value that is to be shared.
    pub(crate) fn held(alloc: Global, value: T) -> Result<Part<T>, Memory>
        ensures { IfOk result (λ part. part ≡ value) }
    {
        Ok(Part {
            kept: Kept::Held(Shared::new(alloc, value)?),
        })
    }
}

// Copies and merges of sides: methods of a trait, since rattle writes no proof of a call from an impl for a product
// of any types to a function with the bound `T: Mrdt`.
pub(crate) trait InParts: Mrdt {
    // The same value, shared where it can be.
    fn copied(alloc: Global, part: &Part<Self>) -> Result<Part<Self>, Memory>
        ensures stands { IfOk result (StandsAsWell Self.meaning part.now) }
        ensures spelling { IfOk result (λ copy. Self.meaning.state_spelling copy
            ≡ Self.meaning.state_spelling part.now) }
    {
        match &part.kept {
            Kept::Own(value) => Part::held(alloc, value.copy()?),
            Kept::Held(value) => Ok(Part {
                kept: Kept::Held(value.copy()?),
            }),
        }
    }

    // The merge of the values. Where one side has the base's value, it is the other side's, which is shared.
    fn merged(
        alloc: Global,
        base: &Part<Self>,
        left: &Part<Self>,
        right: &Part<Self>,
    ) -> Result<Part<Self>, Memory>
        ensures { IfOk result (Merges Self.meaning base.now left.now right.now) }
    {
        if base.get().same(left.get()) {
            return Self::copied(alloc, right);
        }
        if base.get().same(right.get()) {
            return Self::copied(alloc, left);
        }
        Part::held(alloc, Self::merge(base.get(), left.get(), right.get())?)
    }
}

impl<T: Mrdt> InParts for T {}
