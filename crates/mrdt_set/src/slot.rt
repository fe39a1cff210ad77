// An element with its live times, as it stands in a table.
ghost use Rattle.std.specs.Prelude.{◌≡◌};
ghost use Rattle.mrdt_set.specs.Members.{member_size};

use keyed_slots::Keyed;
use live_set::Live;
use mrdt_model::{Bytes, Memory, Shared};
use shared_list::Entry;
use std::marker::Model;

// The live times of an element.
pub(crate) type Times = Live<()>;

// How many bytes an element and its times are spelled in, or 2^64 - 1 where they have more.
fn member_length(element: &Shared<Bytes>, times: &Times) -> u64
    ensures { result ≡ member_size (element.now, times.now) }
{
    let length = times.spelled_length();
    let name = element.get();
    length
        .saturating_add(name.as_slice().len() as u64)
        .saturating_add(8)
}

// An element with its live times. Contracts see both.
#[derive(Drop)]
pub(crate) struct Slot {
    element: Shared<Bytes>,
    times: Times,
    // how many bytes both are spelled in, or 2^64 - 1 where there are more
    size: u64,
}

impl Model for Slot {
    ghost use Rattle.std.specs.Prelude.{◌≡◌, List, ℕ};
    ghost use Rattle.live_set.specs.declared.kept.Kept.{Kept};
    ghost use Rattle.mrdt_set.specs.Members.{member_size};

    ghost Value = { List ℕ × List (Kept (Unit {0})) };

    ghost view = { λ s. (s.element, s.times) };

    ghost invariant = { λ s. s.size ≡ member_size (s.element, s.times) };
}

impl Slot {
    // An element with its times.
    pub(crate) fn new(element: Shared<Bytes>, times: Times) -> Slot
        ensures { result ≡ (element, times) }
    {
        let size = member_length(&element, &times);
        Slot {
            element,
            times,
            size,
        }
    }

    // The element, which several tables may share.
    pub(crate) fn own(&self) -> &Shared<Bytes>
        ensures { result.now ≡ self.now.0 }
    {
        &self.element
    }

    // The element.
    pub(crate) fn element(&self) -> &[u8]
        ensures { result.now ≡ self.now.0 }
    {
        let element = self.element.get();
        element.as_slice()
    }

    // The times.
    pub(crate) fn times(&self) -> &Times
        ensures { result.now ≡ self.now.1 }
    {
        &self.times
    }
}

impl Entry for Slot {
    ghost use Rattle.std.specs.Prelude.{pos};
    ghost use Rattle.mrdt_set.specs.Members.{member_size};

    // how many bytes the member is spelled in
    ghost weight_of = { member_size };

    ghost amount_of = { λ e. pos 0 };

    fn copy(&self) -> Result<Slot, Memory> {
        Ok(Slot {
            element: self.element.copy()?,
            times: self.times.copy()?,
            size: self.size,
        })
    }

    fn weight(&self) -> u64 {
        self.size
    }

    fn amount(&self) -> i128 {
        0
    }
}

impl Keyed for Slot {
    ghost key_of = { λ e. e.0 };

    fn key_bytes(&self) -> &[u8] {
        self.element()
    }
}
