//! Slots in the order of their keys, which are lists of bytes: where a key stands among them, and what is there.
#![tactic(auto)]

mod slots;

pub use slots::{Keyed, is_above, place_of, put_behind, slot_at};
