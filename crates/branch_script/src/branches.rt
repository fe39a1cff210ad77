// The branches of a join.
ghost use Rattle.std.specs.Prelude.{◌≡◌, ◌≤◌, ◌↔◌, length, IfSome, IsSome};

use branch_names::Name;
use std::marker::Model;

/// The names of two to eight branches; contracts see the list of them.
#[derive(Drop)]
pub struct Branches {
    names: Vec<Name>,
}

impl Model for Branches {
    ghost use Rattle.std.specs.Prelude.{ℕ, ◌≤◌, List, length};

    ghost Value = { List (List ℕ) };

    ghost view = { λ b. b.names.items };

    ghost invariant = { λ b. (2 ≤ length b.names.items) × (length b.names.items ≤ 8) };
}

impl Branches {
    /// These names; `None` exactly where there are fewer than two or more than eight.
    pub fn new(names: Vec<Name>) -> Option<Branches>
        ensures names { IfSome result (λ branches. branches ≡ names.items) }
        ensures few { IsSome result ↔ ((2 ≤ length names.items) × (length names.items ≤ 8)) }
    {
        if !(2..=8).contains(&names.len()) {
            return None;
        }
        Some(Branches { names })
    }

    // These names, of which there are two to eight.
    pub(crate) fn of(names: Vec<Name>) -> Branches
        requires some { 2 ≤ length names.items }
        requires few { length names.items ≤ 8 }
        ensures { result ≡ names.items }
    {
        Branches { names }
    }

    /// The names.
    pub fn as_slice(&self) -> &[Name]
        ensures same { result.now ≡ self.now }
        ensures some { 2 ≤ length self.now }
        ensures few { length self.now ≤ 8 }
    {
        &self.names
    }
}
