// What a step is told for its proof alone: its own operands are numbers, and few.
use std::marker::Brand;

/// What a call is told, for its proof alone. A call that passes `Brand` picks it.
pub trait Told<M> {
    ghost use Rattle.std.specs.Prelude.{ℕ, List};

    // The entry to be added: a list of one. A call that adds nothing may leave it empty.
    ghost entry: { List M };

    // How many faults the disk has had.
    ghost faults: { ℕ };
}

impl<M> Told<M> for Brand {
    ghost use Rattle.std.specs.Prelude.{[]};

    ghost entry = { [] };

    ghost faults = { 0 };
}

/// What a front was made with.
pub(crate) trait Keyed {
    ghost use Rattle.std.specs.Prelude.{ℕ};

    ghost begun: { ℕ };

    ghost parts: { ℕ };
}

impl Keyed for Brand {
    ghost begun = { 0 };

    ghost parts = { 0 };
}

/// A number of parts.
pub(crate) trait Numbered {
    ghost use Rattle.std.specs.Prelude.{ℕ};

    ghost number: { ℕ };
}

impl Numbered for Brand {
    ghost number = { 0 };
}
