// Names of shared stores.
use branch_history::Move;
use mrdt_model::Mrdt;
use std::marker::Brand;

/// What the front knows of a move that landed: the move, and the moment of the disk at which it was acknowledged. It stands
/// in proofs alone: no value of it is ever made.
pub(crate) struct Entry<O, R> {
    /// The move.
    pub(crate) made: Move<O, R>,
    /// The moment of the disk.
    pub(crate) since: u64,
}

/// An entry of a store over a type.
pub(crate) type EntryOf<T> = Entry<<T as Mrdt>::Op, <T as Mrdt>::Reply>;

/// Names one shared store, for proofs alone: a name takes no bytes. O and R are the operations and replies of its type.
///
/// A program hands its `Blank` to a function over `N: Named<O, R>`, which it calls with `Brand`; there it picks what the
/// name says, which is what the blank is.
pub trait Named<O, R> {
    ghost use Rattle.std.specs.Prelude.{ℕ, List};
    ghost use Rattle.atomic_table.specs.Seated.{TableId};
    ghost use Rattle.branch_disk.specs.Disk.{Files};
    ghost use Rattle.branch_names.specs.declared.terms.Terms.{Terms};
    ghost use Rattle.branch_history.specs.declared.moves.Move.{Move};

    // Which front it is.
    ghost table: { TableId };

    // Which queue of jobs it has.
    ghost queue: { TableId };

    // The history that the store began with.
    ghost begun: { List (Move O R) };

    // The terms of the store.
    ghost terms: { Terms };

    // The number of parts of all passes.
    ghost parts: { ℕ };

    // How many faults the disk had had when the core was opened.
    ghost opened: { ℕ };

    // The moves that are allowed in it: no other is made, nor left by a crash.
    ghost allows: { Move O R → Type 0 };

    // The moment of its disk when it was shared.
    ghost since: { ℕ };

    // The files that a crash at some moment from one on might have left until then.
    ghost left: { ℕ → Files → Type 0 };
}

impl<O, R> Named<O, R> for Brand {
    ghost use Rattle.std.specs.Prelude.{[]};
    ghost use Rattle.branch_batch.specs.Tickets.{no_table};
    ghost use Rattle.branch_shared.specs.Names.{least_terms};

    ghost table = { no_table };

    ghost queue = { no_table };

    ghost begun = { [] };

    ghost terms = { least_terms };

    ghost parts = { 0 };

    ghost opened = { 0 };

    ghost allows = { λ made. ⊥ };

    ghost since = { 0 };

    ghost left = { λ t c. ⊥ };
}
