// The laws of renewed histories. Each stands on a function with an empty body, whose contract is the law.
ghost use Rattle.mrdt_renewal.specs.Renewals.{Renews};
ghost use Rattle.branch_machine.specs.Fixed.{Form};
ghost use Rattle.branch_renewal.specs.Laws.{KeepsStores, KeepsCommits, KeepsAnswers, KeepsTurns};

use mrdt_model::Mrdt;

/// A history with renewed operations has the same branches and the renewed commits.
pub fn keeps_stores<T: Mrdt, U: Mrdt>()
    ensures { (f : T.Op → U.Op) → KeepsStores T.Reply f }
{}

/// Renewed commits have the same parents, clocks and origins, and the renewed events are visible there.
pub fn keeps_commits<T: Mrdt, U: Mrdt>()
    ensures { (f : T.Op → U.Op) → KeepsCommits T.Reply f }
{}

/// At each commit of a valid history a renewed history gives the same answers.
pub fn keeps_answers<T: Mrdt, U: Mrdt<Reply = T::Reply, Query = T::Query, Answer = T::Answer>>()
    ensures { (f : T.Op → U.Op) → Renews T.meaning U.meaning f
        → KeepsAnswers T.meaning U.meaning f }
{}

/// The moves of a valid history of the first version's kinds, renewed, are made again one after the other, until one
/// is refused for what the new value or a new object is.
pub fn keeps_turns<T: Mrdt, U: Mrdt<Reply = T::Reply, Query = T::Query, Answer = T::Answer>>()
    ensures { (f : T.Op → U.Op) (a b : Form) → Renews T.meaning U.meaning f
        → KeepsTurns a b T.meaning U.meaning f }
{}
