// Laws of what clients have played. Each stands on a function with an empty body, whose contract is the law.
ghost use Rattle.std.specs.Prelude.{ℕ, List};
ghost use Rattle.branch_names.specs.declared.terms.Terms.{Terms};
ghost use Rattle.branch_machine.specs.Fixed.{fix};
ghost use Rattle.parallel_clients.specs.Outcomes.{StaysOutcome, setting};
ghost use Rattle.parallel_clients.specs.Played.{StaysPlayed};

use branch_doc::Forms;

/// What a history has of a client's steps, each longer history has.
pub fn stays_played<T: Forms>()
    ensures { StaysPlayed T.forms }
{}

/// What became of a client stays that where the history grows, and more faults of the disk are known.
pub fn stays_outcome<T: Forms>()
    ensures { (terms : Terms) (address : List ℕ → List ℕ) (opened : ℕ)
        → StaysOutcome (setting (fix T.meaning terms address) T.forms opened) }
{}
