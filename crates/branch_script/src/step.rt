// What a line of a script asks, and why a line asks nothing.
use crate::branches::Branches;
use branch_doc::{PlainOp, PlainQuery};
use branch_names::{BadName, Name};
use mrdt_model::Memory;
use std::alloc::{AllocError, AllocFailed};
use thiserror::Error;

/// One step of a script over the typed document.
#[derive(Drop)]
pub enum Step {
    /// A session looks at a branch.
    Look { session: Name, branch: Name },
    /// A new branch is forked from another.
    Fork { new: Name, from: Name },
    /// The head of a branch is merged into the branch that a session sees.
    Merge { session: Name, branch: Name },
    /// The heads of two to eight branches are merged at once into the branch that a session sees.
    Join { session: Name, branches: Branches },
    /// The branch that a session sees is dropped.
    Drop { session: Name },
    /// A session lands an operation on the branch that it sees.
    Do { session: Name, op: PlainOp },
    /// A branch is asked at its head.
    Ask { branch: Name, query: PlainQuery },
}

/// What a line of a script says: a step, or something about a commit by its number.
#[derive(Drop)]
pub enum Line {
    /// A step.
    Step(Step),
    /// A commit is asked.
    AskAt { commit: u32, query: PlainQuery },
    /// A new branch is placed at a commit.
    ForkAt { new: Name, commit: u32 },
}

/// Why a line of a script says nothing.
#[derive(Clone, Copy, Debug, PartialEq, Eq, Error)]
pub enum LineRefused {
    /// The line fits no form.
    #[error("the line fits no form")]
    Syntax,
    /// The line fits a form, and a session or a branch of it has no name.
    #[error("a name is out of form")]
    BadName,
    /// The line fits a form with names, and its number is out of form or out of range.
    #[error("a number is out of form")]
    BadNumber,
    /// Want of memory.
    #[error("out of memory")]
    Memory,
}

impl From<Memory> for LineRefused {
    ghost use Rattle.std.specs.Prelude.{◌≡◌};
    ghost use Rattle.branch_script.specs.declared.step.LineRefused.TheVariants as refusal;

    ghost from_gives = { λ _ error. error ≡ refusal.Memory };

    fn from(_: Memory) -> LineRefused {
        LineRefused::Memory
    }
}

impl From<AllocError> for LineRefused {
    ghost use Rattle.std.specs.Prelude.{◌≡◌};
    ghost use Rattle.branch_script.specs.declared.step.LineRefused.TheVariants as refusal;

    ghost from_gives = { λ _ error. error ≡ refusal.Memory };

    fn from(_: AllocError) -> LineRefused {
        LineRefused::Memory
    }
}

impl<T: Drop> From<AllocFailed<T>> for LineRefused {
    ghost use Rattle.std.specs.Prelude.{◌≡◌};
    ghost use Rattle.branch_script.specs.declared.step.LineRefused.TheVariants as refusal;

    ghost from_gives = { λ _ error. error ≡ refusal.Memory };

    fn from(_: AllocFailed<T>) -> LineRefused {
        LineRefused::Memory
    }
}

impl From<BadName> for LineRefused {
    ghost use Rattle.std.specs.Prelude.{◌≡◌};
    ghost use Rattle.branch_script.specs.declared.step.LineRefused.TheVariants as refusal;

    ghost from_gives = { λ _ error. error ≡ refusal.BadName };

    fn from(_: BadName) -> LineRefused {
        LineRefused::BadName
    }
}
