// The room for a result.
ghost use Rattle.std.specs.Prelude.{◌≡◌, Some};

use crate::service::Service;
use crate::ticket::Finished;
use std::marker::Model;

/// The room for the answer to one job, and the answer, where it is there. Contracts see a `Room`.
#[derive(Drop)]
pub(crate) struct Slot<J, R: Drop, S: Service<J, R>> {
    pub(crate) number: u64,
    pub(crate) answer: Option<Finished<J, R, S>>,
}

impl<J, R: Drop, S: Service<J, R>> Model for Slot<J, R, S> {
    ghost use Rattle.std.specs.Prelude.{◌≡◌, IfSome};
    ghost use Rattle.branch_batch.specs.Lines.{Room};

    ghost Value = { Room J R };

    ghost view = { λ s. record { number = s.number; answer = s.answer } };

    ghost invariant = { λ s. IfSome s.answer (λ answer. answer.number ≡ s.number) };
}

impl<J, R: Drop, S: Service<J, R>> Slot<J, R, S> {
    /// The answer comes into the room.
    pub(crate) fn fill(&mut self, finished: Finished<J, R, S>)
        requires number { finished.number ≡ self.old.number }
        ensures { self.new ≡ record self.old { answer = Some finished } }
    {
        self.answer = Some(finished);
    }
}
