// The law of answers. It stands on a function with an empty body, whose contract is the law.
ghost use Rattle.machine_answers.specs.Laws.{Decides};

use mrdt_model::Mrdt;

/// A turn has one answer and leaves one history, unless the disk or memory fails.
pub fn decides<T: Mrdt>()
    ensures { Decides T.Op T.Reply T.Answer }
{}
