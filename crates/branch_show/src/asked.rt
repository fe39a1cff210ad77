// What answers queries.
ghost use Rattle.std.specs.Prelude.{◌≡◌, IfOk};

use branch_doc::{PlainAnswer, PlainQuery};
use mrdt_model::Memory;

/// A document that answers queries.
pub trait Asked {
    ghost use Rattle.branch_show.specs.Documents.{Answering};

    // What it answers.
    ghost answers: { Self → Answering };

    /// What it answers to a query; `None` exactly where it has no values of the query's kind.
    fn ask(&self, query: &PlainQuery) -> Result<Option<PlainAnswer>, Memory>
        ensures { IfOk result (λ answer. answer ≡ answers self.now query.now) };
}
