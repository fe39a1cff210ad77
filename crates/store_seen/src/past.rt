// What the commits of a history hold, for those that read it.
ghost use Rattle.std.specs.Prelude.{◌≡◌, ◌<◌, length, IfOk};
ghost use Rattle.branch_history.specs.Commits.{visible};
ghost use Rattle.branch_history.specs.History.{store_of};
ghost use Rattle.branch_history.specs.Machine.{turn, answers};
ghost use Rattle.branch_history.specs.Steps as machine;
ghost use Rattle.store_seen.specs.Turns.{FromOn};

use crate::versions::Versions;
use mrdt_model::{Memory, Mrdt};

impl<T: Mrdt> Versions<T> {
    /// The value of a commit, which is lent. It stands for the events that are visible there, and its spelling is theirs.
    pub fn value_at(&self, commit: u32) -> &T
        requires there { commit
            < length (store_of self.now.core.terms.origin self.now.core.history).commits }
        ensures stands { T.meaning.stands result.now
            (visible (store_of self.now.core.terms.origin self.now.core.history).commits commit) }
        ensures spelling { T.meaning.state_spelling result.now
            ≡ T.meaning.spelling_of
            (visible (store_of self.now.core.terms.origin self.now.core.history).commits commit) }
    {
        self.nodes.lent(commit)
    }

    /// What a commit answers to a query, now and however the history goes on.
    pub fn ask_at(&self, commit: u32, query: &T::Query) -> Result<T::Answer, Memory>
        requires there { commit
            < length (store_of self.now.core.terms.origin self.now.core.history).commits }
        ensures { IfOk result (λ answer.
            FromOn T.meaning self.now.core.terms self.now.core.history (λ later.
            turn T.meaning self.now.core.terms later (machine.Ask commit query.now)
            ≡ answers (machine.Answered answer))) }
    {
        self.nodes.lent(commit).answer(query)
    }
}
