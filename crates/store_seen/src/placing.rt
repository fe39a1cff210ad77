// How the core's half in memory places branches at commits, and drops branches.
ghost use Rattle.std.specs.Prelude.{◌≡◌, ◌≢◌, ◌<◌, ℕ, false, [], ◌∷◌, ◌++◌, length, IfOk, IfErr, OnOk, OnErr, None};
ghost use mathlib.Core.List.{IsPrefix};
ghost use Rattle.branch_names.specs.Heads.{branch_named, is_dropped, with_drop, IsKeptBranch};
ghost use Rattle.branch_history.specs.History.{store_of};
ghost use Rattle.branch_history.specs.Machine.{drop_refusal};
ghost use Rattle.branch_history.specs.Steps as machine;
ghost use Rattle.branch_history.specs.Validity.{IsMove};
ghost use Rattle.store_seen.specs.Answers.{place_answer, drop_answer};
ghost use Rattle.store_seen.specs.Turns.{Steps, DropRefusedBy, PlaceAdded, StoodBefore, GoesBack};

use crate::answers::{DropRefused, Forked, PlaceRefused};
use crate::seen::Seen;
use crate::versions::Versions;
use branch_history::Move;
use branch_names::{Heads, Name};
use mrdt_model::{Memory, Mrdt};

impl<T: Mrdt> Versions<T> {
    /// Places a new branch at a commit. It is refused exactly as the machine refuses it, and then nothing has changed:
    /// `NameTaken` before `FullBranches` before `FullMoves`. What was placed can be undone, with any head.
    pub fn place(&mut self, name: Name, commit: u32) -> Result<Forked, PlaceRefused>
        requires there { commit
            < length (store_of self.old.core.terms.origin self.old.core.history).commits }
        ensures steps { Steps T.meaning (machine.Place name commit) self.old self.new
            self.old.addresses (place_answer result) }
        ensures before { OnOk result ((head : ℕ)
            → StoodBefore self.new.core.terms self.new.core.history head) }
        ensures back { OnOk result (GoesBack self.new self.old) }
    {
        if let Some(number) = self.heads.find(&name) {
            return Err(PlaceRefused::NameTaken { number });
        }
        let count = self.heads.count();
        if count >= self.terms.limits.branches {
            return Err(PlaceRefused::FullBranches { count });
        }
        let moves = self.moves.len();
        if moves >= self.terms.limits.moves {
            return Err(PlaceRefused::FullMoves { count: moves });
        }
        Ok(self.add_place(name, commit)?)
    }

    // Adds a branch at a commit: it takes all memory first, and then nothing fails.
    fn add_place(&mut self, name: Name, commit: u32) -> Result<Forked, Memory>
        requires moves { IsMove T.meaning self.old.core.terms self.old.core.history
            (Move.Place name
            (length (store_of self.old.core.terms.origin self.old.core.history).branches) commit) }
        requires free { branch_named
            (store_of self.old.core.terms.origin self.old.core.history).branches name ≡ None }
        requires room { length (store_of self.old.core.terms.origin self.old.core.history).branches
            < self.old.core.terms.limits.branches }
        ensures added { IfOk result (PlaceAdded name commit self.old.core self.new.core) }
        ensures addresses { self.new.addresses ≡ self.old.addresses }
        ensures before { OnOk result ((head : ℕ)
            → StoodBefore self.new.core.terms self.new.core.history head) }
        ensures back { OnOk result (GoesBack self.new self.old) }
        ensures kept { OnErr result (self.new ≡ self.old) }
    {
        let _count = self.commits();
        self.moves.reserve()?;
        let number = match self.heads.fork(name, commit) {
            Ok(number) => number,
            Err(branch_names::ForkRefused::Memory) => return Err(Memory),
            Err(branch_names::ForkRefused::Taken { .. }) => unreachable!(),
            Err(branch_names::ForkRefused::Full { .. }) => unreachable!(),
        };
        self.moves.push_reserved(Move::Place {
            name,
            number,
            commit,
        });
        Ok(Forked {
            moves: self.moves.len(),
            number,
            head: commit,
        })
    }

    /// Drops the branch of a look at this core, taken now or earlier, from the head that was seen, and says how many
    /// moves the history then has. It is refused exactly as the machine refuses it, and then nothing has changed:
    /// `Dropped` before `KeepsMain` before `Stale` before `FullMoves`. What was dropped can be undone, with any head.
    pub fn drop_branch(&mut self, seen: &Seen<T>) -> Result<u64, DropRefused>
        requires history { IsPrefix seen.now.history self.old.core.history }
        requires terms { seen.now.terms ≡ self.old.core.terms }
        ensures steps { Steps T.meaning (machine.Drop seen.now.branch seen.now.head) self.old
            self.new self.old.addresses (drop_answer seen.now result) }
        ensures before { OnOk result ((head : ℕ)
            → StoodBefore self.new.core.terms self.new.core.history head) }
        ensures back { OnOk result (GoesBack self.new self.old) }
    {
        let (branch, head) = (seen.branch, seen.head);
        self.may_drop(branch, head)?;
        Ok(self.add_drop(branch)?)
    }

    // Drops a branch that may be dropped: it takes all memory first, and then nothing fails.
    fn add_drop(&mut self, branch: u32) -> Result<u64, Memory>
        requires moves { IsMove T.meaning self.old.core.terms self.old.core.history
            (Move.Drop branch) }
        requires there { IsKeptBranch
            (store_of self.old.core.terms.origin self.old.core.history).branches branch }
        requires other { branch ≢ 0 }
        ensures moves { IfOk result (λ moves. moves ≡ length self.new.core.history) }
        ensures dropped { OnOk result (self.new.core
            ≡ record self.old.core { history = self.old.core.history ++ Move.Drop branch ∷ [] }) }
        ensures addresses { self.new.addresses ≡ self.old.addresses }
        ensures before { OnOk result ((head : ℕ)
            → StoodBefore self.new.core.terms self.new.core.history head) }
        ensures back { OnOk result (GoesBack self.new self.old) }
        ensures kept { OnErr result (self.new ≡ self.old) }
    {
        let _count = self.commits();
        self.moves.reserve()?;
        put_drop(&mut self.heads, branch);
        self.moves.push_reserved(Move::Drop { branch });
        Ok(self.moves.len())
    }

    // Whether a branch may be dropped from the head that was seen.
    fn may_drop(&self, branch: u32, head: u32) -> Result<(), DropRefused>
        requires { branch
            < length (store_of self.now.core.terms.origin self.now.core.history).branches }
        ensures free { OnOk result
            (drop_refusal self.now.core.terms self.now.core.history branch head ≡ None) }
        ensures there { OnOk result
            (is_dropped (store_of self.now.core.terms.origin self.now.core.history).branches branch
            ≡ false) }
        ensures other { OnOk result (branch ≢ 0) }
        ensures left { OnOk result (length self.now.core.history
            < self.now.core.terms.limits.moves) }
        ensures refused { IfErr result
            (DropRefusedBy (drop_refusal self.now.core.terms self.now.core.history branch head)) }
    {
        if self.heads.is_dropped(branch) {
            return Err(DropRefused::Dropped { branch });
        }
        if branch == 0 {
            return Err(DropRefused::KeepsMain);
        }
        let newest = self.heads.head(branch);
        if head != newest {
            return Err(DropRefused::Stale { newest });
        }
        let count = self.moves.len();
        if count >= self.terms.limits.moves {
            return Err(DropRefused::FullMoves { count });
        }
        Ok(())
    }
}

// Drops a branch that was not dropped and is not the first, wherever it stands.
fn put_drop(heads: &mut Heads, branch: u32)
    requires there { IsKeptBranch heads.old.branches branch }
    requires other { branch ≢ 0 }
    ensures { heads.new ≡ record heads.old { branches = with_drop heads.old.branches branch } }
{
    let newest = heads.head(branch);
    let _ = heads.drop_branch(branch, newest);
}
