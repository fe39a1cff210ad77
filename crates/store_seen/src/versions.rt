// The core's half in memory: a history, and the value of each of its commits.
ghost use Rattle.std.specs.Prelude.{◌≡◌, ◌≢◌, ◌<◌, ◌≤◌, ℕ, false, [], ◌∷◌, ◌++◌, length, slice_get, IfOk, IfErr, IfSome, OnOk, OnErr, Some, None};
ghost use Rattle.std.specs.Option.{option_map};
ghost use mathlib.Core.List.{IsPrefix};
ghost use Rattle.branch_graph.specs.Graph.{reaches};
ghost use Rattle.branch_names.specs.Heads.{branch_named, head_of, is_dropped, with_head, IsKeptBranch};
ghost use Rattle.branch_names.specs.declared.branch.Branch.{Branch};
ghost use Rattle.branch_history.specs.Commits.{graph_of};
ghost use Rattle.branch_history.specs.History.{store_of};
ghost use Rattle.branch_history.specs.Machine.{turn, answers, commit_refusal, forward_refusal};
ghost use Rattle.branch_history.specs.Steps as machine;
ghost use Rattle.branch_history.specs.Validity.{IsMove, IsValid};
ghost use Rattle.store_seen.specs.Keeps.{IsReadyOperation, IsReadyMerge, IsReadyJoin, IsReadyForward};
ghost use Rattle.store_seen.specs.Nodes.{AddsCommit, commit_at};
ghost use Rattle.store_seen.specs.Times.{IsOwn};
ghost use Rattle.store_seen.specs.Turns.{at_head, outcome_of, addresses_after, Moves, LookRefusedAs, MayLand, LandsAs, LandRefusedAs, RefusedBy, BranchAdded, Forks, ForkRefusedAs, StoodBefore, Undone, GoesBack};

use crate::answers::{ForkRefused, Forked, Kind, LandRefused, Landed, LookRefused};
use crate::move_list::MoveList;
use crate::prepared::{Prepared, Ready, same_reply};
use crate::seen::Seen;
use crate::shared::SharedNodes;
use crate::spelled::Spelled;
use branch_history::Move;
use branch_names::{Heads, Name, Terms};
use mrdt_model::{Listing, Memory, Mrdt, Time};
use std::alloc::Global;
use std::marker::Model;
use std::snapshot::Snapshot;

/// A history of accepted moves, with what each commit of it has. Contracts see a `VersionsView`: the history and
/// the terms, and the address of each commit's object.
#[derive(Drop)]
pub struct Versions<T: Mrdt> {
    pub(crate) alloc: Global,
    pub(crate) terms: Terms,
    pub(crate) moves: MoveList<T::Op, T::Reply>,
    pub(crate) heads: Heads,
    pub(crate) clocks: Vec<u64>,
    pub(crate) nodes: SharedNodes<T>,
}

impl<T: Mrdt> Model for Versions<T> {
    ghost use Rattle.branch_history.specs.declared.moves.Move.{Move};
    ghost use Rattle.store_seen.specs.Views.{VersionsView};

    ghost Value = { VersionsView (Move T.Op T.Reply) };

    ghost use Rattle.store_seen.specs.Nodes.{IsCore};

    ghost view = { λ v. record {
      core = record { history = v.moves.items; terms = v.terms };
      addresses = v.nodes.addresses;
    } };

    ghost invariant = { λ v.
        IsCore T.meaning v.terms v.moves.items v.heads v.nodes.graph v.clocks.items
        v.nodes.values };
}

// Where a commit is to stand: on a branch, above its head, with the address of its object.
#[derive(Clone, Copy)]
struct Place {
    branch: u32,
    head: u32,
    address: [u8; 32],
}

impl<T: Mrdt> Versions<T> {
    /// The empty history, with `main` at commit 0, whose object has the address `root`.
    pub fn fresh(alloc: Global, terms: Terms, root: [u8; 32]) -> Result<Versions<T>, Memory>
        ensures { IfOk result (λ versions.
            versions ≡ record {
              core = record { history = []; terms = terms };
              addresses = root ∷ [];
            }) }
    {
        let heads = Heads::new(alloc, terms.limits.branches)?;
        let mut clocks = Vec::new(alloc);
        clocks.push(0)?;
        let mut nodes = SharedNodes::new(alloc, terms.limits.commits)?;
        let _ = nodes.push(T::initial(alloc), &[], root)?;
        Ok(Versions {
            alloc,
            terms,
            moves: MoveList::new(alloc),
            heads,
            clocks,
            nodes,
        })
    }

    /// How many moves the history has, which is a valid one.
    pub fn moves(&self) -> u64
        ensures moves { result ≡ length self.now.core.history }
        ensures valid { IsValid T.meaning self.now.core.terms self.now.core.history }
    {
        self.moves.len()
    }

    /// The moves of the history, in order, which are lent.
    pub fn history(&self) -> &[Move<T::Op, T::Reply>]
        ensures { result.now ≡ self.now.core.history }
    {
        self.moves.as_slice()
    }

    /// The moves of the history, in order. It takes no memory.
    pub fn into_moves(self) -> Listing<Move<T::Op, T::Reply>>
        ensures { result ≡ self.core.history }
    {
        self.moves.into_listing()
    }

    /// How many commits the store holds, commit 0 counted. Each has an address.
    pub fn commits(&self) -> u32
        ensures count { result
            ≡ length (store_of self.now.core.terms.origin self.now.core.history).commits }
        ensures addressed { length self.now.addresses
            ≡ length (store_of self.now.core.terms.origin self.now.core.history).commits }
    {
        self.nodes.count()
    }

    /// How many branches the store holds, `main` and those that were dropped counted.
    pub fn branches(&self) -> u32
        ensures { result
            ≡ length (store_of self.now.core.terms.origin self.now.core.history).branches }
    {
        self.heads.count()
    }

    /// The terms that it was made under.
    pub fn terms(&self) -> Terms
        ensures { result ≡ self.now.core.terms }
    {
        self.terms
    }

    /// The name and the head of a branch, of a dropped one those that it had; `None` exactly past the last branch. No
    /// other branch has the name of one that was not dropped.
    pub fn branch(&self, number: u32) -> Option<(Name, u32)>
        ensures named { IfSome result (λ found.
            is_dropped (store_of self.now.core.terms.origin self.now.core.history).branches number
            ≡ false
            → branch_named (store_of self.now.core.terms.origin self.now.core.history).branches
            found.0 ≡ Some number) }
        ensures found { result ≡ option_map (λ (b : Branch).
            (b.name, b.head))
            (slice_get (store_of self.now.core.terms.origin self.now.core.history).branches
            number) }
    {
        if number < self.heads.count() {
            Some((self.heads.name(number), self.heads.head(number)))
        } else {
            None
        }
    }

    /// Whether a branch was dropped.
    pub fn is_dropped(&self, number: u32) -> bool
        requires { number
            < length (store_of self.now.core.terms.origin self.now.core.history).branches }
        ensures { result
            ≡ is_dropped (store_of self.now.core.terms.origin self.now.core.history).branches
            number }
    {
        self.heads.is_dropped(number)
    }

    /// The number of the branch with a name; `None` exactly where no branch has it, or it was dropped.
    pub fn find(&self, name: &Name) -> Option<u32>
        ensures number { result
            ≡ branch_named (store_of self.now.core.terms.origin self.now.core.history).branches
            name.now }
        ensures kept { IfSome result
            (IsKeptBranch (store_of self.now.core.terms.origin self.now.core.history).branches) }
    {
        self.heads.find(name)
    }

    /// Whether a commit is another one or lies above it.
    pub fn reaches(&self, above: u32, below: u32) -> Result<bool, Memory>
        requires above { above
            < length (store_of self.now.core.terms.origin self.now.core.history).commits }
        requires below { below
            < length (store_of self.now.core.terms.origin self.now.core.history).commits }
        ensures { IfOk result (λ is.
            is ≡ reaches (graph_of
            (store_of self.now.core.terms.origin self.now.core.history).commits) above below) }
    {
        let nodes = self.nodes.share()?;
        nodes.reaches(above, below)
    }

    /// The address of a commit's object.
    pub fn address(&self, number: u32) -> &[u8; 32]
        requires { number
            < length (store_of self.now.core.terms.origin self.now.core.history).commits }
        ensures address { slice_get self.now.addresses number ≡ Some result.now }
        ensures addressed { length self.now.addresses
            ≡ length (store_of self.now.core.terms.origin self.now.core.history).commits }
    {
        let _count = self.nodes.count();
        self.nodes.address(number)
    }

    /// The first commit whose object has an address; `None` exactly where none has it. It takes no memory.
    pub fn commit_at(&self, address: &[u8; 32]) -> Option<u32>
        ensures { result ≡ commit_at self.now.addresses address.now }
    {
        self.nodes.commit_at(address)
    }

    /// Looks at the branch with a name. `UnknownBranch` comes exactly where no branch has it.
    pub fn look(&self, name: &Name) -> Result<Seen<T>, LookRefused>
        ensures on { IfOk result (λ seen. (seen.history ≡ self.now.core.history)
            × (seen.terms ≡ self.now.core.terms)) }
        ensures sees { IfOk result (λ seen.
            turn T.meaning self.now.core.terms self.now.core.history (machine.Look name.now)
            ≡ answers (machine.Sees seen.branch seen.head)) }
        ensures refused { IfErr result (LookRefusedAs T.meaning self.now.core name.now) }
    {
        let Some(branch) = self.heads.find(name) else {
            return Err(LookRefused::UnknownBranch { name: *name });
        };
        let head = self.heads.head(branch);
        Ok(Seen {
            alloc: self.alloc,
            history: Snapshot::of(&self.moves),
            terms: self.terms,
            moves: self.moves.len(),
            branch,
            head,
            clock: self.clocks[head as usize],
            value: self.nodes.value(head)?,
        })
    }

    /// Forks a new branch from the head of another. It is refused exactly as the machine refuses it, and then
    /// nothing has changed: `UnknownBranch` before `NameTaken` before `FullBranches` before `FullMoves`.
    pub fn fork(&mut self, new: Name, from: &Name) -> Result<Forked, ForkRefused>
        ensures forked { IfOk result (Forks T.meaning new from.now self.old.core self.new.core) }
        ensures addresses { self.new.addresses ≡ self.old.addresses }
        ensures before { OnOk result ((head : ℕ)
            → StoodBefore self.new.core.terms self.new.core.history head) }
        ensures back { OnOk result (GoesBack self.new self.old) }
        ensures refused { IfErr result (ForkRefusedAs T.meaning new from.now self.old.core) }
        ensures kept { OnErr result (self.new ≡ self.old) }
    {
        let Some(source) = self.heads.find(from) else {
            return Err(ForkRefused::UnknownBranch { name: *from });
        };
        if let Some(number) = self.heads.find(&new) {
            return Err(ForkRefused::NameTaken { number });
        }
        let count = self.heads.count();
        if count >= self.terms.limits.branches {
            return Err(ForkRefused::FullBranches { count });
        }
        let moves = self.moves.len();
        if moves >= self.terms.limits.moves {
            return Err(ForkRefused::FullMoves { count: moves });
        }
        Ok(self.add_branch(new, source)?)
    }

    // Adds a branch from the head of another: it takes all memory first, and then nothing fails.
    fn add_branch(&mut self, new: Name, source: u32) -> Result<Forked, Memory>
        requires moves { IsMove T.meaning self.old.core.terms self.old.core.history
            (Move.Fork new
            (length (store_of self.old.core.terms.origin self.old.core.history).branches) source) }
        requires free { branch_named
            (store_of self.old.core.terms.origin self.old.core.history).branches new ≡ None }
        requires room { length (store_of self.old.core.terms.origin self.old.core.history).branches
            < self.old.core.terms.limits.branches }
        requires source { source
            < length (store_of self.old.core.terms.origin self.old.core.history).branches }
        ensures added { IfOk result (BranchAdded new source self.old.core self.new.core) }
        ensures addresses { self.new.addresses ≡ self.old.addresses }
        ensures before { OnOk result ((head : ℕ)
            → StoodBefore self.new.core.terms self.new.core.history head) }
        ensures back { OnOk result (GoesBack self.new self.old) }
        ensures kept { OnErr result (self.new ≡ self.old) }
    {
        let _count = self.commits();
        let head = self.heads.head(source);
        self.moves.reserve()?;
        let number = match self.heads.fork(new, head) {
            Ok(number) => number,
            Err(branch_names::ForkRefused::Memory) => return Err(Memory),
            Err(branch_names::ForkRefused::Taken { .. }) => unreachable!(),
            Err(branch_names::ForkRefused::Full { .. }) => unreachable!(),
        };
        self.moves.push_reserved(Move::Fork {
            name: new,
            number,
            from: source,
        });
        Ok(Forked {
            moves: self.moves.len(),
            number,
            head,
        })
    }

    /// Whether what was prepared on a look at this core, now or earlier, may land. It is refused exactly as the
    /// machine refuses it, `Dropped` before `Stale` before `FullCommits`, which only a new commit meets, before
    /// `FullMoves`. It takes no memory.
    pub fn may_land(&self, prepared: &Prepared<T>) -> Result<(), LandRefused>
        requires history { IsPrefix prepared.now.seen.history self.now.core.history }
        requires terms { prepared.now.seen.terms ≡ self.now.core.terms }
        ensures may { OnOk result (MayLand T.meaning prepared.now self.now.core) }
        ensures refused { IfErr result (LandRefusedAs T.meaning prepared.now self.now.core) }
        ensures decided { IfErr result (λ refusal. refusal ≢ LandRefused.Memory) }
    {
        let (branch, head) = (prepared.branch, prepared.head);
        match &prepared.ready {
            Ready::Operation { .. } => self.may_add_commit(branch, head),
            Ready::Merge { .. } => self.may_add_commit(branch, head),
            Ready::Join { .. } => self.may_add_commit(branch, head),
            Ready::Forward { .. } => self.may_move(branch, head),
        }
    }

    /// Lands what was prepared on a look at this core, now or earlier; a commit that it makes has an object with this
    /// address. It is refused exactly as the machine refuses it, and then nothing has changed: `Dropped` before `Stale`
    /// before `FullCommits`, which only a new commit meets, before `FullMoves`. Where it may land, `Memory` alone is
    /// left. What landed can be undone, with the head that was seen.
    pub fn land(
        &mut self,
        prepared: Prepared<T>,
        address: [u8; 32],
    ) -> Result<Landed<T::Reply>, LandRefused>
        requires history { IsPrefix prepared.seen.history self.old.core.history }
        requires terms { prepared.seen.terms ≡ self.old.core.terms }
        ensures landed { IfOk result (λ landed.
            LandsAs T.meaning prepared self.old.core self.new.core landed.moves landed.kind) }
        ensures addressed { OnOk result (self.new.addresses
            ≡ addresses_after prepared.work address self.old.addresses) }
        ensures before { OnOk result
            (StoodBefore self.new.core.terms self.new.core.history prepared.seen.head) }
        ensures back { OnOk result (GoesBack self.new self.old) }
        ensures refused { IfErr result (LandRefusedAs T.meaning prepared self.old.core) }
        ensures only { MayLand T.meaning prepared self.old.core
            → IfErr result (λ refusal. refusal ≡ LandRefused.Memory) }
        ensures kept { OnErr result (self.new ≡ self.old) }
    {
        // The history is valid: a look at a field tells the proof so.
        let _ = &self.moves;
        let Prepared {
            seen: _,
            origin: _,
            branch,
            head,
            ready,
        } = prepared;
        let place = Place {
            branch,
            head,
            address,
        };
        match ready {
            Ready::Operation {
                time,
                value,
                op,
                reply,
                spelled,
            } => self.land_operation(place, time, value, op, reply, spelled),
            Ready::Merge {
                commit,
                clock,
                value,
                spelled: _,
            } => self.land_merge(place, commit, clock, value),
            Ready::Join {
                commits,
                clock,
                value,
                spelled: _,
            } => self.land_join(place, commits, clock, value),
            Ready::Forward { commit } => self.land_forward(branch, head, commit),
        }
    }

    // Lands an operation that is ready at the newest head.
    fn land_operation(
        &mut self,
        place: Place,
        time: Time,
        value: T,
        op: T::Op,
        reply: T::Reply,
        spelled: Spelled,
    ) -> Result<Landed<T::Reply>, LandRefused>
        requires there { place.branch
            < length (store_of self.old.core.terms.origin self.old.core.history).branches }
        requires ready { IsReadyOperation T.meaning (at_head self.old.core place.branch place.head)
            time value op reply }
        requires spelled { spelled.reply ≡ T.meaning.reply_spelling reply }
        ensures landed { IfOk result (λ landed.
            Moves T.meaning self.old.core self.new.core (machine.Land place.branch place.head op)
            (Move.Operation place.branch op reply) (outcome_of landed.kind) landed.moves) }
        ensures addressed { OnOk result (self.new.addresses
            ≡ self.old.addresses ++ place.address ∷ []) }
        ensures before { OnOk result
            (StoodBefore self.new.core.terms self.new.core.history place.head) }
        ensures back { OnOk result (GoesBack self.new self.old) }
        ensures refused { IfErr result
            (RefusedBy (commit_refusal self.old.core.terms self.old.core.history place.branch
            place.head)) }
        ensures kept { OnErr result (self.new ≡ self.old) }
    {
        self.may_add_commit(place.branch, place.head)?;
        let again = same_reply::<T>(self.alloc, &reply, spelled.reply())?;
        let made = Move::Operation {
            branch: place.branch,
            op,
            reply: again,
        };
        let commit = self.add_commit(made, &[place.head], &place, time.clock, value)?;
        Ok(Landed {
            moves: self.moves.len(),
            kind: Kind::Operation {
                commit,
                time,
                reply,
            },
        })
    }

    // Lands a merge that is ready at the newest head.
    fn land_merge(
        &mut self,
        place: Place,
        other: u32,
        clock: u64,
        value: T,
    ) -> Result<Landed<T::Reply>, LandRefused>
        requires there { place.branch
            < length (store_of self.old.core.terms.origin self.old.core.history).branches }
        requires ready { IsReadyMerge T.meaning (at_head self.old.core place.branch place.head)
            other clock value }
        ensures landed { IfOk result (λ landed.
            Moves T.meaning self.old.core self.new.core (machine.Merge place.branch place.head
            (other ∷ [])) (Move.Merge place.branch other) (outcome_of landed.kind) landed.moves) }
        ensures addressed { OnOk result (self.new.addresses
            ≡ self.old.addresses ++ place.address ∷ []) }
        ensures before { OnOk result
            (StoodBefore self.new.core.terms self.new.core.history place.head) }
        ensures back { OnOk result (GoesBack self.new self.old) }
        ensures refused { IfErr result
            (RefusedBy (commit_refusal self.old.core.terms self.old.core.history place.branch
            place.head)) }
        ensures kept { OnErr result (self.new ≡ self.old) }
    {
        self.may_add_commit(place.branch, place.head)?;
        let made = Move::Merge {
            branch: place.branch,
            commit: other,
        };
        let commit = self.add_commit(made, &[place.head, other], &place, clock, value)?;
        Ok(Landed {
            moves: self.moves.len(),
            kind: Kind::Merged { commit },
        })
    }

    // Lands a join that is ready at the newest head.
    fn land_join(
        &mut self,
        place: Place,
        commits: Listing<u32>,
        clock: u64,
        value: T,
    ) -> Result<Landed<T::Reply>, LandRefused>
        requires there { place.branch
            < length (store_of self.old.core.terms.origin self.old.core.history).branches }
        requires ready { IsReadyJoin T.meaning (at_head self.old.core place.branch place.head)
            commits clock value }
        ensures landed { IfOk result (λ landed.
            Moves T.meaning self.old.core self.new.core
            (machine.Merge place.branch place.head commits) (Move.Join place.branch commits)
            (outcome_of landed.kind) landed.moves) }
        ensures addressed { OnOk result (self.new.addresses
            ≡ self.old.addresses ++ place.address ∷ []) }
        ensures before { OnOk result
            (StoodBefore self.new.core.terms self.new.core.history place.head) }
        ensures back { OnOk result (GoesBack self.new self.old) }
        ensures refused { IfErr result
            (RefusedBy (commit_refusal self.old.core.terms self.old.core.history place.branch
            place.head)) }
        ensures kept { OnErr result (self.new ≡ self.old) }
    {
        self.may_add_commit(place.branch, place.head)?;
        let parents = joined(self.alloc, place.head, commits.as_slice())?;
        let made = Move::Join {
            branch: place.branch,
            commits,
        };
        let commit = self.add_commit(made, &parents, &place, clock, value)?;
        Ok(Landed {
            moves: self.moves.len(),
            kind: Kind::Joined { commit },
        })
    }

    // Moves a branch up from the newest head to a commit that stands above it.
    fn land_forward(
        &mut self,
        branch: u32,
        head: u32,
        commit: u32,
    ) -> Result<Landed<T::Reply>, LandRefused>
        requires there { branch
            < length (store_of self.old.core.terms.origin self.old.core.history).branches }
        requires ready { IsReadyForward self.old.core.terms self.old.core.history head commit }
        ensures landed { IfOk result (λ landed.
            Moves T.meaning self.old.core self.new.core (machine.Merge branch head (commit ∷ []))
            (Move.Forward branch commit) (outcome_of landed.kind) landed.moves) }
        ensures addressed { OnOk result (self.new.addresses ≡ self.old.addresses) }
        ensures before { OnOk result (StoodBefore self.new.core.terms self.new.core.history head) }
        ensures back { OnOk result (GoesBack self.new self.old) }
        ensures refused { IfErr result
            (RefusedBy (forward_refusal self.old.core.terms self.old.core.history branch head)) }
        ensures kept { OnErr result (self.new ≡ self.old) }
    {
        self.may_move(branch, head)?;
        self.moves.reserve()?;
        self.moves.push_reserved(Move::Forward { branch, commit });
        put_head(&mut self.heads, branch, commit);
        Ok(Landed {
            moves: self.moves.len(),
            kind: Kind::Forward { commit },
        })
    }

    // Whether a branch may move from the head that was seen.
    fn may_move(&self, branch: u32, head: u32) -> Result<(), LandRefused>
        requires { branch
            < length (store_of self.now.core.terms.origin self.now.core.history).branches }
        ensures free { OnOk result
            (forward_refusal self.now.core.terms self.now.core.history branch head ≡ None) }
        ensures there { OnOk result
            (is_dropped (store_of self.now.core.terms.origin self.now.core.history).branches branch
            ≡ false) }
        ensures newest { OnOk result
            (head_of (store_of self.now.core.terms.origin self.now.core.history).branches branch
            ≡ head) }
        ensures addressed { length self.now.addresses
            ≡ length (store_of self.now.core.terms.origin self.now.core.history).commits }
        ensures refused { IfErr result
            (RefusedBy (forward_refusal self.now.core.terms self.now.core.history branch head)) }
        ensures decided { IfErr result (λ refusal. refusal ≢ LandRefused.Memory) }
        ensures valid { IsValid T.meaning self.now.core.terms self.now.core.history }
    {
        self.is_newest(branch, head)?;
        self.has_moves_left()?;
        Ok(())
    }

    // Whether a branch may move from the head that was seen to a new commit.
    fn may_add_commit(&self, branch: u32, head: u32) -> Result<(), LandRefused>
        requires { branch
            < length (store_of self.now.core.terms.origin self.now.core.history).branches }
        ensures free { OnOk result
            (commit_refusal self.now.core.terms self.now.core.history branch head ≡ None) }
        ensures there { OnOk result
            (is_dropped (store_of self.now.core.terms.origin self.now.core.history).branches branch
            ≡ false) }
        ensures newest { OnOk result
            (head_of (store_of self.now.core.terms.origin self.now.core.history).branches branch
            ≡ head) }
        ensures addressed { length self.now.addresses
            ≡ length (store_of self.now.core.terms.origin self.now.core.history).commits }
        ensures refused { IfErr result
            (RefusedBy (commit_refusal self.now.core.terms self.now.core.history branch head)) }
        ensures decided { IfErr result (λ refusal. refusal ≢ LandRefused.Memory) }
        ensures valid { IsValid T.meaning self.now.core.terms self.now.core.history }
    {
        self.is_newest(branch, head)?;
        let count = self.commits();
        if count >= self.terms.limits.commits {
            return Err(LandRefused::FullCommits { count });
        }
        self.has_moves_left()?;
        Ok(())
    }

    // Whether a branch was not dropped, and its newest head is the one that was seen.
    fn is_newest(&self, branch: u32, head: u32) -> Result<(), LandRefused>
        requires { branch
            < length (store_of self.now.core.terms.origin self.now.core.history).branches }
        ensures there { OnOk result
            (is_dropped (store_of self.now.core.terms.origin self.now.core.history).branches branch
            ≡ false) }
        ensures newest { OnOk result
            (head_of (store_of self.now.core.terms.origin self.now.core.history).branches branch
            ≡ head) }
        ensures forward { IfErr result
            (RefusedBy (forward_refusal self.now.core.terms self.now.core.history branch head)) }
        ensures commit { IfErr result
            (RefusedBy (commit_refusal self.now.core.terms self.now.core.history branch head)) }
        ensures decided { IfErr result (λ refusal. refusal ≢ LandRefused.Memory) }
        ensures valid { IsValid T.meaning self.now.core.terms self.now.core.history }
        ensures addressed { length self.now.addresses
            ≡ length (store_of self.now.core.terms.origin self.now.core.history).commits }
    {
        let _count = self.commits();
        if self.heads.is_dropped(branch) {
            return Err(LandRefused::Dropped { branch });
        }
        let newest = self.heads.head(branch);
        if newest != head {
            return Err(LandRefused::Stale { newest });
        }
        Ok(())
    }

    // Whether the history may have one move more.
    fn has_moves_left(&self) -> Result<(), LandRefused>
        ensures left { OnOk result (length self.now.core.history
            < self.now.core.terms.limits.moves) }
        ensures full { OnErr result (self.now.core.terms.limits.moves
            ≤ length self.now.core.history) }
        ensures refused { IfErr result (λ refused.
            refused ≡ LandRefused.FullMoves (length self.now.core.history)) }
    {
        let count = self.moves.len();
        if count >= self.terms.limits.moves {
            return Err(LandRefused::FullMoves { count });
        }
        Ok(())
    }

    // Adds the commit that a move makes: it takes all memory first, and then nothing fails.
    fn add_commit(
        &mut self,
        made: Move<T::Op, T::Reply>,
        parents: &[u32],
        place: &Place,
        clock: u64,
        value: T,
    ) -> Result<u32, Memory>
        requires own { IsOwn made }
        requires adds { AddsCommit T.meaning self.old.core.terms self.old.core.history made
            place.now.branch parents.now clock value }
        ensures number { IfOk result (λ number.
            number ≡ length (store_of self.old.core.terms.origin self.old.core.history).commits) }
        ensures added { OnOk result (self.new.core
            ≡ record self.old.core { history = self.old.core.history ++ made ∷ [] }) }
        ensures addressed { OnOk result (self.new.addresses
            ≡ self.old.addresses ++ place.now.address ∷ []) }
        ensures kept { OnErr result (self.new ≡ self.old) }
    {
        self.moves.reserve()?;
        self.clocks.reserve(1)?;
        let commit = self.nodes.push(value, parents, place.address)?;
        self.moves.push_reserved(made);
        self.clocks.push_reserved(clock);
        put_head(&mut self.heads, place.branch, commit);
        Ok(commit)
    }

    /// Takes the last move off again, and no memory: for a move that could not be written. `head` is where the branch
    /// whose head it moves stood before; for a move that moves none it is not used.
    pub fn undo(&mut self, head: u32)
        requires some { 0 < length self.old.core.history }
        requires stood { StoodBefore self.old.core.terms self.old.core.history head }
        ensures { Undone self.old self.new }
    {
        let _count = self.nodes.count();
        let Some(made) = self.moves.pop() else {
            return;
        };
        match made {
            Move::Fork { .. } => self.heads.unfork(),
            Move::Operation { branch, .. } => {
                let _ = self.clocks.pop();
                self.nodes.pop();
                put_head(&mut self.heads, branch, head);
            }
            Move::Merge { branch, .. } => {
                let _ = self.clocks.pop();
                self.nodes.pop();
                put_head(&mut self.heads, branch, head);
            }
            Move::Join { branch, .. } => {
                let _ = self.clocks.pop();
                self.nodes.pop();
                put_head(&mut self.heads, branch, head);
            }
            Move::Forward { branch, .. } => put_head(&mut self.heads, branch, head),
            Move::Received { .. } => {
                let _ = self.clocks.pop();
                self.nodes.pop();
            }
            Move::Place { .. } => self.heads.unfork(),
            Move::Drop { branch } => self.heads.undrop(branch),
        }
    }
}

// Puts the head of a branch that was not dropped, wherever it stands.
fn put_head(heads: &mut Heads, branch: u32, head: u32)
    requires { IsKeptBranch heads.old.branches branch }
    ensures { heads.new ≡ record heads.old { branches = with_head heads.old.branches branch head } }
{
    let newest = heads.head(branch);
    let _ = heads.move_from(branch, newest, head);
}

// A head, and the commits that are joined to it.
pub(crate) fn joined(alloc: Global, head: u32, commits: &[u32]) -> Result<Vec<u32>, Memory>
    ensures { IfOk result (λ parents. parents.items ≡ head ∷ commits.now) }
{
    let mut parents = Vec::new(alloc);
    parents.push(head)?;
    parents.extend_from_slice(commits)?;
    Ok(parents)
}
