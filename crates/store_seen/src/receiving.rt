// How the core's half in memory receives commits of another store.
ghost use Rattle.std.specs.Prelude.{◌≡◌, ◌≢◌, ◌+◌, ◌<◌, ◌≤◌, ℕ, All, Some, None, length, ◌∷◌, [], ◌++◌, IfOk, IfErr, OnOk, OnErr, IsTrue, ◌↔◌, List};
ghost use Rattle.branch_names.specs.Terms.{is_own};
ghost use Rattle.branch_graph.specs.Graph.{reaches};
ghost use Rattle.branch_history.specs.declared.moves.Move.TheVariants as Move;
ghost use Rattle.branch_history.specs.Commits.{graph_of, clock_of, greatest_clock, visible, visible_at_all};
ghost use Rattle.branch_history.specs.History.{store_of};
ghost use Rattle.branch_history.specs.Machine.{turn, event_made, event_length, received_operation_refusal, received_merge_refusal, room_refusal};
ghost use Rattle.branch_history.specs.Merging.{AreApart};
ghost use Rattle.branch_history.specs.Steps as machine;
ghost use Rattle.branch_history.specs.Validity.{IsStep, IsValid};
ghost use Rattle.machine_answers.specs.Answers.{TurnsAs};
ghost use Rattle.store_seen.specs.Answers.{not_received, receive_answer, addresses_received};
ghost use Rattle.store_seen.specs.Arrivals.{receive_merge, arrived_at, core_then, IsRemade, RemakeRefusedAs, ReceiveRefusedBy, MayReceive};
ghost use Rattle.store_seen.specs.Nodes.{AddsReceived};
ghost use Rattle.store_seen.specs.Turns.{Steps, StoodBefore, GoesBack};

use crate::answers::{ReceiveRefused, Received, RemakeRefused};
use crate::arrival::{Arrival, Arriving};
use crate::group::brought_of;
use crate::spelled::{Spelled, SpelledValue};
use crate::versions::Versions;
use branch_names::Terms;
use mrdt_model::{Listing, Memory, Mrdt, Time};
use std::alloc::Global;
use std::snapshot::Snapshot;
use std::sync::Arc;

impl<T: Mrdt> Versions<T> {
    /// Makes an operation of another store, of this origin, anew on a commit: its reply, and the value that it makes.
    pub fn remake_operation(
        &self,
        origin: u32,
        parent: u32,
        op: T::Op,
    ) -> Result<Arrival<T>, Memory>
        requires { parent
            < length (store_of self.now.core.terms.origin self.now.core.history).commits }
        ensures remade { IfOk result (λ made.
            made ≡ arrived_at self.now.core (machine.ReceiveOperation origin parent op)) }
        ensures step { OnOk result
            (IsStep T.meaning (store_of self.now.core.terms.origin self.now.core.history)
            (machine.ReceiveOperation origin parent op)) }
    {
        let clock = self.clock_of(parent) + 1;
        let value = self.nodes.value(parent)?;
        let (value, reply) = value.apply(&op, Time { clock, origin })?;
        let spelled = Spelled::new::<T>(self.alloc, self.terms.layout, &value, &op, &reply)?;
        Ok(Arrival {
            history: Snapshot::of(&self.moves),
            terms: self.terms,
            origin,
            made: Arriving::Operation {
                parent,
                clock,
                value,
                op,
                reply,
                spelled,
            },
        })
    }

    /// Makes a merge of another store, of this origin and with these two to nine parents, anew: its value, with the folds
    /// that are kept. `NotApart` comes exactly where no merge has these parents.
    pub fn remake_merge(
        &mut self,
        origin: u32,
        parents: &[u32],
    ) -> Result<Arrival<T>, RemakeRefused>
        requires there { All (λ n.
            n < length (store_of self.old.core.terms.origin self.old.core.history).commits)
            parents.now }
        requires several { 2 ≤ length parents.now }
        requires few { length parents.now ≤ 9 }
        ensures remade { IfOk result (λ made.
            made ≡ arrived_at self.old.core (receive_merge origin parents.now)) }
        ensures step { OnOk result
            (IsStep T.meaning (store_of self.old.core.terms.origin self.old.core.history)
            (receive_merge origin parents.now)) }
        ensures refused { IfErr result (RemakeRefusedAs T.meaning self.old.core
            (receive_merge origin parents.now)) }
        ensures same { self.new ≡ self.old }
    {
        if !self.are_apart(parents)? {
            return Err(RemakeRefused::NotApart);
        }
        let value = self.merged_at(parents)?;
        let spelled = SpelledValue::new::<T>(self.alloc, self.terms.layout, &value)?;
        Ok(Arrival {
            history: Snapshot::of(&self.moves),
            terms: self.terms,
            origin,
            made: Arriving::Merge {
                parents: listing_of(self.alloc, parents)?,
                clock: self.greatest_clock(parents),
                value,
                spelled,
            },
        })
    }

    // Whether a merge may have these parents.
    fn are_apart(&self, parents: &[u32]) -> Result<bool, Memory>
        requires there { All (λ n.
            n < length (store_of self.now.core.terms.origin self.now.core.history).commits)
            parents.now }
        requires several { 2 ≤ length parents.now }
        ensures { IfOk result (λ are. (h : ℕ) (ms : List ℕ) → parents.now ≡ h ∷ ms
            → (IsTrue are
            ↔ AreApart (graph_of
            (store_of self.now.core.terms.origin self.now.core.history).commits) h ms)) }
    {
        let nodes = self.nodes.share()?;
        let (head, others) = (parents[0], &parents[1..]);
        if brought_of(&nodes, head, others)?.as_slice() != others {
            return Ok(false);
        }
        match others {
            [one] => Ok(!nodes.reaches(*one, head)?),
            _ => Ok(true),
        }
    }

    // The value of several commits together.
    fn merged_at(&mut self, commits: &[u32]) -> Result<T, Memory>
        requires { All (λ n.
            n < length (store_of self.old.core.terms.origin self.old.core.history).commits)
            commits.now }
        ensures value { IfOk result (λ value.
            T.meaning.stands value
            (visible_at_all (store_of self.old.core.terms.origin self.old.core.history).commits
            commits.now)) }
        ensures same { self.new ≡ self.old }
    {
        let _count = self.nodes.count();
        let value = self.nodes.value_at_all(commits)?;
        Ok(value)
    }

    // The clock of a commit, which is no greater than its number.
    fn clock_of(&self, number: u32) -> u64
        requires { number
            < length (store_of self.now.core.terms.origin self.now.core.history).commits }
        ensures clock { result
            ≡ clock_of (store_of self.now.core.terms.origin self.now.core.history).commits number }
        ensures low { result ≤ number }
    {
        self.clocks[number as usize]
    }

    // The greatest clock of several commits.
    fn greatest_clock(&self, commits: &[u32]) -> u64
        requires { All (λ n.
            n < length (store_of self.now.core.terms.origin self.now.core.history).commits)
            commits.now }
        ensures { result
            ≡ greatest_clock (store_of self.now.core.terms.origin self.now.core.history).commits
            commits.now }
    {
        let mut clock: u64 = 0;
        for commit in commits {
            clock = clock.max(self.clock_of(*commit));
        }
        clock
    }

    /// Whether what was made anew at this history may be received. It is refused exactly as the machine refuses it:
    /// `OwnOrigin` before `TimeClash` and `Exhausted`, which only an operation meets, before `ValueTooLarge` before
    /// `FullCommits` before `FullMoves`. It takes no memory.
    pub fn may_receive(&self, arrival: &Arrival<T>) -> Result<(), ReceiveRefused>
        requires { core_then arrival.now ≡ self.now.core }
        ensures may { OnOk result (MayReceive T.meaning self.now.core arrival.now.step) }
        ensures refused { IfErr result (λ refusal.
            TurnsAs (not_received refusal)
            (turn T.meaning self.now.core.terms self.now.core.history arrival.now.step)) }
        ensures decided { IfErr result (λ refusal. refusal ≢ ReceiveRefused.Memory) }
    {
        let origin = arrival.origin;
        match &arrival.made {
            Arriving::Operation {
                parent,
                op,
                spelled,
                ..
            } => self.may_receive_operation(origin, *parent, op, spelled.len()),
            Arriving::Merge {
                parents,
                spelled,
                ..
            } => self.may_receive_merge(origin, parents.as_slice(), spelled.size),
        }
    }

    // Whether an operation of an origin on a commit may be received, whose spellings have so many bytes.
    fn may_receive_operation(
        &self,
        origin: u32,
        parent: u32,
        op: &T::Op,
        size: u64,
    ) -> Result<(), ReceiveRefused>
        requires there { parent
            < length (store_of self.now.core.terms.origin self.now.core.history).commits }
        requires sized { size
            ≡ event_length T.meaning
            (event_made T.meaning
            (store_of self.now.core.terms.origin self.now.core.history).commits origin parent
            op.now) (visible (store_of self.now.core.terms.origin self.now.core.history).commits
            parent) }
        ensures free { OnOk result
            (received_operation_refusal T.meaning self.now.core.terms self.now.core.history origin
            parent op.now ≡ None) }
        ensures refused { IfErr result
            (ReceiveRefusedBy
            (received_operation_refusal T.meaning self.now.core.terms self.now.core.history origin
            parent op.now)) }
        ensures decided { IfErr result (λ refusal. refusal ≢ ReceiveRefused.Memory) }
    {
        if is_own(self.terms, origin) {
            return Err(ReceiveRefused::OwnOrigin);
        }
        let clock = self.clock_of(parent);
        if let Some(number) = self.moves.received_at(clock + 1, origin) {
            return Err(ReceiveRefused::TimeClash { number });
        }
        if clock >= self.terms.limits.clock {
            return Err(ReceiveRefused::Exhausted { clock });
        }
        if size > self.terms.limits.value {
            return Err(ReceiveRefused::ValueTooLarge { length: size });
        }
        self.has_room()
    }

    // Whether a merge of an origin with these parents may be received, whose value's spelling has so many bytes.
    fn may_receive_merge(
        &self,
        origin: u32,
        parents: &[u32],
        size: u64,
    ) -> Result<(), ReceiveRefused>
        requires { size
            ≡ length (T.meaning.spelling_of
            (visible_at_all (store_of self.now.core.terms.origin self.now.core.history).commits
            parents.now)) }
        ensures free { OnOk result
            (received_merge_refusal T.meaning self.now.core.terms self.now.core.history origin
            parents.now ≡ None) }
        ensures refused { IfErr result
            (ReceiveRefusedBy
            (received_merge_refusal T.meaning self.now.core.terms self.now.core.history origin
            parents.now)) }
        ensures decided { IfErr result (λ refusal. refusal ≢ ReceiveRefused.Memory) }
    {
        let _parents = parents;
        if is_own(self.terms, origin) {
            return Err(ReceiveRefused::OwnOrigin);
        }
        if size > self.terms.limits.value {
            return Err(ReceiveRefused::ValueTooLarge { length: size });
        }
        self.has_room()
    }

    // Whether there may be one commit more.
    fn has_room(&self) -> Result<(), ReceiveRefused>
        ensures free { OnOk result (room_refusal self.now.core.terms self.now.core.history ≡ None) }
        ensures refused { IfErr result
            (ReceiveRefusedBy (room_refusal self.now.core.terms self.now.core.history)) }
        ensures decided { IfErr result (λ refusal. refusal ≢ ReceiveRefused.Memory) }
    {
        let count = self.commits();
        if count >= self.terms.limits.commits {
            return Err(ReceiveRefused::FullCommits { count });
        }
        let count = self.moves.len();
        if count >= self.terms.limits.moves {
            return Err(ReceiveRefused::FullMoves { count });
        }
        Ok(())
    }

    /// Receives what was made anew at this history, with the address of its commit's object. It is refused exactly as
    /// the machine refuses it, and then nothing has changed. Where it may be received, `Memory` alone is left. What was
    /// received can be undone, with any head.
    pub fn receive(
        &mut self,
        arrival: Arrival<T>,
        address: [u8; 32],
    ) -> Result<Received, ReceiveRefused>
        requires { core_then arrival ≡ self.old.core }
        ensures steps { Steps T.meaning arrival.step self.old self.new
            (addresses_received result address self.old.addresses) (receive_answer result) }
        ensures before { OnOk result ((head : ℕ)
            → StoodBefore self.new.core.terms self.new.core.history head) }
        ensures back { OnOk result (GoesBack self.new self.old) }
        ensures only { MayReceive T.meaning self.old.core arrival.step
            → IfErr result (λ refusal. refusal ≡ ReceiveRefused.Memory) }
    {
        self.may_receive(&arrival)?;
        let Arrival {
            history: _,
            terms: _,
            origin,
            made,
        } = arrival;
        match made {
            Arriving::Operation {
                parent,
                clock,
                value,
                op,
                reply,
                spelled: _,
            } => {
                let parents = listing_of(self.alloc, &[parent])?;
                Ok(self.add_received(parents, origin, clock, Some((op, reply)), value, address)?)
            }
            Arriving::Merge {
                parents,
                clock,
                value,
                spelled: _,
            } => Ok(self.add_received(parents, origin, clock, None, value, address)?),
        }
    }

    // Adds the commit that was received: it takes all memory first, and then nothing fails.
    fn add_received(
        &mut self,
        parents: Listing<u32>,
        origin: u32,
        clock: u64,
        act: Option<(T::Op, T::Reply)>,
        value: T,
        address: [u8; 32],
    ) -> Result<Received, Memory>
        requires { AddsReceived T.meaning self.old.core.terms self.old.core.history parents origin
            clock act value }
        ensures number { IfOk result (λ taken.
            taken.commit ≡ length
            (store_of self.old.core.terms.origin self.old.core.history).commits) }
        ensures counted { IfOk result (λ taken. taken.moves ≡ length self.new.core.history) }
        ensures added { OnOk result (self.new.core
            ≡ record self.old.core {
              history = self.old.core.history ++ Move.Received parents origin
                  clock act ∷ [];
            }) }
        ensures addressed { OnOk result (self.new.addresses ≡ self.old.addresses ++ address ∷ []) }
        ensures before { OnOk result ((head : ℕ)
            → StoodBefore self.new.core.terms self.new.core.history head) }
        ensures back { OnOk result (GoesBack self.new self.old) }
        ensures kept { OnErr result (self.new ≡ self.old) }
    {
        let _count = self.commits();
        self.moves.reserve_received()?;
        self.clocks.reserve(1)?;
        let commit = self.nodes.push(value, parents.as_slice(), address)?;
        self.moves
            .push_received(parents, origin, clock, act, commit);
        self.clocks.push_reserved(clock);
        Ok(Received {
            moves: self.moves.len(),
            commit,
        })
    }
}

// These commits once more.
fn listing_of(alloc: Global, commits: &[u32]) -> Result<Listing<u32>, Memory>
    ensures { IfOk result (λ listing. listing ≡ commits.now) }
{
    let mut copied = Vec::new(alloc);
    copied.extend_from_slice(commits)?;
    Ok(Listing::from_vec(copied))
}

// Whether an origin is that of a branch that there is or may be.
fn is_own(terms: Terms, origin: u32) -> bool
    ensures { result ≡ is_own terms origin }
{
    origin >= terms.origin && origin - terms.origin < terms.limits.branches
}
