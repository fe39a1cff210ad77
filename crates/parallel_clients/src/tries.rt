// The tries of a client to move.
ghost use Rattle.std.specs.Prelude.{◌≡◌, ◌<◌, ◌≤◌, length, vec_capacity, IfOk, IfErr};
ghost use mathlib.Core.List.{IsPrefix};
ghost use Rattle.branch_machine.specs.Fixed.{fix};
ghost use Rattle.branch_machine.specs.Validity.{IsFullyValid};
ghost use Rattle.branch_script.specs.declared.step.Step.TheVariants as step;
ghost use Rattle.branch_shared.specs.Passes.{IsSeenOn, seen_by};
ghost use Rattle.parallel_clients.specs.Allowed.{AllowsStep};
ghost use Rattle.parallel_clients.specs.Clients.{KeepsValid};
ghost use Rattle.parallel_clients.specs.Outcomes.{setting};
ghost use Rattle.parallel_clients.specs.Sessions.{AreSessions, IsJoinReady, IsJoinUnready, IsTried, IsTriedDrop, IsTriedJoin, IsTriedMerge, Stops, sights_of, undropped_as, ungrouped_as};

use crate::client::{Client, Sessions};
use crate::gate::Gate;
use crate::landing::{Landing, Stop, note};
use crate::outcome::ClientRefusal;
use branch_address::Address;
use branch_disk::Disk;
use branch_doc::{Forms, PlainOp};
use branch_history::laws::{keeps_order, raises_heads};
use branch_machine::laws::makes_fewer_moves;
use branch_names::Name;
use branch_shared::{Named, Pass};
use mrdt_model::Memory;
use std::sync::Wait;
use store_core::DropRefused;
use store_seen::{PairPrepareRefused, PairRefused, PairStep, PrepareRefused, Seen};

// Why a client stops whose branch was not dropped, unless it has a newer head.
fn undropped(refused: DropRefused) -> Option<ClientRefusal>
    ensures { result ≡ undropped_as refused }
{
    match refused {
        DropRefused::Dropped { branch } => Some(ClientRefusal::Dropped { branch }),
        DropRefused::KeepsMain => Some(ClientRefusal::KeepsMain),
        DropRefused::Stale { .. } => None,
        DropRefused::FullMoves { count } => Some(ClientRefusal::FullMoves { count }),
        DropRefused::DiskFault => Some(ClientRefusal::DiskFault),
        DropRefused::Failed { moves } => Some(ClientRefusal::Failed { moves }),
        DropRefused::Memory => Some(ClientRefusal::Memory),
    }
}

// Why a client stops whose look was not grouped.
fn ungrouped(refused: PairRefused) -> ClientRefusal
    ensures { result ≡ ungrouped_as refused }
{
    match refused {
        PairRefused::UnknownBranch { name } => ClientRefusal::UnknownBranch { name },
        PairRefused::Memory => ClientRefusal::Memory,
    }
}

impl<T: Forms, D: Disk + Drop, A: Address, N: Named<T::Op, T::Reply>, G: Gate, R: Wait> Client<
    '_,
    T,
    D,
    A,
    N,
    G,
    R,
> {
    /// Tries to land an operation on the branch that a session sees.
    pub(crate) fn try_operation(
        &self,
        pass: &mut Pass<T, N>,
        sessions: &Sessions<T>,
        places: &mut Vec<u64>,
        session: &Name,
        op: &PlainOp,
    ) -> Result<Landing, Stop>
        requires allowed { AllowsStep T.forms N.allows (step.Do session.now op.now) }
        requires sessions { AreSessions N.terms pass.old.moves sessions.now.entries }
        requires parts { 1 < pass.old.parts }
        requires room { length places.old.items < vec_capacity places.old }
        ensures prefix { IsPrefix pass.old.moves pass.new.moves }
        ensures valid { KeepsValid (fix T.meaning N.terms A.address) pass.old pass.new }
        ensures faults { pass.old.faults ≤ pass.new.faults }
        ensures capacity { vec_capacity places.old ≤ vec_capacity places.new }
        ensures tried { IfOk result (IsTried (sights_of sessions.now.entries session.now)
            (T.forms.op op.now) pass.old pass.new places.old.items places.new.items) }
        ensures stopped { IfErr result
            (Stops (setting (fix T.meaning N.terms A.address) T.forms N.opened)
            (sights_of sessions.now.entries) (step.Do session.now op.now) pass.old pass.new
            places.old.items places.new.items) }
    {
        let Some(at) = sessions.get(session) else {
            return Err(Stop::Unseen);
        };
        self.gate.before_prepare(self.rt, self.number);
        let op = match T::op(op) {
            Ok(Some(op)) => op,
            Ok(None) => return Err(Stop::Refused(ClientRefusal::NoSequences)),
            Err(Memory) => return Err(Stop::Refused(ClientRefusal::Memory)),
        };
        let prepared = match at.seen.prepare(op) {
            Ok(prepared) => prepared,
            Err(PrepareRefused::Exhausted { clock }) => {
                return Err(Stop::Refused(ClientRefusal::Exhausted { clock }));
            }
            Err(PrepareRefused::ValueTooLarge { length }) => {
                return Err(Stop::Refused(ClientRefusal::ValueTooLarge { length }));
            }
            Err(PrepareRefused::Memory) => return Err(Stop::Refused(ClientRefusal::Memory)),
        };
        match self.land(pass, places, prepared) {
            Ok(landing) => Ok(landing),
            Err(refusal) => Err(Stop::Refused(refusal)),
        }
    }

    /// Tries to merge the head of a branch into the branch that a session sees.
    pub(crate) fn try_merge(
        &self,
        pass: &mut Pass<T, N>,
        sessions: &Sessions<T>,
        places: &mut Vec<u64>,
        session: &Name,
        from: &Name,
    ) -> Result<Landing, Stop>
        requires allowed { AllowsStep T.forms N.allows (step.Merge session.now from.now) }
        requires sessions { AreSessions N.terms pass.old.moves sessions.now.entries }
        requires parts { 1 < pass.old.parts }
        requires room { length places.old.items < vec_capacity places.old }
        ensures prefix { IsPrefix pass.old.moves pass.new.moves }
        ensures valid { KeepsValid (fix T.meaning N.terms A.address) pass.old pass.new }
        ensures faults { pass.old.faults ≤ pass.new.faults }
        ensures capacity { vec_capacity places.old ≤ vec_capacity places.new }
        ensures tried { IfOk result
            (IsTriedMerge N.terms.origin (sights_of sessions.now.entries session.now) from.now
            pass.old pass.new places.old.items places.new.items) }
        ensures stopped { IfErr result
            (Stops (setting (fix T.meaning N.terms A.address) T.forms N.opened)
            (sights_of sessions.now.entries) (step.Merge session.now from.now) pass.old pass.new
            places.old.items places.new.items) }
    {
        let Some(at) = sessions.get(session) else {
            return Err(Stop::Unseen);
        };
        self.gate.before_prepare(self.rt, self.number);
        let pair = match self.shared.pair(self.rt, pass, &at.seen, from) {
            Ok(pair) => pair,
            Err(PairRefused::UnknownBranch { .. }) => {
                return Err(Stop::Refused(ClientRefusal::UnknownBranch { name: *from }));
            }
            Err(PairRefused::Memory) => return Err(Stop::Refused(ClientRefusal::Memory)),
        };
        keeps_order::<T>();
        raises_heads::<T>();
        makes_fewer_moves::<T>();
        let prepared = match pair.prepare() {
            Ok(PairStep::Same) => return Ok(Landing::Same),
            Ok(PairStep::Land(prepared)) => prepared,
            Err(PairPrepareRefused::ValueTooLarge { length }) => {
                return Err(Stop::Refused(ClientRefusal::ValueTooLarge { length }));
            }
            Err(PairPrepareRefused::Memory) => return Err(Stop::Refused(ClientRefusal::Memory)),
        };
        match self.land(pass, places, prepared) {
            Ok(landing) => Ok(landing),
            Err(refusal) => Err(Stop::Refused(refusal)),
        }
    }

    // Makes a join of the heads of one to eight branches ready to land on a look.
    fn prepare_join(
        &self,
        pass: &mut Pass<T, N>,
        seen: &Seen<T>,
        from: &[Name],
    ) -> Result<PairStep<T>, ClientRefusal>
        requires history { IsPrefix seen.now.history pass.old.moves }
        requires terms { seen.now.terms ≡ N.terms }
        requires some { 1 ≤ length from.now }
        requires few { length from.now ≤ 8 }
        ensures prefix { IsPrefix pass.old.moves pass.new.moves }
        ensures valid { IsFullyValid (fix T.meaning N.terms A.address) pass.new.moves }
        ensures faults { pass.old.faults ≤ pass.new.faults }
        ensures rest { IsSeenOn pass.old pass.new }
        ensures ready { IfOk result
            (IsJoinReady T.meaning (seen_by pass.new N.terms) seen.now from.now) }
        ensures unready { IfErr result
            (IsJoinUnready T.meaning (seen_by pass.new N.terms) seen.now from.now) }
    {
        let group = match self.shared.group(self.rt, pass, seen, from) {
            Ok(group) => group,
            Err(refused) => return Err(ungrouped(refused)),
        };
        match group.prepare() {
            Ok(ready) => Ok(ready),
            Err(PairPrepareRefused::ValueTooLarge { length }) => {
                Err(ClientRefusal::ValueTooLarge { length })
            }
            Err(PairPrepareRefused::Memory) => Err(ClientRefusal::Memory),
        }
    }

    /// Tries to join the heads of one to eight branches into the branch that a session sees.
    pub(crate) fn try_join(
        &self,
        pass: &mut Pass<T, N>,
        sessions: &Sessions<T>,
        places: &mut Vec<u64>,
        session: &Name,
        from: &[Name],
    ) -> Result<Landing, Stop>
        requires allowed { AllowsStep T.forms N.allows (step.Join session.now from.now) }
        requires sessions { AreSessions N.terms pass.old.moves sessions.now.entries }
        requires parts { 1 < pass.old.parts }
        requires room { length places.old.items < vec_capacity places.old }
        requires some { 1 ≤ length from.now }
        requires few { length from.now ≤ 8 }
        ensures prefix { IsPrefix pass.old.moves pass.new.moves }
        ensures valid { KeepsValid (fix T.meaning N.terms A.address) pass.old pass.new }
        ensures faults { pass.old.faults ≤ pass.new.faults }
        ensures capacity { vec_capacity places.old ≤ vec_capacity places.new }
        ensures tried { IfOk result
            (IsTriedJoin N.terms.origin (sights_of sessions.now.entries session.now) from.now
            pass.old pass.new places.old.items places.new.items) }
        ensures stopped { IfErr result
            (Stops (setting (fix T.meaning N.terms A.address) T.forms N.opened)
            (sights_of sessions.now.entries) (step.Join session.now from.now) pass.old pass.new
            places.old.items places.new.items) }
    {
        let Some(at) = sessions.get(session) else {
            return Err(Stop::Unseen);
        };
        self.gate.before_prepare(self.rt, self.number);
        keeps_order::<T>();
        raises_heads::<T>();
        makes_fewer_moves::<T>();
        let prepared = match self.prepare_join(pass, &at.seen, from) {
            Ok(PairStep::Same) => return Ok(Landing::Same),
            Ok(PairStep::Land(prepared)) => prepared,
            Err(unready) => return Err(Stop::Refused(unready)),
        };
        match self.land(pass, places, prepared) {
            Ok(landing) => Ok(landing),
            Err(refusal) => Err(Stop::Refused(refusal)),
        }
    }

    /// Tries to drop the branch that a session sees.
    pub(crate) fn try_drop(
        &self,
        pass: &mut Pass<T, N>,
        sessions: &Sessions<T>,
        places: &mut Vec<u64>,
        session: &Name,
    ) -> Result<Landing, Stop>
        requires allowed { AllowsStep T.forms N.allows (step.Drop session.now) }
        requires sessions { AreSessions N.terms pass.old.moves sessions.now.entries }
        requires room { length places.old.items < vec_capacity places.old }
        ensures prefix { IsPrefix pass.old.moves pass.new.moves }
        ensures valid { KeepsValid (fix T.meaning N.terms A.address) pass.old pass.new }
        ensures faults { pass.old.faults ≤ pass.new.faults }
        ensures capacity { vec_capacity places.old ≤ vec_capacity places.new }
        ensures tried { IfOk result (IsTriedDrop (sights_of sessions.now.entries session.now)
            pass.old pass.new places.old.items places.new.items) }
        ensures stopped { IfErr result
            (Stops (setting (fix T.meaning N.terms A.address) T.forms N.opened)
            (sights_of sessions.now.entries) (step.Drop session.now)
            pass.old pass.new places.old.items places.new.items) }
    {
        let Some(at) = sessions.get(session) else {
            return Err(Stop::Unseen);
        };
        match self.shared.drop_branch(self.rt, pass, &at.seen) {
            Ok(moves) => {
                note(places, moves);
                self.gate.after_land(self.rt, self.number);
                Ok(Landing::Moved)
            }
            Err(refused) => match undropped(refused) {
                Some(refusal) => Err(Stop::Refused(refusal)),
                None => Ok(Landing::Stale),
            },
        }
    }
}
