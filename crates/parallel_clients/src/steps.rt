// The steps of a client.
ghost use Rattle.std.specs.Prelude.{◌≡◌, ◌<◌, ◌≤◌, ◌+◌, [], ◌∷◌, length, vec_capacity, IfErr, OnOk};
ghost use mathlib.Core.List.{IsPrefix};
ghost use Rattle.branch_machine.specs.Fixed.{fix};
ghost use Rattle.branch_script.specs.declared.step.Step.TheVariants as step;
ghost use Rattle.branch_shared.specs.Passes.{IsSeenOn};
ghost use Rattle.parallel_clients.specs.Allowed.{AllowsStep};
ghost use Rattle.parallel_clients.specs.Clients.{KeepsValid};
ghost use Rattle.parallel_clients.specs.Outcomes.{setting};
ghost use Rattle.parallel_clients.specs.Sessions.{AreSessions, Advances, IsStopped, PlaysOn, Stops, sights_of, stage_of};

use crate::client::{Client, Sessions};
use crate::gate::Gate;
use crate::landing::{Landing, Stop, note};
use crate::outcome::ClientRefusal;
use crate::sessions::{Session, set_session};
use branch_address::Address;
use branch_disk::Disk;
use branch_doc::{Forms, PlainOp, PlainQuery};
use branch_names::Name;
use branch_script::Step;
use branch_shared::{Named, Pass};
use mrdt_model::Memory;
use std::sync::Wait;
use store_core::ForkRefused;
use store_seen::LookRefused;

impl<T: Forms, D: Disk + Drop, A: Address, N: Named<T::Op, T::Reply>, G: Gate, R: Wait> Client<
    '_,
    T,
    D,
    A,
    N,
    G,
    R,
> {
    // A session looks at its branch again. Where no branch has the name any more, or another one, it sees what it saw:
    // its next landing tells that the branch was dropped.
    fn look_again(
        &self,
        pass: &mut Pass<T, N>,
        sessions: &mut Sessions<T>,
        session: &Name,
    ) -> Result<(), Memory>
        requires sessions { AreSessions N.terms pass.old.moves sessions.old.entries }
        ensures prefix { IsPrefix pass.old.moves pass.new.moves }
        ensures valid { KeepsValid (fix T.meaning N.terms A.address) pass.old pass.new }
        ensures faults { pass.old.faults ≤ pass.new.faults }
        ensures rest { IsSeenOn pass.old pass.new }
        ensures sessions { AreSessions N.terms pass.new.moves sessions.new.entries }
        ensures sights { sights_of sessions.new.entries ≡ sights_of sessions.old.entries }
    {
        let (branch, number) = match sessions.get(session) {
            Some(at) => {
                let number = at.seen.branch();
                (at.branch, number)
            }
            None => return Ok(()),
        };
        let seen = match self.shared.look(self.rt, pass, &branch) {
            Ok(seen) => seen,
            Err(LookRefused::UnknownBranch { .. }) => return Ok(()),
            Err(LookRefused::Memory) => return Err(Memory),
        };
        let now = seen.branch();
        if now != number {
            return Ok(());
        }
        let looked = Session { branch, seen };
        match set_session(sessions, session, looked) {
            Ok(()) => Ok(()),
            Err(memory) => Err(memory),
        }
    }

    // Lands an operation on the branch that a session sees, which looks there again; whether it could.
    fn operation(
        &self,
        pass: &mut Pass<T, N>,
        sessions: &mut Sessions<T>,
        places: &mut Vec<u64>,
        session: &Name,
        op: &PlainOp,
    ) -> Result<bool, Stop>
        requires allowed { AllowsStep T.forms N.allows (step.Do session.now op.now) }
        requires sessions { AreSessions N.terms pass.old.moves sessions.old.entries }
        requires parts { 1 < pass.old.parts }
        requires room { length places.old.items < vec_capacity places.old }
        ensures advances { Advances pass.old pass.new places.old.items places.new.items }
        ensures valid { KeepsValid (fix T.meaning N.terms A.address) pass.old pass.new }
        ensures capacity { vec_capacity places.old ≤ vec_capacity places.new }
        ensures sessions { OnOk result (AreSessions N.terms pass.new.moves sessions.new.entries) }
        ensures plays { OnOk result
            (PlaysOn T.forms N.terms.origin
            (step.Do session.now op.now ∷ [])
            (stage_of pass.old sessions.old.entries places.old.items)
            (stage_of pass.new sessions.new.entries places.new.items)) }
        ensures few { length places.new.items ≤ length places.old.items + 1 }
        ensures stopped { IfErr result
            (Stops (setting (fix T.meaning N.terms A.address) T.forms N.opened)
            (sights_of sessions.old.entries) (step.Do session.now op.now) pass.old pass.new
            places.old.items places.new.items) }
    {
        for _ in self.rt.forever() {
            match self.try_operation(pass, sessions, places, session, op)? {
                Landing::Moved => return Ok(self.look_again(pass, sessions, session).is_ok()),
                Landing::Stale | Landing::Same => {
                    if self.look_again(pass, sessions, session).is_err() {
                        return Err(Stop::Refused(ClientRefusal::Memory));
                    }
                }
            }
        }
        unreachable!()
    }

    // Merges the head of a branch into the branch that a session sees, which looks there again after a move; whether
    // it could.
    fn merge(
        &self,
        pass: &mut Pass<T, N>,
        sessions: &mut Sessions<T>,
        places: &mut Vec<u64>,
        session: &Name,
        from: &Name,
    ) -> Result<bool, Stop>
        requires allowed { AllowsStep T.forms N.allows (step.Merge session.now from.now) }
        requires sessions { AreSessions N.terms pass.old.moves sessions.old.entries }
        requires parts { 1 < pass.old.parts }
        requires room { length places.old.items < vec_capacity places.old }
        ensures advances { Advances pass.old pass.new places.old.items places.new.items }
        ensures valid { KeepsValid (fix T.meaning N.terms A.address) pass.old pass.new }
        ensures capacity { vec_capacity places.old ≤ vec_capacity places.new }
        ensures sessions { OnOk result (AreSessions N.terms pass.new.moves sessions.new.entries) }
        ensures plays { OnOk result
            (PlaysOn T.forms N.terms.origin
            (step.Merge session.now from.now ∷ [])
            (stage_of pass.old sessions.old.entries places.old.items)
            (stage_of pass.new sessions.new.entries places.new.items)) }
        ensures few { length places.new.items ≤ length places.old.items + 1 }
        ensures stopped { IfErr result
            (Stops (setting (fix T.meaning N.terms A.address) T.forms N.opened)
            (sights_of sessions.old.entries) (step.Merge session.now from.now) pass.old pass.new
            places.old.items places.new.items) }
    {
        for _ in self.rt.forever() {
            match self.try_merge(pass, sessions, places, session, from)? {
                Landing::Moved => return Ok(self.look_again(pass, sessions, session).is_ok()),
                Landing::Same => return Ok(true),
                Landing::Stale => {
                    if self.look_again(pass, sessions, session).is_err() {
                        return Err(Stop::Refused(ClientRefusal::Memory));
                    }
                }
            }
        }
        unreachable!()
    }

    // Joins the heads of one to eight branches into the branch that a session sees, which looks there again after a move;
    // whether it could.
    fn join(
        &self,
        pass: &mut Pass<T, N>,
        sessions: &mut Sessions<T>,
        places: &mut Vec<u64>,
        session: &Name,
        from: &[Name],
    ) -> Result<bool, Stop>
        requires allowed { AllowsStep T.forms N.allows (step.Join session.now from.now) }
        requires sessions { AreSessions N.terms pass.old.moves sessions.old.entries }
        requires parts { 1 < pass.old.parts }
        requires room { length places.old.items < vec_capacity places.old }
        requires some { 1 ≤ length from.now }
        requires few { length from.now ≤ 8 }
        ensures advances { Advances pass.old pass.new places.old.items places.new.items }
        ensures valid { KeepsValid (fix T.meaning N.terms A.address) pass.old pass.new }
        ensures capacity { vec_capacity places.old ≤ vec_capacity places.new }
        ensures sessions { OnOk result (AreSessions N.terms pass.new.moves sessions.new.entries) }
        ensures plays { OnOk result
            (PlaysOn T.forms N.terms.origin
            (step.Join session.now from.now ∷ [])
            (stage_of pass.old sessions.old.entries places.old.items)
            (stage_of pass.new sessions.new.entries places.new.items)) }
        ensures few { length places.new.items ≤ length places.old.items + 1 }
        ensures stopped { IfErr result
            (Stops (setting (fix T.meaning N.terms A.address) T.forms N.opened)
            (sights_of sessions.old.entries) (step.Join session.now from.now) pass.old pass.new
            places.old.items places.new.items) }
    {
        for _ in self.rt.forever() {
            match self.try_join(pass, sessions, places, session, from)? {
                Landing::Moved => return Ok(self.look_again(pass, sessions, session).is_ok()),
                Landing::Same => return Ok(true),
                Landing::Stale => {
                    if self.look_again(pass, sessions, session).is_err() {
                        return Err(Stop::Refused(ClientRefusal::Memory));
                    }
                }
            }
        }
        unreachable!()
    }

    // Drops the branch that a session sees, which does not look again behind the drop.
    fn drop_branch(
        &self,
        pass: &mut Pass<T, N>,
        sessions: &mut Sessions<T>,
        places: &mut Vec<u64>,
        session: &Name,
    ) -> Result<(), Stop>
        requires allowed { AllowsStep T.forms N.allows (step.Drop session.now) }
        requires sessions { AreSessions N.terms pass.old.moves sessions.old.entries }
        requires room { length places.old.items < vec_capacity places.old }
        ensures advances { Advances pass.old pass.new places.old.items places.new.items }
        ensures valid { KeepsValid (fix T.meaning N.terms A.address) pass.old pass.new }
        ensures capacity { vec_capacity places.old ≤ vec_capacity places.new }
        ensures sessions { OnOk result (AreSessions N.terms pass.new.moves sessions.new.entries) }
        ensures plays { OnOk result (PlaysOn T.forms N.terms.origin
            (step.Drop session.now ∷ [])
            (stage_of pass.old sessions.old.entries places.old.items)
            (stage_of pass.new sessions.new.entries places.new.items)) }
        ensures few { length places.new.items ≤ length places.old.items + 1 }
        ensures stopped { IfErr result
            (Stops (setting (fix T.meaning N.terms A.address) T.forms N.opened)
            (sights_of sessions.old.entries) (step.Drop session.now)
            pass.old pass.new places.old.items places.new.items) }
    {
        for _ in self.rt.forever() {
            match self.try_drop(pass, sessions, places, session)? {
                Landing::Moved => return Ok(()),
                Landing::Stale | Landing::Same => {
                    if self.look_again(pass, sessions, session).is_err() {
                        return Err(Stop::Refused(ClientRefusal::Memory));
                    }
                }
            }
        }
        unreachable!()
    }

    // Forks a branch from another, unless the name is taken.
    fn fork(
        &self,
        pass: &mut Pass<T, N>,
        sessions: &Sessions<T>,
        places: &mut Vec<u64>,
        new: &Name,
        from: &Name,
    ) -> Result<(), Stop>
        requires allowed { AllowsStep T.forms N.allows (step.Fork new.now from.now) }
        requires room { length places.old.items < vec_capacity places.old }
        ensures advances { Advances pass.old pass.new places.old.items places.new.items }
        ensures valid { KeepsValid (fix T.meaning N.terms A.address) pass.old pass.new }
        ensures capacity { vec_capacity places.old ≤ vec_capacity places.new }
        ensures plays { OnOk result
            (PlaysOn T.forms N.terms.origin
            (step.Fork new.now from.now ∷ [])
            (stage_of pass.old sessions.now.entries places.old.items)
            (stage_of pass.new sessions.now.entries places.new.items)) }
        ensures few { length places.new.items ≤ length places.old.items + 1 }
        ensures stopped { IfErr result
            (Stops (setting (fix T.meaning N.terms A.address) T.forms N.opened)
            (sights_of sessions.now.entries) (step.Fork new.now from.now) pass.old pass.new
            places.old.items places.new.items) }
    {
        match self.shared.fork(self.rt, pass, *new, from) {
            Ok(forked) => {
                note(places, forked.moves);
                self.gate.after_land(self.rt, self.number);
                Ok(())
            }
            Err(ForkRefused::NameTaken { .. }) => Ok(()),
            Err(ForkRefused::UnknownBranch { .. }) => {
                Err(Stop::Refused(ClientRefusal::UnknownBranch { name: *from }))
            }
            Err(ForkRefused::FullBranches { count }) => {
                Err(Stop::Refused(ClientRefusal::FullBranches { count }))
            }
            Err(ForkRefused::FullMoves { count }) => {
                Err(Stop::Refused(ClientRefusal::FullMoves { count }))
            }
            Err(ForkRefused::DiskFault) => Err(Stop::Refused(ClientRefusal::DiskFault)),
            Err(ForkRefused::Failed { moves }) => Err(Stop::Refused(ClientRefusal::Failed {
                moves,
            })),
            Err(ForkRefused::Memory) => Err(Stop::Refused(ClientRefusal::Memory)),
        }
    }

    // A session looks at a branch.
    fn look(
        &self,
        pass: &mut Pass<T, N>,
        sessions: &mut Sessions<T>,
        session: &Name,
        branch: &Name,
    ) -> Result<(), Stop>
        requires sessions { AreSessions N.terms pass.old.moves sessions.old.entries }
        ensures prefix { IsPrefix pass.old.moves pass.new.moves }
        ensures valid { KeepsValid (fix T.meaning N.terms A.address) pass.old pass.new }
        ensures faults { pass.old.faults ≤ pass.new.faults }
        ensures rest { IsSeenOn pass.old pass.new }
        ensures sessions { AreSessions N.terms pass.new.moves sessions.new.entries }
        ensures plays { (places : _)
            → OnOk result (PlaysOn T.forms N.terms.origin
            (step.Look session.now branch.now ∷ [])
            (stage_of pass.old sessions.old.entries places)
            (stage_of pass.new sessions.new.entries places)) }
        ensures stopped { IfErr result
            (IsStopped (setting (fix T.meaning N.terms A.address) T.forms N.opened)
            (sights_of sessions.old.entries) (step.Look session.now branch.now) pass.new) }
    {
        match self.look_at(pass, sessions, session, branch) {
            Ok(_) => Ok(()),
            Err(LookRefused::UnknownBranch { .. }) => {
                Err(Stop::Refused(ClientRefusal::UnknownBranch { name: *branch }))
            }
            Err(LookRefused::Memory) => Err(Stop::Refused(ClientRefusal::Memory)),
        }
    }

    // A branch is asked at its head.
    fn ask(
        &self,
        pass: &mut Pass<T, N>,
        sessions: &Sessions<T>,
        branch: &Name,
        query: &PlainQuery,
    ) -> Result<(), Stop>
        ensures prefix { IsPrefix pass.old.moves pass.new.moves }
        ensures valid { KeepsValid (fix T.meaning N.terms A.address) pass.old pass.new }
        ensures faults { pass.old.faults ≤ pass.new.faults }
        ensures rest { IsSeenOn pass.old pass.new }
        ensures plays { (places : _)
            → OnOk result (PlaysOn T.forms N.terms.origin
            (step.Ask branch.now query.now ∷ [])
            (stage_of pass.old sessions.now.entries places)
            (stage_of pass.new sessions.now.entries places)) }
        ensures stopped { IfErr result
            (IsStopped (setting (fix T.meaning N.terms A.address) T.forms N.opened)
            (sights_of sessions.now.entries) (step.Ask branch.now query.now) pass.new) }
    {
        let seen = match self.shared.look(self.rt, pass, branch) {
            Ok(seen) => seen,
            Err(LookRefused::UnknownBranch { .. }) => {
                return Err(Stop::Refused(ClientRefusal::UnknownBranch { name: *branch }));
            }
            Err(LookRefused::Memory) => return Err(Stop::Refused(ClientRefusal::Memory)),
        };
        let query = match T::query(query) {
            Ok(Some(query)) => query,
            Ok(None) => return Err(Stop::Refused(ClientRefusal::NoSequences)),
            Err(Memory) => return Err(Stop::Refused(ClientRefusal::Memory)),
        };
        match seen.ask(&query) {
            Ok(_) => Ok(()),
            Err(Memory) => Err(Stop::Refused(ClientRefusal::Memory)),
        }
    }

    /// Does a step; whether the session that moved could look again.
    pub(crate) fn step(
        &self,
        pass: &mut Pass<T, N>,
        sessions: &mut Sessions<T>,
        places: &mut Vec<u64>,
        step: &Step,
    ) -> Result<bool, Stop>
        requires allowed { AllowsStep T.forms N.allows step.now }
        requires sessions { AreSessions N.terms pass.old.moves sessions.old.entries }
        requires parts { 1 < pass.old.parts }
        requires room { length places.old.items < vec_capacity places.old }
        ensures advances { Advances pass.old pass.new places.old.items places.new.items }
        ensures valid { KeepsValid (fix T.meaning N.terms A.address) pass.old pass.new }
        ensures capacity { vec_capacity places.old ≤ vec_capacity places.new }
        ensures sessions { OnOk result (AreSessions N.terms pass.new.moves sessions.new.entries) }
        ensures plays { OnOk result (PlaysOn T.forms N.terms.origin
            (step.now ∷ [])
            (stage_of pass.old sessions.old.entries places.old.items)
            (stage_of pass.new sessions.new.entries places.new.items)) }
        ensures few { length places.new.items ≤ length places.old.items + 1 }
        ensures stopped { IfErr result
            (Stops (setting (fix T.meaning N.terms A.address) T.forms N.opened)
            (sights_of sessions.old.entries) step.now pass.old pass.new places.old.items
            places.new.items) }
    {
        match step {
            Step::Look { session, branch } => {
                self.look(pass, sessions, session, branch)?;
                Ok(true)
            }
            Step::Fork { new, from } => {
                self.fork(pass, sessions, places, new, from)?;
                Ok(true)
            }
            Step::Merge { session, branch } => {
                self.merge(pass, sessions, places, session, branch)
            }
            Step::Join { session, branches } => {
                self.join(pass, sessions, places, session, branches.as_slice())
            }
            Step::Do { session, op } => self.operation(pass, sessions, places, session, op),
            Step::Drop { session } => {
                self.drop_branch(pass, sessions, places, session)?;
                Ok(true)
            }
            Step::Ask { branch, query } => {
                self.ask(pass, sessions, branch, query)?;
                Ok(true)
            }
        }
    }
}
