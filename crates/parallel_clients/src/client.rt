// A client at a shared store, and its looks.
ghost use Rattle.std.specs.Prelude.{◌≡◌, ◌≤◌, OnErr, IfOk, IfErr};
ghost use mathlib.Core.List.{IsPrefix};
ghost use Rattle.branch_machine.specs.Fixed.{fix};
ghost use Rattle.branch_machine.specs.Validity.{IsFullyValid};
ghost use Rattle.store_seen.specs.Turns.{LookRefusedAs};
ghost use Rattle.branch_shared.specs.Passes.{IsSeenOn, seen_by};
ghost use Rattle.parallel_clients.specs.Played.{HasNumber, with_sight};
ghost use Rattle.parallel_clients.specs.Sessions.{AreSessions, sights_of};

use crate::gate::Gate;
use crate::sessions::{Session, set_session};
use branch_address::Address;
use branch_disk::Disk;
use branch_doc::Forms;
use branch_names::Name;
use branch_shared::{Named, Pass, Shared};
use mrdt_model::Memory;
use std::collections::BTreeMap;
use std::sync::Wait;
use store_seen::{LookRefused, Seen};

/// A client's sessions, by their names.
pub(crate) type Sessions<T> = BTreeMap<Name, Session<Seen<T>>>;

/// A client: its number, the store that it works on, and the gate that it passes.
#[derive(Drop)]
pub(crate) struct Client<
    'a,
    T: Forms,
    D: Disk + Drop,
    A: Address,
    N: Named<T::Op, T::Reply>,
    G: Gate,
    R: Wait,
> {
    pub(crate) rt: &'a R,
    pub(crate) shared: &'a Shared<T, D, A, N>,
    pub(crate) gate: &'a G,
    pub(crate) number: u64,
}

impl<T: Forms, D: Disk + Drop, A: Address, N: Named<T::Op, T::Reply>, G: Gate, R: Wait> Client<
    '_,
    T,
    D,
    A,
    N,
    G,
    R,
> {
    /// A session looks at a branch, and sees its head from now on; the number that the branch has.
    pub(crate) fn look_at(
        &self,
        pass: &mut Pass<T, N>,
        sessions: &mut Sessions<T>,
        session: &Name,
        branch: &Name,
    ) -> Result<u32, LookRefused>
        requires { AreSessions N.terms pass.old.moves sessions.old.entries }
        ensures prefix { IsPrefix pass.old.moves pass.new.moves }
        ensures valid { IsFullyValid (fix T.meaning N.terms A.address) pass.new.moves }
        ensures faults { pass.old.faults ≤ pass.new.faults }
        ensures rest { IsSeenOn pass.old pass.new }
        ensures sessions { AreSessions N.terms pass.new.moves sessions.new.entries }
        ensures sees { IfOk result (λ number. sights_of sessions.new.entries
            ≡ with_sight (sights_of sessions.old.entries) session.now number) }
        ensures there { IfOk result (λ number.
            HasNumber N.terms.origin branch.now number pass.new.moves) }
        ensures kept { OnErr result (sights_of sessions.new.entries
            ≡ sights_of sessions.old.entries) }
        ensures refused { IfErr result
            (LookRefusedAs T.meaning (seen_by pass.new N.terms) branch.now) }
    {
        let seen = self.shared.look(self.rt, pass, branch)?;
        let number = seen.branch();
        let looked = Session {
            branch: *branch,
            seen,
        };
        match set_session(sessions, session, looked) {
            Ok(()) => Ok(number),
            Err(Memory) => Err(LookRefused::Memory),
        }
    }
}
