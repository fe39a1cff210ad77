// What the sessions of a client see.
ghost use Rattle.std.specs.Prelude.{◌≡◌, List, ℕ, OnOk, OnErr};
ghost use Rattle.parallel_clients.specs.Sessions.{Puts, session_named};

use branch_names::Name;
use mrdt_model::Memory;
use std::collections::BTreeMap;

/// What a session sees: the branch of its last look, and the look.
#[derive(Drop)]
pub(crate) struct Session<S> {
    pub(crate) branch: Name,
    pub(crate) seen: S,
}

/// A session sees this from now on.
pub(crate) fn set_session<S: Drop>(
    sessions: &mut BTreeMap<Name, S>,
    session: &Name,
    seen: S,
) -> Result<(), Memory>
    ensures put { OnOk result (Puts sessions.old.entries sessions.new.entries session.now seen) }
    ensures kept { OnErr result ((name : List ℕ)
        → session_named sessions.new.entries name ≡ session_named sessions.old.entries name) }
{
    match sessions.insert(*session, seen) {
        Ok(_) => Ok(()),
        Err(_) => Err(Memory),
    }
}
