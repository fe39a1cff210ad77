// Many clients whose landings go to the disk together.
use crate::plays::{play, script};
use branch_script::Step;
use mrdt_model::Listing;
use parallel_clients::{ClientRefusal, OpenGate, Outcome};
use std::alloc::Global;
use std::test::Fail;

const CALLERS: u64 = 200;

// The steps of as many clients, each of which forks a branch of its own and lands an operation there.
pub(crate) fn scripts(alloc: Global, count: u64) -> Result<Vec<Listing<Step>>, Fail> {
    let mut scripts = Vec::new(alloc);
    for number in 0..count {
        let fork = format!(in alloc; "fork q{number} main")?;
        let look = format!(in alloc; "look a q{number}")?;
        let lines = [fork.as_str(), look.as_str(), "do a counter hits add 5"];
        scripts.push(script(alloc, &lines)?)?;
    }
    Ok(scripts)
}

// How many moves a client has that was not refused.
fn moves_of(outcome: &Outcome) -> usize {
    match outcome {
        Outcome::Done { places } => places.as_slice().len(),
        _ => 0,
    }
}

// Two hundred clients wait for one lock, of whose landings up to 64 go together. Each of their moves landed, and no other.
#[test]
fn two_hundred_callers(rt: HostRuntime) -> Result<(), Fail> {
    let alloc = rt.alloc();
    let scripts = scripts(alloc, CALLERS)?;
    let played = play(&rt, alloc, Vec::new(alloc), &scripts, &OpenGate);
    assert_eq!(rt; played.outcomes.as_slice().len(), scripts.len());
    for outcome in played.outcomes.as_slice() {
        assert_eq!(rt; moves_of(outcome), 2);
    }
    assert_eq!(rt; played.moves, 2 * CALLERS);
    Ok(())
}

// Whether a client was done, or was told that the disk failed or had failed.
fn is_done_or_failed(outcome: &Outcome) -> bool {
    match outcome {
        Outcome::Done { .. } => true,
        Outcome::Refused { refusal, .. } => {
            matches!(
                refusal,
                ClientRefusal::DiskFault | ClientRefusal::Failed { .. }
            )
        }
        Outcome::Unseen { .. } => false,
    }
}

// A device call fails under clients that land together: no client waits for ever, and those that come later are told.
#[test]
fn a_fault_under_many(rt: HostRuntime) -> Result<(), Fail> {
    let alloc = rt.alloc();
    for call in [12, 60, 111, 150] {
        let scripts = scripts(alloc, 16)?;
        let played = play(&rt, alloc, vec![in alloc; call]?, &scripts, &OpenGate);
        let mut landed: u64 = 0;
        for outcome in played.outcomes.as_slice() {
            assert!(rt; is_done_or_failed(outcome));
            landed = landed.saturating_add(moves_of(outcome) as u64);
        }
        assert!(rt; landed <= played.moves);
        assert_eq!(rt; played.has_failed, played.moves < 32);
    }
    Ok(())
}
