// What clients come to that work beside one another.
use crate::meeting::Meeting;
use crate::plays::{play, script};
use parallel_clients::Outcome;
use std::test::Fail;

const ONE: [&str; 2] = ["look a main", "do a counter hits add 5"];

// Ten moves, among them a join and a drop.
const TEN: [&str; 13] = [
    "fork q main",
    "look b q",
    "do b counter hits add 5",
    "fork r main",
    "look c r",
    "do c counter hits add 5",
    "look a main",
    "join a q r",
    "drop b",
    "do a counter hits add 5",
    "do a counter hits add 5",
    "do a counter hits add 5",
    "do a counter hits add 5",
];

// Whether a client is done, and its moves have these places.
fn is_done_at(outcome: &Outcome, wanted: &[u64]) -> bool {
    match outcome {
        Outcome::Done { places } => places.as_slice() == wanted,
        _ => false,
    }
}

// One client is held where it is about to prepare until another has landed so many moves. What it has seen is stale
// then, so it looks and prepares again.
#[test]
fn one_is_held_while_another_lands(rt: HostRuntime) -> Result<(), Fail> {
    let alloc = rt.alloc();
    let rows: [(u64, &[&str], &[u64], &[u64]); 2] = [
        (1, &ONE, &[2], &[1]),
        (10, &TEN, &[11], &[1, 2, 3, 4, 5, 6, 7, 8, 9, 10]),
    ];
    for (landings, lines, held, other) in rows {
        let scripts = [script(alloc, &ONE)?, script(alloc, lines)?];
        let gate = Meeting::new(landings);
        let played = play(&rt, alloc, Vec::new(alloc), &scripts, &gate);
        let outcomes = played.outcomes.as_slice();
        assert!(rt; !gate.is_late());
        assert!(rt; outcomes.len() == 2);
        assert!(rt; is_done_at(&outcomes[0], held));
        assert!(rt; is_done_at(&outcomes[1], other));
    }
    Ok(())
}
