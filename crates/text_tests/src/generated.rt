// Generated work, with expected values of a program that was written from the format alone.
use branch_doc::PlainOp;
use branch_gen::client_steps;
use branch_script::Step;
use std::test::Fail;

// What a step says: its verb or operation, its first two names or bytes, the word behind them and the amount.
fn said(step: &Step) -> (&[u8], &[u8], &[u8], &[u8], i64) {
    match step {
        Step::Fork { new, from } => (b"fork", new.as_bytes(), from.as_bytes(), b"", 0),
        Step::Look { session, branch } => (b"look", session.as_bytes(), branch.as_bytes(), b"", 0),
        Step::Merge { session, branch } => {
            (b"merge", session.as_bytes(), branch.as_bytes(), b"", 0)
        }
        Step::Do { session, op } => match op {
            PlainOp::CounterAdd { key, amount } => {
                (b"count", session.as_bytes(), key.as_slice(), b"", *amount)
            }
            PlainOp::SetAdd { key, element } => (
                b"add",
                session.as_bytes(),
                key.as_slice(),
                element.as_slice(),
                0,
            ),
            PlainOp::QueueDequeue { key } => {
                (b"dequeue", session.as_bytes(), key.as_slice(), b"", 0)
            }
            _ => (b"", b"", b"", b"", 0),
        },
        Step::Join { session, .. } => (b"join", session.as_bytes(), b"", b"", 0),
        Step::Drop { session } => (b"drop", session.as_bytes(), b"", b"", 0),
        Step::Ask { .. } => (b"", b"", b"", b"", 0),
    }
}

#[test]
fn the_first_steps_of_client_3(rt: HostRuntime) -> Result<(), Fail> {
    let rows: [(&[u8], &[u8], &[u8], &[u8], i64); 10] = [
        (b"fork", b"c3", b"main", b"", 0),
        (b"look", b"own", b"c3", b"", 0),
        (b"look", b"top", b"main", b"", 0),
        (b"merge", b"top", b"c3", b"", 0),
        (b"count", b"top", b"k3", b"", 96),
        (b"merge", b"own", b"main", b"", 0),
        (b"count", b"own", b"k7", b"", 54),
        (b"add", b"own", b"k4", b"w7", 0),
        (b"count", b"own", b"k2", b"", 23),
        (b"dequeue", b"own", b"k5", b"", 0),
    ];
    let steps = client_steps(rt.alloc(), 3, 7, 7)?;
    assert!(rt; steps.as_slice().len() == rows.len());
    for (step, row) in steps.as_slice().iter().zip(rows.iter()) {
        assert!(rt; said(step) == *row);
    }
    Ok(())
}
