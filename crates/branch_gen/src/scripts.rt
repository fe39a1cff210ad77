// Scripts of drawn lines.
ghost use Rattle.std.specs.Prelude.{◌≡◌, ◌++◌, ◌<◌, IfOk, OnOk};
ghost use Rattle.branch_gen.specs.Draws.{next};
ghost use Rattle.branch_gen.specs.Scripts.{session_text, branch_text, do_text, plain_line, word_line, amount_line, merge_line, look_text, line_for, line, lines, begin_text, script_text};

use crate::draws::Draws;
use crate::pieces::{put_number, put_signed, put_text};
use mrdt_model::{Bytes, Memory};
use std::alloc::Global;

// The session of a number.
fn put_session(out: &mut Vec<u8>, session: u64) -> Result<(), Memory>
    ensures { OnOk result (out.new.items ≡ out.old.items ++ session_text session) }
{
    put_text(out, b"s")?;
    put_number(out, session)
}

// The branch of a number.
fn put_branch(out: &mut Vec<u8>, branch: u64) -> Result<(), Memory>
    ensures { OnOk result (out.new.items ≡ out.old.items ++ branch_text branch) }
{
    if branch == 0 {
        return put_text(out, b"main");
    }
    put_text(out, b"g")?;
    put_number(out, branch)
}

// `do SESSION KIND KEY OPERATION`, with a drawn key.
fn put_do(
    alloc: Global,
    out: &mut Vec<u8>,
    draws: &mut Draws,
    session: u64,
    kind: &[u8],
    operation: &[u8],
) -> Result<(), Memory>
    ensures text { OnOk result (out.new.items
        ≡ out.old.items ++ do_text session kind.now operation.now draws.old.state) }
    ensures state { OnOk result (draws.new.state ≡ next draws.old.state) }
{
    let key = draws.key(alloc)?;
    put_text(out, b"do ")?;
    put_session(out, session)?;
    put_text(out, b" ")?;
    put_text(out, kind)?;
    put_text(out, b" ")?;
    put_text(out, key.as_slice())?;
    put_text(out, b" ")?;
    put_text(out, operation)
}

// A line with an operation that takes no word.
fn put_plain(
    alloc: Global,
    out: &mut Vec<u8>,
    draws: &mut Draws,
    session: u64,
    kind: &[u8],
    operation: &[u8],
) -> Result<(), Memory>
    ensures text { OnOk result (out.new.items
        ≡ out.old.items ++ (plain_line session kind.now operation.now draws.old.state).made) }
    ensures state { OnOk result (draws.new.state
        ≡ (plain_line session kind.now operation.now draws.old.state).state) }
{
    put_do(alloc, out, draws, session, kind, operation)?;
    put_text(out, b"\n")
}

// One with an operation that takes a word.
fn put_with_word(
    alloc: Global,
    out: &mut Vec<u8>,
    draws: &mut Draws,
    session: u64,
    kind: &[u8],
    operation: &[u8],
) -> Result<(), Memory>
    ensures text { OnOk result (out.new.items
        ≡ out.old.items ++ (word_line session kind.now operation.now draws.old.state).made) }
    ensures state { OnOk result (draws.new.state
        ≡ (word_line session kind.now operation.now draws.old.state).state) }
{
    put_do(alloc, out, draws, session, kind, operation)?;
    let word = draws.word(alloc)?;
    put_text(out, b" ")?;
    put_text(out, word.as_slice())?;
    put_text(out, b"\n")
}

// An addition to a counter.
fn put_addition(
    alloc: Global,
    out: &mut Vec<u8>,
    draws: &mut Draws,
    session: u64,
) -> Result<(), Memory>
    ensures text { OnOk result (out.new.items
        ≡ out.old.items ++ (amount_line session draws.old.state).made) }
    ensures state { OnOk result (draws.new.state ≡ (amount_line session draws.old.state).state) }
{
    put_do(alloc, out, draws, session, b"counter", b"add")?;
    let amount = draws.amount();
    put_text(out, b" ")?;
    put_signed(out, amount)?;
    put_text(out, b"\n")
}

// A merge of a branch that is drawn.
fn put_merge(out: &mut Vec<u8>, draws: &mut Draws, session: u64) -> Result<(), Memory>
    ensures text { OnOk result (out.new.items
        ≡ out.old.items ++ (merge_line session draws.old.state).made) }
    ensures state { OnOk result (draws.new.state ≡ (merge_line session draws.old.state).state) }
{
    let branch = draws.pick(4);
    put_text(out, b"merge ")?;
    put_session(out, session)?;
    put_text(out, b" ")?;
    put_branch(out, branch)?;
    put_text(out, b"\n")
}

// A look at the session's own branch.
fn put_look(out: &mut Vec<u8>, session: u64) -> Result<(), Memory>
    ensures { OnOk result (out.new.items ≡ out.old.items ++ look_text session) }
{
    put_text(out, b"look ")?;
    put_session(out, session)?;
    put_text(out, b" ")?;
    put_branch(out, session)?;
    put_text(out, b"\n")
}

// The line that a number below 16 stands for.
#[tactic(auto, unfolding(crate::specs::Scripts::line_for))]
fn put_line_for(
    alloc: Global,
    out: &mut Vec<u8>,
    draws: &mut Draws,
    session: u64,
    action: u64,
) -> Result<(), Memory>
    requires { action < 16 }
    ensures text { OnOk result (out.new.items
        ≡ out.old.items ++ (line_for session action draws.old.state).made) }
    ensures state { OnOk result (draws.new.state
        ≡ (line_for session action draws.old.state).state) }
{
    match action {
        0..=1 => put_merge(out, draws, session),
        2 => put_look(out, session),
        3..=4 => put_addition(alloc, out, draws, session),
        5 => put_plain(alloc, out, draws, session, b"flag", b"enable"),
        6 => put_plain(alloc, out, draws, session, b"flag", b"disable"),
        7 => put_with_word(alloc, out, draws, session, b"lww", b"set"),
        8 => put_with_word(alloc, out, draws, session, b"multi", b"set"),
        9..=10 => put_with_word(alloc, out, draws, session, b"set", b"add"),
        11 => put_with_word(alloc, out, draws, session, b"set", b"remove"),
        12 => put_with_word(alloc, out, draws, session, b"log", b"append"),
        13..=14 => put_with_word(alloc, out, draws, session, b"queue", b"enqueue"),
        _ => put_plain(alloc, out, draws, session, b"queue", b"dequeue"),
    }
}

// A drawn line.
#[tactic(auto, unfolding(crate::specs::Scripts::line))]
fn put_line(alloc: Global, out: &mut Vec<u8>, draws: &mut Draws) -> Result<(), Memory>
    ensures text { OnOk result (out.new.items ≡ out.old.items ++ (line draws.old.state).made) }
    ensures state { OnOk result (draws.new.state ≡ (line draws.old.state).state) }
{
    let session = draws.pick(4);
    let action = draws.pick(16);
    put_line_for(alloc, out, draws, session, action)
}

// Three branches, and a session on each of the four.
fn put_beginning(out: &mut Vec<u8>) -> Result<(), Memory>
    ensures { OnOk result (out.new.items ≡ out.old.items ++ begin_text) }
{
    put_text(
        out,
        b"fork g1 main\nfork g2 main\nfork g3 main\nlook s0 main\nlook s1 g1\nlook s2 g2\nlook s3 g3\n",
    )
}

// As many drawn lines.
fn put_lines(alloc: Global, out: &mut Vec<u8>, draws: &mut Draws, steps: u64) -> Result<(), Memory>
    ensures { OnOk result (out.new.items ≡ out.old.items ++ lines steps draws.old.state) }
{
    for _step in 0..steps {
        put_line(alloc, out, draws)?;
    }
    Ok(())
}

/// The script of a number: three branches and a session on each of the four, and then this many drawn lines.
#[tactic(auto, unfolding(crate::specs::Scripts::script_text))]
pub fn script_text(alloc: Global, steps: u64, number: u64) -> Result<Bytes, Memory>
    ensures { IfOk result (λ text. text ≡ script_text steps number) }
{
    let mut out = Vec::new(alloc);
    put_beginning(&mut out)?;
    let mut draws = Draws { state: number };
    put_lines(alloc, &mut out, &mut draws, steps)?;
    Ok(Bytes::from_vec(out))
}
