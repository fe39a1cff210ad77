// The replies to lines that are no step, and to steps that were refused. After `Memory` a first part of the
// text has been written.
ghost use Rattle.std.specs.Prelude.{◌≡◌, ◌++◌, [], OnOk, OnErr};
ghost use Rattle.hex.specs.Hex.{encode_lower};
ghost use Rattle.mrdt_model.specs.Spelled.{AppendsPart};
ghost use Rattle.branch_history.specs.Steps.{UnknownBranch, Dropped, KeepsMain, Stale, NameTaken, Exhausted, FullCommits, FullBranches, FullMoves, ValueTooLarge, Collision};
ghost use Rattle.branch_print.specs.Texts.{refusal_text, line_refusal_text, unseen_text, no_sequences_text, unknown_commit_text, line_end};

use crate::pieces::{put_count, put_pieces, put_text};
use branch_names::Name;
use branch_script::LineRefused;
use itoa::Buffer;
use mrdt_model::Memory;

// The words of a line that is no step.
fn line_words(refusal: LineRefused) -> &'static [u8]
    ensures { result.now ≡ line_refusal_text refusal }
{
    match refusal {
        LineRefused::Syntax => b"error syntax",
        LineRefused::BadName => b"error name",
        LineRefused::BadNumber => b"error number",
        LineRefused::Memory => b"",
    }
}

/// A line that is no step: `error syntax`, `error name`, `error number`. For want of memory it is an empty
/// line, which no caller asks for.
pub fn put_line_refusal(out: &mut Vec<u8>, refusal: LineRefused) -> Result<(), Memory>
    ensures ok { OnOk result (out.new.items
        ≡ out.old.items ++ (line_refusal_text refusal ++ line_end)) }
    ensures err { OnErr result
        (AppendsPart out.old.items out.new.items (line_refusal_text refusal ++ line_end)) }
{
    put_pieces(out, &[line_words(refusal), b"\n"])
}

/// The session has not looked: `error unseen a`.
pub fn put_unseen(out: &mut Vec<u8>, session: &Name) -> Result<(), Memory>
    ensures ok { OnOk result (out.new.items
        ≡ out.old.items ++ (unseen_text session.now ++ line_end)) }
    ensures err { OnErr result
        (AppendsPart out.old.items out.new.items (unseen_text session.now ++ line_end)) }
{
    put_pieces(out, &[b"error unseen ", session.as_bytes(), b"\n"])
}

/// The store has no sequences: `error no sequences`.
pub fn put_no_sequences(out: &mut Vec<u8>) -> Result<(), Memory>
    ensures ok { OnOk result (out.new.items ≡ out.old.items ++ (no_sequences_text ++ line_end)) }
    ensures err { OnErr result
        (AppendsPart out.old.items out.new.items (no_sequences_text ++ line_end)) }
{
    put_text(out, b"error no sequences\n")
}

/// No branch has the name: `error unknown nope`.
pub fn put_unknown(out: &mut Vec<u8>, name: &Name) -> Result<(), Memory>
    ensures ok { OnOk result (out.new.items
        ≡ out.old.items ++ (refusal_text [] (UnknownBranch name.now) ++ line_end)) }
    ensures err { OnErr result
        (AppendsPart out.old.items out.new.items
        (refusal_text [] (UnknownBranch name.now) ++ line_end)) }
{
    put_pieces(out, &[b"error unknown ", name.as_bytes(), b"\n"])
}

/// The store has no commit of this number: `error unknown #9`.
pub fn put_unknown_commit(out: &mut Vec<u8>, number: u32) -> Result<(), Memory>
    ensures ok { OnOk result (out.new.items
        ≡ out.old.items ++ (unknown_commit_text number ++ line_end)) }
    ensures err { OnErr result
        (AppendsPart out.old.items out.new.items (unknown_commit_text number ++ line_end)) }
{
    put_count(out, b"error unknown #", u64::from(number))
}

/// The branch of this number was dropped: `error dropped 1`.
pub fn put_dropped(out: &mut Vec<u8>, number: u32) -> Result<(), Memory>
    ensures ok { OnOk result (out.new.items ≡ out.old.items
        ++ (refusal_text [] (Dropped number) ++ line_end)) }
    ensures err { OnErr result (AppendsPart out.old.items out.new.items
        (refusal_text [] (Dropped number) ++ line_end)) }
{
    put_count(out, b"error dropped ", u64::from(number))
}

/// The first branch is not dropped: `error keeps main`.
pub fn put_keeps_main(out: &mut Vec<u8>) -> Result<(), Memory>
    ensures ok { OnOk result (out.new.items ≡ out.old.items
        ++ (refusal_text [] KeepsMain ++ line_end)) }
    ensures err { OnErr result (AppendsPart out.old.items out.new.items
        (refusal_text [] KeepsMain ++ line_end)) }
{
    put_text(out, b"error keeps main\n")
}

/// The head of the branch with this name is not the one that was seen, but a newer one: `stale main at #1`.
pub fn put_stale(out: &mut Vec<u8>, branch: &Name, newest: u32) -> Result<(), Memory>
    ensures ok { OnOk result (out.new.items
        ≡ out.old.items ++ (refusal_text branch.now (Stale newest) ++ line_end)) }
    ensures err { OnErr result
        (AppendsPart out.old.items out.new.items
        (refusal_text branch.now (Stale newest) ++ line_end)) }
{
    let mut digits = Buffer::new();
    put_pieces(
        out,
        &[
            b"stale ",
            branch.as_bytes(),
            b" at #",
            digits.format(newest).as_bytes(),
            b"\n",
        ],
    )
}

/// The new name is that of the branch with this number: `error taken 0`.
pub fn put_taken(out: &mut Vec<u8>, number: u32) -> Result<(), Memory>
    ensures ok { OnOk result (out.new.items
        ≡ out.old.items ++ (refusal_text [] (NameTaken number) ++ line_end)) }
    ensures err { OnErr result
        (AppendsPart out.old.items out.new.items (refusal_text [] (NameTaken number) ++ line_end)) }
{
    put_count(out, b"error taken ", u64::from(number))
}

/// The clock that was seen is the limit: `error exhausted 2`.
pub fn put_exhausted(out: &mut Vec<u8>, clock: u64) -> Result<(), Memory>
    ensures ok { OnOk result (out.new.items
        ≡ out.old.items ++ (refusal_text [] (Exhausted clock) ++ line_end)) }
    ensures err { OnErr result
        (AppendsPart out.old.items out.new.items (refusal_text [] (Exhausted clock) ++ line_end)) }
{
    put_count(out, b"error exhausted ", clock)
}

/// The store holds its limit of commits: `error full commits 2`.
pub fn put_full_commits(out: &mut Vec<u8>, count: u32) -> Result<(), Memory>
    ensures ok { OnOk result (out.new.items
        ≡ out.old.items ++ (refusal_text [] (FullCommits count) ++ line_end)) }
    ensures err { OnErr result
        (AppendsPart out.old.items out.new.items
        (refusal_text [] (FullCommits count) ++ line_end)) }
{
    put_count(out, b"error full commits ", u64::from(count))
}

/// The store holds its limit of branches: `error full branches 1`.
pub fn put_full_branches(out: &mut Vec<u8>, count: u32) -> Result<(), Memory>
    ensures ok { OnOk result (out.new.items
        ≡ out.old.items ++ (refusal_text [] (FullBranches count) ++ line_end)) }
    ensures err { OnErr result
        (AppendsPart out.old.items out.new.items
        (refusal_text [] (FullBranches count) ++ line_end)) }
{
    put_count(out, b"error full branches ", u64::from(count))
}

/// The history has its limit of moves: `error full moves 1`.
pub fn put_full_moves(out: &mut Vec<u8>, count: u64) -> Result<(), Memory>
    ensures ok { OnOk result (out.new.items
        ≡ out.old.items ++ (refusal_text [] (FullMoves count) ++ line_end)) }
    ensures err { OnErr result
        (AppendsPart out.old.items out.new.items (refusal_text [] (FullMoves count) ++ line_end)) }
{
    put_count(out, b"error full moves ", count)
}

/// The spellings have too many bytes: `error too large 162`.
pub fn put_too_large(out: &mut Vec<u8>, length: u64) -> Result<(), Memory>
    ensures ok { OnOk result (out.new.items
        ≡ out.old.items ++ (refusal_text [] (ValueTooLarge length) ++ line_end)) }
    ensures err { OnErr result
        (AppendsPart out.old.items out.new.items
        (refusal_text [] (ValueTooLarge length) ++ line_end)) }
{
    put_count(out, b"error too large ", length)
}

/// The address in hexadecimal digits.
pub(crate) fn hex_digits(address: &[u8; 32]) -> [u8; 64]
    ensures { result ≡ encode_lower address.now }
{
    let mut digits = [0; 64];
    match hex::encode_to_slice(address.as_slice(), &mut digits) {
        Ok(()) => digits,
        Err(_) => unreachable!(),
    }
}

/// The store has other bytes at the address of a new object: `error collision ` and the address in 64 lower-case
/// hexadecimal digits.
pub fn put_collision(out: &mut Vec<u8>, address: &[u8; 32]) -> Result<(), Memory>
    ensures ok { OnOk result (out.new.items
        ≡ out.old.items ++ (refusal_text [] (Collision address.now [] []) ++ line_end)) }
    ensures err { OnErr result
        (AppendsPart out.old.items out.new.items
        (refusal_text [] (Collision address.now [] []) ++ line_end)) }
{
    let digits = hex_digits(address);
    put_pieces(out, &[b"error collision ", digits.as_slice(), b"\n"])
}
