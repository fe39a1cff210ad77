// What is told of commits that stores exchange. Each text is a line. After `Memory` a first part of it has been written.
ghost use Rattle.std.specs.Prelude.{◌≡◌, ◌++◌, [], OnOk, OnErr};
ghost use Rattle.mrdt_model.specs.Spelled.{AppendsPart};
ghost use Rattle.branch_history.specs.Steps.{UnknownBranch, NameTaken, Exhausted, FullCommits, FullBranches, FullMoves, ValueTooLarge, OwnOrigin, TimeClash, BadBundle, Collision};
ghost use Rattle.branch_print.specs.Sent.{address_text, received_text, stop_text};

use crate::pieces::{put_count, put_pieces};
use crate::refusals::hex_digits;
use branch_names::Name;
use itoa::Buffer;
use mrdt_model::Memory;

/// An address, in 64 lower-case hexadecimal digits.
pub fn put_address(out: &mut Vec<u8>, address: &[u8; 32]) -> Result<(), Memory>
    ensures ok { OnOk result (out.new.items ≡ out.old.items ++ address_text address.now) }
    ensures err { OnErr result
        (AppendsPart out.old.items out.new.items (address_text address.now)) }
{
    let digits = hex_digits(address);
    put_pieces(out, &[digits.as_slice(), b"\n"])
}

/// So many commits were new, and the branch of a number was made at the commit of another: `received 1 as 1 at #2`.
pub fn put_received(out: &mut Vec<u8>, count: u64, branch: u32, commit: u32) -> Result<(), Memory>
    ensures ok { OnOk result (out.new.items ≡ out.old.items ++ received_text count branch commit) }
    ensures err { OnErr result
        (AppendsPart out.old.items out.new.items (received_text count branch commit)) }
{
    let mut count_digits = Buffer::new();
    let mut branch_digits = Buffer::new();
    let mut commit_digits = Buffer::new();
    put_pieces(
        out,
        &[
            b"received ",
            count_digits.format(count).as_bytes(),
            b" as ",
            branch_digits.format(branch).as_bytes(),
            b" at #",
            commit_digits.format(commit).as_bytes(),
            b"\n",
        ],
    )
}

/// No branch has the name: `refused unknown nope`.
pub fn put_refused_unknown(out: &mut Vec<u8>, name: &Name) -> Result<(), Memory>
    ensures ok { OnOk result (out.new.items ≡ out.old.items
        ++ stop_text 0 (UnknownBranch name.now)) }
    ensures err { OnErr result
        (AppendsPart out.old.items out.new.items (stop_text 0 (UnknownBranch name.now))) }
{
    put_pieces(out, &[b"refused unknown ", name.as_bytes(), b"\n"])
}

/// The new name is that of the branch with this number: `refused taken 1`.
pub fn put_refused_taken(out: &mut Vec<u8>, number: u32) -> Result<(), Memory>
    ensures ok { OnOk result (out.new.items ≡ out.old.items ++ stop_text 0 (NameTaken number)) }
    ensures err { OnErr result
        (AppendsPart out.old.items out.new.items (stop_text 0 (NameTaken number))) }
{
    put_count(out, b"refused taken ", u64::from(number))
}

/// The item of this number may not stand here, or number 0, the bundle, is none: `refused bundle 1`.
pub fn put_refused_bundle(out: &mut Vec<u8>, item: u64) -> Result<(), Memory>
    ensures ok { OnOk result (out.new.items ≡ out.old.items ++ stop_text item BadBundle) }
    ensures err { OnErr result
        (AppendsPart out.old.items out.new.items (stop_text item BadBundle)) }
{
    put_count(out, b"refused bundle ", item)
}

/// The item of this number has an origin of the store's own: `refused own origin 1`.
pub fn put_refused_own_origin(out: &mut Vec<u8>, item: u64) -> Result<(), Memory>
    ensures ok { OnOk result (out.new.items ≡ out.old.items ++ stop_text item OwnOrigin) }
    ensures err { OnErr result
        (AppendsPart out.old.items out.new.items (stop_text item OwnOrigin)) }
{
    put_count(out, b"refused own origin ", item)
}

/// The operation of the item of this number has the time of another one, of a commit that is here: `refused time clash 1
/// with #2`.
pub fn put_refused_time_clash(out: &mut Vec<u8>, item: u64, commit: u32) -> Result<(), Memory>
    ensures ok { OnOk result (out.new.items ≡ out.old.items ++ stop_text item (TimeClash commit)) }
    ensures err { OnErr result
        (AppendsPart out.old.items out.new.items (stop_text item (TimeClash commit))) }
{
    let mut item_digits = Buffer::new();
    let mut commit_digits = Buffer::new();
    put_pieces(
        out,
        &[
            b"refused time clash ",
            item_digits.format(item).as_bytes(),
            b" with #",
            commit_digits.format(commit).as_bytes(),
            b"\n",
        ],
    )
}

/// The clock of the parent is the limit: `refused exhausted 2`.
pub fn put_refused_exhausted(out: &mut Vec<u8>, clock: u64) -> Result<(), Memory>
    ensures ok { OnOk result (out.new.items ≡ out.old.items ++ stop_text 0 (Exhausted clock)) }
    ensures err { OnErr result
        (AppendsPart out.old.items out.new.items (stop_text 0 (Exhausted clock))) }
{
    put_count(out, b"refused exhausted ", clock)
}

/// The spellings have too many bytes: `refused too large 162`.
pub fn put_refused_too_large(out: &mut Vec<u8>, length: u64) -> Result<(), Memory>
    ensures ok { OnOk result (out.new.items ≡ out.old.items ++ stop_text 0 (ValueTooLarge length)) }
    ensures err { OnErr result
        (AppendsPart out.old.items out.new.items (stop_text 0 (ValueTooLarge length))) }
{
    put_count(out, b"refused too large ", length)
}

/// The store holds its limit of commits: `refused full commits 2`.
pub fn put_refused_full_commits(out: &mut Vec<u8>, count: u32) -> Result<(), Memory>
    ensures ok { OnOk result (out.new.items ≡ out.old.items ++ stop_text 0 (FullCommits count)) }
    ensures err { OnErr result
        (AppendsPart out.old.items out.new.items (stop_text 0 (FullCommits count))) }
{
    put_count(out, b"refused full commits ", u64::from(count))
}

/// The store holds its limit of branches: `refused full branches 1`.
pub fn put_refused_full_branches(out: &mut Vec<u8>, count: u32) -> Result<(), Memory>
    ensures ok { OnOk result (out.new.items ≡ out.old.items ++ stop_text 0 (FullBranches count)) }
    ensures err { OnErr result
        (AppendsPart out.old.items out.new.items (stop_text 0 (FullBranches count))) }
{
    put_count(out, b"refused full branches ", u64::from(count))
}

/// The history has its limit of moves: `refused full moves 1`.
pub fn put_refused_full_moves(out: &mut Vec<u8>, count: u64) -> Result<(), Memory>
    ensures ok { OnOk result (out.new.items ≡ out.old.items ++ stop_text 0 (FullMoves count)) }
    ensures err { OnErr result
        (AppendsPart out.old.items out.new.items (stop_text 0 (FullMoves count))) }
{
    put_count(out, b"refused full moves ", count)
}

/// The store has other bytes at the address of a new object: `refused collision ` and the address in 64 lower-case
/// hexadecimal digits.
pub fn put_refused_collision(out: &mut Vec<u8>, address: &[u8; 32]) -> Result<(), Memory>
    ensures ok { OnOk result (out.new.items
        ≡ out.old.items ++ stop_text 0 (Collision address.now [] [])) }
    ensures err { OnErr result
        (AppendsPart out.old.items out.new.items (stop_text 0 (Collision address.now [] []))) }
{
    let digits = hex_digits(address);
    put_pieces(out, &[b"refused collision ", digits.as_slice(), b"\n"])
}
