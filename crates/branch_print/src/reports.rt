// What a store holds, and how it was made or why it was not opened. After `Memory` a first part of the text has been
// written.
ghost use Rattle.std.specs.Prelude.{◌≡◌, ◌++◌, OnOk, OnErr};
ghost use Rattle.mrdt_model.specs.Spelled.{AppendsPart};
ghost use Rattle.branch_print.specs.Texts.{line_end};
ghost use Rattle.branch_print.specs.Reports.{branch_text, totals_text, ready_text, not_empty_text, upgraded_text, compacted_text, no_store_text, old_version_text, bad_record_text, bad_object_text, bad_commit_text, part_text, truncated_text, no_upgrade_text};

use crate::pieces::{put_count, put_pieces, put_text};
use branch_disk::Part;
use branch_names::Name;
use itoa::Buffer;
use mrdt_model::Memory;

/// A branch and its head: `branch main #4`.
pub fn put_branch(out: &mut Vec<u8>, name: &Name, head: u32) -> Result<(), Memory>
    ensures ok { OnOk result (out.new.items
        ≡ out.old.items ++ (branch_text name.now head ++ line_end)) }
    ensures err { OnErr result
        (AppendsPart out.old.items out.new.items (branch_text name.now head ++ line_end)) }
{
    let mut digits = Buffer::new();
    put_pieces(
        out,
        &[
            b"branch ",
            name.as_bytes(),
            b" #",
            digits.format(head).as_bytes(),
            b"\n",
        ],
    )
}

/// How much a store holds: `moves 5 commits 5 branches 2`.
pub fn put_totals(out: &mut Vec<u8>, moves: u64, commits: u32, branches: u32) -> Result<(), Memory>
    ensures ok { OnOk result (out.new.items
        ≡ out.old.items ++ (totals_text moves commits branches ++ line_end)) }
    ensures err { OnErr result
        (AppendsPart out.old.items out.new.items (totals_text moves commits branches ++ line_end)) }
{
    let mut move_digits = Buffer::new();
    let mut commit_digits = Buffer::new();
    let mut branch_digits = Buffer::new();
    put_pieces(
        out,
        &[
            b"moves ",
            move_digits.format(moves).as_bytes(),
            b" commits ",
            commit_digits.format(commits).as_bytes(),
            b" branches ",
            branch_digits.format(branches).as_bytes(),
            b"\n",
        ],
    )
}

/// A new store was made: `ready`.
pub fn put_ready(out: &mut Vec<u8>) -> Result<(), Memory>
    ensures ok { OnOk result (out.new.items ≡ out.old.items ++ ready_text) }
    ensures err { OnErr result (AppendsPart out.old.items out.new.items ready_text) }
{
    put_text(out, b"ready\n")
}

/// A store was to be made where there are bytes already: `refused not empty`.
pub fn put_not_empty(out: &mut Vec<u8>) -> Result<(), Memory>
    ensures ok { OnOk result (out.new.items ≡ out.old.items ++ not_empty_text) }
    ensures err { OnErr result (AppendsPart out.old.items out.new.items not_empty_text) }
{
    put_text(out, b"refused not empty\n")
}

/// A store of the old version, with so many moves, was made anew in the new one: `upgraded 1`.
pub fn put_upgraded(out: &mut Vec<u8>, moves: u64) -> Result<(), Memory>
    ensures ok { OnOk result (out.new.items ≡ out.old.items ++ upgraded_text moves) }
    ensures err { OnErr result (AppendsPart out.old.items out.new.items (upgraded_text moves)) }
{
    put_count(out, b"upgraded ", moves)
}

/// So many moves of a store stayed when it was made compact, of so many: `compacted 3 of 4`.
pub fn put_compacted(out: &mut Vec<u8>, kept: u64, moves: u64) -> Result<(), Memory>
    ensures ok { OnOk result (out.new.items ≡ out.old.items ++ compacted_text kept moves) }
    ensures err { OnErr result
        (AppendsPart out.old.items out.new.items (compacted_text kept moves)) }
{
    let mut kept_digits = Buffer::new();
    let mut move_digits = Buffer::new();
    put_pieces(
        out,
        &[
            b"compacted ",
            kept_digits.format(kept).as_bytes(),
            b" of ",
            move_digits.format(moves).as_bytes(),
            b"\n",
        ],
    )
}

/// The files are no store: `refused not a store`.
pub fn put_no_store(out: &mut Vec<u8>) -> Result<(), Memory>
    ensures ok { OnOk result (out.new.items ≡ out.old.items ++ no_store_text) }
    ensures err { OnErr result (AppendsPart out.old.items out.new.items no_store_text) }
{
    put_text(out, b"refused not a store\n")
}

/// The files are a store of the old version: `refused old version`.
pub fn put_old_version(out: &mut Vec<u8>) -> Result<(), Memory>
    ensures ok { OnOk result (out.new.items ≡ out.old.items ++ old_version_text) }
    ensures err { OnErr result (AppendsPart out.old.items out.new.items old_version_text) }
{
    put_text(out, b"refused old version\n")
}

/// The record of this number, from 1, may not come where it stands: `refused record 1`.
pub fn put_bad_record(out: &mut Vec<u8>, number: u64) -> Result<(), Memory>
    ensures ok { OnOk result (out.new.items ≡ out.old.items ++ bad_record_text number) }
    ensures err { OnErr result (AppendsPart out.old.items out.new.items (bad_record_text number)) }
{
    put_count(out, b"refused record ", number)
}

/// At this place no objects of a move stand: `refused object 191`.
pub fn put_bad_object(out: &mut Vec<u8>, place: u64) -> Result<(), Memory>
    ensures ok { OnOk result (out.new.items ≡ out.old.items ++ bad_object_text place) }
    ensures err { OnErr result (AppendsPart out.old.items out.new.items (bad_object_text place)) }
{
    put_count(out, b"refused object ", place)
}

/// The commit that would have this number is not made so: `refused commit 1`.
pub fn put_bad_commit(out: &mut Vec<u8>, number: u32) -> Result<(), Memory>
    ensures ok { OnOk result (out.new.items ≡ out.old.items ++ bad_commit_text number) }
    ensures err { OnErr result (AppendsPart out.old.items out.new.items (bad_commit_text number)) }
{
    put_count(out, b"refused commit ", u64::from(number))
}

// The word for a part.
fn part_word(part: Part) -> &'static [u8]
    ensures { result.now ≡ part_text part }
{
    match part {
        Part::Objects => b"objects",
        Part::Heads => b"heads",
    }
}

/// The part ends too soon, at this place: `refused truncated heads 64`.
pub fn put_truncated(out: &mut Vec<u8>, part: Part, place: u64) -> Result<(), Memory>
    ensures ok { OnOk result (out.new.items ≡ out.old.items ++ truncated_text part place) }
    ensures err { OnErr result
        (AppendsPart out.old.items out.new.items (truncated_text part place)) }
{
    let mut digits = Buffer::new();
    put_pieces(
        out,
        &[
            b"refused truncated ",
            part_word(part),
            b" ",
            digits.format(place).as_bytes(),
            b"\n",
        ],
    )
}

/// In the new version the move that made the commit of this number is refused: `refused upgrade 1`.
pub fn put_no_upgrade(out: &mut Vec<u8>, number: u32) -> Result<(), Memory>
    ensures ok { OnOk result (out.new.items ≡ out.old.items ++ no_upgrade_text number) }
    ensures err { OnErr result (AppendsPart out.old.items out.new.items (no_upgrade_text number)) }
{
    put_count(out, b"refused upgrade ", u64::from(number))
}
