// What came of a run: how many replies there were, and how many count under each word.
ghost use Rattle.std.specs.Prelude.{◌≡◌, ◌<◌, ◌+◌, ◌^◌, ◌-◌, ℕ, List, [], ◌∷◌, ◌++◌, OnOk, OnErr};
ghost use Rattle.mrdt_model.specs.Spelled.{AppendsPart};
ghost use Rattle.branch_print.specs.Texts.{line_end};
ghost use Rattle.branch_print.specs.Summaries.{word_of, summary_of, AreWithin, summary_text};

use crate::pieces::put_pieces;
use itoa::Buffer;
use mrdt_model::Memory;

/// The word that a reply counts under.
#[derive(Clone, Copy, Debug, PartialEq, Eq)]
pub enum Word {
    /// An operation landed.
    Landed,
    /// A merge made a commit.
    Merged,
    /// A merge moved the head up.
    Forward,
    /// A merge had nothing to do.
    Same,
    /// The head was not the one that was seen.
    Stale,
    /// A branch was forked.
    Forked,
    /// A session looked.
    Looked,
    /// The line was refused.
    Errors,
}

/// How many replies there were, and how many of them count under each word.
#[derive(Clone, Copy, Debug, PartialEq, Eq)]
pub struct Summary {
    pub lines: u64,
    pub landed: u64,
    pub merged: u64,
    pub forward: u64,
    pub same: u64,
    pub stale: u64,
    pub forked: u64,
    pub looked: u64,
    pub errors: u64,
}

// The word that a reply counts under.
fn word_of(reply: &[u8]) -> Word
    ensures { result ≡ word_of reply.now }
{
    if reply.starts_with(b"landed ") {
        Word::Landed
    } else if reply.starts_with(b"merged ") {
        Word::Merged
    } else if reply.starts_with(b"forward ") {
        Word::Forward
    } else if reply.starts_with(b"same\n") {
        Word::Same
    } else if reply.starts_with(b"stale ") {
        Word::Stale
    } else if reply.starts_with(b"forked ") {
        Word::Forked
    } else if reply.starts_with(b"error ") {
        Word::Errors
    } else {
        Word::Looked
    }
}

impl Summary {
    /// That of no replies.
    pub fn new() -> Summary
        ensures none { result ≡ summary_of [] }
        ensures within { AreWithin result }
    {
        Summary {
            lines: 0,
            landed: 0,
            merged: 0,
            forward: 0,
            same: 0,
            stale: 0,
            forked: 0,
            looked: 0,
            errors: 0,
        }
    }

    /// Counts one reply more.
    pub fn count(&mut self, reply: &[u8])
        requires few { self.old.lines < 2 ^ 64 - 1 }
        requires within { AreWithin self.old }
        ensures counted { (replies : List (List ℕ)) → self.old ≡ summary_of replies
            → self.new ≡ summary_of (replies ++ reply.now ∷ []) }
        ensures within { AreWithin self.new }
        ensures lines { self.new.lines ≡ self.old.lines + 1 }
    {
        self.lines += 1;
        match word_of(reply) {
            Word::Landed => self.landed += 1,
            Word::Merged => self.merged += 1,
            Word::Forward => self.forward += 1,
            Word::Same => self.same += 1,
            Word::Stale => self.stale += 1,
            Word::Forked => self.forked += 1,
            Word::Looked => self.looked += 1,
            Word::Errors => self.errors += 1,
        }
    }
}

/// What came of a run: `lines 8 landed 1 merged 0 forward 0 same 0 stale 0 forked 3 looked 4 errors 0`.
pub fn put_summary(out: &mut Vec<u8>, summary: &Summary) -> Result<(), Memory>
    ensures ok { OnOk result (out.new.items
        ≡ out.old.items ++ (summary_text summary.now ++ line_end)) }
    ensures err { OnErr result
        (AppendsPart out.old.items out.new.items (summary_text summary.now ++ line_end)) }
{
    let mut lines_digits = Buffer::new();
    let mut landed_digits = Buffer::new();
    let mut merged_digits = Buffer::new();
    let mut forward_digits = Buffer::new();
    let mut same_digits = Buffer::new();
    let mut stale_digits = Buffer::new();
    let mut forked_digits = Buffer::new();
    let mut looked_digits = Buffer::new();
    let mut errors_digits = Buffer::new();
    put_pieces(
        out,
        &[
            b"lines ",
            lines_digits.format(summary.lines).as_bytes(),
            b" landed ",
            landed_digits.format(summary.landed).as_bytes(),
            b" merged ",
            merged_digits.format(summary.merged).as_bytes(),
            b" forward ",
            forward_digits.format(summary.forward).as_bytes(),
            b" same ",
            same_digits.format(summary.same).as_bytes(),
            b" stale ",
            stale_digits.format(summary.stale).as_bytes(),
            b" forked ",
            forked_digits.format(summary.forked).as_bytes(),
            b" looked ",
            looked_digits.format(summary.looked).as_bytes(),
            b" errors ",
            errors_digits.format(summary.errors).as_bytes(),
            b"\n",
        ],
    )
}
