// What is ready to land.
ghost use Rattle.std.specs.Prelude.{◌≡◌, ◌+◌, ◌<◌, length, IfOk};
ghost use Rattle.branch_history.specs.History.{store_of};
ghost use Rattle.store_seen.specs.Keeps.{IsSeen};
ghost use Rattle.store_seen.specs.Written.{IsWritten};

use crate::seen::Seen;
use crate::spelled::{Spelled, SpelledValue};
use mrdt_model::{Listing, Memory, Mrdt, Time, Unread};
use std::alloc::Global;
use std::marker::Model;
use std::snapshot::Snapshot;

// What lands on a branch: an operation with its time, its reply and the value that it makes, a merge of a commit or
// a join of several with the new commit's clock and value, or a commit that the branch moves up to; and the spellings of what is
// written of it, with the length of the value's, which only the layout that keeps values spells.
#[derive(Drop)]
pub(crate) enum Ready<T, O, R> {
    Operation {
        time: Time,
        value: T,
        op: O,
        reply: R,
        spelled: Spelled,
    },
    Merge {
        commit: u32,
        clock: u64,
        value: T,
        spelled: SpelledValue,
    },
    Join {
        commits: Listing<u32>,
        clock: u64,
        value: T,
        spelled: SpelledValue,
    },
    Forward {
        commit: u32,
    },
}

/// What is ready to land on the head that was seen. Contracts see a `PreparedView`: the look that it was made
/// on, and the work that it does.
#[derive(Drop)]
pub struct Prepared<T: Mrdt> {
    pub(crate) seen: Snapshot<Seen<T>>,
    pub(crate) origin: u32,
    pub(crate) branch: u32,
    pub(crate) head: u32,
    pub(crate) ready: Ready<T, T::Op, T::Reply>,
}

impl<T: Mrdt> Model for Prepared<T> {
    ghost use Rattle.store_seen.specs.Views.{PreparedView};

    ghost Value = { PreparedView T.Op T.Reply };

    ghost use Rattle.store_seen.specs.Keeps.{work_of, IsPrepared};

    ghost view = { λ p. record { seen = p.seen.value; work = work_of p.ready } };

    ghost invariant = { λ p. IsPrepared T.meaning p.seen.value p.origin p.branch p.head p.ready };
}

/// What is written of a work that is ready: of an operation its commit's clock, the length of the new value's spelling,
/// and the spellings of the new value, the operation and the reply; of a merge the commit that is merged, its own
/// commit's clock, and the length of the new value's spelling, and this spelling; of a join the same with the commits
/// that are joined; of a move up the commit. The value's spelling is there exactly in the layout that keeps values.
#[derive(Clone, Copy)]
pub enum Written<'a> {
    Operation {
        clock: u64,
        size: u64,
        value: Option<&'a [u8]>,
        op: &'a [u8],
        reply: &'a [u8],
    },
    Merge {
        other: u32,
        clock: u64,
        size: u64,
        value: Option<&'a [u8]>,
    },
    Join {
        others: &'a [u32],
        clock: u64,
        size: u64,
        value: Option<&'a [u8]>,
    },
    Forward {
        other: u32,
    },
}

impl<T: Mrdt> Prepared<T> {
    /// The number of the branch that it is ready to land on. The look that it was made on is one at a valid history.
    pub fn branch(&self) -> u32
        ensures branch { result ≡ self.now.seen.branch }
        ensures seen { IsSeen T.meaning self.now.seen }
    {
        self.branch
    }

    /// The origin of that branch.
    pub fn origin(&self) -> u32
        ensures { result ≡ self.now.seen.terms.origin + self.now.seen.branch }
    {
        self.origin
    }

    /// The commit that was seen, which the history has.
    pub fn head(&self) -> u32
        ensures head { result ≡ self.now.seen.head }
        ensures within { self.now.seen.head
            < length (store_of self.now.seen.terms.origin self.now.seen.history).commits }
    {
        self.head
    }

    /// What is written of it. The spellings are those of what the history means.
    pub fn written(&self) -> Written<'_>
        ensures { IsWritten T.meaning self.now result }
    {
        match &self.ready {
            Ready::Operation { time, spelled, .. } => Written::Operation {
                clock: time.clock,
                size: spelled.size(),
                value: spelled.value(),
                op: spelled.op(),
                reply: spelled.reply(),
            },
            Ready::Merge {
                commit,
                clock,
                spelled,
                ..
            } => Written::Merge {
                other: *commit,
                clock: *clock,
                size: spelled.size,
                value: spelled.bytes(),
            },
            Ready::Join {
                commits,
                clock,
                spelled,
                ..
            } => Written::Join {
                others: commits.as_slice(),
                clock: *clock,
                size: spelled.size,
                value: spelled.bytes(),
            },
            Ready::Forward { commit } => Written::Forward { other: *commit },
        }
    }
}

// The same reply once more, read from its spelling.
pub(crate) fn same_reply<T: Mrdt>(
    alloc: Global,
    reply: &T::Reply,
    spelled: &[u8],
) -> Result<T::Reply, Memory>
    requires known { T.meaning.is_reply reply.now }
    requires spelled { spelled.now ≡ T.meaning.reply_spelling reply.now }
    ensures { IfOk result (λ again. again ≡ reply.now) }
{
    let _reply = reply;
    match T::get_reply(alloc, spelled) {
        Ok(again) => Ok(again),
        Err(Unread::Memory) => Err(Memory),
        Err(Unread::NotCanonical) => unreachable!(),
    }
}
