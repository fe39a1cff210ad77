// Whose turn it is to land the next batch, and how others wait for the end of it.
use std::sync::atomic::{AtomicU64, Ordering};
use std::sync::{Condvar, Mutex, MutexGuard, Wait};
use std::thread::yield_now;

// How often a leader lets others go first at the most.
const PATIENCE: u32 = 1000;

/// One caller at a time leads a round: it lands a batch. The others sleep until the round is over, and not at the store's
/// lock: so all whose jobs were landed take out what came back at once, and put their next jobs, while the next round goes
/// on. Its calls say nothing to contracts, since they promise nothing but who waits for whom.
#[derive(Drop)]
pub struct Rounds {
    leader: Mutex<()>,
    ended: Mutex<u64>,
    news: Condvar,
    at_the_door: AtomicU64,
}

impl Rounds {
    /// No round yet.
    pub fn new() -> Rounds {
        Rounds {
            leader: Mutex::new(()),
            ended: Mutex::new(0),
            news: Condvar::new(),
            at_the_door: AtomicU64::new(0),
        }
    }

    /// How many rounds were over, wrapping.
    pub fn ended<R: Wait>(&self, rt: &R) -> u64 {
        *self.ended.lock(rt)
    }

    /// Somebody waits for the store's lock, for a short time.
    pub fn come(&self) {
        self.at_the_door.fetch_add(1, Ordering::SeqCst);
    }

    /// Somebody has it.
    pub fn go_in(&self) {
        self.at_the_door.fetch_sub(1, Ordering::SeqCst);
    }

    /// Lets those who wait for the store's lock go first, for a while: a round is long, and what they want is short.
    pub fn let_in(&self) {
        for _ in 0..PATIENCE {
            if self.at_the_door.load(Ordering::SeqCst) == 0 {
                return;
            }
            yield_now();
        }
    }

    /// The lead of a round, if nobody has it.
    pub fn try_lead(&self) -> Option<MutexGuard<'_, ()>> {
        self.leader.try_lock()
    }

    /// Ends the round, and wakes all who wait for that. The lead is given up first: who wakes may have the next.
    pub fn end<R: Wait>(&self, rt: &R, lead: MutexGuard<'_, ()>) {
        drop(lead);
        let mut ended = self.ended.lock(rt);
        *ended = ended.wrapping_add(1);
        drop(ended);
        self.news.notify_all();
    }

    /// Sleeps until some round is over that was not so when there were so many. It may wake earlier.
    pub fn wait<R: Wait>(&self, rt: &R, seen: u64) {
        let ended = self.ended.lock(rt);
        if *ended == seen {
            drop(self.news.wait(rt, ended));
        }
    }
}
