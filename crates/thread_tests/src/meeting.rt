// A gate that holds clients back until others have come somewhere.
use parallel_clients::Gate;
use std::sync::Wait;
use std::sync::atomic::{AtomicBool, AtomicU64, Ordering};
use std::thread::yield_now;

// How many turns a client is held at most.
const TURNS: u64 = 10_000_000;

/// Client 0 is held where it is about to prepare, until the others have landed so many times; they are held until it
/// is there.
#[derive(Drop)]
pub(crate) struct Meeting {
    landings: u64,
    arrived: AtomicU64,
    landed: AtomicU64,
    late: AtomicBool,
}

impl Meeting {
    pub(crate) fn new(landings: u64) -> Meeting {
        Meeting {
            landings,
            arrived: AtomicU64::new(0),
            landed: AtomicU64::new(0),
            late: AtomicBool::new(false),
        }
    }

    /// Whether a client was held for all turns.
    pub(crate) fn is_late(&self) -> bool {
        self.late.load(Ordering::SeqCst)
    }

    fn hold_until(&self, count: &AtomicU64, least: u64) {
        for _turn in 0..TURNS {
            if count.load(Ordering::SeqCst) >= least {
                return;
            }
            yield_now();
        }
        self.late.store(true, Ordering::SeqCst);
    }
}

impl Gate for Meeting {
    fn before_prepare<R: Wait>(&self, _rt: &R, client: u64) {
        if client == 0 {
            self.arrived.fetch_add(1, Ordering::SeqCst);
            self.hold_until(&self.landed, self.landings);
        } else {
            self.hold_until(&self.arrived, 1);
        }
    }

    fn after_land<R: Wait>(&self, _rt: &R, client: u64) {
        if client != 0 {
            self.landed.fetch_add(1, Ordering::SeqCst);
        }
    }
}
