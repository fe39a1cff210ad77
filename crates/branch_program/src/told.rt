// What is told on standard error, where the words ask for it.
use crate::Ended;
use branch_progress::{Listener, Progress};
use branch_shell::Status;

// Behind how many steps one is told.
const STEPS: u64 = 4096;

// Why a run ends as it does.
fn reason(status: Status) -> &'static str {
    match status {
        Status::Done => "done",
        Status::Usage => "unknown command, or words that it does not take",
        Status::StoreRefused =>
            "the store, or what was asked, is refused; standard output says why",
        Status::DiskFault => "the disk failed, or another program holds the store",
        Status::ReadFault => "standard input failed",
        Status::WriteFault => "standard output failed",
        Status::LineTooLong => "a line of the script is too long",
        Status::InputTooLong => "the input is too long",
        Status::Memory => "memory is short",
    }
}

/// Tells why a run ends as it does, where its words ask for it and it is not done. What becomes of that stream changes
/// nothing.
pub(crate) fn tell_why<R: Eprint>(rt: &R, ended: Ended) {
    if ended.is_verbose && ended.status != Status::Done {
        let (number, why) = (ended.status.number(), reason(ended.status));
        let _told = eprintln!(rt; "bucketplum: status {number}: {why}");
    }
}

// Whether it is told that so many steps were done.
fn is_told(done: u64) -> bool {
    done > 0 && done % STEPS == 0
}

/// Standard error, which is told how far a run has come, behind each 4,096 records, lines or items. What becomes of that
/// stream changes nothing.
#[derive(Drop)]
pub(crate) struct Told<'r, R> {
    pub(crate) rt: &'r R,
}

impl<R: Eprint> Listener for Told<'_, R> {
    fn hear(&mut self, progress: Progress) {
        let rt = self.rt;
        match progress {
            Progress::Opened { records, of } if is_told(records) => {
                let _told = eprintln!(rt; "opened {records} of {of}");
            }
            Progress::Lines { lines } if is_told(lines) => {
                let _told = eprintln!(rt; "lines {lines}");
            }
            Progress::Received { items, of } if is_told(items) => {
                let _told = eprintln!(rt; "received {items} of {of}");
            }
            _ => {}
        }
    }
}
