//! The program over standard streams: its words, and the run that they say over a disk.
#![tactic(auto)]

mod asked;
mod told;

use asked::Asked;
use branch_address::{Address, Sha256Address};
use branch_command::{Flagged, read_flag};
use branch_disk::Disk;
use branch_io::{ReadSource, Sink, Source, WriteSink};
use branch_progress::Listener;
use branch_shell::{Status, read_clients, run_alone, run_clients};
use mrdt_model::Memory;
use std::alloc::{AllocError, Global};
use std::io::Input;
use std::process::ExitCode;
use std::rt::{Env, Files};
use std::sync::Wait;
use std::thread::Threads;
use std::{env, fs, io};
use told::{Told, tell_why};

/// The words of the command line.
#[derive(Drop)]
pub struct Words {
    /// The path of the store.
    pub path: String,
    /// The path of the store that `upgrade` makes: that of the store with `.second` behind it.
    pub second: String,
    /// The words of the command, behind the path.
    pub command: Vec<String>,
}

// All words behind the program's name.
fn all_words<R: Env + AllocGlobal>(rt: &R) -> io::Result<Vec<String>> {
    let mut words = Vec::new(rt.alloc());
    for word in env::args(rt)?.skip(1) {
        words.push(word)?;
    }
    Ok(words)
}

// The path of the second store.
fn second_path<R: AllocGlobal>(rt: &R, path: &str) -> Result<String, AllocError> {
    format!(in rt.alloc(); "{path}.second")
}

// The status of a run whose words cannot be read: one that is not UTF-8, or want of memory.
fn unread(error: &io::Error) -> Status {
    match error.kind() {
        io::ErrorKind::OutOfMemory => Status::Memory,
        _ => Status::Usage,
    }
}

// Whether the words are one word that asks for the text of help or of the version, which is of no store.
fn ask_for_text(words: &[String]) -> bool {
    match words {
        [word] => matches!(word.as_str(), "help" | "--help" | "-h" | "--version"),
        _ => false,
    }
}

/// Reads the words of the command line. One word alone that asks for the text of help or of the version is the command,
/// and the path is empty. `Err` tells how the program ends where there is no path, where a word is not UTF-8 or where
/// memory is short.
pub fn read_words<R: Env + AllocGlobal>(rt: &R) -> Result<Words, ExitCode> {
    match all_words(rt) {
        Ok(mut words) if !words.is_empty() => {
            let path = if ask_for_text(&words) {
                String::new(rt.alloc())
            } else {
                words.remove(0)
            };
            match second_path(rt, path.as_str()) {
                Ok(second) => Ok(Words {
                    path,
                    second,
                    command: words,
                }),
                Err(AllocError) => Err(ExitCode::from(Status::Memory.number())),
            }
        }
        Ok(_) => Err(ExitCode::from(Status::Usage.number())),
        Err(error) => Err(ExitCode::from(unread(&error).number())),
    }
}

/// How a run ends.
#[derive(Clone, Copy, Debug, PartialEq, Eq)]
pub struct Ended {
    /// Its status.
    pub status: Status,
    /// Whether its words ask to be told more on standard error.
    pub is_verbose: bool,
}

impl Ended {
    // Of words for a copy of which there is no memory.
    fn without_memory() -> Ended {
        Ended {
            status: Status::Memory,
            is_verbose: false,
        }
    }
}

/// Runs the command that the words say, over a source, a sink and both disks, and hands the disks back. The flag by which
/// words ask to be told more changes nothing here, but that the listener hears of the run only where it is given. `clients`
/// alone gets the handle to start threads and to wait with: every other command is run by a call that takes none, and so
/// returns whatever call fails.
pub fn run_words<S, K, D, A, R, L>(
    rt: &R,
    alloc: Global,
    words: &[String],
    source: &mut S,
    sink: &mut K,
    disk: D,
    second: D,
    listener: &mut L,
) -> (Ended, D, D)
where
    S: Source,
    K: Sink,
    D: Disk + Drop + Send,
    A: Address + Send,
    R: Threads + Wait + Sync,
    L: Listener,
{
    let Ok(Flagged { words, is_verbose }) = read_flag(alloc, words) else {
        return (Ended::without_memory(), disk, second);
    };
    let mut asked = Asked {
        listener,
        is_verbose,
    };
    let (status, disk, second) = match read_clients(alloc, &words) {
        Ok(Some(work)) => {
            run_clients::<K, D, A, R, _>(rt, alloc, work, sink, disk, second, &mut asked)
        }
        Ok(None) => {
            run_alone::<S, K, D, A, _>(alloc, &words, source, sink, disk, second, &mut asked)
        }
        Err(Memory) => (Status::Memory, disk, second),
    };
    (Ended { status, is_verbose }, disk, second)
}

// The null device, opened for reading.
fn null_device<R: Files>(rt: &R) -> io::Result<R::File> {
    fs::open(rt, "/dev/null")
}

// The null device three times. The system gives a file that is opened the lowest descriptor that is free: so, while these
// are open, no other file gets that of a standard stream which was closed. Such an input has no byte, and such an output
// takes none.
fn fill_streams<R: Files>(rt: &R) -> io::Result<(R::File, R::File, R::File)> {
    Ok((null_device(rt)?, null_device(rt)?, null_device(rt)?))
}

/// Runs the command over both disks, of which no file is open yet. It reads standard input, writes to standard output and,
/// where the words ask to be told more, how far it has come and why it ends as it does to standard error, and nothing else;
/// and tells how the program ends: by the number of its status. Before any file of a store is opened it makes sure that none
/// can take the place of a standard stream that is closed, and where it cannot, it ends as where the disk fails.
pub fn run_command<D, R>(rt: &R, command: &[String], disk: D, second: D) -> ExitCode
where
    D: Disk + Drop + Send,
    R: AllocGlobal + Files + Input + Print + Eprint + Threads + Wait + Sync,
{
    let Ok(_held) = fill_streams(rt) else {
        return ExitCode::from(Status::DiskFault.number());
    };
    let mut source = ReadSource::new(rt.reader());
    let mut sink = WriteSink::new(io::writer(rt));
    let mut told = Told { rt };
    let (ended, _disk, _second) = run_words::<_, _, _, Sha256Address, _, _>(
        rt,
        rt.alloc(),
        command,
        &mut source,
        &mut sink,
        disk,
        second,
        &mut told,
    );
    tell_why(rt, ended);
    ExitCode::from(ended.status.number())
}
