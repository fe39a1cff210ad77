// Keeps tally boards, the type of `own_type`, in a store on files: it makes the store `board` in the current folder, works
// on two branches, merges one into the other, and opens the store again.
#![tactic(auto)]

mod failure;
mod steps;

use branch_address::Sha256Address;
use branch_disk::{Disk, FileDisk};
use branch_names::{Layout, Limits, Name, Terms};
use branch_progress::NoListener;
use failure::Failure;
use mrdt_model::Memory;
use own_type::{Board, BoardQuery, Raise};
use std::alloc::Global;
use std::process::ExitCode;
use steps::{ask, merge, operate};
use store_core::{Core, Kind};

// A store of boards.
type Store<D> = Core<Board, D, Sha256Address>;

// The kind by which the files say that the values are boards.
const KIND: u8 = 100;

// A store of no moves, on an empty disk.
fn make<D: Disk + Drop>(alloc: Global, disk: D) -> Result<Store<D>, Failure> {
    let terms = Terms::new(Limits::default(), 0, KIND, Layout::Changes).ok_or(Failure::Terms)?;
    match Core::init(alloc, disk, terms) {
        Ok(core) => Ok(core),
        Err((refused, _disk)) => Err(Failure::Init(refused)),
    }
}

// The store that a disk holds.
fn open<D: Disk + Drop>(alloc: Global, disk: D) -> Result<Store<D>, Failure> {
    match Core::open(alloc, disk, KIND, &mut NoListener) {
        Ok(core) => Ok(core),
        Err((refused, _disk)) => Err(Failure::Open(refused)),
    }
}

// Forks `draft` from `main`, and prints it.
fn fork<D: Disk + Drop, R: Print>(rt: &R, core: &mut Store<D>) -> Result<(), Failure> {
    let forked = core.fork(Name::read(b"draft")?, &Name::main())?;
    let head = forked.head;
    Ok(println!(rt; "draft is forked from main at #{head}")?)
}

// Raises a candidate's number on a branch, and prints it.
fn raise<D: Disk + Drop, R: Print>(
    rt: &R,
    core: &mut Store<D>,
    branch: &str,
    candidate: usize,
    number: u32,
) -> Result<(), Failure> {
    let op = Raise::new(candidate, number).ok_or(Failure::Candidate(candidate))?;
    match operate(core, &Name::read(branch.as_bytes())?, op)? {
        Kind::Operation { commit, .. } => {
            Ok(println!(rt; "#{commit} raises candidate {candidate} to {number} on {branch}")?)
        }
        _ => Ok(()),
    }
}

// Merges `draft` into `main`, and prints it.
fn merge_draft<D: Disk + Drop, R: Print>(rt: &R, core: &mut Store<D>) -> Result<(), Failure> {
    match merge(core, &Name::main(), &Name::read(b"draft")?)? {
        Some(Kind::Merged { commit }) => Ok(println!(rt; "#{commit} merges draft into main")?),
        _ => Ok(println!(rt; "draft has nothing new for main")?),
    }
}

// Prints who has the greatest number on `main`.
fn print_highest<D: Disk + Drop, R: Print>(rt: &R, core: &Store<D>) -> Result<(), Failure> {
    match ask(core, &Name::main(), &BoardQuery::Highest)? {
        Some(standing) => {
            let candidate = standing.candidate;
            let number = standing.number;
            Ok(println!(rt; "on main candidate {candidate} is the highest, with {number}")?)
        }
        None => Ok(println!(rt; "on main no number was set")?),
    }
}

// Works on a new store, and prints what it does.
fn work<D: Disk + Drop, R: Print>(rt: &R, core: &mut Store<D>) -> Result<(), Failure> {
    println!(rt; "a store of boards is made")?;
    print_highest(rt, core)?;
    fork(rt, core)?;
    raise(rt, core, "main", 7, 100)?;
    raise(rt, core, "draft", 40, 250)?;
    print_highest(rt, core)?;
    merge_draft(rt, core)?;
    print_highest(rt, core)
}

// Opens the store again, and prints what it has.
fn open_again<D: Disk + Drop, R: Print>(rt: &R, alloc: Global, disk: D) -> Result<(), Failure> {
    let core = open(alloc, disk)?;
    let moves = core.moves();
    println!(rt; "the store is opened again, with {moves} moves")?;
    print_highest(rt, &core)
}

// Makes a store of boards on an empty disk, works on it, and opens it again.
fn run<D: Disk + Drop, R: Print>(rt: &R, alloc: Global, disk: D) -> Result<(), Failure> {
    let mut core = make(alloc, disk)?;
    work(rt, &mut core)?;
    open_again(rt, alloc, core.close())
}

// The path of the store, a file name without its ending.
fn path(alloc: Global) -> Result<String, Memory> {
    Ok(String::from_str(alloc, "board")?)
}

fn main(rt: HostRuntime) -> ExitCode {
    let ended = match path(rt.alloc()) {
        Ok(path) => run(&rt, rt.alloc(), FileDisk::new(&rt, path)),
        Err(memory) => Err(Failure::Memory(memory)),
    };
    match ended {
        Ok(()) => ExitCode::SUCCESS,
        Err(failure) => {
            let _ = eprintln!(rt; "{failure}");
            ExitCode::from(failure.status())
        }
    }
}
