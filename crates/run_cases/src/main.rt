// Runs cases of the program and writes of each whether it passes. Each word of the command line is the file of a case;
// with no words, all files NAME.case of the folder are run, in the order of their names.
#![tactic(auto)]

mod compare;
mod disks;
mod ended;
mod failure;
mod folder;
mod play;
mod reader;
mod step;
mod words;

use failure::Failure;
use play::play;
use reader::read_case;
use std::alloc::Global;
use std::process::ExitCode;
use std::rt::{Env, Files};
use std::sync::Wait;
use std::thread::Threads;
use std::{env, fs, io};

// The words behind the program's name.
fn arguments<R: Env + AllocGlobal>(rt: &R) -> io::Result<Vec<String>> {
    let mut words = Vec::new(rt.alloc());
    for word in env::args(rt)?.skip(1) {
        words.push(word)?;
    }
    Ok(words)
}

// The files of cases in the folder, in the order of their names.
fn all_cases<R: Files + AllocGlobal + Clone + Drop>(rt: &R) -> io::Result<Vec<String>> {
    let mut files = Vec::new(rt.alloc());
    for entry in fs::read_dir(rt, ".")? {
        let entry = entry?;
        let name = entry.file_name();
        if name.ends_with(".case") {
            files.push(String::from_str(rt.alloc(), name)?)?;
        }
    }
    files.sort()?;
    Ok(files)
}

// The case in a text passes, or does not.
fn try_case<R: Threads + Wait + Sync>(rt: &R, alloc: Global, text: &str) -> Result<(), Failure> {
    let steps = read_case(alloc, text)?;
    play(rt, alloc, &steps)
}

// The name of a case, by its file.
fn name_of(file: &str) -> &str {
    let name = match file.rsplit_once('/') {
        Some((_, name)) => name,
        None => file,
    };
    name.strip_suffix(".case").unwrap_or(name)
}

// Runs the case in a file, writes what came of it, and says whether it passes.
fn run_file<R: Files + AllocGlobal + Print + Threads + Wait + Sync>(
    rt: &R,
    file: &str,
) -> io::Result<bool> {
    let text = fs::read_to_string(rt, file)?;
    let name = name_of(file);
    match try_case(rt, rt.alloc(), text.as_str()) {
        Ok(()) => println!(rt; "ok {name}")?,
        Err(Failure::Malformed { line, why }) => {
            println!(rt; "{name}: line {line} is not understood: {why}")?;
            return Ok(false);
        }
        Err(Failure::Differs { line, how }) => {
            println!(rt; "{name}: line {line}: {how}")?;
            return Ok(false);
        }
        Err(Failure::Memory) => {
            println!(rt; "{name}: out of memory")?;
            return Ok(false);
        }
    }
    Ok(true)
}

// Runs all cases, and says whether each passes.
fn run_all<R: Env + Files + AllocGlobal + Clone + Drop + Print + Threads + Wait + Sync>(
    rt: &R,
) -> io::Result<bool> {
    let words = arguments(rt)?;
    let files = if words.is_empty() {
        all_cases(rt)?
    } else {
        words
    };
    let mut all = true;
    for file in &files {
        all = run_file(rt, file.as_str())? && all;
    }
    Ok(all)
}

fn main(rt: HostRuntime) -> ExitCode {
    match run_all(&rt) {
        Ok(true) => ExitCode::from(0),
        Ok(false) => ExitCode::from(1),
        Err(_) => ExitCode::from(2),
    }
}
