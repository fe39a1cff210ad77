// Plays the lines of standard input over a fresh store on a disk in memory, which is gone when the program ends: an
// engine over a core, and nothing else of the program.
#![tactic(auto)]

ghost use Rattle.std.specs.Prelude.{◌≡◌, false, IfSome};

use branch_address::Sha256Address;
use branch_disk::MemoryDisk;
use branch_engine::Engine;
use branch_names::{Limits, Terms};
use mrdt_doc::Doc;
use std::alloc::Global;
use std::io::Input;
use std::process::ExitCode;
use std::str;
use store_core::Core;

// An engine over a store of no moves.
fn begin(alloc: Global) -> Option<Engine<Doc, MemoryDisk, Sha256Address>>
    ensures working { IfSome result (λ engine. engine.core.failed ≡ false) }
{
    let disk = MemoryDisk::new(Vec::new(alloc));
    match Core::<Doc, MemoryDisk, Sha256Address>::init(
        alloc,
        disk,
        Terms::under(Limits::default()),
    ) {
        Ok(core) => Some(Engine::new(alloc, core)),
        Err(_) => None,
    }
}

fn main(rt: HostRuntime) -> ExitCode {
    let alloc = rt.alloc();
    let Some(mut engine) = begin(alloc) else {
        return ExitCode::FAILURE;
    };
    for line in rt.lines(alloc) {
        let Ok(line) = line else {
            return ExitCode::FAILURE;
        };
        let mut reply = Vec::new(alloc);
        let Ok(()) = engine.tell(&mut reply, line.as_bytes()) else {
            return ExitCode::FAILURE;
        };
        let Ok(text) = str::from_utf8(&reply) else {
            return ExitCode::FAILURE;
        };
        let Ok(()) = print!(rt; "{text}") else {
            return ExitCode::FAILURE;
        };
    }
    ExitCode::SUCCESS
}
