// The commands, and how they are read from words.
ghost use Rattle.std.specs.Prelude.{◌≡◌, ◌≢◌, true, false, Some, None, Err, map, IfOk, option_map};
ghost use Rattle.std.specs.String.{string_bytes};
ghost use Rattle.clap.specs.Words.{found_of, kind_of, FailsBy};
ghost use Rattle.clap.specs.Walk.{rows_of};
ghost use Rattle.clap.specs.Simple.{subcommand_of, subcommand_rows_of};
ghost use Rattle.clap.specs.Faults.{fault_of};
ghost use Rattle.branch_command.specs.Program.{program};
ghost use Rattle.branch_command.specs.Commands.{Said, Help, Means, Answers, is_request, asked_by, help_words, said_by, command_of};
ghost use Rattle.branch_command.specs.declared.command.CommandRefused.TheVariants.{Usage};
ghost use Rattle.clap.specs.declared.error.kind.ErrorKind.TheVariants.{OutOfMemory};

use crate::bundles::read_name;
use crate::look::{Look, read_look};
use crate::table::program;
use crate::terms::read_terms;
use crate::work::{read_clients, read_work};
use branch_names::{Name, Terms};
use clap::error::ErrorKind;
use clap::{ArgMatches, Error as Answer};
use mrdt_model::Listing;
use std::alloc::{AllocError, Global};
use std::convert::AsStr;
use thiserror::Error;

/// The branch that a command is for, by its name.
#[derive(Clone, Copy)]
pub struct Named {
    /// Its name.
    pub name: Name,
}

/// What is to be sent.
#[derive(Drop)]
pub struct Sending {
    /// The branch.
    pub branch: Name,
    /// The addresses of commits that the receiver has; these, and all below them, are left out.
    pub here: Listing<[u8; 32]>,
}

/// What the words of a command line ask for.
#[derive(Drop)]
pub enum Command {
    /// Make a store of these terms.
    Init(Terms),
    /// Run the lines of standard input.
    Script,
    /// Run the script that is drawn from a number.
    Generate {
        /// How many lines are drawn, at most 1,000,000.
        steps: u64,
        /// The number from which they are.
        number: u64,
    },
    /// Run clients side by side, each with steps of its own.
    Clients {
        /// How many there are, 1 to 64.
        count: u32,
        /// How many steps are drawn for each, at most 1,000,000.
        steps: u64,
        /// The number from which they are.
        number: u64,
    },
    /// Make of a store of version 1 one of today's version, on the other disk.
    Upgrade,
    /// Make the store of the compact history on the other disk, and switch to it.
    Compact,
    /// Read this of the store, and write it.
    Look(Look),
    /// Receive a bundle as a new branch.
    Receive(Named),
    /// Tell this text, of help or of the version.
    Tell(String),
}

/// Why no command was read.
#[derive(Clone, Copy, Debug, PartialEq, Eq, Error)]
pub enum CommandRefused {
    /// The words say no command.
    #[error("the words say no command")]
    Usage,
    /// Want of memory.
    #[error("out of memory")]
    Memory,
}

// What clap finds in words.
fn matches_in<'a, S: AsStr>(alloc: Global, words: &'a [S]) -> Result<ArgMatches<'a>, Answer>
    ensures kinds { FailsBy (fault_of program (map S.text words.entry.now)) result }
    ensures found { IfOk result (λ m.
        subcommand_rows_of m ≡ subcommand_of program (map S.text words.entry.now)) }
{
    program(alloc)?.try_get_matches_from(words)
}

// The text of an answer of clap, where it is no mistake in the words.
fn told(alloc: Global, answer: Answer) -> Result<Command, CommandRefused>
    ensures told { IfOk result (λ command. Means Help command
        × (is_request (kind_of answer) ≡ true)) }
    ensures usage { result ≡ Err Usage → (is_request (kind_of answer) ≡ false)
        × (kind_of answer ≢ OutOfMemory) }
{
    match answer.kind() {
        ErrorKind::DisplayHelp | ErrorKind::DisplayVersion => match format!(in alloc; "{answer}") {
            Ok(text) => Ok(Command::Tell(text)),
            Err(AllocError) => Err(CommandRefused::Memory),
        },
        ErrorKind::OutOfMemory => Err(CommandRefused::Memory),
        _ => Err(CommandRefused::Usage),
    }
}

// The text that words ask for.
fn tell<S: AsStr>(alloc: Global, words: &[S]) -> Result<Command, CommandRefused>
    ensures { Answers (asked_by (fault_of program (map S.text words.now))) result }
{
    match matches_in(alloc, words) {
        Ok(_) => Err(CommandRefused::Usage),
        Err(answer) => told(alloc, answer),
    }
}

// The help of the command of a name, or of the program.
fn tell_help(alloc: Global, name: Option<&str>) -> Result<Command, CommandRefused>
    ensures { Answers
        (asked_by (fault_of program (help_words (option_map (λ s. s.now) name.entry)))) result }
{
    match name {
        Some(name) => tell(alloc, [name, "--help"].as_slice()),
        None => tell(alloc, ["--help"].as_slice()),
    }
}

// The command of a name, by what was given to it.
fn command_named(
    alloc: Global,
    name: &str,
    given: &ArgMatches<'_>,
) -> Result<Command, CommandRefused>
    ensures { Answers (said_by name.now (rows_of (found_of given.now))) result }
{
    match name {
        "init" => match read_terms(given) {
            Some(terms) => Ok(Command::Init(terms)),
            None => Err(CommandRefused::Usage),
        },
        "script" => Ok(Command::Script),
        "generate" => match read_work(given) {
            Some((steps, number)) => Ok(Command::Generate { steps, number }),
            None => Err(CommandRefused::Usage),
        },
        "clients" => match read_clients(given) {
            Some((count, (steps, number))) => Ok(Command::Clients {
                count,
                steps,
                number,
            }),
            None => Err(CommandRefused::Usage),
        },
        "upgrade" => Ok(Command::Upgrade),
        "compact" => Ok(Command::Compact),
        "receive" => match read_name(given, "name") {
            Some(name) => Ok(Command::Receive(Named { name })),
            None => Err(CommandRefused::Usage),
        },
        "help" => tell_help(alloc, given.get_str("command")),
        _ => match read_look(alloc, name, given) {
            Ok(look) => Ok(Command::Look(look)),
            Err(refused) => Err(refused),
        },
    }
}

/// The command that the words behind PATH say. `Usage` comes exactly where they say none; a text of help or of the
/// version is left open.
pub fn read_command(alloc: Global, words: &[String]) -> Result<Command, CommandRefused>
    ensures read { IfOk result (λ command. (said : Said)
        × (command_of (map string_bytes words.now) ≡ Some said) × Means said command) }
    ensures usage { result ≡ Err Usage → command_of (map string_bytes words.now) ≡ None }
{
    let matches = match matches_in(alloc, words) {
        Ok(matches) => matches,
        Err(answer) => return told(alloc, answer),
    };
    match matches.subcommand() {
        Some((name, given)) => command_named(alloc, name, given),
        None => Err(CommandRefused::Usage),
    }
}
