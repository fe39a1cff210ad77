// What is read of a store, and how it is read from words.
ghost use Rattle.std.specs.Prelude.{◌≡◌, codes, Some, None, Err, IfOk};
ghost use Rattle.clap.specs.Words.{found_of};
ghost use Rattle.clap.specs.Walk.{first_of, rows_of};
ghost use Rattle.branch_command.specs.Looks.{at_of, given_at, line_count_of, log_of, document_of, look_by};
ghost use Rattle.branch_command.specs.declared.command.CommandRefused.TheVariants.{Usage};

use crate::bundles::{name_in, read_name, read_sending};
use crate::command::{CommandRefused, Named, Sending};
use crate::terms::is_given;
use crate::work::read_whole_number;
use branch_names::Name;
use clap::ArgMatches;
use std::alloc::Global;

/// A commit by the branch whose head it is, or by its number.
#[derive(Clone, Copy)]
pub enum At {
    /// The head of the branch of a name.
    Branch(Name),
    /// The commit of a number.
    Commit(u32),
}

/// What is read of a store, and written as a text, without a change of the store.
#[derive(Drop)]
pub enum Look {
    /// How much the store holds, and its branches.
    Report,
    /// The address of the head of a branch.
    Address(Named),
    /// A bundle of a branch.
    Bundle(Sending),
    /// What the commits did that one reaches, or so many of them.
    Log {
        /// The commit that reaches them.
        at: At,
        /// How many lines are printed at most; all where it is not said.
        count: Option<u64>,
    },
    /// The document of a commit, as lines or as JSON.
    Document {
        /// The commit.
        at: At,
        /// Whether it is printed as one JSON object.
        is_json: bool,
    },
    /// The history as a graph.
    Graph,
}

// The commit that a word says.
fn at_in(word: &str) -> Option<At>
    ensures { result ≡ at_of word.now }
{
    match word.strip_prefix('#') {
        Some(digits) => Some(At::Commit(read_whole_number(digits, 4_294_967_295)? as u32)),
        None => Some(At::Branch(name_in(word)?)),
    }
}

// The commit that was given.
fn read_at(given: &ArgMatches<'_>) -> Option<At>
    ensures { result ≡ given_at (first_of (codes "at") (rows_of (found_of given.now))) }
{
    match given.get_str("at") {
        Some(word) => at_in(word),
        None => None,
    }
}

// How many lines are asked for, all where it is not said; `None` where a word was given that says no number.
fn read_line_count(given: &ArgMatches<'_>) -> Option<Option<u64>>
    ensures { result ≡ line_count_of (first_of (codes "count") (rows_of (found_of given.now))) }
{
    match given.get_str("count") {
        Some(word) => Some(Some(read_whole_number(word, 18_446_744_073_709_551_615)?)),
        None => Some(None),
    }
}

// The log that is asked for.
fn read_log(given: &ArgMatches<'_>) -> Option<Look>
    ensures { result ≡ log_of (rows_of (found_of given.now)) }
{
    let at = read_at(given)?;
    let count = read_line_count(given)?;
    Some(Look::Log { at, count })
}

// The document that is asked for.
fn read_document(given: &ArgMatches<'_>) -> Option<Look>
    ensures { result ≡ document_of (rows_of (found_of given.now)) }
{
    let at = read_at(given)?;
    let is_json = is_given(given, "json");
    Some(Look::Document { at, is_json })
}

/// What the command of a name reads of a store, by what was given to it; `Usage` comes where it reads nothing, or a word
/// says nothing.
pub(crate) fn read_look(
    alloc: Global,
    name: &str,
    given: &ArgMatches<'_>,
) -> Result<Look, CommandRefused>
    ensures read { IfOk result (λ look. look_by name.now (rows_of (found_of given.now))
        ≡ Some look) }
    ensures usage { result ≡ Err Usage → look_by name.now (rows_of (found_of given.now)) ≡ None }
{
    let look = match name {
        "check" => Some(Look::Report),
        "address" => match read_name(given, "branch") {
            Some(name) => Some(Look::Address(Named { name })),
            None => None,
        },
        "send" => {
            let (branch, here) = read_sending(alloc, given)?;
            Some(Look::Bundle(Sending { branch, here }))
        }
        "log" => read_log(given),
        "show" => read_document(given),
        "graph" => Some(Look::Graph),
        _ => None,
    };
    look.ok_or(CommandRefused::Usage)
}
