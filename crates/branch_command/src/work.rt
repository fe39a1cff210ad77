// The numbers of generated work and of clients.
ghost use Rattle.std.specs.Prelude.{◌≡◌, Some, IfSome, IfNone, None};
ghost use Rattle.clap.specs.Words.{found_of};
ghost use Rattle.clap.specs.Walk.{first_of, rows_of};
ghost use Rattle.branch_command.specs.Work.{whole_number_of, given_number, given_count, work_of, clients_of};

use crate::limits::read_number;
use clap::ArgMatches;

/// The number from 0 up to `most` that a word says in decimal digits, without a sign or a leading zero.
pub(crate) fn read_whole_number(word: &str, most: u64) -> Option<u64>
    ensures { result ≡ whole_number_of most word.now }
{
    if word == "0" {
        return Some(0);
    }
    read_number(word, most)
}

// The number that was given under a name.
fn read_given(given: &ArgMatches<'_>, name: &str, most: u64) -> Option<u64>
    ensures { result ≡ given_number most (first_of name.now (rows_of (found_of given.now))) }
{
    match given.get_str(name) {
        Some(word) => read_whole_number(word, most),
        None => None,
    }
}

// The number from 1 that was given under a name.
fn read_count(given: &ArgMatches<'_>, name: &str, most: u64) -> Option<u64>
    ensures { result ≡ given_count most (first_of name.now (rows_of (found_of given.now))) }
{
    match given.get_str(name) {
        Some(word) => read_number(word, most),
        None => None,
    }
}

/// How many steps are drawn, and the number from which they are; `None` where a word says no number in its range.
pub(crate) fn read_work(given: &ArgMatches<'_>) -> Option<(u64, u64)>
    ensures some { IfSome result (λ work. work_of (rows_of (found_of given.now))
        ≡ Some (record { steps = work.0; number = work.1 })) }
    ensures none { IfNone result (work_of (rows_of (found_of given.now)) ≡ None) }
{
    let steps = read_given(given, "steps", 1_000_000)?;
    let number = read_given(given, "number", 18_446_744_073_709_551_615)?;
    Some((steps, number))
}

/// How many clients there are, and the work of each; `None` where a word says no number in its range.
pub(crate) fn read_clients(given: &ArgMatches<'_>) -> Option<(u32, (u64, u64))>
    ensures some { IfSome result (λ clients. clients_of (rows_of (found_of given.now))
        ≡ Some (record {
          count = clients.0;
          work = record { steps = clients.1.0; number = clients.1.1 };
        })) }
    ensures none { IfNone result (clients_of (rows_of (found_of given.now)) ≡ None) }
{
    let count = read_count(given, "count", 64)?;
    let work = read_work(given)?;
    Some((count as u32, work))
}
