// The limits that the options of `init` say.
ghost use Rattle.std.specs.Prelude.{◌≡◌, Some, IfSome, IfNone, None};
ghost use Rattle.clap.specs.Words.{found_of};
ghost use Rattle.clap.specs.Walk.{first_of, rows_of};
ghost use Rattle.branch_command.specs.Numbers.{Numbers, number_of, number_or, numbers_of, AreLimits};

use branch_names::Limits;
use clap::ArgMatches;

/// The number up to `most` that a word says in decimal digits, without a sign or a leading zero.
pub(crate) fn read_number(word: &str, most: u64) -> Option<u64>
    ensures { result ≡ number_of most word.now }
{
    let first = word.as_bytes().first()?;
    if !first.is_ascii_digit() || *first == b'0' {
        return None;
    }
    match word.parse::<u64>() {
        Ok(number) => { if number <= most { Some(number) } else { None } }
        Err(_) => None,
    }
}

// The number that was given to an option, or `usual` where it was not given.
fn read_option(given: &ArgMatches<'_>, option: &str, most: u64, usual: u64) -> Option<u64>
    ensures { result ≡ number_or most usual (first_of option.now (rows_of (found_of given.now))) }
{
    match given.get_str(option) {
        Some(word) => read_number(word, most),
        None => Some(usual),
    }
}

/// The limits that the options say; `None` where the word of one is no number in its range.
pub(crate) fn read_limits(given: &ArgMatches<'_>) -> Option<Limits>
    ensures some { IfSome result (λ limits. (n : Numbers)
        × (numbers_of (rows_of (found_of given.now)) ≡ Some n) × AreLimits n limits) }
    ensures none { IfNone result (numbers_of (rows_of (found_of given.now)) ≡ None) }
{
    let usual = Limits::default();
    let clock = read_option(given, "max-clock", 18_446_744_073_709_551_615, usual.clock)?;
    let commits = read_option(
        given,
        "max-commits",
        4_294_967_295,
        u64::from(usual.commits),
    )?;
    let branches = read_option(
        given,
        "max-branches",
        4_294_967_295,
        u64::from(usual.branches),
    )?;
    let value = read_option(given, "max-value", 1_073_741_824, usual.value)?;
    let moves = read_option(given, "max-moves", 281_474_976_710_656, usual.moves)?;
    Limits::new(clock, commits as u32, branches as u32, value, moves)
}
