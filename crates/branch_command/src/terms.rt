// The terms that the options of `init` say.
ghost use Rattle.std.specs.Prelude.{◌≡◌, codes, Some, IfSome, IfNone, None};
ghost use Rattle.clap.specs.Words.{found_of};
ghost use Rattle.clap.specs.Walk.{first_of, rows_of};
ghost use Rattle.branch_command.specs.Terms.{TermNumbers, origin_or, is_given, kind_number, layout_said, terms_of, AreTerms};

use crate::limits::read_limits;
use crate::work::read_whole_number;
use branch_names::{Layout, Terms};
use clap::ArgMatches;

// The kind of documents without sequences.
const DOCUMENT: u8 = 0;

// The kind of documents with sequences.
const WITH_SEQUENCES: u8 = 1;

// The first origin that was given, or 0 where none was given.
fn read_origin(given: &ArgMatches<'_>) -> Option<u32>
    ensures { result ≡ origin_or (first_of (codes "origin") (rows_of (found_of given.now))) }
{
    match given.get_str("origin") {
        Some(word) => Some(read_whole_number(word, 4_294_967_295)? as u32),
        None => Some(0),
    }
}

/// Whether a flag was given.
pub(crate) fn is_given(given: &ArgMatches<'_>, flag: &str) -> bool
    ensures { result ≡ is_given (first_of flag.now (rows_of (found_of given.now))) }
{
    match given.get_str(flag) {
        Some(word) => word == "true",
        None => false,
    }
}

// The kind of the values: of documents with sequences where the flag for them was given.
fn read_kind(given: &ArgMatches<'_>) -> u8
    ensures { result
        ≡ kind_number (is_given (first_of (codes "sequences") (rows_of (found_of given.now)))) }
{
    if is_given(given, "sequences") {
        WITH_SEQUENCES
    } else {
        DOCUMENT
    }
}

// The layout of the objects: of changes alone where the flag for that was given.
fn read_layout(given: &ArgMatches<'_>) -> Layout
    ensures { result
        ≡ layout_said (is_given (first_of (codes "changes") (rows_of (found_of given.now)))) }
{
    if is_given(given, "changes") {
        Layout::Changes
    } else {
        Layout::Whole
    }
}

/// The terms that the options say; `None` where the word of one is no number in its range, or where the origin of a
/// branch that there may be would be out of range.
pub(crate) fn read_terms(given: &ArgMatches<'_>) -> Option<Terms>
    ensures some { IfSome result (λ terms. (n : TermNumbers)
        × (terms_of (rows_of (found_of given.now)) ≡ Some n) × AreTerms n terms) }
    ensures none { IfNone result (terms_of (rows_of (found_of given.now)) ≡ None) }
{
    let limits = read_limits(given)?;
    let origin = read_origin(given)?;
    Terms::new(limits, origin, read_kind(given), read_layout(given))
}
