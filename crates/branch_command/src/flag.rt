// The flag by which words ask to be told more.
ghost use Rattle.std.specs.Prelude.{◌≡◌, ◌++◌, ◌∷◌, ◌||◌, ◌&&◌, not, [], map, if◌then◌else◌, IfOk, OnOk};
ghost use Rattle.std.specs.String.{string_bytes};
ghost use Rattle.branch_command.specs.Flags.{is_flag, is_last, flag_among, has_flag, but_flag, without_flag};

use mrdt_model::Memory;
use std::alloc::Global;

/// The words of a command, and whether more is to be told.
#[derive(Drop)]
pub struct Flagged {
    /// The words without the flag.
    pub words: Vec<String>,
    /// Whether the flag stood behind the command's word.
    pub is_verbose: bool,
}

// What was read of words so far.
#[derive(Clone, Copy)]
struct Reading {
    // Whether no further word asks to be told more.
    is_over: bool,
    // Whether one did.
    is_found: bool,
}

// Whether a word asks to be told more.
fn is_flag(word: &str) -> bool
    ensures { result ≡ is_flag word.now }
{
    word == "--verbose" || word == "-v"
}

// Whether no word behind this one does.
fn is_last(word: &str) -> bool
    ensures { result ≡ is_last word.now }
{
    is_flag(word) || word == "--"
}

// Puts a copy of a word behind the others.
fn push_word(alloc: Global, kept: &mut Vec<String>, word: &str) -> Result<(), Memory>
    ensures { OnOk result (map string_bytes kept.new.items
        ≡ map string_bytes kept.old.items ++ word.now ∷ []) }
{
    let copy = String::from_str(alloc, word)?;
    Ok(kept.push(copy)?)
}

// Keeps a word, but for the one that asks to be told more.
fn keep_word(
    alloc: Global,
    kept: &mut Vec<String>,
    read: Reading,
    word: &str,
) -> Result<Reading, Memory>
    ensures kept { OnOk result (map string_bytes kept.new.items ≡ map string_bytes kept.old.items
        ++ (if not read.is_over && is_flag word.now then [] else word.now ∷ [])) }
    ensures over { IfOk result (λ next. next.is_over ≡ (read.is_over || is_last word.now)) }
    ensures found { IfOk result (λ next.
        next.is_found ≡ (read.is_found || (not read.is_over && is_flag word.now))) }
{
    let is_one = !read.is_over && is_flag(word);
    if !is_one {
        push_word(alloc, kept, word)?;
    }
    Ok(Reading {
        is_over: read.is_over || is_last(word),
        is_found: read.is_found || is_one,
    })
}

// Keeps all words but the one that asks to be told more, and says whether there is one.
fn keep_words(alloc: Global, kept: &mut Vec<String>, words: &[String]) -> Result<bool, Memory>
    ensures kept { OnOk result (map string_bytes kept.new.items
        ≡ map string_bytes kept.old.items ++ but_flag (map string_bytes words.now)) }
    ensures found { IfOk result (λ found. found ≡ flag_among (map string_bytes words.now)) }
{
    let mut read = Reading {
        is_over: false,
        is_found: false,
    };
    for word in words {
        read = keep_word(alloc, kept, read, word.as_str())?;
    }
    Ok(read.is_found)
}

/// Reads the flag `--verbose`, or `-v`, which may stand anywhere behind the first word, the command's, but behind `--`. The
/// words come back without it. The error is want of memory.
pub fn read_flag(alloc: Global, words: &[String]) -> Result<Flagged, Memory>
    ensures words { IfOk result (λ flagged.
        map string_bytes flagged.words.items ≡ without_flag (map string_bytes words.now)) }
    ensures verbose { IfOk result (λ flagged.
        flagged.is_verbose ≡ has_flag (map string_bytes words.now)) }
{
    let mut kept = Vec::new(alloc);
    let mut is_verbose = false;
    if let Some((first, more)) = words.split_first() {
        push_word(alloc, &mut kept, first.as_str())?;
        is_verbose = keep_words(alloc, &mut kept, more)?;
    }
    Ok(Flagged {
        words: kept,
        is_verbose,
    })
}
