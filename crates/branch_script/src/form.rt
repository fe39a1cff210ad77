// The forms of a line.
ghost use Rattle.std.specs.Prelude.{◌≡◌, ◌≤◌, [], ◌∷◌, ◌&&◌, bytes_eq, map, length, Ok, IfOk, IfErr};
ghost use Rattle.branch_script.specs.Script.{two_words, three_words, do_at_key, do_with_word, do_with_number, do_words, named_words, query_of, ask_words, is_join, join_words, words_step, is_marked, commit_of, numbered, ask_at_words, is_fork_at, fork_at_words, a_step, words_line, line_of, IsRefusedAs, IsLineRefusedAs};

use crate::branches::Branches;
use crate::numbers::place;
use crate::step::{Line, LineRefused, Step};
use crate::tables::{
    kind_named, operation_at_key, operation_with_number, operation_with_word, query_at_key,
    query_with_word,
};
use crate::words::{plain, silent, words};
use branch_doc::{Kind, PlainQuery};
use branch_names::Name;
use mrdt_model::{Bytes, Memory};
use std::alloc::Global;

// `drop SESSION`.
fn two_words(verb: &[u8], session: &[u8]) -> Result<Step, LineRefused>
    ensures { result ≡ two_words verb.now session.now }
{
    if verb != b"drop".as_slice() {
        return Err(LineRefused::Syntax);
    }
    Ok(Step::Drop {
        session: Name::read(session)?,
    })
}

// `look SESSION BRANCH`, `fork NEW BRANCH` or `merge SESSION BRANCH`.
fn three_words(verb: &[u8], first: &[u8], second: &[u8]) -> Result<Step, LineRefused>
    ensures { result ≡ three_words verb.now first.now second.now }
{
    match verb {
        b"look" => Ok(Step::Look {
            session: Name::read(first)?,
            branch: Name::read(second)?,
        }),
        b"fork" => Ok(Step::Fork {
            new: Name::read(first)?,
            from: Name::read(second)?,
        }),
        b"merge" => Ok(Step::Merge {
            session: Name::read(first)?,
            branch: Name::read(second)?,
        }),
        _ => Err(LineRefused::Syntax),
    }
}

// `do SESSION KIND KEY OPERATION`.
fn do_at_key(
    alloc: Global,
    session: &[u8],
    kind: Kind,
    key: &[u8],
    operation: &[u8],
) -> Result<Step, LineRefused>
    ensures ok { IfOk result (λ step. do_at_key session.now kind key.now operation.now ≡ Ok step) }
    ensures err { IfErr result (IsRefusedAs (do_at_key session.now kind key.now operation.now)) }
{
    let key = Bytes::from_slice(alloc, key)?;
    let Some(op) = operation_at_key(kind, operation, key) else {
        return Err(LineRefused::Syntax);
    };
    let session = Name::read(session)?;
    Ok(Step::Do { session, op })
}

// `do SESSION KIND KEY OPERATION WORD`. A bad name is refused before a bad number.
fn do_with_word(
    alloc: Global,
    session: &[u8],
    kind: Kind,
    key: &[u8],
    operation: &[u8],
    word: &[u8],
) -> Result<Step, LineRefused>
    ensures ok { IfOk result (λ step. do_with_word session.now kind key.now operation.now word.now
        ≡ Ok step) }
    ensures err { IfErr result
        (IsRefusedAs (do_with_word session.now kind key.now operation.now word.now)) }
{
    let key = Bytes::from_slice(alloc, key)?;
    let word = Bytes::from_slice(alloc, word)?;
    let Some(op) = operation_with_word(kind, operation, key, word) else {
        return Err(LineRefused::Syntax);
    };
    let session = Name::read(session)?;
    Ok(Step::Do { session, op: op? })
}

// `do SESSION KIND KEY OPERATION INT WORD`. A bad name is refused before a bad number.
fn do_with_number(
    alloc: Global,
    session: &[u8],
    kind: Kind,
    key: &[u8],
    operation: &[u8],
    number: &[u8],
    word: &[u8],
) -> Result<Step, LineRefused>
    ensures ok { IfOk result
        (λ step. do_with_number session.now kind key.now operation.now number.now word.now
        ≡ Ok step) }
    ensures err { IfErr result (IsRefusedAs
        (do_with_number session.now kind key.now operation.now number.now word.now)) }
{
    let key = Bytes::from_slice(alloc, key)?;
    let word = Bytes::from_slice(alloc, word)?;
    let Some(op) = operation_with_number(kind, operation, key, number, word) else {
        return Err(LineRefused::Syntax);
    };
    let session = Name::read(session)?;
    Ok(Step::Do { session, op: op? })
}

// `do SESSION`, and an operation.
fn do_words(alloc: Global, session: &[u8], words: &[&[u8]]) -> Result<Step, LineRefused>
    ensures ok { IfOk result (λ step. do_words session.now (map (λ word. word.now) words.now)
        ≡ Ok step) }
    ensures err { IfErr result
        (IsRefusedAs (do_words session.now (map (λ word. word.now) words.now))) }
{
    match words {
        [kind, key, operation] => match kind_named(kind) {
            Some(kind) => do_at_key(alloc, session, kind, key, operation),
            None => Err(LineRefused::Syntax),
        },
        [kind, key, operation, word] => match kind_named(kind) {
            Some(kind) => do_with_word(alloc, session, kind, key, operation, word),
            None => Err(LineRefused::Syntax),
        },
        [kind, key, operation, number, word] => match kind_named(kind) {
            Some(kind) => do_with_number(alloc, session, kind, key, operation, number, word),
            None => Err(LineRefused::Syntax),
        },
        _ => Err(LineRefused::Syntax),
    }
}

// A verb with one name or two.
fn named_words(verb: &[u8], name: &[u8], words: &[&[u8]]) -> Result<Step, LineRefused>
    ensures { result ≡ named_words verb.now name.now (map (λ word. word.now) words.now) }
{
    match words {
        [] => two_words(verb, name),
        [other] => three_words(verb, name, other),
        _ => Err(LineRefused::Syntax),
    }
}

// All keys of a kind.
fn ask_keys(kind: &[u8], query: &[u8]) -> Option<PlainQuery>
    ensures { result ≡ query_of (kind.now ∷ query.now ∷ []) }
{
    if query != b"keys".as_slice() {
        return None;
    }
    Some(PlainQuery::Keys(kind_named(kind)?))
}

// A query at a key that takes no word.
fn ask_at_key(
    alloc: Global,
    kind: &[u8],
    key: &[u8],
    query: &[u8],
) -> Result<Option<PlainQuery>, Memory>
    ensures { IfOk result (λ said. said ≡ query_of (kind.now ∷ key.now ∷ query.now ∷ [])) }
{
    let Some(kind) = kind_named(kind) else {
        return Ok(None);
    };
    Ok(query_at_key(kind, query, Bytes::from_slice(alloc, key)?))
}

// A query at a key that takes a word.
fn ask_with_word(
    alloc: Global,
    kind: &[u8],
    key: &[u8],
    query: &[u8],
    word: &[u8],
) -> Result<Option<PlainQuery>, Memory>
    ensures { IfOk result (λ said. said
        ≡ query_of (kind.now ∷ key.now ∷ query.now ∷ word.now ∷ [])) }
{
    let Some(kind) = kind_named(kind) else {
        return Ok(None);
    };
    let key = Bytes::from_slice(alloc, key)?;
    let word = Bytes::from_slice(alloc, word)?;
    Ok(query_with_word(kind, query, key, word))
}

// The query that words say.
fn query_of(alloc: Global, words: &[&[u8]]) -> Result<Option<PlainQuery>, Memory>
    ensures { IfOk result (λ said. said ≡ query_of (map (λ word. word.now) words.now)) }
{
    match words {
        [kind, query] => Ok(ask_keys(kind, query)),
        [kind, key, query] => ask_at_key(alloc, kind, key, query),
        [kind, key, query, word] => ask_with_word(alloc, kind, key, query, word),
        _ => Ok(None),
    }
}

// `ask BRANCH`, and a query.
fn ask_words(alloc: Global, branch: &[u8], words: &[&[u8]]) -> Result<Step, LineRefused>
    ensures ok { IfOk result (λ step. ask_words branch.now (map (λ word. word.now) words.now)
        ≡ Ok step) }
    ensures err { IfErr result
        (IsRefusedAs (ask_words branch.now (map (λ word. word.now) words.now))) }
{
    let Some(query) = query_of(alloc, words)? else {
        return Err(LineRefused::Syntax);
    };
    let branch = Name::read(branch)?;
    Ok(Step::Ask { branch, query })
}

// Whether the words are a join's: its verb, and two to eight branches.
fn is_join(verb: &[u8], branches: &[&[u8]]) -> bool
    ensures { result ≡ is_join verb.now (map (λ word. word.now) branches.now) }
{
    verb == b"join".as_slice() && 2 <= branches.len() && branches.len() <= 8
}

// `join SESSION BRANCH BRANCH ..`.
fn join_words(alloc: Global, session: &[u8], branches: &[&[u8]]) -> Result<Step, LineRefused>
    requires some { 2 ≤ length branches.now }
    requires few { length branches.now ≤ 8 }
    ensures ok { IfOk result (λ step. join_words session.now (map (λ word. word.now) branches.now)
        ≡ Ok step) }
    ensures err { IfErr result
        (IsRefusedAs (join_words session.now (map (λ word. word.now) branches.now))) }
{
    let session = Name::read(session)?;
    let mut names = Vec::new(alloc);
    for word in branches {
        names.push(Name::read(word)?)?;
    }
    Ok(Step::Join {
        session,
        branches: Branches::of(names),
    })
}

// Whether a verb is this keyword.
fn is(keyword: &[u8], verb: &[u8]) -> bool
    ensures { result ≡ bytes_eq verb.now keyword.now }
{
    verb == keyword
}

// The step of a line's words.
fn fit_words(alloc: Global, words: &[&[u8]]) -> Result<Step, LineRefused>
    ensures ok { IfOk result (λ step. words_step (map (λ word. word.now) words.now) ≡ Ok step) }
    ensures err { IfErr result (IsRefusedAs (words_step (map (λ word. word.now) words.now))) }
{
    match words {
        [verb, session, branches @ ..] if is_join(verb, branches) => {
            join_words(alloc, session, branches)
        }
        [verb, branch, query @ ..] if is(b"ask", verb) => ask_words(alloc, branch, query),
        [verb, session, operation @ ..] if is(b"do", verb) => do_words(alloc, session, operation),
        [verb, name, others @ ..] => named_words(verb, name, others),
        _ => Err(LineRefused::Syntax),
    }
}

// Whether a word stands for a commit.
fn is_marked(word: &[u8]) -> bool
    ensures { result ≡ is_marked word.now }
{
    match word.first() {
        None => false,
        Some(byte) => *byte == b'#',
    }
}

// The number of the commit that a word says.
fn commit_of(word: &[u8]) -> Option<u32>
    ensures { result ≡ commit_of word.now }
{
    match word {
        [b'#', digits @ ..] => place(digits),
        _ => None,
    }
}

// Whether a verb is asked of, or forks from, what stands for a commit.
fn is_at(keyword: &[u8], verb: &[u8], at: &[u8]) -> bool
    ensures { result ≡ (bytes_eq verb.now keyword.now && is_marked at.now) }
{
    verb == keyword && is_marked(at)
}

// `ask #NUMBER`, and a query.
fn ask_at_words(alloc: Global, commit: &[u8], words: &[&[u8]]) -> Result<Line, LineRefused>
    ensures ok { IfOk result (λ said. ask_at_words commit.now (map (λ word. word.now) words.now)
        ≡ Ok said) }
    ensures err { IfErr result
        (IsRefusedAs (ask_at_words commit.now (map (λ word. word.now) words.now))) }
{
    let Some(query) = query_of(alloc, words)? else {
        return Err(LineRefused::Syntax);
    };
    match commit_of(commit) {
        Some(commit) => Ok(Line::AskAt { commit, query }),
        None => Err(LineRefused::BadNumber),
    }
}

// Whether the words are a fork's from a commit: its verb, and one word that stands for a commit.
fn is_fork_at(verb: &[u8], words: &[&[u8]]) -> bool
    ensures { result ≡ is_fork_at verb.now (map (λ word. word.now) words.now) }
{
    match words {
        [at] => is_at(b"fork", verb, at),
        _ => false,
    }
}

// `fork NEW #NUMBER`. A bad name is refused before a bad number.
fn fork_at_words(new: &[u8], words: &[&[u8]]) -> Result<Line, LineRefused>
    ensures { result ≡ fork_at_words new.now (map (λ word. word.now) words.now) }
{
    let [commit] = words else {
        return Err(LineRefused::Syntax);
    };
    let new = Name::read(new)?;
    match commit_of(commit) {
        Some(commit) => Ok(Line::ForkAt { new, commit }),
        None => Err(LineRefused::BadNumber),
    }
}

// The step of words, as a line.
fn a_step(alloc: Global, words: &[&[u8]]) -> Result<Line, LineRefused>
    ensures ok { IfOk result (λ said. a_step (words_step (map (λ word. word.now) words.now))
        ≡ Ok said) }
    ensures err { IfErr result
        (IsRefusedAs (a_step (words_step (map (λ word. word.now) words.now)))) }
{
    Ok(Line::Step(fit_words(alloc, words)?))
}

// What a line's words say.
fn fit_line(alloc: Global, words: &[&[u8]]) -> Result<Line, LineRefused>
    ensures ok { IfOk result (λ said. words_line (map (λ word. word.now) words.now) ≡ Ok said) }
    ensures err { IfErr result (IsRefusedAs (words_line (map (λ word. word.now) words.now))) }
{
    match words {
        [verb, at, query @ ..] if is_at(b"ask", verb, at) => ask_at_words(alloc, at, query),
        [verb, new, at @ ..] if is_fork_at(verb, at) => fork_at_words(new, at),
        [_, _, ..] => a_step(alloc, words),
        _ => Err(LineRefused::Syntax),
    }
}

/// What a line of a script says; `None` for an empty line and for a comment.
///
/// A line that fits no form is `Syntax`, whatever its words in capitals are; then a bad name is `BadName`, and
/// then a bad number `BadNumber`. A word that begins with `#` and stands where a commit may stand is a number, and
/// elsewhere it is no name.
#[tactic(auto, unfolding(crate::specs::Script::line_of))]
pub fn read_line(alloc: Global, line: &[u8]) -> Result<Option<Line>, LineRefused>
    ensures ok { IfOk result (λ said. line_of line.now ≡ Ok said) }
    ensures err { IfErr result (IsLineRefusedAs line.now) }
{
    if silent(line) {
        return Ok(None);
    }
    let words = words(alloc, line)?;
    if !plain(line, &words) {
        return Err(LineRefused::Syntax);
    }
    Ok(Some(fit_line(alloc, &words)?))
}
