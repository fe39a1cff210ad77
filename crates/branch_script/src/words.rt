// The words of a line.
ghost use Rattle.std.specs.Prelude.{◌≡◌, ◌&&◌, map, not, nat_le, IfOk};
ghost use Rattle.std.specs.List.{list_all};
ghost use Rattle.branch_script.specs.Lines.{words_of, is_silent, is_plain, is_empty};

use mrdt_model::Memory;
use std::alloc::{AllocError, Global};

// The pieces of a line between spaces.
fn pieces(alloc: Global, line: &[u8]) -> Result<Vec<&[u8]>, AllocError>
    ensures { IfOk result (λ words. map (λ word. word.now) words.items ≡ words_of line.now) }
{
    line.split(|byte| *byte == b' ').collect(alloc)
}

/// The words of a line.
pub fn words(alloc: Global, line: &[u8]) -> Result<Vec<&[u8]>, Memory>
    ensures { IfOk result (λ words. map (λ word. word.now) words.items ≡ words_of line.now) }
{
    Ok(pieces(alloc, line)?)
}

/// Whether a line gives no reply: it is empty, or begins with `#`.
pub fn silent(line: &[u8]) -> bool
    ensures { result ≡ is_silent line.now }
{
    match line.first() {
        None => true,
        Some(byte) => *byte == b'#',
    }
}

// Whether each byte is one of 32 to 126.
fn printable(line: &[u8]) -> bool
    ensures { result ≡ list_all (λ b. nat_le 32 b && nat_le b 126) line.now }
{
    line.iter().all(|byte| b' ' <= *byte && *byte <= b'~')
}

// Whether no word is empty.
fn none_empty(words: &[&[u8]]) -> bool
    ensures { result ≡ list_all (λ word. not (is_empty word.now)) words.now }
{
    words.iter().all(|word| !word.is_empty())
}

/// Whether a line is made of words of bytes 33 to 126, parted by one space each.
pub fn plain(line: &[u8], words: &[&[u8]]) -> bool
    requires { map (λ word. word.now) words.now ≡ words_of line.now }
    ensures { result ≡ is_plain line.now }
{
    printable(line) && none_empty(words)
}
