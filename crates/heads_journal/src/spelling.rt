// A heads file that is spelled in memory.
ghost use Rattle.std.specs.Prelude.{◌≡◌, ◌++◌, ◌∷◌, [], take, OnOk};
ghost use Rattle.heads_journal.specs.Format.{record_fields};
ghost use Rattle.heads_journal.specs.Heads.{heads_text};

use crate::Record;
use crate::block::OPEN;
use crate::header::header_block;
use branch_names::Terms;
use mrdt_model::Memory;

// How many bytes stand between two gates.
const BETWEEN: usize = 63;

// A block without the gate at its end.
fn without_gate(block: &[u8; 64]) -> &[u8]
    ensures { result.now ≡ take 63 block.now }
{
    &block[..BETWEEN]
}

/// Puts the header of these terms behind what a text has, as the heads file begins: an open gate and 63
/// bytes.
pub fn put_header(terms: &Terms, text: &mut Vec<u8>) -> Result<(), Memory>
    ensures { OnOk result (text.new.items ≡ text.old.items ++ heads_text (record {
      version = 2;
      terms = terms.now;
    }) []) }
{
    let block = header_block(terms);
    text.push(OPEN)?;
    text.extend_from_slice(without_gate(&block))?;
    Ok(())
}

/// Puts a record behind what a text has: an open gate and 63 bytes.
pub fn put_record(added: &Record, text: &mut Vec<u8>) -> Result<(), Memory>
    ensures { OnOk result (text.new.items
        ≡ text.old.items ++ 1 ∷ record_fields added.now) }
{
    let block = added.fields().block();
    text.push(OPEN)?;
    text.extend_from_slice(without_gate(&block))?;
    Ok(())
}
