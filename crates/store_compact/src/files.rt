// The files of a compact history, in memory.
ghost use Rattle.std.specs.Prelude.{◌≡◌, [], length, IfOk};
ghost use Rattle.branch_machine.specs.Fixed.{fix};
ghost use Rattle.branch_machine.specs.Objects.{objects_text};
ghost use Rattle.branch_compact.specs.Compact.{compact as compact_of};
ghost use Rattle.store_core.specs.Contents.{closed_text};

use crate::copying::copy_marked;
use crate::spelling::spell_heads;
use branch_address::Address;
use branch_compact::laws::{compacts_valid, keeps_objects};
use branch_compact::{compact_marked, live_commits};
use branch_machine::laws::makes_fewer_moves;
use mrdt_model::{Memory, Mrdt};
use recorded_history::Recorded;
use std::alloc::Global;

/// Both files of a store: the bytes of its objects, and of its heads with a closed gate at their end; and how many moves
/// it has.
#[derive(Drop)]
pub struct CompactFiles {
    pub objects: Vec<u8>,
    pub heads: Vec<u8>,
    pub moves: u64,
}

/// The files of the compact history of a recorded one, with no move pending. No value is worked out again: the objects
/// of the live commits, which are their own alone in the layout that keeps no values, are copied, each once. It takes
/// time with the bytes of these objects, and with the moves and the parents of the commits.
pub fn compact_files<T: Mrdt, A: Address>(
    alloc: Global,
    recorded: Recorded<T, A>,
) -> Result<CompactFiles, Memory>
    requires settled { recorded.pending ≡ [] }
    ensures objects { let fixed = fix T.meaning recorded.terms A.address in
        IfOk result (λ files. files.objects.items
        ≡ objects_text fixed (compact_of recorded.terms recorded.written)) }
    ensures heads { let fixed = fix T.meaning recorded.terms A.address in
        IfOk result (λ files. files.heads.items
        ≡ closed_text fixed (compact_of recorded.terms recorded.written)) }
    ensures moves { IfOk result (λ files.
        files.moves ≡ length (compact_of recorded.terms recorded.written)) }
{
    makes_fewer_moves::<T>();
    keeps_objects::<T>();
    compacts_valid::<T>();
    let _ = recorded.moves();
    let terms = recorded.terms();
    let marks = live_commits::<T>(alloc, terms, recorded.history())?;
    let copies = copy_marked(alloc, &recorded, &marks)?;
    let moves = compact_marked::<T>(alloc, terms, marks, recorded.into_moves())?;
    let heads = spell_heads::<T, A>(alloc, terms, moves.as_slice(), &copies.placed)?;
    Ok(CompactFiles {
        objects: copies.text,
        heads,
        moves: moves.as_slice().len() as u64,
    })
}
