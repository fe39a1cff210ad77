// The front: the word that all threads share.
ghost use Rattle.std.specs.Prelude.{◌≡◌, [], IfOk};
ghost use Rattle.branch_front.specs.SeatViews.{opening_view};

use crate::rule::{Counts, OneHistory};
use crate::seat_view::SeatView;
use crate::steps::At;
use crate::writer::Writer;
use atomic_table::Table;
use mrdt_model::Memory;
use std::alloc::Global;
use std::marker::Model;

/// The word that all threads share: the length of the history.
pub struct Front<M> {
    pub(crate) table: Table<(), SeatView<M>, Counts, OneHistory, Global>,
}

impl<M> Model for Front<M> {
    ghost use Rattle.std.specs.Prelude.{◌≡◌};
    ghost use Rattle.branch_front.specs.Views.{Opening};

    ghost Value = { Opening };

    ghost view = { λ f. record {
      table = f.table.shared.table_id;
      begun = f.table.shared.key.begun;
      parts = f.table.shared.key.parts;
    } };

    ghost invariant = { λ f. f.table.shared.table_id.words ≡ 1 };
}

impl<M> Front<M> {
    /// A word that begins at the length `moves`, and its writer, which holds all `parts`.
    pub fn new(alloc: Global, moves: u64, parts: u64) -> Result<(Front<M>, Writer<M>), Memory>
        ensures front { IfOk result (λ r. r.0 ≡ record {
          table = r.0.table;
          begun = moves;
          parts = parts;
        }) }
        ensures writer { IfOk result (λ r. r.1 ≡ record {
          table = r.0.table;
          moves = [];
          mine = [];
          others = [];
          faults = 0;
          parts = parts;
          receipts = 0;
        }) }
    {
        let (front, seat) = Front::open(alloc, moves, parts)?;
        Ok((front, Writer { seat }))
    }

    // The front, and the seat of its writer.
    fn open(alloc: Global, begun: u64, parts: u64) -> Result<(Front<M>, At<M>), Memory>
        ensures front { IfOk result (λ r. r.0 ≡ record {
          table = r.1.table_id;
          begun = begun;
          parts = parts;
        }) }
        ensures seat { IfOk result (λ r. r.1.me ≡ (opening_view parts, [])) }
    {
        let (table, seat) = Table::of_words(alloc, &[begun], &Counts { begun, parts })?;
        Ok((Front { table }, seat))
    }
}

impl<M> Drop for Front<M> {
    fn drop(self) {
        let Front { table: _ } = self;
    }
}
