// What a caller of a shared store carries.
ghost use Rattle.std.specs.Prelude.{◌≡◌};

use crate::name::{EntryOf, Named};
use mrdt_model::Mrdt;
use std::marker::{Model, PhantomData};

/// What a caller carries: how much of the history it has seen, since which moments of the disk
/// that is sure, and which moves are its own. It holds some of the
/// store's parts. Contracts see a `PassView`.
///
/// A pass that is dropped takes its parts and its receipts with it.
#[derive(Drop)]
pub struct Pass<T: Mrdt, N: Named<T::Op, T::Reply>> {
    pub(crate) pass: branch_front::Pass<EntryOf<T>>,
    pub(crate) of: PhantomData<N>,
}

impl<T: Mrdt, N: Named<T::Op, T::Reply>> Model for Pass<T, N> {
    ghost use Rattle.std.specs.Prelude.{◌≡◌, ◌<◌, ◌++◌};
    ghost use Rattle.branch_history.specs.declared.moves.Move.{Move};
    ghost use Rattle.branch_shared.specs.Entries.{moves_of, moments_of};
    ghost use Rattle.branch_shared.specs.Passes.{PassView};

    ghost Value = { PassView (Move T.Op T.Reply) };

    ghost view = { λ p. record {
      moves = N.begun ++ moves_of p.pass.moves;
      sure = moments_of p.pass.moves;
      mine = p.pass.mine;
      others = p.pass.others;
      faults = p.pass.faults;
      parts = p.pass.parts;
      receipts = p.pass.receipts;
    } };

    ghost invariant = { λ p. (p.pass.table ≡ N.table) × (0 < p.pass.parts) };
}

impl<T: Mrdt, N: Named<T::Op, T::Reply>> Pass<T, N> {
    /// The number of moves that landed by it and by the passes that left into it.
    pub fn receipts(&self) -> u64
        ensures { result ≡ self.now.receipts }
    {
        self.pass.receipts()
    }
}
