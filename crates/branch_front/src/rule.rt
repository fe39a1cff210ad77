// The rule of the word, and what each atomic step tells the one that makes it.
use crate::seat_view::SeatView;
use crate::told::{Keyed, Numbered, Told};
use atomic_table::{Join, Play, Split, TableRule};
use std::marker::PhantomData;

/// The length at which the word begins, and the number of parts.
#[derive(Drop)]
pub(crate) struct Counts {
    pub(crate) begun: u64,
    pub(crate) parts: u64,
}

/// The word counts one history, of which every view has seen a beginning.
pub(crate) struct OneHistory;

impl<M> TableRule<(), SeatView<M>, Counts> for OneHistory {
    ghost use Rattle.branch_front.specs.SeatViews.{opening_view};
    ghost use Rattle.branch_front.specs.Rules.{CountsOneHistory};

    ghost holds = { λ counts table. CountsOneHistory counts table.words table.views };

    ghost first = { λ counts. opening_view counts.parts };
}

/// The writer adds an entry.
pub(crate) struct Adds<E, K> {
    of: PhantomData<(E, K)>,
}

impl<M, E: Told<M>, K: Keyed> Play<(), SeatView<M>> for Adds<E, K> {
    ghost use Rattle.std.specs.Prelude.{◌≡◌};
    ghost use Rattle.branch_front.specs.Rules.{Added};

    ghost then = { λ step old found new. (new.1 ≡ old.1)
        × Added E.entry K.begun old.0 found new.0 };
}

/// The writer looks, and its faults become those told.
pub(crate) struct WriterLooks<E, K> {
    of: PhantomData<(E, K)>,
}

impl<M, E: Told<M>, K: Keyed> Play<(), SeatView<M>> for WriterLooks<E, K> {
    ghost use Rattle.std.specs.Prelude.{◌≡◌};
    ghost use Rattle.branch_front.specs.Rules.{WriterLooked};

    ghost then = { λ step old found new. (new.1 ≡ old.1)
        × WriterLooked K.begun K.parts E.faults old.0 found new.0 };
}

/// A caller looks.
pub(crate) struct CallerLooks;

impl<M> Play<(), SeatView<M>> for CallerLooks {
    ghost use Rattle.std.specs.Prelude.{◌≡◌};
    ghost use Rattle.branch_front.specs.Rules.{CallerLooked};

    ghost then = { λ step old found new. (new.1 ≡ old.1) × CallerLooked old.0 found new.0 };
}

/// A caller's view comes off the writer's, with all that the writer holds for it.
pub(crate) struct OffWriter;

impl<M> Split<SeatView<M>> for OffWriter {
    ghost use Rattle.branch_front.specs.SeatViews.{idle_writer, taken_over};

    ghost left = { idle_writer };

    ghost right = { taken_over };
}

/// A new caller's view comes off another's, with some of its parts.
pub(crate) struct OffCaller<N> {
    of: PhantomData<N>,
}

impl<M, N: Numbered> Split<SeatView<M>> for OffCaller<N> {
    ghost use Rattle.branch_front.specs.SeatViews.{less_parts, newcomer};

    ghost left = { less_parts N.number };

    ghost right = { newcomer N.number };
}

/// A caller's view goes into the writer's.
pub(crate) struct IntoWriter;

impl<M> Join<SeatView<M>> for IntoWriter {
    ghost use Rattle.branch_front.specs.SeatViews.{with_caller, spent};

    ghost both = { with_caller };

    ghost spent = { spent };
}

/// A caller's view goes into another caller's, which keeps its own entries apart from the other's.
pub(crate) struct IntoCaller;

impl<M> Join<SeatView<M>> for IntoCaller {
    ghost use Rattle.branch_front.specs.SeatViews.{together, spent};

    ghost both = { together };

    ghost spent = { spent };
}

/// A caller's view goes into another caller's, and its own entries become the other's own.
pub(crate) struct IntoOwner;

impl<M> Join<SeatView<M>> for IntoOwner {
    ghost use Rattle.branch_front.specs.SeatViews.{adopted, spent};

    ghost both = { adopted };

    ghost spent = { spent };
}
