// The times of events.

/// The time of an event: the value of a logical clock, and the number of the branch that made the event.
/// Times are compared by clock first, then by origin (Lamport, "Time, clocks, and the ordering of events in
/// a distributed system", 1978).
#[derive(Clone, Copy, Debug, PartialEq, Eq, PartialOrd, Ord)]
pub struct Time {
    /// The clock, one more than that of the commit that the operation was made on.
    pub clock: u64,
    /// The number of the branch.
    pub origin: u32,
}

impl Time {
    ghost use Rattle.std.specs.Prelude.{◌≡◌};
    ghost use Rattle.mrdt_model.specs.Times.{is_earlier};

    /// Whether this time comes before another.
    pub fn is_before(self, other: Time) -> bool
        ensures { result ≡ is_earlier self other }
    {
        self < other
    }
}
