// The layout of a store's objects.

/// What a store keeps of each commit.
#[derive(Clone, Copy, Debug, PartialEq, Eq)]
pub enum Layout {
    /// The object of its value, and its own, which has the address of that.
    Whole,
    /// Its own object alone, which tells what it changes. The value is made anew from the operations.
    Changes,
}
