// The two parts of a disk.

/// A part of a disk: a file of its own.
#[derive(Clone, Copy, Debug, PartialEq, Eq)]
pub enum Part {
    /// The objects of a store.
    Objects,
    /// The records of its head moves.
    Heads,
}
