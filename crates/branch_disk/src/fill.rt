// What the pending bytes of an image are.

/// What each pending byte of an image is.
#[derive(Clone, Copy, Debug, PartialEq, Eq)]
pub enum Fill {
    /// As it was before.
    Old,
    /// As it was to be written.
    New,
    /// This byte.
    Byte(u8),
}
