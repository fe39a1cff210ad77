/// The version of both files of a store, which each has behind its letters.
pub const VERSION: u32 = 2;
