// The types of values that stores have.
use branch_tells::Tells;
use mrdt_doc::Doc;
use mrdt_wide::Wide;

/// A type with plain forms of which there are stores, by the byte in their heads that tells the kind of their values.
pub(crate) trait Kinded: Tells {
    ghost use Rattle.std.specs.Prelude.{ℕ};

    ghost KIND: { ℕ };

    /// The byte.
    const KIND: u8;
}

impl Kinded for Doc {
    ghost KIND = { 0 };

    const KIND: u8 = 0;
}

impl Kinded for Wide {
    ghost KIND = { 1 };

    const KIND: u8 = 1;
}
