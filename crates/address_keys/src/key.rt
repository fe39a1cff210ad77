// An address as a key.
ghost use Rattle.std.specs.Prelude.{◌≡◌, ◌∷◌, [], take};
ghost use Rattle.std.proofs.Common.{ap};
ghost use Rattle.std.specs.Cmp.Lexicographic.{bytes_decides};

use std::hash::{Hash, Hasher};
use std::marker::Model;

/// An address as a key of a table, which contracts see as its bytes.
///
/// Two keys are equal where all their bytes are. Its first eight bytes alone are hashed: they tell addresses apart that
/// are hashes themselves, and cost a hasher one write instead of one for each byte.
#[derive(Clone, Copy, Debug, PartialEq, Eq)]
pub struct AddressKey {
    bytes: [u8; 32],
}

impl Model for AddressKey {
    ghost use Rattle.std.specs.Prelude.{List, ℕ};

    ghost Value = { List ℕ };

    ghost view = { λ key. key.bytes };

    ghost inverse = { λ bytes. record { bytes = bytes } };
}

impl AddressKey {
    /// The key of an address.
    pub fn new(address: [u8; 32]) -> AddressKey
        ensures { result ≡ address }
    {
        AddressKey { bytes: address }
    }
}

impl Hash for AddressKey {
    ghost hash_input = { λ key. take 8 key ∷ [] };

    ghost respects_eq = { λ x y h. ap (λ key. take 8 key ∷ []) ((bytes_decides x y).0 h) };

    fn hash<H: Hasher>(&self, state: &mut H) {
        state.write(&self.bytes[..8]);
    }
}
