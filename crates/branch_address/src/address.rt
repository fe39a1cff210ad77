// The address of bytes.
ghost use Rattle.std.specs.Prelude.{◌≡◌, ℕ, List, length};

use sha2::{Digest, Sha256};

/// A way to give bytes an address.
pub trait Address {
    /// The address of bytes: one function of them.
    ghost address: { List ℕ → List ℕ };

    /// The address of these bytes. It takes no memory.
    fn of(bytes: &[u8]) -> [u8; 32]
        ensures { result ≡ address bytes.now };

    /// An address has 32 bytes.
    ghost size: { (bytes : List ℕ) → length (address bytes) ≡ 32 };
}

/// SHA-256 of the bytes, as FIPS 180-4 has it.
#[derive(Clone, Copy, Debug, Drop)]
pub struct Sha256Address;

impl Address for Sha256Address {
    ghost use Rattle.sha2.specs.Sha256.{sha256};
    ghost use Rattle.branch_address.specs.Sizes.{length-sha256_address};

    ghost address = { sha256 };

    ghost size = { length-sha256_address };

    fn of(bytes: &[u8]) -> [u8; 32] {
        Sha256::digest(bytes)
    }
}

/// Zeros, and the length of the bytes modulo 256: different bytes often share this address. It is for tests.
#[derive(Clone, Copy, Debug, Drop)]
pub struct WeakAddress;

impl Address for WeakAddress {
    ghost use Rattle.branch_address.specs.Weak.{weak_address};
    ghost use Rattle.branch_address.specs.Sizes.{length-weak_address};

    ghost address = { weak_address };

    ghost size = { length-weak_address };

    fn of(bytes: &[u8]) -> [u8; 32] {
        let mut address = [0; 32];
        address[31] = (bytes.len() % 256) as u8;
        address
    }
}
