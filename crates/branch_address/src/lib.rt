//! Addresses: 32 bytes that stand for any bytes.
//!
//! An address is one fixed function of the bytes. Nothing says that different bytes have different addresses.
#![tactic(auto)]

mod address;

pub use address::{Address, Sha256Address, WeakAddress};
