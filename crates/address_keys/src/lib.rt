//! Addresses as keys of tables that hash them.
#![tactic(auto)]

mod key;

pub use key::AddressKey;
