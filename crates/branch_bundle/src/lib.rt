//! Bundles: the bytes that one store sends to another.
//!
//! A bundle is eight letters, a version, the address of a commit, a count, and as many items. An item is two objects
//! of a store: of a commit's value, and of the commit. In the version of a store whose layout keeps no values it is
//! the commit's alone. Each bundle has one spelling in a layout, and nothing may follow it.
#![tactic(auto)]

mod bundle;
mod errors;
mod reading;
mod writing;

pub use bundle::{Bundle, Item};
pub use errors::BundleRefused;
pub use reading::read_bundle;
pub use writing::put_bundle;
