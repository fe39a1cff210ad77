//! Reading back a history: what the records of a heads file and the bytes of an objects file stand for.
//!
//! No stored value, reply or address is trusted. Each operation is read from its commit's object and applied anew,
//! and what results is compared with the bytes.
#![tactic(auto)]

mod ahead;
mod apart;
mod commit;
mod first;
pub mod laws;
mod lookups;
mod parts;
mod plan;
mod receive;
mod refused;
mod remake;
mod rules;
mod walk;

pub use first::first_text;
pub use refused::ReplayRefused;
pub use walk::replay;
