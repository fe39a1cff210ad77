//! The engine of a script: it does what a line says over a core on a disk, and writes the reply.
//!
//! `specs/Play.antt` says what a script means: the machine runs its lines, with what each named session sees.
#![tactic(auto)]

pub mod engine;
pub mod refused;

pub use engine::Engine;
pub use refused::TellRefused;
