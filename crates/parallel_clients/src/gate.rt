// What is called beside the work of clients.
use std::sync::Wait;

/// What is called before a client prepares an operation, a merge or a join, and after each of its moves. It may wait,
/// so that a test can hold a client back.
pub trait Gate: Sync {
    /// A client is about to prepare an operation, a merge or a join.
    fn before_prepare<R: Wait>(&self, rt: &R, client: u64);

    /// A move of a client landed.
    fn after_land<R: Wait>(&self, rt: &R, client: u64);
}

/// A gate that lets each client through at once.
#[derive(Clone, Copy, Debug)]
pub struct OpenGate;

impl Gate for OpenGate {
    fn before_prepare<R: Wait>(&self, _rt: &R, _client: u64) {}

    fn after_land<R: Wait>(&self, _rt: &R, _client: u64) {}
}
