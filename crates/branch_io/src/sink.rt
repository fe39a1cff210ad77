// A sink for bytes.
ghost use Rattle.std.specs.Prelude.{ℕ, ◌<◌, List, length, IfOk};
ghost use Rattle.std.specs.declared.option.Option.{Option};
ghost use Rattle.std.specs.Io.{WritesAtMost};
ghost use Rattle.std.specs.Io.KnownBytes.{WriteAppends, Keeps};
ghost use Rattle.branch_io.specs.Causes.{HasCause};

use thiserror::Error;

/// The sink failed, and its count of faults says so.
#[derive(Clone, Copy, Debug, PartialEq, Eq, Error)]
#[error("the sink failed")]
pub struct SinkFailed;

/// A sink for bytes.
pub trait Sink {
    // The bytes that it was given, where the sink tells them.
    ghost given: { Self → Option (List ℕ) };

    // How often it has failed.
    ghost faults: { Self → ℕ };

    /// Takes bytes from the front of `bytes` and says how many: at least one, if there is one. A failing call takes
    /// none.
    fn give(&mut self, bytes: &[u8]) -> Result<usize, SinkFailed>
        ensures bound { WritesAtMost result bytes.now }
        ensures some { IfOk result (λ count. 0 < length bytes.now → 0 < count) }
        ensures bytes { WriteAppends (given self.old) (given self.new) result bytes.now }
        ensures cause { HasCause (faults self.old) (faults self.new) result };

    /// Hands on what it holds back.
    fn finish(&mut self) -> Result<(), SinkFailed>
        ensures bytes { Keeps (given self.old) (given self.new) }
        ensures cause { HasCause (faults self.old) (faults self.new) result };
}
