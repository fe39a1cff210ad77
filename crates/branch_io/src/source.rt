// A source of bytes.
ghost use Rattle.std.specs.Prelude.{ℕ, ◌<◌, List, length};
ghost use Rattle.std.specs.declared.option.Option.{Option};
ghost use Rattle.std.specs.Io.{ReadsAtMost};
ghost use Rattle.std.specs.Io.KnownBytes.{ReadConsumes};
ghost use Rattle.branch_io.specs.Causes.{HasCause};

use thiserror::Error;

/// The source failed, and its count of faults says so.
#[derive(Clone, Copy, Debug, PartialEq, Eq, Error)]
#[error("the source failed")]
pub struct SourceFailed;

/// A source of bytes.
pub trait Source {
    // The bytes that are left, where the source tells them.
    ghost left: { Self → Option (List ℕ) };

    // How often it has failed.
    ghost faults: { Self → ℕ };

    /// Puts the next bytes at the front of `buf` and says how many; 0 is the end. A failing call takes none.
    fn take(&mut self, buf: &mut [u8]) -> Result<usize, SourceFailed>
        requires { 0 < length buf.old }
        ensures bound { ReadsAtMost result buf.new }
        ensures bytes { ReadConsumes (left self.old) (left self.new) result buf.new }
        ensures cause { HasCause (faults self.old) (faults self.new) result };
}
