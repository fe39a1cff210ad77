// A source and a sink over memory. The calls that fail are listed by their numbers, from 1.
ghost use Rattle.std.specs.Prelude.{◌≡◌, ◌<◌, ◌≤◌, [], Some, vec_len};
ghost use Rattle.branch_io.specs.Counts.{failed_calls, IsNew};

use crate::{Faults, Sink, SinkFailed, Source, SourceFailed};

/// A source of bytes in memory, of which listed calls fail.
#[derive(Drop)]
pub struct MemorySource {
    bytes: Vec<u8>,
    at: usize,
    piece: usize,
    faults: Faults,
    ghost within: { at ≤ vec_len bytes },
    ghost gives: { 0 < piece },
}

impl MemorySource {
    ghost use Rattle.branch_io.specs.Memory.{piece_of, source_faults};

    /// A source of these bytes, of which one call gives `piece` at most. `failing` has the numbers, from 1, of
    /// the calls that fail.
    pub fn new(bytes: Vec<u8>, piece: usize, failing: Vec<u64>) -> MemorySource
        requires { 0 < piece }
        ensures left { ⟦<MemorySource as Source>⟧.left result ≡ Some bytes.items }
        ensures piece { piece_of result ≡ piece }
        ensures calls { IsNew failing.items (source_faults result) }
        ensures faults { ⟦<MemorySource as Source>⟧.faults result ≡ failed_calls failing.items 0 }
    {
        MemorySource {
            bytes,
            at: 0,
            piece,
            faults: Faults::new(failing),
        }
    }
}

impl Source for MemorySource {
    ghost use Rattle.std.specs.Prelude.{◌≡◌, ◌<◌, Some, min, length, drop, IfOk, OnErr};
    ghost use Rattle.std.specs.Io.{ReadsAtMost};
    ghost use Rattle.std.specs.Io.KnownBytes.{ReadConsumes};
    ghost use Rattle.branch_io.specs.Causes.{HasCause};
    ghost use Rattle.branch_io.specs.Counts.{fault_count, FailsAsListed};
    ghost use Rattle.branch_io.specs.Memory.{rest_of, piece_of, source_faults};

    ghost left = { λ s. Some (rest_of s) };

    ghost faults = { λ s. fault_count (source_faults s) };

    #[tactic(auto, using(crate::proofs::Calls::next_bytes))]
    fn take(&mut self, buf: &mut [u8]) -> Result<usize, SourceFailed>
        requires { 0 < length buf.old }
        ensures bound { ReadsAtMost result buf.new }
        ensures bytes { ReadConsumes (Some (rest_of self.old)) (Some (rest_of self.new)) result
            buf.new }
        ensures cause { HasCause (fault_count (source_faults self.old))
            (fault_count (source_faults self.new)) result }
        ensures calls { FailsAsListed (source_faults self.old) (source_faults self.new) result }
        ensures count { IfOk result (λ n.
            n ≡ min (min (length (rest_of self.old)) (piece_of self.old)) (length buf.old)) }
        ensures behind { IfOk result (λ n. drop n buf.new ≡ drop n buf.old) }
        ensures untouched { OnErr result (buf.new ≡ buf.old) }
        ensures piece { piece_of self.new ≡ piece_of self.old }
    {
        if self.faults.fails() {
            return Err(SourceFailed);
        }
        let rest = self.bytes.len() - self.at;
        let count = rest.min(self.piece).min(buf.len());
        buf[..count].copy_from_slice(&self.bytes[self.at..self.at + count]);
        self.at += count;
        Ok(count)
    }
}

/// A sink that keeps what it is given in memory, of which listed calls fail. A growth that is refused makes
/// its call a failing one.
#[derive(Drop)]
pub struct MemorySink {
    bytes: Vec<u8>,
    faults: Faults,
}

impl MemorySink {
    ghost use Rattle.branch_io.specs.Memory.{sink_faults};

    /// A sink that holds nothing. `failing` has the numbers, from 1, of the calls that fail.
    pub fn new(failing: Vec<u64>) -> MemorySink
        ensures given { ⟦<MemorySink as Sink>⟧.given result ≡ Some [] }
        ensures calls { IsNew failing.items (sink_faults result) }
        ensures faults { ⟦<MemorySink as Sink>⟧.faults result ≡ failed_calls failing.items 0 }
    {
        MemorySink {
            bytes: Vec::new(*failing.allocator()),
            faults: Faults::new(failing),
        }
    }

    /// What it was given.
    pub fn bytes(&self) -> &[u8]
        ensures { ⟦<MemorySink as Sink>⟧.given self.now ≡ Some result.now }
    {
        &self.bytes
    }
}

impl Sink for MemorySink {
    ghost use Rattle.std.specs.Prelude.{◌≡◌, ◌<◌, Some, length, IfOk, OnErr};
    ghost use Rattle.std.specs.Io.{WritesAtMost};
    ghost use Rattle.std.specs.Io.KnownBytes.{WriteAppends, Keeps};
    ghost use Rattle.branch_io.specs.Causes.{HasCause};
    ghost use Rattle.branch_io.specs.Counts.{fault_count, FailsAsListed, FailsWithoutRoom};
    ghost use Rattle.branch_io.specs.Memory.{bytes_of, sink_faults};

    ghost given = { λ s. Some (bytes_of s) };

    ghost faults = { λ s. fault_count (sink_faults s) };

    fn give(&mut self, bytes: &[u8]) -> Result<usize, SinkFailed>
        ensures bound { WritesAtMost result bytes.now }
        ensures some { IfOk result (λ count. 0 < length bytes.now → 0 < count) }
        ensures bytes { WriteAppends (Some (bytes_of self.old)) (Some (bytes_of self.new)) result
            bytes.now }
        ensures cause { HasCause (fault_count (sink_faults self.old))
            (fault_count (sink_faults self.new)) result }
        ensures calls { FailsWithoutRoom (sink_faults self.old) (sink_faults self.new) result }
        ensures count { IfOk result (λ n. n ≡ length bytes.now) }
    {
        if self.faults.fails() {
            return Err(SinkFailed);
        }
        match self.bytes.extend_from_slice(bytes) {
            Ok(()) => Ok(bytes.len()),
            Err(_) => {
                self.faults.refuse();
                Err(SinkFailed)
            }
        }
    }

    fn finish(&mut self) -> Result<(), SinkFailed>
        ensures bytes { Keeps (Some (bytes_of self.old)) (Some (bytes_of self.new)) }
        ensures cause { HasCause (fault_count (sink_faults self.old))
            (fault_count (sink_faults self.new)) result }
        ensures calls { FailsAsListed (sink_faults self.old) (sink_faults self.new) result }
    {
        if self.faults.fails() {
            return Err(SinkFailed);
        }
        Ok(())
    }
}
