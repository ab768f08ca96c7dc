ghost use Rattle.std.specs.Prelude.{◌≡◌, ◌≤◌, [], Some, length, min, take};

use crate::sink::{Sink, SinkError};
use crate::source::{Failed, Source};
use std::alloc::Global;

/// A source that gives these bytes and fails at the listed calls, numbered from 0. It tells.
#[derive(Drop)]
pub struct MemorySource {
    bytes: Vec<u8>,
    at: usize,
    fails: Vec<u64>,
    calls: u64,
    faults: u64,
    ghost within: { at ≤ length bytes.items },
}

impl MemorySource {
    ghost use Rattle.byte_io.specs.Memory.{source_calls, source_fails, source_faults, source_left};

    /// A source of which no byte was read.
    pub fn new(bytes: Vec<u8>, fails: Vec<u64>) -> MemorySource
        ensures left { source_left result ≡ bytes.items }
        ensures fails { source_fails result ≡ fails.items }
        ensures calls { source_calls result ≡ 0 }
        ensures faults { source_faults result ≡ 0 }
    {
        MemorySource {
            bytes,
            at: 0,
            fails,
            calls: 0,
            faults: 0,
        }
    }
}

// Copies as many first bytes as fit.
fn copy_front(from: &[u8], buf: &mut [u8]) -> usize
    ensures count { result ≡ min (length from.now) (length buf.old) }
    ensures same { take result buf.new ≡ take result from.now }
{
    let count = from.len().min(buf.len());
    buf[..count].copy_from_slice(&from[..count]);
    count
}

impl Source for MemorySource {
    ghost use Rattle.std.specs.Prelude.{◌≡◌, ◌↔◌, Some, IsErr, Contains, is_some};
    ghost use Rattle.std.specs.Io.{ReadsAtMost};
    ghost use Rattle.std.specs.Io.KnownBytes.{ReadConsumes};
    ghost use Rattle.fault_count.specs.Faults.{Counts, HasCause};
    ghost use Rattle.byte_io.specs.Sources.{TakesTurn};
    ghost use Rattle.byte_io.specs.Memory.{CountsRead, source_calls, source_fails, source_faults, source_left, source_turns};

    ghost left = { λ s. Some (source_left s) };

    ghost turns = { source_turns };

    ghost faults = { source_faults };

    fn read(&mut self, buf: &mut [u8]) -> Result<usize, Failed>
        ensures bound { ReadsAtMost result buf.new }
        ensures bytes { ReadConsumes (Some (source_left self.old)) (Some (source_left self.new)) result buf.new }
        ensures tells { is_some (Some (source_left self.new)) ≡ is_some (Some (source_left self.old)) }
        ensures turns { TakesTurn (source_turns self.old) (source_turns self.new) result }
        ensures cause { HasCause (source_faults self.old) (source_faults self.new) result }

        // It fails exactly at the calls that are listed.
        ensures listed { IsErr result ↔ Contains (source_fails self.old) (source_calls self.old) }
        ensures counts { CountsRead self.old self.new }
        ensures counted { Counts (source_faults self.old) (source_faults self.new) result }
    {
        let call = self.calls;
        self.calls = call.saturating_add(1);
        if self.fails.contains(&call) {
            self.faults = self.faults.saturating_add(1);
            return Err(Failed);
        }
        let count = copy_front(&self.bytes[self.at..], buf);
        self.at += count;
        Ok(count)
    }
}

/// A sink that keeps what it takes and fails at the listed calls, numbered from 0. It tells.
#[derive(Drop)]
pub struct MemorySink {
    bytes: Vec<u8>,
    fails: Vec<u64>,
    calls: u64,
    faults: u64,
}

impl MemorySink {
    ghost use Rattle.byte_io.specs.Memory.{sink_bytes, sink_calls, sink_fails, sink_faults};

    /// A sink that has taken nothing.
    pub fn new(alloc: Global, fails: Vec<u64>) -> MemorySink
        ensures bytes { sink_bytes result ≡ [] }
        ensures fails { sink_fails result ≡ fails.items }
        ensures calls { sink_calls result ≡ 0 }
        ensures faults { sink_faults result ≡ 0 }
    {
        MemorySink {
            bytes: Vec::new(alloc),
            fails,
            calls: 0,
            faults: 0,
        }
    }

    /// What was written.
    pub fn bytes(&self) -> &[u8]
        ensures { result.now ≡ sink_bytes self.now }
    {
        &self.bytes
    }
}

impl Sink for MemorySink {
    ghost use Rattle.std.specs.Prelude.{◌≡◌, ◌<◌, ◌≤◌, ◌↔◌, Some, Contains, IfOk, IsErrOf, is_some, length};
    ghost use Rattle.std.specs.Io.KnownBytes.{WriteAppends};
    ghost use Rattle.fault_count.specs.Faults.{CountsAt, HasCauseAt};
    ghost use Rattle.byte_io.specs.Memory.{CountsWrite, sink_bytes, sink_calls, sink_fails, sink_faults};

    ghost written = { λ s. Some (sink_bytes s) };

    ghost faults = { sink_faults };

    fn write(&mut self, piece: &[u8]) -> Result<usize, SinkError>
        requires some { 0 < length piece.now }
        ensures some { IfOk result (λ n. 0 < n) }
        ensures bound { IfOk result (λ n. n ≤ length piece.now) }
        ensures bytes { WriteAppends (Some (sink_bytes self.old)) (Some (sink_bytes self.new)) result piece.now }
        ensures tells { is_some (Some (sink_bytes self.new)) ≡ is_some (Some (sink_bytes self.old)) }
        ensures cause { HasCauseAt SinkError.Failed (sink_faults self.old) (sink_faults self.new) result }

        // It fails exactly at the calls that are listed.
        ensures listed { IsErrOf result SinkError.Failed ↔ Contains (sink_fails self.old) (sink_calls self.old) }
        ensures counts { CountsWrite self.old self.new }
        ensures counted { CountsAt SinkError.Failed (sink_faults self.old) (sink_faults self.new) result }
    {
        let call = self.calls;
        self.calls = call.saturating_add(1);
        if self.fails.contains(&call) {
            self.faults = self.faults.saturating_add(1);
            return Err(SinkError::Failed);
        }
        match self.bytes.extend_from_slice(piece) {
            Ok(()) => Ok(piece.len()),
            Err(_) => Err(SinkError::NoMemory),
        }
    }
}
