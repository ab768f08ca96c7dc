//! Memory as a sink that only fails for want of it.

ghost use Rattle.std.specs.Prelude.{◌≡◌, []};

use byte_io::{Sink, SinkError};
use std::alloc::Global;

/// A sink that keeps what it takes. It answers no other fault than want of memory: none can be put down to it.
#[derive(Drop)]
pub struct TextSink {
    bytes: Vec<u8>,
}

impl TextSink {
    ghost use Rattle.trial_input.specs.Sinks.{text_taken};

    /// A sink that has taken nothing.
    pub fn new(alloc: Global) -> TextSink
        ensures { text_taken result ≡ [] }
    {
        TextSink {
            bytes: Vec::new(alloc),
        }
    }

    /// What was written.
    pub fn bytes(&self) -> &[u8]
        ensures { result.now ≡ text_taken self.now }
    {
        &self.bytes
    }
}

impl Sink for TextSink {
    ghost use Rattle.std.specs.Prelude.{Some};
    ghost use Rattle.trial_input.specs.Sinks.{text_taken};

    ghost written = { λ s. Some (text_taken s) };

    ghost faults = { λ _. 0 };

    fn write(&mut self, piece: &[u8]) -> Result<usize, SinkError> {
        match self.bytes.extend_from_slice(piece) {
            Ok(()) => Ok(piece.len()),
            Err(_) => Err(SinkError::NoMemory),
        }
    }
}
