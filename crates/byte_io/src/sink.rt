ghost use Rattle.std.specs.Prelude.{◌≡◌, ◌<◌, ◌≤◌, List, ℕ, Option, length, is_some, IfOk, OnOk, OnErr};
ghost use Rattle.std.specs.Io.KnownBytes.{Appends, WriteAppends};
ghost use Rattle.byte_io.specs.Sinks.{AppendsPrefix};
ghost use Rattle.fault_count.specs.Faults.{HasCauseAt};

use thiserror::Error;

/// A write that took nothing.
#[derive(Clone, Copy, Debug, PartialEq, Eq, Error)]
pub enum SinkError {
    #[error("a write failed")]
    Failed,
    #[error("out of memory")]
    NoMemory,
}

/// Where bytes go. A sink that *tells* shows contracts the bytes that it has taken.
pub trait Sink {
    /// The bytes taken so far, of a sink that tells.
    ghost written: { Self → Option (List ℕ) };

    /// How often the sink has failed.
    ghost faults: { Self → ℕ };

    /// Takes some first bytes of `piece`, at least one, and answers how many. An `Err` takes none.
    fn write(&mut self, piece: &[u8]) -> Result<usize, SinkError>
        requires some { 0 < length piece.now }
        ensures some { IfOk result (λ n. 0 < n) }
        ensures bound { IfOk result (λ n. n ≤ length piece.now) }
        ensures bytes { WriteAppends (written self.old) (written self.new) result piece.now }
        ensures tells { is_some (written self.new) ≡ is_some (written self.old) }
        ensures cause { HasCauseAt SinkError.Failed (faults self.old) (faults self.new) result };
}

/// Writes all the bytes, in as many writes as the sink takes. After an `Err` a part of them, from the
/// front, was taken.
pub fn write_all_counted<W: Sink>(sink: &mut W, bytes: &[u8]) -> Result<(), SinkError>
    ensures ok { OnOk result (Appends (W.written sink.old) (W.written sink.new) bytes.now) }
    ensures err { OnErr result (AppendsPrefix (W.written sink.old) (W.written sink.new) bytes.now) }
    ensures cause { HasCauseAt SinkError.Failed (W.faults sink.old) (W.faults sink.new) result }
    ensures tells { is_some (W.written sink.new) ≡ is_some (W.written sink.old) }
{
    let mut at = 0;
    while at < bytes.len() {
        at += sink.write(&bytes[at..])?;
    }
    Ok(())
}
