ghost use Rattle.std.specs.Prelude.{◌≡◌, ◌<◌, List, ℕ, Option, length, is_some};
ghost use Rattle.std.specs.Io.{ReadsAtMost};
ghost use Rattle.std.specs.Io.KnownBytes.{ReadConsumes};
ghost use Rattle.byte_io.specs.Sources.{TakesTurn};
ghost use Rattle.fault_count.specs.Faults.{HasCause};

use thiserror::Error;

/// A read that failed. It took no byte.
#[derive(Clone, Copy, Debug, PartialEq, Eq, Error)]
#[error("a read failed")]
pub struct Failed;

/// Where bytes come from. A source that *tells* shows contracts the bytes that it has still to give.
pub trait Source {
    /// The bytes still to come, of a source that tells.
    ghost left: { Self → Option (List ℕ) };

    /// How many reads can still give a byte, so that no source gives bytes for ever.
    ghost turns: { Self → ℕ };

    /// How often the source has failed.
    ghost faults: { Self → ℕ };

    /// Reads into the front of `buf`, and answers how many bytes. 0 is the end of the input.
    fn read(&mut self, buf: &mut [u8]) -> Result<usize, Failed>
        requires room { 0 < length buf.old }
        ensures bound { ReadsAtMost result buf.new }
        ensures bytes { ReadConsumes (left self.old) (left self.new) result buf.new }
        ensures tells { is_some (left self.new) ≡ is_some (left self.old) }
        ensures turns { TakesTurn (turns self.old) (turns self.new) result }
        ensures cause { HasCause (faults self.old) (faults self.new) result };
}
