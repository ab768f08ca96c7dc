ghost use Rattle.std.specs.Prelude.{◌≡◌, ◌<◌, ◌≤◌, true, ℕ, List, [], Option, OnErr, Some, length, is_some};
ghost use Rattle.std.specs.Io.{ReadsAtMost};
ghost use Rattle.std.specs.Io.KnownBytes.{ReadConsumes};
ghost use Rattle.byte_io.specs.Sources.{TakesTurn};
ghost use Rattle.fault_count.specs.Faults.{HasCause, Rose};

use crate::source::{Failed, Source};
use std::io;
use std::io::{ErrorKind, Read};
use std::marker::{Brand, PhantomData};

/// Where a reading of records began, for contracts alone: `csv`'s contracts forget which reader they
/// hold, so its name and its count stand in a type. A caller passes `Brand` and picks both.
pub trait Origin {
    /// The name of the loan of the source.
    ghost name: { ℕ };

    /// Its count of faults at the start.
    ghost faults: { ℕ };
}

impl Origin for Brand {
    ghost name = { 0 };

    ghost faults = { 0 };
}

/// A source that is lent, under the name of its loan. `&mut S` is one for each source `S`.
pub trait Tap {
    /// The name of the loan.
    ghost name: { Self → ℕ };

    /// As of `Source`.
    ghost left: { Self → Option (List ℕ) };

    /// As of `Source`.
    ghost turns: { Self → ℕ };

    /// As of `Source`.
    ghost faults: { Self → ℕ };

    /// Reads as `Source::read` does.
    fn draw(&mut self, buf: &mut [u8]) -> Result<usize, Failed>
        requires room { 0 < length buf.old }
        ensures same { name self.new ≡ name self.old }
        ensures bound { ReadsAtMost result buf.new }
        ensures bytes { ReadConsumes (left self.old) (left self.new) result buf.new }
        ensures tells { is_some (left self.new) ≡ is_some (left self.old) }
        ensures turns { TakesTurn (turns self.old) (turns self.new) result }
        ensures cause { HasCause (faults self.old) (faults self.new) result };
}

impl<S: Source> Tap for &mut S {
    ghost name = { λ s. s.ghost_name };

    ghost left = { λ s. S.left s.now };

    ghost turns = { λ s. S.turns s.now };

    ghost faults = { λ s. S.faults s.now };

    fn draw(&mut self, buf: &mut [u8]) -> Result<usize, Failed> {
        (**self).read(buf)
    }
}

/// The std reader that `csv` reads through. It keeps whether the source failed, and whether its last
/// read found the end.
#[derive(Drop)]
pub struct Feed<T: Tap, O: Origin> {
    /// What bytes are drawn from.
    pub source: T,
    /// Whether a read of the source failed.
    pub failed: bool,
    /// Whether the last read found the source's end.
    pub ended: bool,
    /// The source as it was lent, for contracts alone.
    pub origin: PhantomData<O>,
    ghost same: { T.name source ≡ O.name },
    ghost later: { O.faults ≤ T.faults source },
    ghost rose: { failed ≡ true → Rose O.faults (T.faults source) },
    ghost end: { ended ≡ true → (xs : List ℕ) → T.left source ≡ Some xs → xs ≡ [] },
}

impl<T: Tap, O: Origin> Read for Feed<T, O> {
    ghost remaining = { λ s. T.left s.source };

    fn read(&mut self, buf: &mut [u8]) -> io::Result<usize>
        ensures bound { ReadsAtMost result buf.new }
        ensures bytes { ReadConsumes (T.left self.old.source) (T.left self.new.source) result buf.new }
        ensures failed { OnErr result (self.new.failed ≡ true) }
    {
        if buf.is_empty() {
            return Ok(0);
        }
        self.ended = false;
        match self.source.draw(buf) {
            Ok(count) => {
                self.ended = count == 0;
                Ok(count)
            }
            Err(_) => {
                self.failed = true;
                Err(io::Error::from(ErrorKind::Other))
            }
        }
    }
}
