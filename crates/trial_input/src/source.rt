//! Bytes in memory as a source that never fails.

ghost use Rattle.std.specs.Prelude.{◌≡◌, ◌≤◌, length, min, take};

use byte_io::{Failed, Source};

/// A source that gives these bytes, and never fails: no fault can be put down to it.
#[derive(Drop)]
pub struct TextSource<'a> {
    text: &'a [u8],
    at: usize,
    ghost within: { at ≤ length text.now },
}

impl<'a> TextSource<'a> {
    ghost use Rattle.trial_input.specs.Sources.{text_left};

    /// A source of which no byte was read.
    pub fn new(text: &'a [u8]) -> TextSource<'a>
        ensures { text_left result ≡ text.now }
    {
        TextSource { text, at: 0 }
    }
}

// Copies as many first bytes as fit.
fn copy_front(from: &[u8], buf: &mut [u8]) -> usize
    ensures count { result ≡ min (length from.now) (length buf.old) }
    ensures same { take result buf.new ≡ take result from.now }
{
    let count = from.len().min(buf.len());
    buf[..count].copy_from_slice(&from[..count]);
    count
}

impl<'a> Source for TextSource<'a> {
    ghost use Rattle.std.specs.Prelude.{◌≡◌, Some, is_some};
    ghost use Rattle.std.specs.Io.{ReadsAtMost};
    ghost use Rattle.std.specs.Io.KnownBytes.{ReadConsumes};
    ghost use Rattle.fault_count.specs.Faults.{HasCause};
    ghost use Rattle.byte_io.specs.Sources.{TakesTurn};
    ghost use Rattle.trial_input.specs.Sources.{bytes_left, text_left};

    ghost left = { λ s. Some (text_left s) };

    ghost turns = { bytes_left };

    ghost faults = { λ _. 0 };

    fn read(&mut self, buf: &mut [u8]) -> Result<usize, Failed> {
        let count = copy_front(&self.text[self.at..], buf);
        self.at += count;
        Ok(count)
    }
}
