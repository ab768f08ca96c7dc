// Sinks that take a piece in parts, and fail.
ghost use Rattle.std.specs.Prelude.{◌≡◌, ◌<◌, Some};
ghost use Rattle.byte_io.specs.Memory.{sink_bytes, sink_faults};

use byte_io::{MemorySink, Sink, SinkError, write_all_counted};
use std::alloc::{AllocError, Global};
use std::test::Fail;

// A sink in memory that takes at most so many bytes a write.
#[derive(Drop)]
struct Bites {
    inner: MemorySink,
    most: usize,
    ghost some: { 0 < most },
}

impl Sink for Bites {
    ghost written = { λ s. Some (sink_bytes s.inner) };

    ghost faults = { λ s. sink_faults s.inner };

    fn write(&mut self, piece: &[u8]) -> Result<usize, SinkError> {
        let count = piece.len().min(self.most);
        self.inner.write(&piece[..count])
    }
}

const TEN: &[u8] = b"ten bytes!";

// A sink that takes at most so many bytes a write, and fails at one call.
fn bites_of(alloc: Global, most: usize, call: usize) -> Result<Bites, AllocError> {
    Ok(Bites {
        inner: MemorySink::new(alloc, vec![in alloc; call as u64]?),
        most: most.max(1),
    })
}

// Writes ten bytes.
fn write_ten(sink: &mut Bites) -> Result<(), SinkError> {
    write_all_counted(sink, TEN)
}

#[test]
fn all_bytes_are_written_or_a_front_of_them(rt: HostRuntime) -> Result<(), Fail> {
    for most in [1usize, 2, 7, 65536] {
        let writes = TEN.len().div_ceil(most);
        for call in 0..writes + 1 {
            let mut sink = bites_of(rt.alloc(), most, call)?;
            let answer = write_ten(&mut sink);
            let wanted = if call < writes {
                Err(SinkError::Failed)
            } else {
                Ok(())
            };
            assert_eq!(rt; answer, wanted, "call {call} by {most}");
            let front = call.saturating_mul(most).min(TEN.len());
            assert_eq!(rt; sink.inner.bytes(), &TEN[..front], "call {call} by {most}");
        }
    }
    Ok(())
}

#[test]
fn a_sink_keeps_what_was_written_before(rt: HostRuntime) -> Result<(), Fail> {
    let alloc = rt.alloc();
    let mut sink = MemorySink::new(alloc, vec![in alloc; 1]?);
    write_all_counted(&mut sink, b"")?;
    let mut answers = Vec::new(alloc);
    for piece in [b"one ".as_slice(), b"lost", b"two"] {
        answers.push(write_all_counted(&mut sink, piece))?;
    }
    assert_eq!(rt;
        answers.as_slice(),
        [Ok(()), Err(SinkError::Failed), Ok(())].as_slice()
    );
    assert_eq!(rt; sink.bytes(), b"one two".as_slice());
    Ok(())
}
