ghost use Rattle.std.specs.Prelude.{◌≡◌, ◌<◌, ◌≤◌, ◌^◌, Err, IfOk, IsErr, IsTrue, None, OnErr, OnOk, false, is_some, length};
ghost use Rattle.std.specs.Io.{ReadsAtMost};
ghost use Rattle.fault_count.specs.Faults.{Counts, HasCause, HasCauseAt};
ghost use Rattle.byte_io.specs.Sources.{TakesTurn};
ghost use Rattle.byte_io.specs.Files.{file_source_faults, file_source_turns, is_source_open, file_sink_faults, is_sink_open};

use crate::sink::{Sink, SinkError};
use crate::source::{Failed, Source};
use crate::stream::{MAX_TURNS, counted, read_in_turn, write_some};
use std::fs::{File, OpenOptions};
use std::rt::Files;

/// A source over a file, which it opens at the first read. Where that isn't possible, the read fails,
/// and the next one tries again. It tells nothing. One whose file was read 2^62 times fails.
#[derive(Drop)]
pub struct FileSource<R: Files + Drop> {
    rt: R,
    path: String,
    file: Option<R::File>,
    turns: u64,
    faults: u64,
}

impl<R: Files + Drop> FileSource<R> {
    /// A source over the file of this path. Nothing is opened yet.
    pub fn new(rt: R, path: String) -> FileSource<R>
        ensures turns { file_source_turns result ≡ 2 ^ 62 }
        ensures faults { file_source_faults result ≡ 0 }
        ensures closed { is_source_open result ≡ false }
    {
        FileSource {
            rt,
            path,
            file: None,
            turns: MAX_TURNS,
            faults: 0,
        }
    }

    /// Whether its file is open.
    pub fn is_open(&self) -> bool
        ensures { result ≡ is_source_open self.now }
    {
        self.file.is_some()
    }
}

impl<R: Files + Drop> Source for FileSource<R> {
    ghost left = { λ _. None };

    ghost turns = { file_source_turns };

    ghost faults = { file_source_faults };

    fn read(&mut self, buf: &mut [u8]) -> Result<usize, Failed>
        ensures bound { ReadsAtMost result buf.new }
        ensures turns { TakesTurn (file_source_turns self.old) (file_source_turns self.new) result }
        ensures cause { HasCause (file_source_faults self.old) (file_source_faults self.new) result }

        // Each time that it fails is counted. A read that doesn't has the file open, and it stays so.
        ensures counted { Counts (file_source_faults self.old) (file_source_faults self.new) result }
        ensures spent { file_source_turns self.old ≡ 0 → IsErr result }
        ensures opened { OnOk result (IsTrue (is_source_open self.new)) }
        ensures open { IsTrue (is_source_open self.old) → IsTrue (is_source_open self.new) }
    {
        let mut how = File::options();
        how.read(true);
        open_once(&self.rt, &how, self.path.as_str(), &mut self.file);
        let read = match &mut self.file {
            Some(file) => read_in_turn(file, &mut self.turns, buf),
            None => Err(Failed),
        };
        counted(&mut self.faults, read)
    }
}

/// Opens a file, where it isn't open yet and that is possible.
fn open_once<R: Files>(rt: &R, how: &OpenOptions, path: &str, file: &mut Option<R::File>)
    ensures { IsTrue (is_some file.old) → file.new ≡ file.old }
{
    if file.is_none() {
        *file = how.open(rt, path).ok();
    }
}

/// A sink over a file, which it makes at the first write; one that is there is emptied. Where that isn't
/// possible, the write fails, and the next one tries again. It tells nothing.
#[derive(Drop)]
pub struct FileSink<R: Files + Drop> {
    rt: R,
    path: String,
    file: Option<R::File>,
    faults: u64,
}

impl<R: Files + Drop> FileSink<R> {
    /// A sink over the file of this path. Nothing is made yet.
    pub fn new(rt: R, path: String) -> FileSink<R>
        ensures faults { file_sink_faults result ≡ 0 }
        ensures closed { is_sink_open result ≡ false }
    {
        FileSink {
            rt,
            path,
            file: None,
            faults: 0,
        }
    }

    /// Whether its file was made, and is open.
    pub fn is_open(&self) -> bool
        ensures { result ≡ is_sink_open self.now }
    {
        self.file.is_some()
    }
}

impl<R: Files + Drop> Sink for FileSink<R> {
    ghost written = { λ _. None };

    ghost faults = { file_sink_faults };

    fn write(&mut self, piece: &[u8]) -> Result<usize, SinkError>
        ensures some { IfOk result (λ n. 0 < n) }
        ensures bound { IfOk result (λ n. n ≤ length piece.now) }
        ensures cause { HasCauseAt SinkError.Failed (file_sink_faults self.old) (file_sink_faults self.new) result }

        // It fails in no other way, and each time is counted. A write that doesn't has the file open, and
        // it stays so.
        ensures only { OnErr result (result ≡ Err SinkError.Failed) }
        ensures counted { Counts (file_sink_faults self.old) (file_sink_faults self.new) result }
        ensures opened { OnOk result (IsTrue (is_sink_open self.new)) }
        ensures open { IsTrue (is_sink_open self.old) → IsTrue (is_sink_open self.new) }
    {
        let mut how = File::options();
        how.write(true).create(true).truncate(true);
        open_once(&self.rt, &how, self.path.as_str(), &mut self.file);
        let written = match &mut self.file {
            Some(file) => write_some(file, piece),
            None => Err(SinkError::Failed),
        };
        counted(&mut self.faults, written)
    }
}
