// A call of the top call on memory, and what it leaves.
ghost use Rattle.std.specs.Prelude.{All, IfOk, map};
ghost use Rattle.task_runner.specs.Consumers.{HasConsumers};
ghost use Rattle.csv_program.specs.QueryConsumers.{state_in};

use crate::consumers::{QueryConsumer, make_consumers};
use crate::top::run;
use byte_io::{MemorySink, MemorySource};
use job_ending::{Outcome, Status};
use spill_disk::MemoryDisk;
use std::alloc::{AllocError, Global};
use std::sync::Wait;
use std::thread::Threads;
use task_runner::{Gate, NoGate, Post};

pub const CITIES: &str = "city,price\nOslo,3\nBergen,4\nOslo,5\n";

pub const BOTH: &str = "group city: count, sum price";

/// The words, the input, and the calls of the input, of the output, of the journal's sink, of post 0's disk and of the store disk
/// that fail.
#[derive(Clone, Copy)]
pub struct Call<'a> {
    pub words: &'a [&'a str],
    pub input: &'a [u8],
    pub reads: &'a [u64],
    pub writes: &'a [u64],
    pub records: &'a [u64],
    pub disk: &'a [u64],
    pub store: &'a [u64],
}

/// What a call left, what it wrote to the output and as the journal, and how many files post 0's disk made.
#[derive(Drop)]
pub struct Ran {
    pub outcome: Outcome,
    pub written: Vec<u8>,
    pub recorded: Vec<u8>,
    pub files: u64,
}

/// A call with these words on the cities, in which nothing outside fails.
pub fn cities<'a>(words: &'a [&'a str]) -> Call<'a> {
    call_of(words, CITIES.as_bytes())
}

/// A call with these words on this input, in which nothing outside fails.
pub fn call_of<'a>(words: &'a [&'a str], input: &'a [u8]) -> Call<'a> {
    Call {
        words,
        input,
        reads: &[],
        writes: &[],
        records: &[],
        disk: &[],
        store: &[],
    }
}

/// The number and the text of a status.
pub fn told(alloc: Global, status: &Status) -> Result<String, AllocError> {
    let number = status.number();
    format!(in alloc; "{number} {status}")
}

/// A status and what was written, as one text: the status's number and text, `|`, and the bytes. An `Err` is want of
/// memory, here or as the status.
pub fn answer(alloc: Global, status: &Status, written: &[u8]) -> Result<String, AllocError> {
    if matches!(status, Status::NoMemory) {
        return Err(AllocError);
    }
    let number = status.number();
    let text = str::from_utf8(written).unwrap_or("no text");
    format!(in alloc; "{number} {status}|{text}")
}

// A post with a disk on which these calls fail.
fn post_of(alloc: Global, fails: &[u64]) -> Result<Post<MemoryDisk, QueryConsumer>, AllocError>
    ensures { IfOk result (λ post. HasConsumers (map state_in post.consumers.items)) }
{
    Ok(Post {
        disk: MemoryDisk::new(alloc, fails.to_vec(alloc)?),
        consumers: make_consumers(alloc)?,
    })
}

/// Posts, of which the first has a disk on which these calls fail.
pub fn posts_of(
    alloc: Global,
    count: usize,
    fails: &[u64],
) -> Result<Vec<Post<MemoryDisk, QueryConsumer>>, AllocError>
    ensures { IfOk result (λ posts. All (λ post. HasConsumers (map state_in post.consumers.items)) posts.items) }
{
    let mut posts = Vec::new(alloc);
    for place in 0..count {
        let fails = if place == 0 { fails } else { &[] };
        posts.push(post_of(alloc, fails)?)?;
    }
    Ok(posts)
}

/// Makes a call with so many posts, whose tasks go through a gate.
pub fn run_through<X: Threads + Wait + Sync, G: Gate + Sync>(
    rt: &X,
    alloc: Global,
    posts: usize,
    call: Call<'_>,
    gate: &G,
) -> Result<Ran, AllocError> {
    let mut source = MemorySource::new(call.input.to_vec(alloc)?, call.reads.to_vec(alloc)?);
    let mut sink = MemorySink::new(alloc, call.writes.to_vec(alloc)?);
    let mut journal = MemorySink::new(alloc, call.records.to_vec(alloc)?);
    let mut posts = posts_of(alloc, posts, call.disk)?;
    let store = MemoryDisk::new(alloc, call.store.to_vec(alloc)?);
    let outcome = run(
        rt,
        alloc,
        call.words,
        &mut source,
        &mut sink,
        &mut journal,
        &mut posts,
        store,
        gate,
    );
    let files = match posts.first() {
        Some(post) => post.disk.created(),
        None => 0,
    };
    Ok(Ran {
        outcome,
        written: sink.bytes().to_vec(alloc)?,
        recorded: journal.bytes().to_vec(alloc)?,
        files,
    })
}

/// Makes a call with so many posts. An `Err` is want of memory, here or in the call.
pub fn run_with<X: Threads + Wait + Sync>(
    rt: &X,
    alloc: Global,
    posts: usize,
    call: Call<'_>,
) -> Result<Ran, AllocError> {
    let ran = run_through(rt, alloc, posts, call, &NoGate)?;
    match ran.outcome.status {
        Status::NoMemory => Err(AllocError),
        _ => Ok(ran),
    }
}

/// Makes a call with a post for each of the four workers that there are by default.
pub fn run_on<X: Threads + Wait + Sync>(
    rt: &X,
    alloc: Global,
    call: Call<'_>,
) -> Result<Ran, AllocError> {
    run_with(rt, alloc, 4, call)
}

/// Whether a call with so many posts has this answer.
pub fn ends<X: Threads + Wait + Sync>(
    rt: &X,
    alloc: Global,
    posts: usize,
    call: Call<'_>,
    wanted: &str,
) -> Result<bool, AllocError> {
    let ran = run_with(rt, alloc, posts, call)?;
    let found = answer(alloc, &ran.outcome.status, &ran.written)?;
    Ok(found.as_str() == wanted)
}

/// The words that a line has, with `^` between two.
pub fn words_in<'a>(alloc: Global, line: &'a str) -> Result<Vec<&'a str>, AllocError> {
    let mut words = Vec::new(alloc);
    for word in line.split('^') {
        if !word.is_empty() {
            words.push(word)?;
        }
    }
    Ok(words)
}

/// The words of a job in a pool of one worker that is all of a heap of so many bytes.
pub fn words_with<'a>(heap: &'a str, job: &'a str) -> [&'a str; 10] {
    [
        "run",
        "--workers",
        "1",
        "--reserved",
        "0",
        "--fraction",
        "1000",
        "--heap",
        heap,
        job,
    ]
}

/// An input of generated rows: a key of a thousand, and a price from -1000 to 1000. Unlike them the header is by hand.
pub fn generated(alloc: Global, rows: usize) -> Result<Vec<u8>, AllocError> {
    let mut input = b"k,price\n".to_vec(alloc)?;
    let mut x: u64 = 1;
    for _ in 0..rows {
        x = x
            .wrapping_mul(6364136223846793005)
            .wrapping_add(1442695040888963407);
        let key = (x >> 33) % 1000;
        let price = ((x >> 40) % 2001) as i64;
        let price = price.wrapping_sub(1000);
        let line = format!(in alloc; "k{key},{price}\n")?;
        input.extend_from_slice(line.as_bytes())?;
    }
    Ok(input)
}
