// Journals that are written, and what their audit says.
use crate::tests::running::{BOTH, Call, Ran, answer, call_of, cities, ends, generated, run_with};
use audit_program::audit_call;
use byte_io::{MemorySink, MemorySource};
use std::alloc::{AllocError, Global};
use std::sync::Wait;
use std::test::Fail;
use std::thread::Threads;

// The line that an audit prints of a journal's text.
fn verdict(alloc: Global, text: &[u8]) -> Result<Vec<u8>, AllocError> {
    let mut source = MemorySource::new(text.to_vec(alloc)?, Vec::new(alloc));
    let mut sink = MemorySink::new(alloc, Vec::new(alloc));
    audit_call(alloc, &["audit"], &mut source, &mut sink);
    sink.bytes().to_vec(alloc)
}

/// Whether the journal that a run wrote has the verdict yes, with as many entries as its pool had events.
pub fn is_legal(alloc: Global, ran: &Ran) -> Result<bool, AllocError> {
    let events = ran.outcome.journal.entries().len();
    let wanted = format!(in alloc; "yes {events}\n")?;
    let line = verdict(alloc, &ran.recorded)?;
    Ok(line.as_slice() == wanted.as_bytes())
}

const TABLE: &str = "0 |city,count,sum_price\nBergen,1,4\nOslo,2,8\n";

// The journal of a run on the cities by one worker.
const JOURNAL: &[u8] =
    b"memory journal 2,455501414,227750707,1\nbegin,0,0\nattempt,0,0,1024,0,0,1024\nattempt,0,0,16384,0,0,16384\nattempt,0,0,16,0,0,16\nrelease,0,0,16400\nrelease,0,0,1024\nend,0,0,0\nbegin,0,1\nend,0,1,0\n";

// Whether a call has this answer and a whole journal, or else writes no byte of one.
fn ends_with<X: Threads + Wait + Sync>(
    rt: &X,
    alloc: Global,
    call: Call<'_>,
    wanted: &str,
    is_whole: bool,
) -> Result<bool, AllocError> {
    let ran = run_with(rt, alloc, 4, call)?;
    let found = answer(alloc, &ran.outcome.status, &ran.written)?;
    let is_recorded = if is_whole {
        is_legal(alloc, &ran)?
    } else {
        ran.recorded.is_empty()
    };
    Ok(found.as_str() == wanted && is_recorded)
}

#[test]
fn a_journal_is_written_where_it_is_asked_for(rt: HostRuntime) -> Result<(), Fail> {
    let alloc = rt.alloc();
    let words = ["run", "--workers=1", "--journal", BOTH];
    let ran = run_with(&rt, alloc, 1, cities(&words))?;
    assert!(rt; ran.recorded.as_slice() == JOURNAL);
    assert!(rt; ends_with(&rt, alloc, cities(&words), TABLE, true)?);
    let words = ["run", BOTH];
    assert!(rt; ends_with(&rt, alloc, cities(&words), TABLE, false)?);
    Ok(())
}

#[test]
fn the_journals_of_runs_that_spill_and_wait_are_legal(rt: HostRuntime) -> Result<(), Fail> {
    let alloc = rt.alloc();
    let input = generated(alloc, 5_000)?;
    let job =
        "let pos = input where price >= 0; group k: count, sum price from pos; order number price down: k, price from pos; group k: count";
    for workers in ["--workers=1", "--workers=4", "--workers=16"] {
        for heap in ["--heap=60000", "--heap=1000000"] {
            let words = [
                "run",
                workers,
                "--reserved=0",
                "--fraction=1000",
                "--part-rows=200",
                "--journal",
                heap,
                job,
            ];
            let ran = run_with(&rt, alloc, 16, call_of(&words, &input))?;
            assert_eq!(rt; ran.outcome.status.number(), 0, "{workers} {heap}");
            assert!(rt; is_legal(alloc, &ran)?, "{workers} {heap}");
        }
    }
    Ok(())
}

#[test]
fn a_journal_that_fails_is_told_before_anything_is_printed(rt: HostRuntime) -> Result<(), Fail> {
    let alloc = rt.alloc();
    let asked = Call {
        records: &[0],
        ..cities(&["run", "--journal", BOTH])
    };
    assert!(rt; ends(&rt, alloc, 4, asked, "15 journal failed|")?);
    // Without the option the sink isn't called.
    let unasked = Call {
        records: &[0],
        ..cities(&["run", BOTH])
    };
    assert!(rt; ends(&rt, alloc, 4, unasked, TABLE)?);
    Ok(())
}

// Behind the journal the output may fail; a refusal, of the input or of a sum, comes before it.
#[test]
fn a_journal_is_whole_or_not_begun(rt: HostRuntime) -> Result<(), Fail> {
    let alloc = rt.alloc();
    let words = ["run", "--journal", BOTH];
    let written = Call {
        writes: &[0],
        ..cities(&words)
    };
    assert!(rt; ends_with(&rt, alloc, written, "14 output failed|", true)?);
    let number = call_of(&words, b"city,price\nOslo,x\n");
    let refused = "9 row 1 column 1: not a number|";
    assert!(rt; ends_with(&rt, alloc, number, refused, false)?);
    let sum = call_of(&words, b"city,price\nOslo,9223372036854775807\nOslo,1\n");
    let refused = "11 query 0: a sum is too wide|";
    assert!(rt; ends_with(&rt, alloc, sum, refused, false)?);
    Ok(())
}
