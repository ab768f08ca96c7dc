// Each call of the input, of the output and of a disk fails in turn.
use crate::tests::running::{
    BOTH, CITIES, Call, Ran, answer, call_of, cities, ends, generated, run_on, run_with, words_with,
};
use job_ending::Status;
use std::alloc::{AllocError, Global};
use std::sync::Wait;
use std::test::Fail;
use std::thread::Threads;

// Three queries, whose tables are a block each.
const THREE: &str = "group city: count; group price: count; order number price: city";

const TABLE: &str = "0 |city,count,sum_price\nBergen,1,4\nOslo,2,8\n";

// How each call of post 0's disk failed in turn, until none of a run's calls was left.
#[derive(Clone, Copy)]
struct Swept {
    // how many calls a run has
    calls: u64,
    // whether each of them told the fault, and wrote a front of the table
    told: bool,
    // how many runs wrote a part of it
    cut: u64,
    // how many files the run without a fault made
    files: u64,
}

// Whether a run told a fault of post 0's disk after a front of this table.
fn is_told(ran: &Ran, table: &[u8]) -> bool {
    let is_named = matches!(&ran.outcome.status, Status::DiskFault { post: 0 });
    is_named && table.starts_with(&ran.written)
}

fn sweep<X: Threads + Wait + Sync>(
    rt: &X,
    alloc: Global,
    posts: usize,
    words: &[&str],
    input: &[u8],
    limit: u64,
) -> Result<Swept, AllocError> {
    let whole = run_with(rt, alloc, posts, call_of(words, input))?;
    let mut swept = Swept {
        calls: 0,
        told: true,
        cut: 0,
        files: whole.files,
    };
    for call in 0..limit {
        let fails = [call];
        let at = Call {
            disk: &fails,
            ..call_of(words, input)
        };
        let ran = run_with(rt, alloc, posts, at)?;
        if ran.outcome.status.number() == 0 {
            return Ok(swept);
        }
        swept.calls = call.wrapping_add(1);
        swept.told = swept.told && is_told(&ran, &whole.written);
        if !ran.written.is_empty() {
            swept.cut = swept.cut.wrapping_add(1);
        }
    }
    swept.told = false;
    Ok(swept)
}

// How a run ends in which this call of the input fails: whether it is done, or else tells so before it has a pool.
fn ends_at_read<X: Threads + Wait + Sync>(
    rt: &X,
    alloc: Global,
    call: u64,
) -> Result<(bool, bool), AllocError> {
    let fails = [call];
    let at = Call {
        reads: &fails,
        ..cities(&["run", BOTH])
    };
    let ran = run_on(rt, alloc, at)?;
    let found = answer(alloc, &ran.outcome.status, &ran.written)?;
    let told = found.as_str() == "13 input failed|" && ran.outcome.setup.is_none();
    Ok((found.as_str() == TABLE, told))
}

#[test]
fn a_fault_of_the_input_is_told_and_nothing_is_written(rt: HostRuntime) -> Result<(), Fail> {
    let alloc = rt.alloc();
    let mut calls = 0u64;
    for call in 0..64u64 {
        let (done, told) = ends_at_read(&rt, alloc, call)?;
        if done {
            break;
        }
        assert!(rt; told, "call {call}");
        calls = call.wrapping_add(1);
    }
    // At least the bytes, and the end.
    assert!(rt; calls >= 2 && calls < 64, "{calls}");
    Ok(())
}

#[test]
fn a_fault_of_the_output_is_told(rt: HostRuntime) -> Result<(), Fail> {
    let alloc = rt.alloc();
    let words = ["run", BOTH];
    let first = Call {
        writes: &[0],
        ..cities(&words)
    };
    let ran = run_on(&rt, alloc, first)?;
    let found = answer(alloc, &ran.outcome.status, &ran.written)?;
    assert!(rt; found.as_str() == "14 output failed|" && ran.outcome.setup.is_some());
    // The table is one block.
    let second = Call {
        writes: &[1],
        ..cities(&words)
    };
    assert!(rt; ends(&rt, alloc, 4, second, TABLE)?);
    Ok(())
}

// Whether a run told a fault of the output after a front of these tables, and not all of them.
fn is_cut(ran: &Ran, tables: &[u8]) -> bool {
    let is_named = matches!(&ran.outcome.status, Status::WriteFault);
    is_named && tables.starts_with(&ran.written) && ran.written.len() < tables.len()
}

// Whether a run whose output fails at these calls tells so after a front of these tables.
fn is_cut_by<X: Threads + Wait + Sync>(
    rt: &X,
    alloc: Global,
    writes: &[u64],
    tables: &[u8],
) -> Result<bool, AllocError> {
    let at = Call {
        writes,
        ..cities(&["run", THREE])
    };
    let ran = run_with(rt, alloc, 4, at)?;
    Ok(is_cut(&ran, tables))
}

// The same of this call alone, and of it and all behind it.
fn is_cut_at<X: Threads + Wait + Sync>(
    rt: &X,
    alloc: Global,
    call: u64,
    tables: &[u8],
) -> Result<bool, AllocError> {
    let mut from = Vec::new(alloc);
    for more in 0..5u64 {
        from.push(call.wrapping_add(more))?;
    }
    Ok(is_cut_by(rt, alloc, &[call], tables)? && is_cut_by(rt, alloc, &from, tables)?)
}

#[test]
fn each_write_of_the_output_is_told_when_it_fails(rt: HostRuntime) -> Result<(), Fail> {
    let alloc = rt.alloc();
    let tables = run_with(&rt, alloc, 4, cities(&["run", THREE]))?.written;
    // Three tables, and a line feed between two.
    for call in 0..5u64 {
        assert!(rt; is_cut_at(&rt, alloc, call, &tables)?, "call {call}");
    }
    // There is no call behind these.
    assert!(rt; !is_cut_by(&rt, alloc, &[5], &tables)?);
    Ok(())
}

#[test]
fn a_fault_of_a_disk_names_its_post(rt: HostRuntime) -> Result<(), Fail> {
    let alloc = rt.alloc();
    let second = Call {
        disk: &[1],
        ..cities(&["run", BOTH])
    };
    assert!(rt; ends(&rt, alloc, 4, second, "16 disk of post 0 failed|")?);
    Ok(())
}

#[test]
fn each_call_of_a_disk_is_told_when_it_fails(rt: HostRuntime) -> Result<(), Fail> {
    let alloc = rt.alloc();
    for job in [BOTH, "order number price: city"] {
        let swept = sweep(&rt, alloc, 4, &["run", job], CITIES.as_bytes(), 100)?;
        assert!(rt; swept.told, "{job}");
        // A file of rows and one of a run are each made, written and read.
        assert_eq!(rt; swept.files, 2, "{job}");
        assert!(rt; swept.calls >= 6, "{job}");
    }
    Ok(())
}

#[test]
fn each_call_of_a_disk_is_told_when_tasks_spill(rt: HostRuntime) -> Result<(), Fail> {
    let alloc = rt.alloc();
    let input = generated(alloc, 200)?;
    for job in ["group k: count, sum price", "order k: price"] {
        let swept = sweep(&rt, alloc, 1, &words_with("4096", job), &input, 4000)?;
        assert!(rt; swept.told, "{job}");
        assert!(rt; swept.files > 2, "{job}");
        assert!(rt; swept.calls >= swept.files.wrapping_mul(3), "{job}");
    }
    Ok(())
}
