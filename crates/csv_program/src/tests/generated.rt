// A large input in pools from too small to ample.
use crate::tests::running::{Ran, answer, call_of, ends, generated, run_with, words_with};
use std::alloc::{AllocError, Global};
use std::sync::Wait;
use std::test::Fail;
use std::thread::Threads;

const ROWS: usize = 100_000;

fn run_in<X: Threads + Wait + Sync>(
    rt: &X,
    alloc: Global,
    heap: &str,
    job: &str,
    input: &[u8],
) -> Result<Ran, AllocError> {
    run_with(rt, alloc, 1, call_of(&words_with(heap, job), input))
}

// Whether a run has the table of another one, and made more files.
fn spills_more(ran: &Ran, ample: &Ran) -> bool {
    ran.outcome.status.number() == 0
        && ran.written.as_slice() == ample.written.as_slice()
        && ran.files > ample.files
}

#[test]
fn pools_that_have_room_agree_on_groups(rt: HostRuntime) -> Result<(), Fail> {
    let alloc = rt.alloc();
    let input = generated(alloc, ROWS)?;
    let job = "group k: count, sum price, min price, max price";
    let ample = run_in(&rt, alloc, "1073741824", job, &input)?;
    assert_eq!(rt; ample.outcome.status.number(), 0);
    // Ten partitions, each a file of rows and one of a run, and what the final task merges.
    assert!(rt; ample.files >= 20);
    for heap in ["8192", "65536"] {
        let ran = run_in(&rt, alloc, heap, job, &input)?;
        assert!(rt; spills_more(&ran, &ample), "{heap}");
    }
    // Less than a map has to have.
    let ran = run_in(&rt, alloc, "600", job, &input)?;
    assert_eq!(rt; ran.outcome.status.number(), 12);
    assert!(rt; ran.written.is_empty());
    Ok(())
}

#[test]
fn pools_that_have_room_agree_on_orders(rt: HostRuntime) -> Result<(), Fail> {
    let alloc = rt.alloc();
    let input = generated(alloc, ROWS)?;
    let job = "order number price down, k: k, price";
    let ample = run_in(&rt, alloc, "1073741824", job, &input)?;
    assert_eq!(rt; ample.outcome.status.number(), 0);
    assert!(rt; ample.files >= 20);
    for heap in ["600", "8192", "65536"] {
        let ran = run_in(&rt, alloc, heap, job, &input)?;
        assert!(rt; spills_more(&ran, &ample), "{heap}");
    }
    // Less than a sorter has to have.
    let ran = run_in(&rt, alloc, "200", job, &input)?;
    assert_eq!(rt; ran.outcome.status.number(), 12);
    assert!(rt; ran.written.is_empty());
    Ok(())
}

// The words of a job in partitions of 2,000 rows.
fn words_of<'a>(workers: &'a str, heap: &'a str, job: &'a str) -> [&'a str; 7] {
    [
        "run",
        workers,
        "--reserved=0",
        "--fraction=1000",
        "--part-rows=2000",
        heap,
        job,
    ]
}

#[test]
fn any_number_of_workers_gives_the_same_table(rt: HostRuntime) -> Result<(), Fail> {
    let alloc = rt.alloc();
    let input = generated(alloc, ROWS)?;
    let job = "group k: count, sum price";
    let alone = run_in(&rt, alloc, "1073741824", job, &input)?;
    let table = answer(alloc, &alone.outcome.status, &alone.written)?;
    assert!(rt; table.as_str().starts_with("0 |k,count,sum_price\n"));
    for workers in ["--workers=2", "--workers=4", "--workers=16"] {
        for heap in ["--heap=262144", "--heap=1073741824"] {
            let words = words_of(workers, heap, job);
            let call = call_of(&words, &input);
            assert!(rt; ends(&rt, alloc, 16, call, &table)?, "{workers} {heap}");
        }
    }
    Ok(())
}
