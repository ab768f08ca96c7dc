// Jobs of several queries, and of datasets.
use crate::tests::running::{CITIES, answer, call_of, cities, ends, generated, run_on};
use pool_ledger::Event;
use std::alloc::{AllocError, Global};
use std::sync::Wait;
use std::test::Fail;
use std::thread::Threads;

const ORDERS: &str =
    "order_id,region,amount\r\n1001,North,250\r\n1002,South,-40\r\n1003,North,75\r\n1004,\"East, upper\",75\r\n";

// Whether the runs of a job on an input, row by row and in one partition, have these tables.
fn prints<X: Threads + Wait + Sync>(
    rt: &X,
    alloc: Global,
    job: &str,
    input: &str,
    tables: &str,
) -> Result<bool, AllocError> {
    let wanted = format!(in alloc; "0 |{tables}")?;
    let words = ["run", "--part-rows=1", job];
    let single = ends(rt, alloc, 4, call_of(&words, input.as_bytes()), &wanted)?;
    let words = ["run", "--part-rows=10000", job];
    Ok(single && ends(rt, alloc, 4, call_of(&words, input.as_bytes()), &wanted)?)
}

#[test]
fn tables_stand_in_the_order_of_the_queries(rt: HostRuntime) -> Result<(), Fail> {
    let alloc = rt.alloc();
    let cases = [
        (
            "group city: count; order number price down: city, price",
            CITIES,
            "city,count\nBergen,1\nOslo,2\n\ncity,price\nOslo,5\nBergen,4\nOslo,3\n",
        ),
        (
            "group city: count; group city: count",
            CITIES,
            "city,count\nBergen,1\nOslo,2\n\ncity,count\nBergen,1\nOslo,2\n",
        ),
        (
            "let a = input; group city: count from a",
            CITIES,
            "city,count\nBergen,1\nOslo,2\n",
        ),
        // The pass over the dataset has the first query and the third.
        (
            "let dear = input where price >= 4; group city: count from dear; group city: count; order city: price from dear",
            CITIES,
            "city,count\nBergen,1\nOslo,1\n\ncity,count\nBergen,1\nOslo,2\n\nprice\n4\n5\n",
        ),
        (
            "let dear = input where price >= 4; let there = dear where city = 'Oslo'; group city: sum price from there",
            CITIES,
            "city,sum_price\nOslo,5\n",
        ),
        // As texts 4 and 5 are greater than 30, as numbers less.
        (
            "let a = input where price > '30'; let b = input where price < 30 and not city = 'Bergen'; group city: count from a; group city: count from b",
            CITIES,
            "city,count\nBergen,1\nOslo,1\n\ncity,count\nOslo,2\n",
        ),
        (
            "let none = input where price > 100; group city: count from none; order city: city from none",
            CITIES,
            "city,count\n\ncity\n",
        ),
        (
            "let none = input where price > 100; group city: count from none; group city: count",
            "city,price\n",
            "city,count\n\ncity,count\n",
        ),
        (
            "let paid = input where amount > 0; group region: count, sum amount, max amount from paid; order number amount down: order_id, amount from paid",
            ORDERS,
            "region,count,sum_amount,max_amount\n\"East, upper\",1,75,75\nNorth,2,325,250\n\norder_id,amount\n1001,250\n1003,75\n1004,75\n",
        ),
    ];
    for (job, input, tables) in cases {
        assert!(rt; prints(&rt, alloc, job, input, tables)?, "{job}");
    }
    Ok(())
}

#[test]
fn the_first_wide_sum_is_that_of_the_first_query(rt: HostRuntime) -> Result<(), Fail> {
    let alloc = rt.alloc();
    let input = b"k,n\nb,9223372036854775807\na,1\nb,1\n";
    let job =
        "let b = input where k = 'b'; order k: k; group k: sum n from b; group k: count, sum n";
    let wanted = "11 query 1: a sum is too wide|";
    assert!(rt; ends(&rt, alloc, 4, call_of(&["run", job], input), wanted)?);
    Ok(())
}

// The tasks that a run begins, each with its worker, ascending; none where it doesn't print its tables.
fn begun_by<X: Threads + Wait + Sync>(
    rt: &X,
    alloc: Global,
    words: &[&str],
) -> Result<Vec<(u32, u32)>, AllocError> {
    let ran = run_on(rt, alloc, cities(words))?;
    let mut begun = Vec::new(alloc);
    if ran.outcome.status.number() == 0 {
        for entry in ran.outcome.journal.entries() {
            if let Event::Begin { task } = entry.event {
                begun.push((task, entry.worker))?;
            }
        }
    }
    begun.sort()?;
    Ok(begun)
}

#[test]
fn each_pass_has_its_tasks_and_a_final_one(rt: HostRuntime) -> Result<(), Fail> {
    let alloc = rt.alloc();
    // Three partitions, and a pass over each of two datasets.
    let job = "let dear = input where price >= 4; group city: count from dear; group city: count";
    let words = ["run", "--workers=2", "--part-rows=1", job];
    // The workers of a pass run at the same time.
    let begun = begun_by(&rt, alloc, &words)?;
    let wanted = [
        (0, 0),
        (1, 1),
        (2, 0),
        (3, 0),
        (4, 0),
        (5, 1),
        (6, 0),
        (7, 0),
    ];
    assert_eq!(rt; begun.as_slice(), wanted.as_slice());
    Ok(())
}

// The words of a job in partitions of 1,000 rows.
fn words_of<'a>(workers: &'a str, heap: &'a str, job: &'a str) -> [&'a str; 7] {
    [
        "run",
        workers,
        "--reserved=0",
        "--fraction=1000",
        "--part-rows=1000",
        heap,
        job,
    ]
}

#[test]
fn pools_and_workers_agree_on_all_tables(rt: HostRuntime) -> Result<(), Fail> {
    let alloc = rt.alloc();
    let input = generated(alloc, 20_000)?;
    let job =
        "let pos = input where price >= 0; let high = pos where price >= 500; group k: count, sum price from pos; order number price down: k, price from pos; group k: min price, max price from high; group k: count";
    let ample = run_on(
        &rt,
        alloc,
        call_of(&["run", "--part-rows=1000", job], &input),
    )?;
    let tables = answer(alloc, &ample.outcome.status, &ample.written)?;
    assert!(rt; tables.as_str().starts_with("0 |k,"));
    for workers in ["--workers=1", "--workers=4", "--workers=16"] {
        for heap in ["--heap=100000", "--heap=1000000"] {
            let words = words_of(workers, heap, job);
            assert!(rt;
                ends(&rt, alloc, 16, call_of(&words, &input), &tables)?,
                "{workers} {heap}"
            );
        }
    }
    Ok(())
}
