// Empty fields: where they are missing values, where they are refused, and what is told of groups that have some.
use crate::tests::running::{Ran, answer, call_of, ends, generated, run_with, words_with};
use std::alloc::{AllocError, Global};
use std::sync::Wait;
use std::test::Fail;
use std::thread::Threads;

// Missing ones behind present ones, before them, alone, and between two.
const PRICES: &str = "city,price\nOslo,\nBergen,4\nOslo,5\nRome,\n";

const YEARS: &str =
    "city,price,year\nOslo,-3,\nBergen,,2001\nOslo,,2003\nBergen,,-7\nOslo,-5,\nRome,,\nTurin,8,2002\nTurin,,\n";

const COUNTED: &str = "group city: count, sum price, min price";

// The words of a job, row by row by two workers.
fn single<'a>(job: &'a str) -> [&'a str; 4] {
    ["run", "--workers=2", "--part-rows=1", job]
}

// Whether a job on an input has this answer row by row, in one partition, and in a pool with room for a few groups or rows.
fn agree<X: Threads + Wait + Sync>(
    rt: &X,
    alloc: Global,
    job: &str,
    input: &str,
    wanted: &str,
) -> Result<bool, AllocError> {
    let input = input.as_bytes();
    let each = ends(rt, alloc, 4, call_of(&single(job), input), wanted)?;
    let whole = ends(rt, alloc, 4, call_of(&["run", job], input), wanted)?;
    let small = ends(
        rt,
        alloc,
        4,
        call_of(&words_with("2048", job), input),
        wanted,
    )?;
    Ok(each && whole && small)
}

#[test]
fn a_group_tells_what_its_present_fields_tell(rt: HostRuntime) -> Result<(), Fail> {
    let alloc = rt.alloc();
    let cases = [
        (
            COUNTED,
            PRICES,
            "0 |city,count,sum_price,min_price\nBergen,1,4,4\nOslo,2,5,5\nRome,1,,\n",
        ),
        // The same rows the other way round.
        (
            COUNTED,
            "city,price\nRome,\nOslo,5\nBergen,4\nOslo,\n",
            "0 |city,count,sum_price,min_price\nBergen,1,4,4\nOslo,2,5,5\nRome,1,,\n",
        ),
        // A missing value is no 0: it would be the greatest of Oslo's prices, and the least of Turin's.
        (
            "group city: min price, max price",
            YEARS,
            "0 |city,min_price,max_price\nBergen,,\nOslo,-5,-3\nRome,,\nTurin,8,8\n",
        ),
        // One of two sums is missing.
        (
            "group city: sum price, sum year",
            YEARS,
            "0 |city,sum_price,sum_year\nBergen,,1994\nOslo,-8,2003\nRome,,\nTurin,8,2002\n",
        ),
        (
            "group city: max year, count, sum price, min year",
            YEARS,
            "0 |city,max_year,count,sum_price,min_year\nBergen,2001,2,,-7\nOslo,2003,3,-8,2003\nRome,,1,,\nTurin,2002,2,8,2002\n",
        ),
        (
            "group city: sum price",
            "city,price\nOslo,\nRome,\nOslo,\n",
            "0 |city,sum_price\nOslo,\nRome,\n",
        ),
        (
            "group city: count, max price",
            "city,price\nOslo,-9223372036854775808\nOslo,\n",
            "0 |city,count,max_price\nOslo,2,-9223372036854775808\n",
        ),
        // A sum of present numbers may be 0.
        (
            "group city: sum price",
            "city,price\nOslo,2\nOslo,\nOslo,-2\n",
            "0 |city,sum_price\nOslo,0\n",
        ),
        // In quotes an empty field is empty too.
        (
            COUNTED,
            "city,price\nOslo,\"\"\nOslo,\"6\"\n",
            "0 |city,count,sum_price,min_price\nOslo,2,6,6\n",
        ),
        // A column that is added up may be a key as well.
        (
            "group price: count, sum price",
            "city,price\nOslo,\nBergen,4\nOslo,4\nRome,\n",
            "0 |price,count,sum_price\n,2,\n4,2,8\n",
        ),
    ];
    for (job, input, wanted) in cases {
        assert!(rt; agree(&rt, alloc, job, input, wanted)?, "{job} {input}");
    }
    Ok(())
}

#[test]
fn a_column_compared_as_text_may_miss_values(rt: HostRuntime) -> Result<(), Fail> {
    let alloc = rt.alloc();
    let cases = [
        (
            "let none = input where price = ''; group city: count, sum price from none; group city: sum price",
            "0 |city,count,sum_price\nOslo,1,\nRome,1,\n\ncity,sum_price\nBergen,4\nOslo,5\nRome,\n",
        ),
        (
            "let some = input where not price = '' keep memory; group city: sum price from some; order price down: city from some",
            "0 |city,sum_price\nBergen,4\nOslo,5\n\ncity\nOslo\nBergen\n",
        ),
        (
            "let all = input where city > 'C' keep disk; group city: max price from all; order price, city: city, price from all",
            "0 |city,max_price\nOslo,5\nRome,\n\ncity,price\nOslo,\nRome,\nOslo,5\n",
        ),
    ];
    for (job, wanted) in cases {
        assert!(rt; agree(&rt, alloc, job, PRICES, wanted)?, "{job}");
    }
    Ok(())
}

#[test]
fn an_empty_field_is_refused_where_numbers_are_compared_or_ordered(
    rt: HostRuntime,
) -> Result<(), Fail> {
    let alloc = rt.alloc();
    let cases = [
        (
            "group city: count, sum price, min price; order number price: city",
            PRICES,
            "9 row 1 column 1: not a number|",
        ),
        (
            "order number price: city",
            "city,price\nBergen,4\nOslo,\n",
            "9 row 2 column 1: not a number|",
        ),
        (
            "let dear = input where price >= 4; group city: sum price from dear",
            PRICES,
            "9 row 1 column 1: not a number|",
        ),
        // No query goes over the dataset.
        (
            "let dear = input where price >= 4; group city: sum price",
            PRICES,
            "9 row 1 column 1: not a number|",
        ),
        (
            "let a = input where price = ''; let dear = a where not price < 4; group city: sum price from a",
            PRICES,
            "9 row 1 column 1: not a number|",
        ),
        // The one column may be empty, the other not.
        (
            "let late = input where year > 2000; group city: sum price, sum year from late",
            "city,price,year\nOslo,,2001\nOslo,,\n",
            "9 row 2 column 2: not a number|",
        ),
        (
            "let late = input where year > 2000; group city: sum price, sum year from late",
            "city,price,year\nOslo,x,\n",
            "9 row 1 column 1: not a number|",
        ),
        // A blank is no number, and isn't empty.
        (
            COUNTED,
            "city,price\nOslo,\nOslo, \n",
            "9 row 2 column 1: not a number|",
        ),
        (
            COUNTED,
            "city,price\nOslo,-\n",
            "9 row 1 column 1: not a number|",
        ),
    ];
    for (job, input, wanted) in cases {
        assert!(rt; agree(&rt, alloc, job, input, wanted)?, "{job} {input}");
    }
    Ok(())
}

#[test]
fn a_sum_is_too_wide_beside_a_missing_one(rt: HostRuntime) -> Result<(), Fail> {
    let alloc = rt.alloc();
    let wide = "city,price,year\nBergen,,\nOslo,,9223372036854775807\nOslo,,\nOslo,,1\n";
    let cases = [
        "group city: sum price, sum year",
        "group city: sum year, sum price",
    ];
    let wanted = "11 query 0: a sum is too wide|";
    for job in cases {
        assert!(rt; agree(&rt, alloc, job, wide, wanted)?, "{job}");
    }
    // What a missing value is added to stays as it is.
    let most = "city,price,year\nOslo,,9223372036854775807\nOslo,,\n";
    let wanted = "0 |city,sum_price,sum_year\nOslo,,9223372036854775807\n";
    assert!(rt; agree(&rt, alloc, "group city: sum price, sum year", most, wanted)?);
    Ok(())
}

// Generated rows, of which those with a price below 0 have an empty field in its place, and all of every tenth key.
fn with_gaps(alloc: Global, rows: usize) -> Result<Vec<u8>, Fail> {
    let whole = generated(alloc, rows)?;
    let mut input = Vec::new(alloc);
    for line in str::from_utf8(&whole)?.split('\n') {
        match line.split_once(',') {
            Some((key, price)) if price.starts_with('-') || key.ends_with('0') => {
                input.extend_from_slice(key.as_bytes())?;
                input.extend_from_slice(b",\n")?;
            }
            Some(_) => {
                input.extend_from_slice(line.as_bytes())?;
                input.push(b'\n')?;
            }
            None => {}
        }
    }
    Ok(input)
}

// The run of a job in partitions of 100 rows.
fn run_in<X: Threads + Wait + Sync>(
    rt: &X,
    alloc: Global,
    workers: &str,
    heap: &str,
    input: &[u8],
) -> Result<Ran, AllocError> {
    let job = "group k: count, sum price, min price, max price";
    let words = [
        "run",
        workers,
        "--reserved=0",
        "--fraction=1000",
        "--part-rows=100",
        heap,
        job,
    ];
    run_with(rt, alloc, 4, call_of(&words, input))
}

// Some of the groups of 3,000 rows, by another program, which has 960 of them; in 250 each price is missing.
const GROUPS: [&str; 5] = [
    "\nk0,5,,,\n",
    "\nk1,4,1514,638,876\n",
    "\nk100,6,,,\n",
    "\nk101,2,842,842,842\n",
    "\nk998,10,935,25,529\n",
];

// Whether a table has these groups, and so many in all.
fn has_groups(table: &str) -> bool {
    let mut count: u64 = 0;
    let mut missing: u64 = 0;
    for line in table.split('\n') {
        count = count.wrapping_add(1);
        if line.ends_with(",,,") {
            missing = missing.wrapping_add(1);
        }
    }
    for line in GROUPS {
        if !table.contains(line) {
            return false;
        }
    }
    // The heading, and nothing behind the last line feed.
    count == 962 && missing == 250
}

#[test]
fn pools_agree_on_groups_with_missing_values(rt: HostRuntime) -> Result<(), Fail> {
    let alloc = rt.alloc();
    let input = with_gaps(alloc, 3_000)?;
    let ample = run_in(&rt, alloc, "--workers=1", "--heap=1000000000", &input)?;
    let table = answer(alloc, &ample.outcome.status, &ample.written)?;
    assert!(rt; has_groups(&table), "{table}");
    for workers in ["--workers=1", "--workers=2"] {
        let ran = run_in(&rt, alloc, workers, "--heap=6000", &input)?;
        let found = answer(alloc, &ran.outcome.status, &ran.written)?;
        assert!(rt; found.as_str() == table.as_str(), "{workers}");
        // Tasks spill.
        assert!(rt; ran.outcome.journal.entries().len() > ample.outcome.journal.entries().len());
    }
    Ok(())
}
