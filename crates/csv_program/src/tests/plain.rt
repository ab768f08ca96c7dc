// Small inputs against a slow program beside it.
use crate::tests::running::{call_of, ends, words_with};
use std::alloc::{AllocError, Global};
use std::sync::Wait;
use std::test::Fail;
use std::thread::Threads;

const KEYS: [&str; 5] = ["a", "ab", "b", "", "zz"];

// A row: the place of its key among the keys, and its number.
type Row = (usize, i64);

// The next generated number, and a number below a bound.
fn next(x: &mut u64, bound: u64) -> u64 {
    *x = x
        .wrapping_mul(6364136223846793005)
        .wrapping_add(1442695040888963407);
    (*x >> 33).checked_rem(bound).unwrap_or(0)
}

fn rows_of(alloc: Global, x: &mut u64) -> Result<Vec<Row>, AllocError> {
    let mut rows = Vec::new(alloc);
    for _ in 0..next(x, 40) {
        let key = next(x, 5) as usize;
        let number = i64::try_from(next(x, 21)).unwrap_or(0).wrapping_sub(10);
        rows.push((key, number))?;
    }
    Ok(rows)
}

// The rows below 0, and those with the empty key.
fn low_rows(alloc: Global, rows: &[Row]) -> Result<Vec<Row>, AllocError> {
    let mut low = Vec::new(alloc);
    for row in rows {
        if row.1 < 0 || row.0 == 3 {
            low.push(*row)?;
        }
    }
    Ok(low)
}

fn key_of(key: usize) -> &'static str {
    KEYS.get(key).copied().unwrap_or("")
}

fn input_of(alloc: Global, rows: &[Row]) -> Result<String, AllocError> {
    let mut input = String::from_str(alloc, "k,n\n")?;
    for (key, number) in rows {
        let line = format!(in alloc; "{},{number}\n", key_of(*key))?;
        input.push_str(line.as_str())?;
    }
    Ok(input)
}

// The table of `group k: count, sum n, min n, max n`: each key's rows are picked out of all.
fn groups_of(alloc: Global, rows: &[Row]) -> Result<String, AllocError> {
    let mut table = String::from_str(alloc, "k,count,sum_n,min_n,max_n\n")?;
    // The keys ascend in this order.
    for key in [3usize, 0, 1, 2, 4] {
        let (mut count, mut sum, mut least, mut most) = (0u64, 0i64, 10i64, -10i64);
        for (other, number) in rows {
            if *other == key {
                count = count.wrapping_add(1);
                sum = sum.wrapping_add(*number);
                least = least.min(*number);
                most = most.max(*number);
            }
        }
        if count > 0 {
            let line = format!(in alloc; "{},{count},{sum},{least},{most}\n", key_of(key))?;
            table.push_str(line.as_str())?;
        }
    }
    Ok(table)
}

// The table of `order number n down: k, n`: from the greatest number to the least, those rows that have it.
fn down_of(alloc: Global, rows: &[Row]) -> Result<String, AllocError> {
    let mut table = String::from_str(alloc, "k,n\n")?;
    for step in 0..21i64 {
        let wanted = 10i64.wrapping_sub(step);
        for (key, number) in rows {
            if *number == wanted {
                let line = format!(in alloc; "{},{number}\n", key_of(*key))?;
                table.push_str(line.as_str())?;
            }
        }
    }
    Ok(table)
}

// The table of `order k, number n: n, k`.
fn up_of(alloc: Global, rows: &[Row]) -> Result<String, AllocError> {
    let mut table = String::from_str(alloc, "n,k\n")?;
    for wanted_key in [3usize, 0, 1, 2, 4] {
        for wanted in -10..11i64 {
            for (key, number) in rows {
                if *key == wanted_key && *number == wanted {
                    let line = format!(in alloc; "{number},{}\n", key_of(*key))?;
                    table.push_str(line.as_str())?;
                }
            }
        }
    }
    Ok(table)
}

// Whether a job on an input prints this table in a pool in which tasks spill, and in one in which they don't.
fn prints<X: Threads + Wait + Sync>(
    rt: &X,
    alloc: Global,
    job: &str,
    input: &str,
    table: &str,
) -> Result<bool, AllocError> {
    let wanted = format!(in alloc; "0 |{table}")?;
    let words = words_with("2048", job);
    let small = ends(rt, alloc, 1, call_of(&words, input.as_bytes()), &wanted)?;
    let words = words_with("1048576", job);
    Ok(small && ends(rt, alloc, 1, call_of(&words, input.as_bytes()), &wanted)?)
}

#[test]
fn small_inputs_have_their_plain_answers(rt: HostRuntime) -> Result<(), Fail> {
    let alloc = rt.alloc();
    let mut x = 7u64;
    for _ in 0..24 {
        let rows = rows_of(alloc, &mut x)?;
        let input = input_of(alloc, &rows)?;
        let low = low_rows(alloc, &rows)?;
        let both = format!(in alloc; "{}\n{}", up_of(alloc, &low)?, groups_of(alloc, &low)?)?;
        let cases = [
            (
                "group k: count, sum n, min n, max n",
                groups_of(alloc, &rows)?,
            ),
            ("order number n down: k, n", down_of(alloc, &rows)?),
            ("order k, number n: n, k", up_of(alloc, &rows)?),
            (
                "let low = input where n < 0 or k = ''; order k, number n: n, k from low; group k: count, sum n, min n, max n from low",
                both,
            ),
        ];
        for (job, table) in &cases {
            assert!(rt; prints(&rt, alloc, job, &input, table)?, "{job} {input}");
        }
    }
    Ok(())
}
