// Inputs, words, jobs and pools that end a run before its table.
use crate::tests::running::{
    BOTH, CITIES, Call, call_of, cities, ends, run_with, told, words_in, words_with,
};
use job_ending::Status;
use std::alloc::{AllocError, Global};
use std::sync::Wait;
use std::test::Fail;
use std::thread::Threads;

// An input of one column and one row, whose field has so many letters.
fn letters(alloc: Global, count: usize) -> Result<Vec<u8>, AllocError> {
    let mut input = b"k\n".to_vec(alloc)?;
    for _ in 0..count {
        input.push(b'x')?;
    }
    Ok(input)
}

// Whether a call with so many posts is told so before it has a pool, with nothing written.
fn is_refused<X: Threads + Wait + Sync>(
    rt: &X,
    alloc: Global,
    posts: usize,
    call: Call<'_>,
    wanted: &str,
) -> Result<bool, AllocError> {
    let ran = run_with(rt, alloc, posts, call)?;
    let found = told(alloc, &ran.outcome.status)?;
    Ok(found.as_str() == wanted && ran.written.is_empty() && ran.outcome.setup.is_none())
}

#[test]
fn other_inputs_are_refused_by_name(rt: HostRuntime) -> Result<(), Fail> {
    let alloc = rt.alloc();
    let cases = [
        (BOTH, "", "5 input has no header"),
        (BOTH, "\n\r\n", "5 input has no header"),
        (
            "group city: sum price",
            "city,price\nOslo,1\nOslo,2\nOslo,3\nOslo,3.5\nOslo,4\nOslo\n",
            "9 row 4 column 1: not a number",
        ),
        (
            "group a: count",
            "a,b\n1\n",
            "7 row 1: wrong number of fields",
        ),
        (
            BOTH,
            "city,price\nOslo\n",
            "7 row 1: wrong number of fields",
        ),
        ("group town: count", CITIES, "6 no column town"),
        ("order number price: town, cost", CITIES, "6 no column town"),
        (BOTH, "city,cost\nOslo,1\n", "6 no column price"),
        (
            "order number city: price",
            CITIES,
            "9 row 1 column 0: not a number",
        ),
    ];
    for (job, input, wanted) in cases {
        let words = ["run", job];
        let call = call_of(&words, input.as_bytes());
        assert!(rt; is_refused(&rt, alloc, 4, call, wanted)?, "{job}");
    }
    Ok(())
}

// Whether a call is told so.
fn is_told<X: Threads + Wait + Sync>(
    rt: &X,
    alloc: Global,
    call: Call<'_>,
    wanted: &str,
) -> Result<bool, AllocError> {
    let ran = run_with(rt, alloc, 4, call)?;
    let found = told(alloc, &ran.outcome.status)?;
    Ok(found.as_str() == wanted)
}

#[test]
fn a_row_has_at_most_65536_bytes(rt: HostRuntime) -> Result<(), Fail> {
    let alloc = rt.alloc();
    let words = ["run", "group k: count"];
    let most = letters(alloc, 65_536)?;
    assert!(rt; is_told(&rt, alloc, call_of(&words, &most), "0 ")?);
    let more = letters(alloc, 65_537)?;
    assert!(rt; is_told(&rt, alloc, call_of(&words, &more), "8 row 1: too long")?);
    Ok(())
}

// The key that a run tells of a sum that is too wide; no byte where it tells something else.
fn wide_key<X: Threads + Wait + Sync>(
    rt: &X,
    alloc: Global,
    call: Call<'_>,
) -> Result<Vec<u8>, AllocError> {
    let ran = run_with(rt, alloc, 4, call)?;
    match &ran.outcome.status {
        Status::SumTooWide { key, .. } => key.bytes().to_vec(alloc),
        _ => Ok(Vec::new(alloc)),
    }
}

#[test]
fn a_sum_beyond_64_bits_is_told_with_its_key(rt: HostRuntime) -> Result<(), Fail> {
    let alloc = rt.alloc();
    let input = b"city,price\nBergen,2\nOslo,9223372036854775807\nOslo,1\n";
    let words = ["run", "group city: sum price"];
    let call = call_of(&words, input);
    assert!(rt; ends(&rt, alloc, 4, call, "11 query 0: a sum is too wide|")?);
    let key = wide_key(&rt, alloc, call)?;
    assert!(rt; key.as_slice() == b"\x4f\x73\x6c\x6f\x00\x00".as_slice());
    Ok(())
}

#[test]
fn a_heap_takes_the_groups_that_fit_and_no_byte_more(rt: HostRuntime) -> Result<(), Fail> {
    let alloc = rt.alloc();
    let words = words_with("4096", "group k: count");
    let most = letters(alloc, 3021)?;
    assert!(rt; is_told(&rt, alloc, call_of(&words, &most), "0 ")?);
    let more = letters(alloc, 3022)?;
    let wanted = "12 no room: asked 3073, held 1024, floor 1024";
    assert!(rt; is_told(&rt, alloc, call_of(&words, &more), wanted)?);
    Ok(())
}

// Whether a call on the cities is told so before it has a pool or a file.
fn is_refused_at_once<X: Threads + Wait + Sync>(
    rt: &X,
    alloc: Global,
    posts: usize,
    words: &[&str],
    wanted: &str,
) -> Result<bool, AllocError> {
    let ran = run_with(rt, alloc, posts, cities(words))?;
    let found = told(alloc, &ran.outcome.status)?;
    Ok(found.as_str() == wanted && ran.written.is_empty() && ran.files == 0)
}

// Whether a line's words are refused by a call with so many posts, before anything is written.
fn are_bad<X: Threads + Wait + Sync>(
    rt: &X,
    alloc: Global,
    posts: usize,
    line: &str,
) -> Result<bool, AllocError> {
    let usage = "2 usage: run [options] JOB, plan JOB, audit, trial [options] N";
    let words = words_in(alloc, line)?;
    is_refused_at_once(rt, alloc, posts, &words, usage)
}

#[test]
fn words_of_another_form_are_refused(rt: HostRuntime) -> Result<(), Fail> {
    let alloc = rt.alloc();
    let lines = [
        "",
        "run",
        "plan^group city: count, sum price",
        "run^group city: count, sum price^group city: count, sum price",
        "run^--help",
        "run^--workers^0^group city: count, sum price",
        "run^--workers=17^group city: count, sum price",
        "run^--work^4^group city: count, sum price",
        "run^--heap^5^--heap=5^group city: count, sum price",
        "run^--journal^--journal^group city: count, sum price",
        "run^--journal=1^group city: count, sum price",
        "run^--heap=0^group city: count, sum price",
        "run^--heap=1099511627777^group city: count, sum price",
        "run^--heap=+5^group city: count, sum price",
        "run^--heap=^group city: count, sum price",
    ];
    for line in lines {
        assert!(rt; are_bad(&rt, alloc, 4, line)?, "{line}");
    }
    // Four workers have four posts.
    assert!(rt; are_bad(&rt, alloc, 3, "run^group city: count, sum price")?);
    Ok(())
}

// Whether a line's words, over the cities, have this answer.
fn answers<X: Threads + Wait + Sync>(
    rt: &X,
    alloc: Global,
    line: &str,
    wanted: &str,
) -> Result<bool, AllocError> {
    let words = words_in(alloc, line)?;
    ends(rt, alloc, 16, cities(&words), wanted)
}

#[test]
fn options_stand_anywhere_and_say_what_they_are_named_for(rt: HostRuntime) -> Result<(), Fail> {
    let alloc = rt.alloc();
    let table = "0 |city,count,sum_price\nBergen,1,4\nOslo,2,8\n";
    let many = "10 too many rows|";
    let small = "4 heap too small for the reserve|";
    let cases = [
        (
            "run^group city: count, sum price^--heap^64000000^--reserved^0",
            table,
        ),
        (
            "run^--fraction=1000^--storage=0^group city: count, sum price",
            table,
        ),
        (
            "run^--part-rows^1^--workers^16^group city: count, sum price",
            table,
        ),
        (
            "run^--part-rows=2^--workers=1^--^group city: count, sum price",
            table,
        ),
        ("run^--max-rows^3^group city: count, sum price", table),
        ("run^--max-rows^2^group city: count, sum price", many),
        (
            "run^--reserved^4^--heap^5^group city: count, sum price",
            small,
        ),
        (
            "run^--reserved^715827883^group city: count, sum price",
            small,
        ),
        ("run^--reserved^4^--heap^5^group", "3 job: error at byte 5|"),
        (
            "run^--reserved^4^--heap^6^group city: count",
            "12 no room: asked 1024, held 0, floor 0|",
        ),
    ];
    for (line, wanted) in cases {
        assert!(rt; answers(&rt, alloc, line, wanted)?, "{line}");
    }
    Ok(())
}

#[test]
fn a_job_may_be_spelled_in_any_way(rt: HostRuntime) -> Result<(), Fail> {
    let alloc = rt.alloc();
    let jobs = [
        "group city:count",
        " group\tcity : count ",
        "group \"city\": count",
        "group city: count from input",
    ];
    let table = "0 |city,count\nBergen,1\nOslo,2\n";
    for job in jobs {
        assert!(rt; ends(&rt, alloc, 4, cities(&["run", job]), table)?, "{job}");
    }
    Ok(())
}

#[test]
fn a_text_that_is_no_job_is_refused_at_its_place(rt: HostRuntime) -> Result<(), Fail> {
    let alloc = rt.alloc();
    let jobs = [
        ("", 0),
        ("Group city: count", 0),
        ("group city: sum", 15),
        ("group 1st: count", 6),
        ("group order: count", 6),
        ("group city: count, sum number", 23),
        ("group city, city: count", 12),
        ("order city: price down", 18),
    ];
    for (job, place) in jobs {
        let wanted = format!(in alloc; "3 job: error at byte {place}")?;
        let words = ["run", job];
        assert!(rt;
            is_refused_at_once(&rt, alloc, 4, &words, &wanted)?,
            "{job}"
        );
    }
    Ok(())
}
