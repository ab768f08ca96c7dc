// Plans of jobs over headers, printed.
use crate::plan::plan_call;
use crate::tests::running::answer;
use byte_io::{MemorySink, MemorySource};
use std::alloc::{AllocError, Global};
use std::test::Fail;

// The job of a trial.
const TRIAL: &str =
    "let pos = input where price >= 0 keep disk; let high = pos where price >= 500; \
    group key: count, sum price from pos; order number price down: key, price from pos; \
    group key: min price, max price from high; group key: count";

const PLAN: &str = "0 |columns key,price
pass 0 pos queries 0,1
pass 1 high queries 2
remove pos after 1
pass 2 input queries 3
";

// Whether a call, in which these calls of the input and of the output fail, has this answer.
fn says(
    alloc: Global,
    words: &[&str],
    input: &[u8],
    reads: &[u64],
    writes: &[u64],
    wanted: &str,
) -> Result<bool, AllocError> {
    let mut source = MemorySource::new(input.to_vec(alloc)?, reads.to_vec(alloc)?);
    let mut sink = MemorySink::new(alloc, writes.to_vec(alloc)?);
    let status = plan_call(alloc, words, &mut source, &mut sink);
    let found = answer(alloc, &status, sink.bytes())?;
    Ok(found.as_str() == wanted)
}

#[test]
fn a_plan_is_that_of_the_header_alone(rt: HostRuntime) -> Result<(), Fail> {
    let alloc = rt.alloc();
    // Rows that `run` would refuse, and none.
    for input in ["key,price\n", "key,price\na\nb,c,d\n", "\n\nkey,price"] {
        let words = ["plan", TRIAL];
        assert!(rt;
            says(alloc, &words, input.as_bytes(), &[], &[], PLAN)?,
            "{input}"
        );
    }
    Ok(())
}

#[test]
fn a_plan_is_refused_by_name(rt: HostRuntime) -> Result<(), Fail> {
    let alloc = rt.alloc();
    let cases = [
        ("group k count", "k\n", "3 job: error at byte 8|"),
        ("group k: count from x", "k\n", "3 job: error at byte 20|"),
        ("group k: count", "", "5 input has no header|"),
        ("group k: count, sum v", "k\n", "6 no column v|"),
        ("order number v: k", "k,w\n", "6 no column v|"),
    ];
    for (job, input, wanted) in cases {
        let words = ["plan", job];
        assert!(rt;
            says(alloc, &words, input.as_bytes(), &[], &[], wanted)?,
            "{job}"
        );
    }
    Ok(())
}

#[test]
fn other_words_than_those_of_plan_are_refused(rt: HostRuntime) -> Result<(), Fail> {
    let alloc = rt.alloc();
    let usage = "2 usage: run [options] JOB, plan JOB, audit, trial [options] N|";
    let cases = [
        ["plan", "group k: count", "more"],
        ["plan", "--workers=2", "group k: count"],
        ["run", "--", "group k: count"],
    ];
    for words in cases {
        assert!(rt; says(alloc, &words, b"k\n", &[], &[], usage)?);
    }
    Ok(())
}

// Whether the plan of a job has this answer, in which these calls of the input and of the output fail.
fn fails_as(
    alloc: Global,
    input: &[u8],
    reads: &[u64],
    writes: &[u64],
    wanted: &str,
) -> Result<bool, AllocError> {
    says(
        alloc,
        &["plan", "group k: count"],
        input,
        reads,
        writes,
        wanted,
    )
}

#[test]
fn a_plan_tells_what_failed(rt: HostRuntime) -> Result<(), Fail> {
    let alloc = rt.alloc();
    assert!(rt; fails_as(alloc, b"k\n", &[0], &[], "13 input failed|")?);
    assert!(rt; fails_as(alloc, b"k\n", &[], &[0], "14 output failed|")?);
    Ok(())
}

#[test]
fn a_header_has_at_most_65536_bytes(rt: HostRuntime) -> Result<(), Fail> {
    let alloc = rt.alloc();
    let mut long = Vec::new(alloc);
    for _ in 0..65537 {
        long.push(b'k')?;
    }
    assert!(rt; fails_as(alloc, &long, &[], &[], "8 row 0: too long|")?);
    Ok(())
}
