// Each call where its words are read: every field, by its default and as it is given.
use std::test::Fail;
use words::{
    RunWords, TrialWords, WordsFault, WorkOptions, read_audit_words, read_plan_words,
    read_run_call, read_run_words, read_trial_words,
};

const DEFAULTS: WorkOptions = WorkOptions {
    workers: 4,
    heap: 1_073_741_824,
    reserved: 314_572_800,
    fraction: 600,
    storage: 500,
    part_rows: 10_000,
};

const GIVEN: WorkOptions = WorkOptions {
    workers: 16,
    heap: 67_108_864,
    reserved: 0,
    fraction: 1000,
    storage: 1,
    part_rows: 50,
};

#[test]
fn options_that_are_not_given_have_their_defaults(rt: HostRuntime) -> Result<(), Fail> {
    let alloc = rt.alloc();
    let run = RunWords {
        options: DEFAULTS,
        max_rows: 10_000_000,
        journal: false,
        job: "group city: count",
    };
    let words = ["run", "group city: count"];
    assert_eq!(rt; read_run_words(alloc, words.as_slice())?, run);
    assert_eq!(rt; read_run_call(alloc, words.as_slice())?, run);
    let words = ["trial", "10000"];
    let trial = TrialWords {
        options: DEFAULTS,
        rows: 10_000,
    };
    assert_eq!(rt; read_trial_words(alloc, words.as_slice())?, trial);
    let words = ["plan", "group city: count"];
    assert_eq!(rt;
        read_plan_words(alloc, words.as_slice())?,
        "group city: count"
    );
    let words = ["audit"];
    read_audit_words(alloc, words.as_slice())?;
    Ok(())
}

#[test]
fn what_is_given_stands_in_its_field(rt: HostRuntime) -> Result<(), Fail> {
    let alloc = rt.alloc();
    let words = [
        "run",
        "--max-rows",
        "3",
        "--storage=1",
        "--fraction",
        "1000",
        "job",
        "--reserved",
        "0",
        "--journal",
        "--heap=67108864",
        "--part-rows",
        "0050",
        "--workers=16",
    ];
    let run = RunWords {
        options: GIVEN,
        max_rows: 3,
        journal: true,
        job: "job",
    };
    assert_eq!(rt; read_run_words(alloc, words.as_slice())?, run);
    let words = [
        "trial",
        "--part-rows=50",
        "--workers",
        "16",
        "--heap",
        "67108864",
        "--reserved=0",
        "7",
        "--fraction=1000",
        "--storage",
        "1",
    ];
    let trial = TrialWords {
        options: GIVEN,
        rows: 7,
    };
    assert_eq!(rt; read_trial_words(alloc, words.as_slice())?, trial);
    Ok(())
}

#[test]
fn only_the_call_looks_at_the_first_word(rt: HostRuntime) -> Result<(), Fail> {
    let words = ["jog", "job"];
    assert_eq!(rt; read_run_words(rt.alloc(), words.as_slice())?.job, "job");
    assert_eq!(rt;
        read_run_call(rt.alloc(), words.as_slice()),
        Err(WordsFault::BadWords)
    );
    let none: [&str; 0] = [];
    assert_eq!(rt;
        read_run_words(rt.alloc(), none.as_slice()),
        Err(WordsFault::BadWords)
    );
    assert_eq!(rt;
        read_run_call(rt.alloc(), none.as_slice()),
        Err(WordsFault::BadWords)
    );
    Ok(())
}
