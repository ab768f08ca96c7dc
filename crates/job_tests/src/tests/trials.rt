// The text, the job and the lines of small trials, worked out apart by another generator.
use crate::tests::passes::TRIAL;
use job_text::print;
use std::process::Abort;
use std::test::Fail;
use trial_input::{trial_job, trial_lines, trial_text};

const THREE_ROWS: &str = "key,price\nk774,-277\nk153,-833\nk196,-771\n";

const TABLES_OF_ONE: &str = "\
key,count,sum_price

key,price

key,min_price,max_price

key,count
k774,1
";

const TABLES_OF_EIGHT: &str = "\
key,count,sum_price
k902,1,5

key,price
k902,5

key,min_price,max_price

key,count
k130,1
k153,1
k196,1
k34,1
k774,1
k795,1
k870,1
k902,1
";

fn is_text(rt: &impl Abort, found: &[u8], wanted: &str, name: &str) {
    assert_eq!(rt; found, wanted.as_bytes(), "{name}");
}

#[test]
fn the_first_three_rows(rt: HostRuntime) -> Result<(), Fail> {
    is_text(&rt, &trial_text(rt.alloc(), 3)?, THREE_ROWS, "three rows");
    is_text(&rt, &trial_text(rt.alloc(), 0)?, "key,price\n", "no row");
    Ok(())
}

#[test]
fn ten_thousand_rows_have_as_many_prices_below_zero(rt: HostRuntime) -> Result<(), Fail> {
    let text = trial_text(rt.alloc(), 10_000)?;
    let mut minus_count: usize = 0;
    for byte in &text {
        if *byte == b'-' {
            minus_count = minus_count.saturating_add(1);
        }
    }
    assert_eq!(rt; (minus_count, text.len()), (5094, 92_869));
    assert!(rt; text.ends_with(b"\nk595,430\n"));
    Ok(())
}

#[test]
fn the_job_is_that_of_its_text(rt: HostRuntime) -> Result<(), Fail> {
    let job = trial_job(rt.alloc())?;
    let text = print(rt.alloc(), &job)?;
    assert_eq!(rt; text.as_str(), TRIAL);
    Ok(())
}

#[test]
fn lines_are_told_by_printed_tables(rt: HostRuntime) -> Result<(), Fail> {
    let one = trial_lines(rt.alloc(), 1, TABLES_OF_ONE.as_bytes())?;
    is_text(&rt, &one, "rows 1\ngroups 1\ncounted 0\n", "one row");
    let eight = trial_lines(rt.alloc(), 8, TABLES_OF_EIGHT.as_bytes())?;
    is_text(&rt, &eight, "rows 8\ngroups 8\ncounted 1\n", "eight rows");
    Ok(())
}
