// Texts that end amid a line: the last line isn't one, so each cut is told as a bad line, and never as a broken rule.
use crate::tests::told_journals::{text_of, told_of};
use std::test::Fail;

const ROW: &str = "600,300,2/begin,0,7/attempt,0,7,350,0,0,300/";

#[test]
fn a_text_that_is_cut_in_its_last_line_has_a_bad_line(rt: HostRuntime) -> Result<(), Fail> {
    let whole = text_of(rt.alloc(), ROW)?;
    let line = b"attempt,0,7,350,0,0,300\n".len();
    for cut in 1..line {
        let kept = whole.len().saturating_sub(cut);
        let text = Vec::from_slice(rt.alloc(), whole.get(..kept).ok_or("too short")?)?;
        let told = told_of(rt.alloc(), text)?;
        assert_eq!(rt; told.as_slice(), b"bad line 3".as_slice(), "{cut}");
    }
    Ok(())
}

#[test]
fn a_text_that_is_cut_before_a_line_is_a_journal(rt: HostRuntime) -> Result<(), Fail> {
    let short = text_of(rt.alloc(), "600,300,2/begin,0,7/")?;
    assert_eq!(rt; told_of(rt.alloc(), short)?.as_slice(), b"yes 1".as_slice());
    let empty = told_of(rt.alloc(), Vec::new(rt.alloc()))?;
    assert_eq!(rt; empty.as_slice(), b"bad line 1".as_slice());
    Ok(())
}
