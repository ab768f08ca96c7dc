// Texts of journals that were written by hand, read and written again.
use crate::tests::told_journals::text_behind;
use journal_audit::{journal_text, take_entry, take_setup};
use pool_ledger::Journal;
use std::alloc::{AllocError, Global};
use std::test::Fail;

// One line of each event, and more of those with words.
const EVENTS: &str = "memory journal 2,600,300,2
begin,0,7
attempt,0,7,500,200,0,500
attempt,0,7,1,0,3,wait
release,0,7,18446744073709551615
end,15,4294967295,0
evict,1,1,0,250,disk
evict,1,1,1,250,gone
evict,1,1,2,250,nomem
admit,1,2,9,10,memory,4,3
admit,1,2,9,10,disk,4,3
refused,1,2,10,301,0,0
pin,1,2,9,resident
pin,2,1,0,copy
unpin,1,2,9
remove,1,2,9,10
grow,0,400
grow,15,18446744073709551615
";

// Rows of the first version, behind its words and with a slash for each line feed.
const FIRST: &str = "\
0,0,16/
600,300,1/begin,0,0/attempt,0,0,500,200,0,500/
600,300,2/begin,0,7/attempt,0,7,1,0,3,wait/evict,1,1,2,250,nomem/admit,1,2,9,10,disk,4,3/pin,2,1,0,copy/";

// The text of what the lines of a text are read as; none where one isn't read.
fn written_again(alloc: Global, text: &[u8]) -> Result<Option<Vec<u8>>, AllocError> {
    let Some((version, setup, lines)) = take_setup(text) else {
        return Ok(None);
    };
    let mut entries = Vec::new(alloc);
    let mut rest = lines;
    for _ in 0..text.len() {
        if rest.is_empty() {
            break;
        }
        let Some((entry, behind)) = take_entry(version, rest) else {
            return Ok(None);
        };
        entries.push(entry)?;
        rest = behind;
    }
    Ok(Some(journal_text(alloc, &setup, &Journal::of(entries))?))
}

#[test]
fn a_text_is_read_and_written_again_as_it_was(rt: HostRuntime) -> Result<(), Fail> {
    for text in [
        EVENTS,
        "memory journal 2,0,0,16\n",
        "memory journal 2,600,300,1\nbegin,0,0\nattempt,0,0,500,200,0,500\n",
    ] {
        let Some(again) = written_again(rt.alloc(), text.as_bytes())? else {
            return Err(Fail::from("a line wasn't read"));
        };
        assert_eq!(rt; again.as_slice(), text.as_bytes());
    }
    Ok(())
}

#[test]
fn a_text_of_the_first_version_is_written_in_the_second(rt: HostRuntime) -> Result<(), Fail> {
    for row in FIRST.lines() {
        let text = text_behind(rt.alloc(), b"memory journal 1,", row)?;
        let Some(again) = written_again(rt.alloc(), &text)? else {
            return Err(Fail::from("a line wasn't read"));
        };
        let wanted = text_behind(rt.alloc(), b"memory journal 2,", row)?;
        assert_eq!(rt; again.as_slice(), wanted.as_slice(), "{row}");
    }
    Ok(())
}

#[test]
fn a_line_outside_the_grammar_is_not_read(rt: HostRuntime) -> Result<(), Fail> {
    for text in [
        "",
        "memory journal 1,600,300,1",
        "memory journal 3,600,300,1\n",
        "memory journal 12,600,300,1\n",
        "memory journal ,600,300,1\n",
        "memory journal 1,600,601,1\n",
        "memory journal 1,1099511627777,0,1\n",
        "memory journal 1,600,300,0\n",
        "memory journal 1,600,300,17\n",
        "memory journal 1,600,300,1\n\n",
        "memory journal 1,600,300,1\nbegin,0\n",
        "memory journal 1,600,300,1\nbegin,0,0",
        "memory journal 1,600,300,1\nbegin,0,0\r\n",
        "memory journal 1,600,300,1\nbegin,0,00\n",
        "memory journal 1,600,300,1\nbegin,0,+1\n",
        "memory journal 1,600,300,1\nbegin,0,4294967296\n",
        "memory journal 1,600,300,1\nbegin,0,0,0\n",
        "memory journal 1,600,300,1\nend,0,0,18446744073709551616\n",
        "memory journal 1,600,300,1\nattempt,0,0,1,0,0,Wait\n",
        "memory journal 1,600,300,1\ngrow,0,400\n",
        "memory journal 2,600,601,1\n",
        "memory journal 2,1099511627777,0,1\n",
        "memory journal 2,600,300,1\ngrow,0\n",
        "memory journal 2,600,300,1\ngrow,0,00\n",
        "memory journal 2,600,300,1\ngrow,0,400,0\n",
        "memory journal 2,600,300,1\ngrow,4294967296,400\n",
        "memory journal 2,600,300,1\ngrow,0,18446744073709551616\n",
        "memory journal 2,600,300,1\ngrowth,0,400\n",
    ] {
        assert!(rt;
            written_again(rt.alloc(), text.as_bytes())?.is_none(),
            "{text}"
        );
    }
    Ok(())
}
