// Which rows a filter keeps.
use crate::Filter;
use crate::tests::checks::{equals, reads};
use crate::tests::filters::{filter_of, is_kept, row_of, says};
use row_page::RowBuf;
use std::alloc::Global;
use std::test::Fail;

// A field, a constant, and how the field stands to it.
const NUMBERS: &str = "\
7 7 =
07 7 =
+7 7 =
-7 7 <
-7 -8 >
-07 -7 =
-0 0 =
10 9 >
-10 -9 <
9223372036854775807 9223372036854775806 >
-9223372036854775808 -9223372036854775808 =";

const TEXTS: &str = "\
7 7 =
07 7 <
+7 7 <
10 9 <
 a <
a a =
a ab <
b ab >
Z a <
é z >
é ê <
zz é <";

const FILTERS: &str = "\
number:<:3
text:>=:b number:!=:0 and
number:<=:-2 number:>:4 or text:=:ab not and
text:<:b number:=:1 and text:>:a number:>=:0 and or
text:!=:é not number:<:5 or not
all
none
none not text:<=:ab and
number:>:0 all and none or not not";

// Whether the test by this sign against a constant keeps a row.
fn keeps_by(
    alloc: Global,
    column: &str,
    row: &RowBuf,
    sign: &str,
    constant: &str,
) -> Result<bool, Fail> {
    let word = format!(in alloc; "{column}:{sign}:{constant}")?;
    let filter = filter_of(alloc, &word)?;
    is_kept(&filter, row)
}

// A text with another end.
fn put(text: &mut String, word: &str, end: char) -> Result<(), Fail> {
    text.push_str(word)?;
    Ok(text.push(end)?)
}

// The signs of the tests against a constant that keep a row.
fn signs_that_keep(
    alloc: Global,
    column: &str,
    row: &RowBuf,
    constant: &str,
) -> Result<String, Fail> {
    let mut signs = String::new(alloc);
    for sign in ["=", "!=", "<", "<=", ">", ">="] {
        if keeps_by(alloc, column, row, sign, constant)? {
            put(&mut signs, sign, ' ')?;
        }
    }
    Ok(signs)
}

fn signs_of(order: &str) -> &'static str {
    match order {
        "<" => "!= < <= ",
        "=" => "= <= >= ",
        _ => "!= > >= ",
    }
}

// A field, a constant and how the field stands to it.
fn parts_of(line: &str) -> Result<(&str, &str, &str), Fail> {
    let Some((field, rest)) = line.split_once(' ') else {
        return Err("no constant".into());
    };
    match rest.split_once(' ') {
        Some((constant, order)) => Ok((field, constant, order)),
        None => Err("no order".into()),
    }
}

// Whether a line's answer is another one.
fn differs(alloc: Global, column: &str, line: &str) -> Result<bool, Fail> {
    let (field, constant, order) = parts_of(line)?;
    let row = row_of(alloc, field.as_bytes(), field.as_bytes())?;
    let signs = signs_that_keep(alloc, column, &row, constant)?;
    Ok(signs.as_str() != signs_of(order))
}

// Those of the lines whose answer is another one.
fn lines_that_differ(alloc: Global, column: &str, lines: &str) -> Result<String, Fail> {
    let mut others = String::new(alloc);
    for line in lines.split('\n') {
        if differs(alloc, column, line)? {
            put(&mut others, line, '\n')?;
        }
    }
    Ok(others)
}

#[test]
fn numbers_are_compared_by_value(rt: HostRuntime) -> Result<(), Fail> {
    let others = lines_that_differ(rt.alloc(), "number", NUMBERS);
    reads(&rt, others, "", "numbers")
}

#[test]
fn texts_are_compared_byte_by_byte(rt: HostRuntime) -> Result<(), Fail> {
    let others = lines_that_differ(rt.alloc(), "text", TEXTS);
    reads(&rt, others, "", "texts")
}

// The signs of the tests against a text that keep a row of one byte, 128.
fn signs_of_byte(alloc: Global, constant: &str) -> Result<String, Fail> {
    let row = row_of(alloc, &[0x80], b"0")?;
    signs_that_keep(alloc, "text", &row, constant)
}

#[test]
fn bytes_that_spell_no_text_are_compared_too(rt: HostRuntime) -> Result<(), Fail> {
    reads(
        &rt,
        signs_of_byte(rt.alloc(), "z"),
        "!= > >= ",
        "above each letter",
    )?;
    let signs = signs_of_byte(rt.alloc(), "é");
    reads(&rt, signs, "!= < <= ", "below the first of two bytes")
}

const WORDS: [&str; 8] = ["", "a", "ab", "b", "ba", "Z", "é", "zé"];

// Whether a filter keeps the row of a draw, which is so where its text holds of it.
fn keeps_drawn(alloc: Global, filter: &Filter, text: &str, drawn: u64) -> Result<bool, Fail> {
    let number = (drawn >> 40) as i64 % 11 - 5;
    let word = WORDS[(drawn >> 60) as usize % 8];
    let digits = format!(in alloc; "{number}")?;
    let row = row_of(alloc, word.as_bytes(), digits.as_bytes())?;
    let is_in = is_kept(filter, &row)?;
    if is_in != says(text, word, number)? {
        return Err("another row is kept".into());
    }
    Ok(is_in)
}

// How many of some drawn rows a filter keeps.
fn kept_of_drawn(alloc: Global, text: &str) -> Result<u32, Fail> {
    let filter = filter_of(alloc, text)?;
    let mut kept: u32 = 0;
    let mut drawn: u64 = 1;
    for _ in 0..50 {
        drawn = drawn
            .wrapping_mul(6_364_136_223_846_793_005)
            .wrapping_add(1);
        kept = kept.saturating_add(u32::from(keeps_drawn(alloc, &filter, text, drawn)?));
    }
    Ok(kept)
}

// `all` keeps each of the rows, `none` none of them, and any other filter some.
fn kept_word(kept: u32) -> &'static str {
    match kept {
        0 => "none",
        50 => "all",
        _ => "some",
    }
}

fn wanted_word(text: &str) -> &str {
    if text == "all" || text == "none" {
        return text;
    }
    "some"
}

#[test]
fn drawn_rows_are_kept_as_the_words_say(rt: HostRuntime) -> Result<(), Fail> {
    for text in FILTERS.split('\n') {
        let kept = kept_of_drawn(rt.alloc(), text);
        equals(
            &rt,
            kept.map(|kept| kept_word(kept)),
            wanted_word(text),
            text,
        )?;
    }
    Ok(())
}
