// Words of scripts.
use std::alloc::AllocError;
use std::process::Abort;
use std::string::String;
use std::test::Fail;

// A text is the one that is wanted. A test calls this in place of an assert of its own, which takes long to prove.
pub fn reads(rt: &impl Abort, found: &str, wanted: &str, name: &str) {
    assert_eq!(rt; found, wanted, "{name}");
}

// The same of a text that was to be found.
pub fn finds(
    rt: &impl Abort,
    found: Result<String, AllocError>,
    wanted: &str,
    name: &str,
) -> Result<(), Fail> {
    reads(rt, found?.as_str(), wanted, name);
    Ok(())
}

// A count is the one that is wanted.
pub fn counts(rt: &impl Abort, found: u32, wanted: u32) {
    assert_eq!(rt; found, wanted);
}

// A text before and behind the first of these characters.
pub fn cut(text: &str, at: char) -> (&str, &str) {
    text.split_once(at).unwrap_or((text, ""))
}

pub fn number(text: &str) -> Result<u32, Fail> {
    Ok(text.parse()?)
}

// The same, and 0 for anything else.
pub fn number_or_zero(text: &str) -> u32 {
    text.parse().unwrap_or(0)
}

pub fn bytes(text: &str) -> Result<u64, Fail> {
    Ok(text.parse()?)
}

// A word, and behind it these numbers, each after a comma.
pub fn put(text: &mut String, word: &str, numbers: &[u64]) -> Result<(), AllocError> {
    text.push_str(word)?;
    for number in numbers {
        text.push(',')?;
        put_number(text, *number)?;
    }
    Ok(())
}

// A number behind this mark.
pub fn put_after(text: &mut String, mark: &str, number: u64) -> Result<(), Fail> {
    text.push_str(mark)?;
    put_number(text, number)?;
    Ok(())
}

pub fn put_number(text: &mut String, number: u64) -> Result<(), AllocError> {
    let alloc = *text.allocator();
    let digits = format!(in alloc; "{number}")?;
    text.push_str(digits.as_str())
}
