//! The tokens of a text.

ghost use Rattle.std.specs.Prelude.{◌≡◌, ◌<◌, ◌≤◌, length, IfOk, Some, find, nat_eq, slice_index};
ghost use Rattle.std.specs.List.{list_all, prefix_len, starts_with};
ghost use Rattle.job_text.specs.Marks.{mark_text, reserved, signs};
ghost use Rattle.job_text.specs.Scan.{is_blank as blank_test, is_digit as digit_test, is_letter as letter_test, is_word_byte as word_test, is_plain as plain_test, reserved_as, word_at, whole_at, sign_at, closed_at, token_at};

use crate::mark::Mark;
use crate::token::Token;
use item_lists::Name;
use row_form::parse_number;
use std::alloc::{AllocError, Global};

fn is_digit(b: u8) -> bool
    ensures { result ≡ digit_test b }
{
    b'0' <= b && b <= b'9'
}

fn is_letter(b: u8) -> bool
    ensures { result ≡ letter_test b }
{
    b'A' <= b && b <= b'Z' || b'a' <= b && b <= b'z' || b == b'_'
}

fn is_word_byte(b: u8) -> bool
    ensures { result ≡ word_test b }
{
    is_letter(b) || is_digit(b)
}

pub(crate) fn is_blank(b: u8) -> bool
    ensures { result ≡ blank_test b }
{
    b == b' ' || b == b'\t' || b == b'\r' || b == b'\n'
}

const RESERVED: [Mark; 18] = [
    Mark::Let,
    Mark::Where,
    Mark::Keep,
    Mark::Memory,
    Mark::Disk,
    Mark::Group,
    Mark::Order,
    Mark::Count,
    Mark::Sum,
    Mark::Min,
    Mark::Max,
    Mark::From,
    Mark::Number,
    Mark::Down,
    Mark::And,
    Mark::Or,
    Mark::Not,
    Mark::Input,
];

const SIGNS: [Mark; 11] = [
    Mark::NotEqual,
    Mark::AtMost,
    Mark::AtLeast,
    Mark::Less,
    Mark::Greater,
    Mark::Equal,
    Mark::Comma,
    Mark::Colon,
    Mark::Semicolon,
    Mark::Open,
    Mark::Close,
];

fn reserved_word(word: &str) -> Option<Mark>
    ensures { result ≡ reserved_as word.now }
{
    RESERVED.iter().copied().find(|mark| mark.text() == word)
}

fn begins_word(bytes: &[u8]) -> bool
    ensures { result ≡ letter_test (slice_index bytes.now 0) }
{
    match bytes.first() {
        Some(first) => is_letter(*first),
        None => false,
    }
}

fn are_word_bytes(bytes: &[u8]) -> bool
    ensures { result ≡ list_all word_test bytes.now }
{
    bytes.iter().all(|b| is_word_byte(*b))
}

/// Whether the name can be written as a word that isn't reserved.
pub(crate) fn is_plain(name: &str) -> bool
    ensures { result ≡ plain_test name.now }
{
    let bytes = name.as_bytes();
    begins_word(bytes) && are_word_bytes(bytes) && reserved_word(name).is_none()
}

fn sign(bytes: &[u8]) -> Option<Mark>
    ensures { result ≡ find (λ mark. starts_with nat_eq bytes.now (mark_text mark)) signs }
{
    SIGNS
        .iter()
        .copied()
        .find(|mark| bytes.starts_with(mark.text().as_bytes()))
}

fn word_length(bytes: &[u8]) -> usize
    ensures length { result ≡ prefix_len word_test bytes.now }
    ensures within { result ≤ length bytes.now }
{
    bytes.iter().take_while(|b| is_word_byte(**b)).count()
}

fn digit_count(bytes: &[u8]) -> usize
    ensures count { result ≡ prefix_len digit_test bytes.now }
    ensures within { result ≤ length bytes.now }
{
    bytes.iter().take_while(|b| is_digit(**b)).count()
}

#[tactic(auto, unfolding(crate::specs::Scan::word_at))]
fn word(alloc: Global, text: &str) -> Result<(Token, usize), AllocError>
    ensures { IfOk result (λ found. Some found ≡ word_at text.now) }
{
    let length = word_length(text.as_bytes());
    let word = &text[..length];
    let token = match reserved_word(word) {
        Some(mark) => Token::Fixed(mark),
        None => Token::Word(Name::of(String::from_str(alloc, word)?)),
    };
    Ok((token, length))
}

fn whole(bytes: &[u8]) -> Option<(Token, usize)>
    ensures { result ≡ whole_at bytes.now }
{
    let (sign, digits) = match bytes {
        [b'-', rest @ ..] => (1, digit_count(rest)),
        _ => (0, digit_count(bytes)),
    };
    if digits == 0 {
        return None;
    }
    let length = sign + digits;
    Some((Token::Whole(parse_number(&bytes[..length])), length))
}

#[tactic(auto, unfolding(crate::specs::Scan::sign_at))]
fn sign_token(bytes: &[u8]) -> Option<(Token, usize)>
    ensures { result ≡ sign_at bytes.now }
{
    let mark = sign(bytes)?;
    Some((Token::Fixed(mark), mark.text().len()))
}

/// What stands behind an open quote, up to the last quote that can close it, and how many bytes that takes.
fn closed(alloc: Global, quote: char, text: &str) -> Result<Option<(Name, usize)>, AllocError>
    requires ascii { quote < 128 }
    ensures { IfOk result (λ found. found ≡ closed_at quote text.now) }
{
    let mut content = String::new(alloc);
    // What a doubled quote closes, where no quote behind it does.
    let mut doubled: Option<(usize, usize)> = None;
    let mut at = 0;
    let mut rest = text;
    while let Some((piece, after)) = rest.split_once(quote) {
        content.push_str(piece)?;
        at += piece.len() + 1;
        let Some(more) = after.strip_prefix(quote) else {
            return Ok(Some((Name::of(content), at)));
        };
        doubled = Some((content.len(), at));
        content.push(quote)?;
        at += 1;
        rest = more;
    }
    let Some((length, end)) = doubled else {
        return Ok(None);
    };
    content.truncate(length);
    Ok(Some((Name::of(content), end)))
}

/// The token at the front, and how many bytes it takes.
#[tactic(auto, unfolding(crate::specs::Scan::token_at))]
pub(crate) fn token(alloc: Global, text: &str) -> Result<Option<(Token, usize)>, AllocError>
    ensures { IfOk result (λ found. found ≡ token_at text.now) }
{
    let bytes = text.as_bytes();
    if bytes.is_empty() {
        return Ok(None);
    }
    let first = bytes[0];
    if is_letter(first) {
        return Ok(Some(word(alloc, text)?));
    }
    if is_digit(first) || first == b'-' {
        return Ok(whole(bytes));
    }
    if first == b'"' {
        let Some((name, length)) = closed(alloc, '"', &text[1..])? else {
            return Ok(None);
        };
        return Ok(Some((Token::Quoted(name), length + 1)));
    }
    if first == b'\'' {
        let Some((name, length)) = closed(alloc, '\'', &text[1..])? else {
            return Ok(None);
        };
        return Ok(Some((Token::Text(name), length + 1)));
    }
    Ok(sign_token(bytes))
}
