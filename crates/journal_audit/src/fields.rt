//! The fields of a line, read: the value of the first one, and what follows it.

ghost use Rattle.std.specs.Prelude.{◌≡◌, ◌≤◌, length};
ghost use Rattle.std.specs.List.{prefix_len};
ghost use Rattle.std.specs.Str.{bytes_eq};
ghost use Rattle.std.specs.Option.{option_map};
ghost use Rattle.journal_audit.specs.Fields.{is_no_comma, split, field_at, whole, long_at, short_at, got_of, got_at, fate_of, fate_at, level_of, level_at, form_of, form_at};

use crate::numbers::number_of;
use pool_ledger::{Fate, Level};

// Whether the bytes are this word.
pub(crate) fn is_word(text: &[u8], word: &[u8]) -> bool
    ensures { result ≡ bytes_eq text.now word.now }
{
    text == word
}

// How many bytes stand before the first comma.
fn plain_length(bytes: &[u8]) -> usize
    ensures length { result ≡ prefix_len is_no_comma bytes.now }
    ensures within { result ≤ length bytes.now }
{
    bytes.iter().take_while(|b| **b != b',').count()
}

/// The bytes before the first comma, and those from it on.
#[tactic(auto, unfolding(crate::specs::Fields::split))]
pub(crate) fn split_field(bytes: &[u8]) -> (&[u8], &[u8])
    ensures { (result.0.now, result.1.now) ≡ split bytes.now }
{
    bytes.split_at(plain_length(bytes))
}

// The field behind the comma that the bytes begin with.
#[tactic(auto, unfolding(crate::specs::Fields::field_at))]
fn take_field(bytes: &[u8]) -> Option<(&[u8], &[u8])>
    ensures { option_map (λ p. (p.0.now, p.1.now)) result ≡ field_at bytes.now }
{
    match bytes {
        [b',', rest @ ..] => Some(split_field(rest)),
        _ => None,
    }
}

// The number whose decimal the bytes are.
fn take_whole(text: &[u8]) -> Option<u64>
    ensures { result ≡ whole text.now }
{
    number_of(text)
}

/// A number of 64 bits.
#[tactic(auto, unfolding(crate::specs::Fields::long_at))]
pub(crate) fn take_long(bytes: &[u8]) -> Option<(u64, &[u8])>
    ensures { option_map (λ p. (p.0, p.1.now)) result ≡ long_at bytes.now }
{
    let (text, rest) = take_field(bytes)?;
    let number = take_whole(text)?;
    Some((number, rest))
}

/// A number of 32 bits.
#[tactic(auto, unfolding(crate::specs::Fields::short_at))]
pub(crate) fn take_short(bytes: &[u8]) -> Option<(u32, &[u8])>
    ensures { option_map (λ p. (p.0, p.1.now)) result ≡ short_at bytes.now }
{
    let (number, rest) = take_long(bytes)?;
    if number < 1 << 32 {
        Some((number as u32, rest))
    } else {
        None
    }
}

// What an attempt was granted.
#[tactic(auto, unfolding(crate::specs::Fields::got_of))]
fn got_in(text: &[u8]) -> Option<Option<u64>>
    ensures { result ≡ got_of text.now }
{
    if is_word(text, b"wait") {
        return Some(None);
    }
    let number = take_whole(text)?;
    Some(Some(number))
}

/// What an attempt was granted, as a field.
#[tactic(auto, unfolding(crate::specs::Fields::got_at))]
pub(crate) fn take_got(bytes: &[u8]) -> Option<(Option<u64>, &[u8])>
    ensures { option_map (λ p. (p.0, p.1.now)) result ≡ got_at bytes.now }
{
    let (text, rest) = take_field(bytes)?;
    let got = got_in(text)?;
    Some((got, rest))
}

// What became of an evicted block.
#[tactic(auto, unfolding(crate::specs::Fields::fate_of))]
fn fate_in(text: &[u8]) -> Option<Fate>
    ensures { result ≡ fate_of text.now }
{
    if is_word(text, b"disk") {
        Some(Fate::Disk)
    } else if is_word(text, b"gone") {
        Some(Fate::Gone)
    } else if is_word(text, b"nomem") {
        Some(Fate::NoMemory)
    } else {
        None
    }
}

/// What became of an evicted block, as a field.
#[tactic(auto, unfolding(crate::specs::Fields::fate_at))]
pub(crate) fn take_fate(bytes: &[u8]) -> Option<(Fate, &[u8])>
    ensures { option_map (λ p. (p.0, p.1.now)) result ≡ fate_at bytes.now }
{
    let (text, rest) = take_field(bytes)?;
    let fate = fate_in(text)?;
    Some((fate, rest))
}

// Where a block goes when it is evicted.
#[tactic(auto, unfolding(crate::specs::Fields::level_of))]
fn level_in(text: &[u8]) -> Option<Level>
    ensures { result ≡ level_of text.now }
{
    if is_word(text, b"memory") {
        Some(Level::Memory)
    } else if is_word(text, b"disk") {
        Some(Level::Disk)
    } else {
        None
    }
}

/// Where a block goes when it is evicted, as a field.
#[tactic(auto, unfolding(crate::specs::Fields::level_at))]
pub(crate) fn take_level(bytes: &[u8]) -> Option<(Level, &[u8])>
    ensures { option_map (λ p. (p.0, p.1.now)) result ≡ level_at bytes.now }
{
    let (text, rest) = take_field(bytes)?;
    let level = level_in(text)?;
    Some((level, rest))
}

// Whether a pin read a copy.
#[tactic(auto, unfolding(crate::specs::Fields::form_of))]
fn form_in(text: &[u8]) -> Option<bool>
    ensures { result ≡ form_of text.now }
{
    if is_word(text, b"copy") {
        Some(true)
    } else if is_word(text, b"resident") {
        Some(false)
    } else {
        None
    }
}

/// Whether a pin read a copy, as a field.
#[tactic(auto, unfolding(crate::specs::Fields::form_at))]
pub(crate) fn take_form(bytes: &[u8]) -> Option<(bool, &[u8])>
    ensures { option_map (λ p. (p.0, p.1.now)) result ≡ form_at bytes.now }
{
    let (text, rest) = take_field(bytes)?;
    let form = form_in(text)?;
    Some((form, rest))
}
