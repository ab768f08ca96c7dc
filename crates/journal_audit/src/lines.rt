//! The lines of a journal's text, read one by one.

ghost use Rattle.std.specs.Prelude.{◌≡◌, ◌≤◌, ◌++◌, ◌∷◌, length, IfSome, IfNone};
ghost use Rattle.std.specs.List.{prefix_len};
ghost use Rattle.std.specs.Str.{bytes_eq};
ghost use Rattle.std.specs.Option.{option_map};
ghost use Rattle.pool_ledger.specs.declared.entry.Entry.{Entry};
ghost use Rattle.pool_ledger.specs.Sizes.{Sizes};
ghost use Rattle.journal_audit.specs.Text.{entry_text, head_text, FitsIn};
ghost use Rattle.journal_audit.specs.Fields.{split, ended};
ghost use Rattle.journal_audit.specs.Reading.{is_inline, cut, cut_behind, setup_of, sizes_at, version_of, head_at, line_at, head_line_at};
ghost use Rattle.journal_audit.specs.Lines.{IsSetup, BeginsLine, BeginsHead};

use crate::fields::{is_word, split_field, take_long};
use crate::version::Version;
use crate::words::entry_of;
use pool_ledger::{Entry, Setup};

/// The entry of the first line, in a text of this version, and what follows its line feed. `None` exactly
/// where the bytes don't begin with the line of an entry.
pub fn take_entry(version: Version, bytes: &[u8]) -> Option<(Entry, &[u8])>
    ensures found { IfSome result (λ p. FitsIn version p.0 × (bytes.now ≡ entry_text p.0 ++ (10 ∷ p.1.now))) }
    ensures none { IfNone result (BeginsLine version bytes.now → ⊥) }
{
    read_line(version, bytes)
}

/// The version and the setup of the first line, and what follows its line feed. `None` exactly where the
/// bytes don't begin with the line of a setup, in any version.
pub fn take_setup(bytes: &[u8]) -> Option<(Version, Setup, &[u8])>
    ensures found { IfSome result (λ p. IsSetup p.1 × (bytes.now ≡ head_text p.0 p.1 ++ (10 ∷ p.2.now))) }
    ensures none { IfNone result ((version : Version) → BeginsHead version bytes.now → ⊥) }
{
    read_head_line(bytes)
}

// The entry of the first line, as the definitions read it.
#[tactic(auto, unfolding(crate::specs::Reading::line_at))]
fn read_line(version: Version, bytes: &[u8]) -> Option<(Entry, &[u8])>
    ensures { option_map (λ p. (p.0, p.1.now)) result ≡ line_at version bytes.now }
{
    let (line, rest) = cut_line(bytes)?;
    let entry = entry_of(version, line)?;
    Some((entry, rest))
}

// The version and the setup of the first line, as the definitions read them.
#[tactic(auto, unfolding(crate::specs::Reading::head_line_at))]
fn read_head_line(bytes: &[u8]) -> Option<(Version, Setup, &[u8])>
    ensures { option_map (λ p. (p.0, p.1, p.2.now)) result ≡ head_line_at bytes.now }
{
    let (line, rest) = cut_line(bytes)?;
    let (version, setup) = read_head(line)?;
    Some((version, setup, rest))
}

// How many bytes stand before the first line feed.
fn line_length(bytes: &[u8]) -> usize
    ensures length { result ≡ prefix_len is_inline bytes.now }
    ensures within { result ≤ length bytes.now }
{
    bytes.iter().take_while(|b| **b != b'\n').count()
}

// The first line, and what follows its line feed.
#[tactic(auto, unfolding(crate::specs::Reading::cut))]
fn cut_line(bytes: &[u8]) -> Option<(&[u8], &[u8])>
    ensures { option_map (λ p. (p.0.now, p.1.now)) result ≡ cut bytes.now }
{
    let (line, behind) = bytes.split_at(line_length(bytes));
    behind_line(line, behind)
}

// A line, and what follows the line feed behind it.
#[tactic(auto, unfolding(crate::specs::Reading::cut_behind))]
fn behind_line<'a>(line: &'a [u8], behind: &'a [u8]) -> Option<(&'a [u8], &'a [u8])>
    ensures { option_map (λ p. (p.0.now, p.1.now)) result ≡ cut_behind line.now behind.now }
{
    match behind {
        [b'\n', rest @ ..] => Some((line, rest)),
        _ => None,
    }
}

// The version and the setup of a first line, without its line feed.
#[tactic(auto, unfolding(crate::specs::Reading::head_at))]
fn read_head(bytes: &[u8]) -> Option<(Version, Setup)>
    ensures { result ≡ head_at bytes.now }
{
    let (words, rest) = split_field(bytes);
    let version = read_version(words)?;
    let setup = read_sizes(rest)?;
    Some((version, setup))
}

// The version whose texts begin with these words.
#[tactic(auto, unfolding(crate::specs::Reading::version_of))]
fn read_version(words: &[u8]) -> Option<Version>
    ensures { result ≡ version_of words.now }
{
    if is_word(words, b"memory journal 1") {
        Some(Version::First)
    } else if is_word(words, b"memory journal 2") {
        Some(Version::Second)
    } else {
        None
    }
}

// The setup behind the words of the first line.
#[tactic(auto, unfolding(crate::specs::Reading::sizes_at))]
fn read_sizes(bytes: &[u8]) -> Option<Setup>
    ensures { result ≡ sizes_at bytes.now }
{
    let (max, rest) = take_long(bytes)?;
    let (region, rest) = take_long(rest)?;
    let (workers, rest) = take_long(rest)?;
    let setup = setup_with(max, region, workers)?;
    at_end(setup, rest)
}

// The setup with these sizes, if there is one.
fn setup_with(max: u64, region: u64, workers: u64) -> Option<Setup>
    ensures { result ≡ setup_of max region workers }
{
    Setup::with_sizes(max, region, workers)
}

// The setup, if nothing is left of its line.
#[tactic(auto, unfolding(crate::specs::Fields::ended))]
fn at_end(setup: Setup, rest: &[u8]) -> Option<Setup>
    ensures { result ≡ ended setup rest.now }
{
    match rest {
        [] => Some(setup),
        _ => None,
    }
}
