//! The words of `trial`.

ghost use Rattle.std.specs.Prelude.{◌≡◌, ◌≤◌, IfOk, IfErr, Some, None, drop};
ghost use Rattle.clap.specs.Words.{first_value, found_of};
ghost use Rattle.words.specs.Options.{AreInRange};
ghost use Rattle.words.specs.Programs.{trial_from, trial_words};
ghost use Rattle.words.specs.Texts.{texts};
ghost use Rattle.words.specs.Views.{trial_reading, work_reading};

use crate::WordsFault;
use crate::command::Names;
use crate::numbers::read_number;
use crate::parsing::parse;
use crate::work::{WorkOptions, work_from};
use clap::ArgMatches;
use std::alloc::Global;

/// What the words of `trial` say.
#[derive(Clone, Copy, Debug, PartialEq, Eq)]
pub struct TrialWords {
    /// The memory and the division of the work.
    pub options: WorkOptions,
    /// How many rows are made: 1 to 1,000,000.
    pub rows: u64,
}

/// Reads the words of `trial`, `trial [OPTION..] N`. The first word is passed over, whatever it is.
///
/// `NoMemory` may come of any words.
pub fn read_trial_words(alloc: Global, words: &[&str]) -> Result<TrialWords, WordsFault>
    ensures ok { IfOk result (λ r. trial_words (drop 1 (texts words.now)) ≡ Some (trial_reading r)) }
    ensures ranges { IfOk result (λ r. AreInRange (work_reading r.options)) }
    ensures some { IfOk result (λ r. 1 ≤ r.rows) }
    ensures rows { IfOk result (λ r. r.rows ≤ 1000000) }
    ensures bad { IfErr result (λ e. e ≡ WordsFault.BadWords → trial_words (drop 1 (texts words.now)) ≡ None) }
{
    let names = Names {
        options: &[
            "workers",
            "heap",
            "reserved",
            "fraction",
            "storage",
            "part-rows",
        ],
        flags: &[],
        places: &["N"],
    };
    let matches = parse(alloc, "trial", names, words)?;
    trial_from(&matches)
}

// What is found among the words.
fn trial_from(matches: &ArgMatches<'_>) -> Result<TrialWords, WordsFault>
    ensures ok { IfOk result (λ r. trial_from (first_value (found_of matches.now)) ≡ Some (trial_reading r)) }
    ensures ranges { IfOk result (λ r. AreInRange (work_reading r.options)) }
    ensures some { IfOk result (λ r. 1 ≤ r.rows) }
    ensures rows { IfOk result (λ r. r.rows ≤ 1000000) }
    ensures bad { IfErr result (λ e. trial_from (first_value (found_of matches.now)) ≡ None) }
{
    let Some(text) = matches.get_str("N") else {
        return Err(WordsFault::BadWords);
    };
    let Some(rows) = read_number(text, 1, 1_000_000) else {
        return Err(WordsFault::BadWords);
    };
    Ok(TrialWords {
        options: work_from(matches)?,
        rows,
    })
}
