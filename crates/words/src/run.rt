//! The words of `run`.

ghost use Rattle.std.specs.Prelude.{◌≡◌, ◌≤◌, IfOk, IfErr, Some, None, drop};
ghost use Rattle.clap.specs.Words.{first_value, found_of};
ghost use Rattle.words.specs.Calls.{run_call};
ghost use Rattle.words.specs.Commands.{with_flag};
ghost use Rattle.words.specs.Programs.{journal_flag, run_from, run_words};
ghost use Rattle.words.specs.Texts.{texts};
ghost use Rattle.words.specs.Options.{AreInRange};
ghost use Rattle.words.specs.Views.{run_reading, work_reading};

use crate::WordsFault;
use crate::command::Names;
use crate::first::begins_with;
use crate::numbers::number;
use crate::parsing::parse;
use crate::work::{WorkOptions, work_from};
use clap::ArgMatches;
use std::alloc::Global;

/// What the words of `run` say.
#[derive(Clone, Copy, Debug, PartialEq, Eq)]
pub struct RunWords<'a> {
    /// The memory and the division of the work.
    pub options: WorkOptions,
    /// How many rows the input has at most: `--max-rows`, 1 to 10,000,000, else 10,000,000.
    pub max_rows: u64,
    /// Whether the run writes its journal: `--journal`, which takes no value.
    pub journal: bool,
    /// The text of the job: any text, also the empty one.
    pub job: &'a str,
}

/// Reads the words of `run`, `run [OPTION..] JOB`. The first word is passed over, whatever it is.
///
/// `NoMemory` may come of any words.
pub fn read_run_words<'a>(alloc: Global, words: &'a [&'a str]) -> Result<RunWords<'a>, WordsFault>
    ensures ok { IfOk result (λ r. run_words (drop 1 (texts words.entry.now)) ≡ Some (run_reading r)) }
    ensures ranges { IfOk result (λ r. AreInRange (work_reading r.options)) }
    ensures rows { IfOk result (λ r. r.max_rows ≤ 10000000) }
    ensures bad { IfErr result (λ e. e ≡ WordsFault.BadWords → run_words (drop 1 (texts words.entry.now)) ≡ None) }
{
    let names = Names {
        options: &[
            "workers",
            "heap",
            "reserved",
            "fraction",
            "storage",
            "part-rows",
            "max-rows",
        ],
        flags: &["journal"],
        places: &["JOB"],
    };
    let matches = parse(alloc, "run", names, words)?;
    run_from(&matches, matches.get_flag("journal"))
}

// What is found among the words, where `--journal` is given or isn't.
fn run_from<'a>(matches: &ArgMatches<'a>, journal: bool) -> Result<RunWords<'a>, WordsFault>
    ensures ok { IfOk result (λ r. run_from (with_flag journal_flag journal (first_value (found_of matches.now)))
        ≡ Some (run_reading r)) }
    ensures ranges { IfOk result (λ r. AreInRange (work_reading r.options)) }
    ensures rows { IfOk result (λ r. r.max_rows ≤ 10000000) }
    ensures bad { IfErr result (λ e. run_from (with_flag journal_flag journal (first_value (found_of matches.now)))
        ≡ None) }
{
    let Some(job) = matches.get_str("JOB") else {
        return Err(WordsFault::BadWords);
    };
    Ok(RunWords {
        options: work_from(matches)?,
        max_rows: number(matches, "max-rows", 1, 10_000_000, 10_000_000)?,
        journal,
        job,
    })
}

/// Reads a whole call of `run`: as `read_run_words`, where the first word is `run`, and `BadWords` for any other.
pub fn read_run_call<'a>(alloc: Global, words: &'a [&'a str]) -> Result<RunWords<'a>, WordsFault>
    ensures ok { IfOk result (λ r. run_call (texts words.entry.now) ≡ Some (run_reading r)) }
    ensures ranges { IfOk result (λ r. AreInRange (work_reading r.options)) }
    ensures rows { IfOk result (λ r. r.max_rows ≤ 10000000) }
    ensures bad { IfErr result (λ e. e ≡ WordsFault.BadWords → run_call (texts words.entry.now) ≡ None) }
{
    if begins_with(words, "run") {
        read_run_words(alloc, words)
    } else {
        Err(WordsFault::BadWords)
    }
}
