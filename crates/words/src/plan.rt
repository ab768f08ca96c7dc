//! The words of `plan`.

ghost use Rattle.std.specs.Prelude.{◌≡◌, IfOk, IfErr, Some, None, drop};
ghost use Rattle.words.specs.Programs.{plan_words};
ghost use Rattle.words.specs.Texts.{texts};

use crate::WordsFault;
use crate::command::Names;
use crate::parsing::parse;
use std::alloc::Global;

/// Reads the words of `plan`, `plan JOB`: the text of the job. The first word is passed over, whatever it is.
///
/// `NoMemory` may come of any words.
pub fn read_plan_words<'a>(alloc: Global, words: &'a [&'a str]) -> Result<&'a str, WordsFault>
    ensures ok { IfOk result (λ r. plan_words (drop 1 (texts words.entry.now)) ≡ Some r.now) }
    ensures bad { IfErr result (λ e. e ≡ WordsFault.BadWords → plan_words (drop 1 (texts words.entry.now)) ≡ None) }
{
    let names = Names {
        options: &[],
        flags: &[],
        places: &["JOB"],
    };
    let matches = parse(alloc, "plan", names, words)?;
    match matches.get_str("JOB") {
        Some(job) => Ok(job),
        None => Err(WordsFault::BadWords),
    }
}
