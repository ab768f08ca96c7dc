//! The words of `audit`.

ghost use Rattle.std.specs.Prelude.{◌≡◌, IfOk, IfErr, true, false, drop};
ghost use Rattle.words.specs.Programs.{audit_words};
ghost use Rattle.words.specs.Texts.{texts};

use crate::WordsFault;
use crate::command::Names;
use crate::parsing::parse;
use std::alloc::Global;

/// Reads the words of `audit`, which takes none, and so `--` alone. The first word is passed over, whatever it is.
///
/// `NoMemory` may come of any words.
pub fn read_audit_words(alloc: Global, words: &[&str]) -> Result<(), WordsFault>
    ensures ok { IfOk result (λ r. audit_words (drop 1 (texts words.now)) ≡ true) }
    ensures bad { IfErr result (λ e. e ≡ WordsFault.BadWords → audit_words (drop 1 (texts words.now)) ≡ false) }
{
    let names = Names {
        options: &[],
        flags: &[],
        places: &[],
    };
    let _matches = parse(alloc, "audit", names, words)?;
    Ok(())
}
