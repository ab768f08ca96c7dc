//! The words of a program, as `clap` parses them.

ghost use Rattle.std.specs.Prelude.{◌≡◌, ◌≢◌, IfOk, IfErr, List, [], true};
ghost use Rattle.clap.specs.Words.{app_of, fault_of, found_of, is_simple_and_free};
ghost use Rattle.words.specs.Commands.{Parses, app_for, grammar_of};
ghost use Rattle.words.specs.Texts.{AreTexts, texts};

use crate::WordsFault;
use crate::command::{Names, command_for};
use crate::texts::are_texts;
use clap::error::ErrorKind;
use clap::{ArgMatches, Command};
use std::alloc::Global;

/// What `clap` finds for these names. It passes over the first word, whatever it is.
pub fn parse<'a>(
    alloc: Global,
    program: &'a str,
    names: Names<'_, 'a>,
    words: &'a [&'a str],
) -> Result<ArgMatches<'a>, WordsFault>
    requires simple { is_simple_and_free (app_for program.now (grammar_of names)) ≡ true }
    ensures texts { AreTexts (texts words.entry.now) }
    ensures ok { IfOk result (λ m.
        Parses (app_for program.entry.now (grammar_of names.entry)) (texts words.entry.now) (found_of m)) }
    ensures bad { IfErr result (λ e. e ≡ WordsFault.BadWords
        → fault_of (app_for program.entry.now (grammar_of names.entry)) (texts words.entry.now) ≢ []) }
{
    // For the proof: `clap` reads characters, so its definitions are told that each word has them.
    are_texts(words);
    let Ok(command) = command_for(alloc, program, names) else {
        return Err(WordsFault::NoMemory);
    };
    parse_by(command, words)
}

// What this command finds.
fn parse_by<'a>(command: Command<'a>, words: &'a [&'a str]) -> Result<ArgMatches<'a>, WordsFault>
    requires simple { is_simple_and_free (app_of command) ≡ true }
    ensures ok { IfOk result (λ m. Parses (app_of command.entry) (texts words.entry.now) (found_of m)) }
    ensures bad { IfErr result (λ e. e ≡ WordsFault.BadWords
        → fault_of (app_of command.entry) (texts words.entry.now) ≢ []) }
{
    match command.try_get_matches_from(words) {
        Ok(matches) => Ok(matches),
        Err(error) => match error.kind() {
            ErrorKind::OutOfMemory => Err(WordsFault::NoMemory),
            _ => Err(WordsFault::BadWords),
        },
    }
}
