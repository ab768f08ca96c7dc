//! The words of a call.

use std::rt::Env;
use std::{env, io};

/// What is printed where the words are no call.
pub const USAGE: &str = "\
usage: rates disk [write ROWS | read ROWS]
       rates lock [THREADS ROUNDS [BLOCKS]]
       rates spill [map|sort|runs|merge KEYS ENTRIES BYTES [KEY_BYTES]]
       rates filter [all|number|text|both PASSES]
       rates audit";

/// The words after the program's name.
pub fn words_of(rt: &(impl Env + AllocGlobal)) -> io::Result<Vec<String>> {
    Ok(env::args(rt)?.skip(1).collect(rt.alloc())?)
}

/// The number that the word at this place is.
pub fn number_at(words: &[String], at: usize) -> Option<u64> {
    words.get(at)?.as_str().parse::<u64>().ok()
}
