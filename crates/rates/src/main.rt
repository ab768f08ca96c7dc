//! One program to be timed: rows through a disk, rounds at one lock, spilled entries, a filter over rows, an audit.
#![tactic(auto)]

mod asked;
mod audit;
mod disk;
mod drawn;
mod feeding;
mod filter;
mod lock;
mod merging;
mod spill;

use asked::{USAGE, words_of};
use std::process::ExitCode;

// The first words, in the order in which a call without words runs them. The audit is last, as its number is the end's.
const WAYS: [&str; 5] = ["disk", "lock", "spill", "filter", "audit"];

// Those that the words begin with: one, or each where there is no word.
fn ways_of(words: &[String]) -> Option<&[&'static str]> {
    let Some(first) = words.first() else {
        return Some(&WAYS);
    };
    for i in 0..WAYS.len() {
        if WAYS[i] == first.as_str() {
            return Some(&WAYS[i..=i]);
        }
    }
    None
}

fn main(rt: HostRuntime) -> ExitCode {
    let Ok(words) = words_of(&rt) else {
        return ExitCode::FAILURE;
    };
    let more = &words[words.len().min(1)..];
    let Some(ways) = ways_of(&words) else {
        let printed = println!(rt; "{USAGE}");
        return ExitCode::from(u8::from(printed.is_err()));
    };
    for way in ways {
        let printed = match *way {
            "disk" => disk::run(&rt, more),
            "lock" => lock::run(&rt, more),
            "spill" => spill::run(&rt, more),
            "filter" => filter::run(&rt, more),
            _ => return ExitCode::from(audit::run(&rt)),
        };
        if printed.is_err() {
            return ExitCode::FAILURE;
        }
    }
    ExitCode::SUCCESS
}
