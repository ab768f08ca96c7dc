// Scripts: lines of a text, each with a name, what it is played on, and calls with the answers that they are to get.
use crate::tests::disks::{play_memory, play_shelf, play_veil};
use crate::tests::forms::{play_entries, play_landed, play_number};
use crate::tests::merged_runs::{play_long, play_many, play_merged, play_two_disks};
use crate::tests::merges::{play_cut, play_eight, play_merge};
use crate::tests::runs::{play_copy, play_read, play_value};
use crate::tests::told::{Told, tells};
use crate::tests::words::parted;
use std::alloc::Global;
use std::process::Abort;
use std::test::Fail;

/// Plays each line, and compares what is told with the line itself.
pub fn plays(rt: &impl Abort, alloc: Global, lines: &str) -> Result<(), Fail> {
    for line in lines.split('\n') {
        plays_one(rt, alloc, line)?;
    }
    Ok(())
}

fn plays_one(rt: &impl Abort, alloc: Global, line: &str) -> Result<(), Fail> {
    let (name, script) = parted(line, '|');
    let mut told = Told::new(alloc);
    play(alloc, script, &mut told)?;
    tells(rt, &told, script, name)
}

// What a script is played on, its first part, is told again.
fn play(alloc: Global, script: &str, told: &mut Told) -> Result<(), Fail> {
    let (stage, rest) = parted(script, '|');
    let (kind, given) = parted(stage, ' ');
    told.put(stage);
    told.put("|");
    match kind {
        "merge" => play_merge(alloc, given, rest, told),
        "cut" => play_cut(alloc, given, rest, told),
        "eight" => play_eight(alloc, given, told),
        "merged" => play_merged(alloc, given, rest, told),
        "many" => play_many(alloc, given, told),
        "long" => play_long(alloc, told),
        "copy" => play_copy(alloc, told),
        _ => {
            play_simple(alloc, kind, given, rest, told);
            Ok(())
        }
    }
}

fn play_simple(alloc: Global, kind: &str, given: &str, rest: &str, told: &mut Told) {
    match kind {
        "memory" => play_memory(alloc, given, rest, told),
        "veil" => play_veil(alloc, given, rest, told),
        "shelf" => play_shelf(alloc, told),
        "read" => play_read(alloc, given, rest, told),
        "disks" => play_two_disks(alloc, told),
        "value" => play_value(alloc, given, rest, told),
        "entries" => play_entries(alloc, given, rest, told),
        "landed" => play_landed(alloc, given, rest, told),
        "number" => play_number(rest, told),
        _ => told.put("?"),
    }
}
