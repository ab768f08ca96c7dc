//! A task's memory over four part spillers, by scripts of what is called.

use crate::tests::choice_scripts::CHOICES;
use crate::tests::lives::{LIVES, Life};
use crate::tests::nested_scripts::{FAULT_SCRIPT, FAULTS, NESTED};
use crate::tests::part_scripts::PARTS;
use crate::tests::playing::{Left, Setting, play_alone};
use crate::tests::scripts::{GRANTS, SHARED_PARTS, SHARED_SCRIPTS, Script, WORKED};
use crate::tests::steps::Step;
use crate::tests::texts::{
    answers_of, count_drained, count_fed, pool_of, runs_of, steps_of, with_fault,
};
use crate::tests::threads::share_four;
use pool_ledger::{Entry, Event, Journal, Setup};
use std::alloc::{AllocError, Global};
use std::marker::Brand;
use std::process::Abort;
use std::string::String;
use std::sync::Wait;
use std::test::*;
use std::thread::Threads;
use task_memory::TaskFault;

#[test]
fn worked_rows_have_their_answers(rt: HostRuntime) -> Result<(), Fail> {
    check_scripts(&rt, rt.alloc(), WORKED)
}

#[test]
fn an_ask_that_falls_short_spills_or_is_refused(rt: HostRuntime) -> Result<(), Fail> {
    check_scripts(&rt, rt.alloc(), GRANTS)
}

#[test]
fn the_least_use_that_is_enough_goes_and_the_asker_comes_last(rt: HostRuntime) -> Result<(), Fail> {
    check_scripts(&rt, rt.alloc(), CHOICES)
}

#[test]
fn a_spill_that_asks_waits_for_the_spills_within_it(rt: HostRuntime) -> Result<(), Fail> {
    check_scripts(&rt, rt.alloc(), NESTED)
}

#[test]
fn a_spill_of_a_part_leaves_a_candidate(rt: HostRuntime) -> Result<(), Fail> {
    check_scripts(&rt, rt.alloc(), PARTS)
}

// Call k alone fails. The last of them is one more than the script makes.
#[test]
fn a_disk_call_that_fails_ends_the_script_alone(rt: HostRuntime) -> Result<(), Fail> {
    let alloc = rt.alloc();
    let mut call = 0u64;
    for (answered, held, runs, created) in FAULTS {
        let answers = with_fault(alloc, FAULT_SCRIPT.script, *answered)?;
        let wanted = left_text(alloc, answers.as_str(), *held, runs, *created)?;
        let found = play_fault(&rt, alloc, call, *held)?;
        assert_eq!(rt; found.as_str(), wanted.as_str(), "call {call}");
        call = call.saturating_add(1);
    }
    let found = play_fault(&rt, alloc, call, FAULT_SCRIPT.held)?;
    assert_eq!(rt; found.as_str(), left_wanted(alloc, &FAULT_SCRIPT)?.as_str());
    Ok(())
}

// A memory of two of the four boxes, with leasts, from its start to its end.
#[test]
fn a_life_goes_by_its_leasts_its_uses_and_its_room(rt: HostRuntime) -> Result<(), Fail> {
    let alloc = rt.alloc();
    for Life { leasts, wanted } in LIVES {
        let found = play_whole(&rt, alloc, wanted, true, leasts, &[])?;
        assert_eq!(rt;
            found.as_str(),
            whole_wanted(alloc, wanted)?.as_str(),
            "{}",
            wanted.name
        );
    }
    Ok(())
}

// 400 are got, and of 300 only 200. 300 + 400 is the sum of the leasts.
const NO_LEASTS: Script = Script {
    name: "no leasts",
    max: 600,
    parts: [(0, 8, 8, 0), (0, 8, 8, 0), (0, 8, 8, 0), (0, 8, 8, 0)],
    fails: &[],
    script: "free",
    pool: "400=400 300=200 -200",
    held: 400,
    runs: "",
    created: 0,
};

#[test]
fn leasts_that_do_not_fit_are_refused(rt: HostRuntime) -> Result<(), Fail> {
    let alloc = rt.alloc();
    let (journal, left) = play_script(&rt, alloc, &NO_LEASTS, true, &[300, 1, 400, 1], &[])?;
    let pool = pool_found(alloc, &journal)?;
    assert_eq!(rt;
        pool.as_str(),
        pool_text(alloc, NO_LEASTS.pool, NO_LEASTS.held)?.as_str()
    );
    let fault = TaskFault::NoRoom {
        asked: 300,
        held: 400,
        floor: 300,
    };
    assert_eq!(rt;
        (left.live, left.answers.notes.len(), left.freed),
        (Err(fault), 0, 400)
    );
    Ok(())
}

// Each task's entries cost 396 bytes. Whoever waits holds less than an eighth of the pool, so each wait has an end; and an
// eighth is more than an entry's cost, so no feed is refused.
#[test]
fn four_tasks_spill_in_a_pool_of_one_and_a_half(rt: HostRuntime) -> Result<(), Fail> {
    for round in 0..50 {
        assert_eq!(rt;
            play_shared(&rt, rt.alloc())?,
            [true; 5],
            "the tasks and the pool, {round}"
        );
    }
    Ok(())
}

// The steps of the four tasks that share a pool.
fn shared_steps(alloc: Global) -> Result<Vec<Vec<Step>>, Fail> {
    let mut all = Vec::new(alloc);
    for script in SHARED_SCRIPTS {
        all.push(steps_of(alloc, script)?)?;
    }
    Ok(all)
}

// What one of them plays.
fn shared(all: &[Vec<Step>], task: usize) -> Setting<'_> {
    let steps: &[Step] = match all.get(task) {
        Some(steps) => steps,
        None => &[],
    };
    Setting {
        leasts: &[0; 4],
        parts: &SHARED_PARTS,
        fails: &[],
        steps,
    }
}

// Plays four tasks in a pool of 594 bytes. Whether each came to what it had to, and the pool did.
fn play_shared<R: Threads + Wait + Sync>(rt: &R, alloc: Global) -> Result<[bool; 5], Fail> {
    let setup = Setup::of(594, 0, 1000, 0, 4)?;
    let steps = shared_steps(alloc)?;
    let plays = [
        shared(&steps, 0),
        shared(&steps, 1),
        shared(&steps, 2),
        shared(&steps, 3),
    ];
    let (journal, mut lower, mut upper) = share_four::<Brand, _>(rt, alloc, setup, &plays)?;
    are_shared(alloc, &journal, &mut lower, &mut upper)
}

// Whether each of four tasks came to what it had to. The pool was never passed, and nothing is held at its end.
fn are_shared(
    alloc: Global,
    journal: &Journal,
    lower: &mut (Left, Left),
    upper: &mut (Left, Left),
) -> Result<[bool; 5], Fail> {
    let [first, second, third, fourth] = SHARED_SCRIPTS;
    Ok([
        is_shared(alloc, first, &mut lower.0)?,
        is_shared(alloc, second, &mut lower.1)?,
        is_shared(alloc, third, &mut upper.0)?,
        is_shared(alloc, fourth, &mut upper.1)?,
        is_within(journal, 594),
    ])
}

// Whether a task that shares a pool came to the end of its script, and drained what it was fed.
fn is_shared(alloc: Global, script: &str, left: &mut Left) -> Result<bool, Fail> {
    has_memory(left)?;
    let answers = answers_of(alloc, script, &left.answers.notes)?;
    let runs = runs_of(alloc, &mut left.disk, &left.answers.runs)?;
    Ok(
        answers.as_str().ends_with("drain:3=0/0.0.0.0")
            && left.live == Ok(true)
            && left.freed == 0
            && left.disk.created() >= 4
            && is_drained(script, runs.as_str()),
    )
}

// Whether what the script fed is what stands in the runs.
fn is_drained(script: &str, runs: &str) -> bool {
    for consumer in ["0", "1", "2", "3"] {
        for key in ['a', 'b', 'c', 'd', 'e', 'f'] {
            if count_drained(runs, consumer, key) != count_fed(script, consumer, key) {
                return false;
            }
        }
    }
    true
}

// Plays scripts, and compares what each leaves and the pool's journal.
fn check_scripts<R: Abort + Wait>(rt: &R, alloc: Global, scripts: &[Script]) -> Result<(), Fail> {
    for wanted in scripts {
        let found = play_whole(rt, alloc, wanted, false, &[0; 4], wanted.fails)?;
        assert_eq!(rt;
            found.as_str(),
            whole_wanted(alloc, wanted)?.as_str(),
            "{}",
            wanted.name
        );
    }
    Ok(())
}

// Plays a script: the pool's journal and what is left, as a text.
fn play_whole<R: Wait>(
    rt: &R,
    alloc: Global,
    script: &Script,
    some: bool,
    leasts: &[u64; 4],
    fails: &[u64],
) -> Result<String, Fail> {
    let (journal, mut left) = play_script(rt, alloc, script, some, leasts, fails)?;
    let pool = pool_found(alloc, &journal)?;
    whole_text(
        alloc,
        pool.as_str(),
        left_found(alloc, script, script.held, &mut left)?.as_str(),
    )
}

// Plays the script in which one call of the disk fails: what is left, as a text.
fn play_fault<R: Wait>(rt: &R, alloc: Global, call: u64, held: u64) -> Result<String, Fail> {
    let (journal, mut left) = play_script(rt, alloc, &FAULT_SCRIPT, false, &[0; 4], &[call])?;
    if !is_within(&journal, FAULT_SCRIPT.max) {
        return Ok(format!(in alloc; "the pool was passed, or something is held at its end")?);
    }
    left_found(alloc, &FAULT_SCRIPT, held, &mut left)
}

// What a pool's journal has to be.
fn pool_text(alloc: Global, pool: &str, held: u64) -> Result<String, AllocError> {
    format!(in alloc; "{pool} and {held} at the end")
}

// What is left: these answers, what was held at the end, the runs and the files.
fn left_text(
    alloc: Global,
    answers: &str,
    held: u64,
    runs: &str,
    created: u64,
) -> Result<String, AllocError> {
    format!(in alloc; "{answers}, {held} held, runs {runs}, {created} files")
}

fn whole_text(alloc: Global, pool: &str, left: &str) -> Result<String, Fail> {
    Ok(format!(in alloc; "{pool}, {left}")?)
}

fn left_wanted(alloc: Global, wanted: &Script) -> Result<String, AllocError> {
    left_text(
        alloc,
        wanted.script,
        wanted.held,
        wanted.runs,
        wanted.created,
    )
}

fn whole_wanted(alloc: Global, wanted: &Script) -> Result<String, Fail> {
    let pool = pool_text(alloc, wanted.pool, wanted.held)?;
    whole_text(alloc, pool.as_str(), left_wanted(alloc, wanted)?.as_str())
}

fn pool_found(alloc: Global, journal: &Journal) -> Result<String, Fail> {
    let pool = pool_of(alloc, journal.entries())?;
    Ok(match end_of(journal.entries()) {
        Some(held) => pool_text(alloc, pool.as_str(), held)?,
        None => format!(in alloc; "another end")?,
    })
}

fn left_found(alloc: Global, script: &Script, held: u64, left: &mut Left) -> Result<String, Fail> {
    if !is_as_refused(left, held, script.max / 2) {
        return Ok(format!(in alloc;
            "other numbers of a refusal, or a memory that is live after it"
        )?);
    }
    let answers = answers_of(alloc, script.script, &left.answers.notes)?;
    let runs = runs_of(alloc, &mut left.disk, &left.answers.runs)?;
    Ok(left_text(
        alloc,
        answers.as_str(),
        left.freed,
        runs.as_str(),
        left.disk.created(),
    )?)
}

// Whether a refusal tells these numbers, and the memory was live where nothing was refused.
fn is_as_refused(left: &Left, at_end: u64, least: u64) -> bool {
    let mut refused = false;
    for note in &left.answers.notes {
        if let Err(fault) = note.answer {
            refused = true;
            if let TaskFault::NoRoom { held, floor, .. } = fault {
                if held != at_end || floor != least {
                    return false;
                }
            }
        }
    }
    left.live == Ok(!refused)
}

// Whether the tasks of a journal never held more than this together, and hold nothing at its end.
fn is_within(journal: &Journal, max: u64) -> bool {
    let (most, left) = held_in(journal.entries());
    most <= max && left == 0
}

// Want of memory, where it is what a task was answered: what it left isn't compared then.
fn has_memory(left: &Left) -> Result<(), AllocError> {
    for note in &left.answers.notes {
        if let Err(TaskFault::NoMemory) = note.answer {
            return Err(AllocError);
        }
    }
    match left.live {
        Err(TaskFault::NoMemory) => Err(AllocError),
        _ => Ok(()),
    }
}

// Plays a script in its pool, over a disk on which these calls fail. Where `some`, two of the boxes are consumers.
fn play_script<R: Wait>(
    rt: &R,
    alloc: Global,
    script: &Script,
    some: bool,
    leasts: &[u64; 4],
    fails: &[u64],
) -> Result<(Journal, Left), Fail> {
    let max = script.max;
    if max < 1 || max > 1 << 40 {
        return Err("a pool out of range".into());
    }
    let setup = Setup::of(max, 0, 1000, 0, 1)?;
    let steps = steps_of(alloc, script.script)?;
    let given = Setting {
        leasts,
        parts: &script.parts,
        fails,
        steps: &steps,
    };
    let (journal, left) = play_alone::<Brand, _>(rt, alloc, setup, some, given)?;
    has_memory(&left)?;
    Ok((journal, left))
}

// The most that the tasks of these entries hold at once, and what they hold at the end.
fn held_in(entries: &[Entry]) -> (u64, u64) {
    let mut most = 0u64;
    let mut held = 0u64;
    for entry in entries {
        match entry.event {
            Event::Attempt { got, .. } => held = held.wrapping_add(got.unwrap_or(0)),
            Event::Release { freed, .. } => held = held.wrapping_sub(freed),
            Event::End { freed, .. } => held = held.wrapping_sub(freed),
            _ => {}
        }
        most = most.max(held);
    }
    (most, held)
}

// What the end of a task frees, if it is the last entry.
fn end_of(entries: &[Entry]) -> Option<u64> {
    match entries.last() {
        Some(
            Entry {
                event: Event::End { freed, .. },
                ..
            },
        ) => Some(*freed),
        _ => None,
    }
}
