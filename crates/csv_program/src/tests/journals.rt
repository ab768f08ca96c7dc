// The journals of runs.
use crate::tests::running::{BOTH, call_of, cities, generated, run_on, told};
use pool_ledger::{Entry, Event};
use std::alloc::{AllocError, Global};
use std::test::Fail;

// Whether these are the entries of these events of worker 0.
fn are_events(entries: &[Entry], events: &[Event]) -> bool {
    for (entry, event) in entries.iter().zip(events) {
        let wanted = Entry {
            worker: 0,
            event: *event,
        };
        if *entry != wanted {
            return false;
        }
    }
    entries.len() == events.len()
}

#[test]
fn the_journal_of_one_partition_has_its_task_and_the_final_one(
    rt: HostRuntime,
) -> Result<(), Fail> {
    let alloc = rt.alloc();
    let ran = run_on(&rt, alloc, cities(&["run", BOTH]))?;
    assert_eq!(rt; told(alloc, &ran.outcome.status)?.as_str(), "0 ");
    let Some(setup) = &ran.outcome.setup else {
        return Err(Fail::from("no pool"));
    };
    assert_eq!(rt; setup.max(), 455_501_414);
    assert_eq!(rt; setup.region(), 227_750_707);
    let wanted = [
        Event::Begin { task: 0 },
        Event::Attempt {
            task: 0,
            asked: 1024,
            moved: 0,
            evictions: 0,
            got: Some(1024),
        },
        Event::Attempt {
            task: 0,
            asked: 16384,
            moved: 0,
            evictions: 0,
            got: Some(16384),
        },
        // Two keys are ordered with 8 bytes each.
        Event::Attempt {
            task: 0,
            asked: 16,
            moved: 0,
            evictions: 0,
            got: Some(16),
        },
        // What the groups took goes back as they are written.
        Event::Release {
            task: 0,
            freed: 16400,
        },
        Event::Release {
            task: 0,
            freed: 1024,
        },
        Event::End { task: 0, freed: 0 },
        Event::Begin { task: 1 },
        Event::End { task: 1, freed: 0 },
    ];
    assert!(rt; are_events(ran.outcome.journal.entries(), &wanted));
    Ok(())
}

// The workers and tasks of a journal's begins, or of its ends.
fn tasks_in(
    alloc: Global,
    entries: &[Entry],
    of_ends: bool,
) -> Result<Vec<(u32, u32)>, AllocError> {
    let mut tasks = Vec::new(alloc);
    for entry in entries {
        let (task, is_end) = match entry.event {
            Event::Begin { task } => (task, false),
            Event::End { task, .. } => (task, true),
            _ => continue,
        };
        if is_end == of_ends {
            tasks.push((entry.worker, task))?;
        }
    }
    Ok(tasks)
}

// Whether these are the tasks of six partitions and four workers, the final one last. Workers run at the same time, so that
// theirs may stand in any order before it.
fn are_of_six(mut tasks: Vec<(u32, u32)>) -> Result<bool, AllocError> {
    let is_last = tasks.last() == Some(&(0, 6));
    tasks.sort()?;
    let wanted = [(0, 0), (0, 4), (0, 6), (1, 1), (1, 5), (2, 2), (3, 3)];
    Ok(is_last && tasks.as_slice() == wanted.as_slice())
}

#[test]
fn tasks_are_done_by_the_workers_of_their_partitions(rt: HostRuntime) -> Result<(), Fail> {
    let alloc = rt.alloc();
    // Six partitions, of which the last is short.
    let input = generated(alloc, 50_001)?;
    let ran = run_on(&rt, alloc, call_of(&["run", "group k: count"], &input))?;
    let entries = ran.outcome.journal.entries();
    let begun = are_of_six(tasks_in(alloc, entries, false)?)?;
    let ended = are_of_six(tasks_in(alloc, entries, true)?)?;
    assert!(rt;
        ran.outcome.status.number() == 0 && begun && ended,
        "{begun} {ended}"
    );
    Ok(())
}
