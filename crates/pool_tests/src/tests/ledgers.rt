ghost use Rattle.std.specs.Prelude.{◌≡◌, ◌≤◌, []};
ghost use Rattle.pool_ledger.specs.Sizes.{sizes_of};

use pool_ledger::{Entry, Event, HeapTooSmall, Journal, Ledger, Setup};
use std::string::ToString;
use std::test::*;

#[test]
fn a_heap_and_its_fractions_give_these_sizes(rt: HostRuntime) -> Result<(), Fail> {
    let gibibyte = Setup::of(1_073_741_824, 314_572_800, 600, 500, 4)?;
    assert_eq!(rt; gibibyte.max(), 455_501_414);
    assert_eq!(rt; gibibyte.region(), 227_750_707);
    assert_eq!(rt; gibibyte.workers(), 4);
    assert_eq!(rt; gibibyte.floor(), 28_468_838);
    assert_eq!(rt; gibibyte.block_limit(), 56_937_676);
    let smallest = Setup::of(471_859_200, 314_572_800, 600, 500, 1)?;
    assert_eq!(rt; smallest.max(), 94_371_840);
    assert_eq!(rt; smallest.region(), 47_185_920);
    Ok(())
}

#[test]
fn a_heap_one_byte_below_is_too_small(rt: HostRuntime) -> Result<(), Fail> {
    assert!(rt; Setup::of(471_859_199, 314_572_800, 600, 500, 4).is_err());
    assert_eq!(rt;
        HeapTooSmall.to_string(rt.alloc())?.as_str(),
        "heap too small for the reserve"
    );
    Ok(())
}

#[test]
fn a_ledger_keeps_the_sums_of_two_tasks(rt: HostRuntime) -> Result<(), Fail> {
    let setup = Setup::of(600, 0, 1000, 500, 2)?;
    let mut ledger = Ledger::new(rt.alloc(), setup);
    ledger.reserve(7)?;
    push_two_tasks(&mut ledger);
    assert_eq!(rt; ledger.setup().max(), 600);
    assert_eq!(rt; ledger.execution_pool(), 600);
    assert_eq!(rt; ledger.storage_pool(), 0);
    assert_eq!(rt; ledger.exec(), 600);
    assert_eq!(rt; ledger.stored(), 0);
    assert_eq!(rt; ledger.active(), 2);
    assert_eq!(rt; ledger.held(0), 400);
    assert_eq!(rt; ledger.held(1), 200);
    assert!(rt; ledger.is_active(1));
    assert_eq!(rt; ledger.entries().len(), 7);
    let journal = ledger.close();
    assert_eq!(rt; journal.entries().first(), Some(&begin(0, 0)));
    assert_eq!(rt;
        journal.entries().last(),
        Some(&attempt(1, 1, 200, 0, Some(200)))
    );
    assert!(rt; Journal::new(rt.alloc()).entries().is_empty());
    Ok(())
}

#[test]
fn an_ended_task_holds_what_its_end_left(rt: HostRuntime) -> Result<(), Fail> {
    let setup = Setup::of(600, 0, 1000, 500, 2)?;
    let mut ledger = Ledger::new(rt.alloc(), setup);
    ledger.reserve(3)?;
    push_short_end(&mut ledger);
    assert_eq!(rt; ledger.held(7), 100);
    assert!(rt; ledger.is_active(7));
    assert_eq!(rt; ledger.exec(), 100);
    assert_eq!(rt; ledger.active(), 1);
    assert_eq!(rt; ledger.held(8), 0);
    assert!(rt; !ledger.is_active(8));
    Ok(())
}

#[test]
fn plain_sizes_are_a_setup_exactly_in_range(rt: HostRuntime) -> Result<(), Fail> {
    let setups = [(600, 300, 1), (1 << 40, 1 << 40, 16), (0, 0, 1)];
    assert_eq!(rt; first_unlike(&setups, true), None);
    let others = [
        (600, 601, 1),
        ((1 << 40) + 1, 300, 1),
        (600, 300, 0),
        (600, 300, 17),
    ];
    assert_eq!(rt; first_unlike(&others, false), None);
    Ok(())
}

#[test]
fn a_ledger_tells_each_workers_open_task(rt: HostRuntime) -> Result<(), Fail> {
    let setup = Setup::of(600, 0, 1000, 500, 2)?;
    let mut ledger = Ledger::new(rt.alloc(), setup);
    ledger.reserve(1)?;
    ledger.push(begin(1, 7));
    assert_eq!(rt; ledger.max(), 600);
    // The first worker has no task, the second has one, and there is no third.
    let open = [
        ledger.open_task(0),
        ledger.open_task(1),
        ledger.open_task(2),
    ];
    assert_eq!(rt; open, [None, Some(7), None]);
    Ok(())
}

// The first of these sizes whose answer isn't the expected one: whether they are a setup.
fn first_unlike(sizes: &[(u64, u64, u64)], expected: bool) -> Option<(u64, u64, u64)> {
    for &(max, region, workers) in sizes {
        if Setup::with_sizes(max, region, workers).is_some() != expected {
            return Some((max, region, workers));
        }
    }
    None
}

fn begin(worker: u32, task: u32) -> Entry
    ensures { result ≡ record { worker = worker; event = Event.Begin task } }
{
    Entry {
        worker,
        event: Event::Begin { task },
    }
}

fn attempt(worker: u32, task: u32, asked: u64, moved: u64, got: Option<u64>) -> Entry
    ensures { result ≡ record { worker = worker; event = Event.Attempt task asked moved 0 got } }
{
    Entry {
        worker,
        event: Event::Attempt {
            task,
            asked,
            moved,
            evictions: 0,
            got,
        },
    }
}

// The first task takes most, the second waits, the first gives some back, and the second gets it.
fn push_two_tasks(ledger: &mut Ledger)
    requires setup { ledger.old.setup ≡ sizes_of 600 0 1000 500 2 }
    requires empty { ledger.old.history ≡ [] }
    requires spare { 7 ≤ ledger.old.spare }
{
    ledger.push(begin(0, 0));
    ledger.push(begin(1, 1));
    ledger.push(attempt(0, 0, 500, 200, Some(500)));
    ledger.push(attempt(1, 1, 200, 100, None));
    ledger.push(attempt(0, 0, 50, 0, Some(0)));
    ledger.push(Entry {
        worker: 0,
        event: Event::Release {
            task: 0,
            freed: 100,
        },
    });
    ledger.push(attempt(1, 1, 200, 0, Some(200)));
}

// A task's end frees less than it holds.
fn push_short_end(ledger: &mut Ledger)
    requires setup { ledger.old.setup ≡ sizes_of 600 0 1000 500 2 }
    requires empty { ledger.old.history ≡ [] }
    requires spare { 3 ≤ ledger.old.spare }
{
    ledger.push(begin(1, 7));
    ledger.push(attempt(1, 7, 500, 200, Some(500)));
    ledger.push(Entry {
        worker: 1,
        event: Event::End {
            task: 7,
            freed: 400,
        },
    });
}
