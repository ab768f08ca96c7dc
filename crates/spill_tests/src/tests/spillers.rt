// Spillers that are fed and spilled by hand.
use crate::spiller::PartSpiller;
use crate::tests::consumer_steps::{Step, count_right};
use crate::tests::consumer_task::Task;
use aggregate::Kind;
use consumer_trait::Fed;
use std::test::Fail;

#[test]
fn a_spill_writes_the_front_that_ascends(rt: HostRuntime) -> Result<(), Fail> {
    let alloc = rt.alloc();
    let steps: &[Step] = &[
        Step::Grant(300),
        Step::Feed(b"b", 0, Fed::Taken),
        Step::Feed(b"a", 0, Fed::Taken),
        Step::Feed(b"c", 0, Fed::Taken),
        Step::Freed(16),
        Step::Ask(1000),
        Step::Used(284),
        Step::Grant(100),
        // `a` comes before it.
        Step::Write(&[b"b"], 0),
        Step::Freed(59),
        Step::Freed(58),
        Step::Done,
        // The room is 201, as it was.
        Step::Used(267),
    ];
    let mut task = Task::begun(
        alloc,
        PartSpiller::new(alloc, 256, 1000, 8, 1, 16),
        Kind::Order,
    )?;
    assert_eq!(rt; count_right(alloc, &mut task, steps)?, steps.len());
    Ok(())
}

#[test]
fn a_spill_writes_its_most_in_parts(rt: HostRuntime) -> Result<(), Fail> {
    let alloc = rt.alloc();
    let steps: &[Step] = &[
        Step::Grant(150),
        Step::Feed(b"a", 0, Fed::Taken),
        Step::Feed(b"b", 0, Fed::Taken),
        Step::Feed(b"c", 0, Fed::Taken),
        Step::Write(&[b"a"], 0),
        Step::Write(&[b"b"], 0),
        Step::Freed(33),
        Step::Freed(33),
        Step::Done,
        Step::Write(&[b"c"], 0),
        Step::Freed(42),
        Step::Freed(42),
        Step::Done,
        Step::Holds(false),
        Step::Used(0),
        // It has nothing to write.
        Step::Grant(40),
        Step::Freed(40),
        Step::Done,
    ];
    let mut task = Task::begun(alloc, PartSpiller::new(alloc, 0, 0, 2, 1, 0), Kind::Order)?;
    assert_eq!(rt; count_right(alloc, &mut task, steps)?, steps.len());
    Ok(())
}
