//! Maps that are fed and spilled by hand.

use crate::tests::consumer_steps::{Step, are_right, count_right, groups_of};
use crate::tests::consumer_task::Task;
use aggregate::Agg;
use consumer_trait::Fed;
use group_map::GroupMap;
use std::alloc::Global;
use std::process::Abort;
use std::test::Fail;

/// How many of these steps of a map that was begun with these aggregates come as they have to.
fn count_steps(alloc: Global, aggs: &[Agg], steps: &[Step]) -> Result<usize, Fail> {
    let kind = groups_of(alloc, aggs)?;
    let mut task = Task::begun(alloc, GroupMap::new(alloc), kind)?;
    count_right(alloc, &mut task, steps)
}

// All of these steps come as they have to.
fn check(rt: &impl Abort, alloc: Global, aggs: &[Agg], steps: &[Step]) -> Result<(), Fail> {
    are_right(rt, count_steps(alloc, aggs, steps), steps.len())
}

#[test]
fn a_known_key_costs_nothing(rt: HostRuntime) -> Result<(), Fail> {
    let steps: &[Step] = &[
        Step::Grant(200),
        Step::Count(b'a', 1, Fed::Taken),
        Step::Count(b'a', 1, Fed::Taken),
        // It costs 151, and one entry of 50 leaves 150.
        Step::Count(
            b'b',
            102,
            Fed::Need {
                must: 1,
                wish: 16384,
            },
        ),
        Step::Count(b'b', 101, Fed::Taken),
        // No room is left.
        Step::Count(b'a', 1, Fed::Taken),
        Step::Used(200),
    ];
    check(&rt, rt.alloc(), &[Agg::Count], steps)
}

#[test]
fn a_need_says_what_is_missing_and_what_is_welcome(rt: HostRuntime) -> Result<(), Fail> {
    let steps: &[Step] = &[
        Step::Least(1024),
        Step::Count(
            b'a',
            1,
            Fed::Need {
                must: 50,
                wish: 16384,
            },
        ),
        Step::Count(
            1,
            60000,
            Fed::Need {
                must: 60049,
                wish: 60049,
            },
        ),
        Step::Grant(49),
        Step::Count(
            1,
            60000,
            Fed::Need {
                must: 60000,
                wish: 60000,
            },
        ),
        Step::Count(
            b'a',
            1,
            Fed::Need {
                must: 1,
                wish: 16384,
            },
        ),
    ];
    check(&rt, rt.alloc(), &[Agg::Count], steps)
}

#[test]
fn rows_of_one_key_are_counted_and_summed(rt: HostRuntime) -> Result<(), Fail> {
    let steps: &[Step] = &[
        Step::Grant(201),
        Step::Sum(b"b", Some(5), Fed::Taken),
        Step::Sum(b"a", Some(-7), Fed::Taken),
        Step::Sum(b"b", Some(100), Fed::Taken),
        Step::Sum(b"a", Some(i64::MAX), Fed::Taken),
        Step::Sum(b"c", Some(0), Fed::Taken),
        Step::Sum(b"b", Some(-105), Fed::Taken),
        Step::Ask(24),
        Step::Totals(&[
            (b"a", 2, Some(i64::MAX - 7)),
            (b"b", 3, Some(0)),
            (b"c", 1, Some(0)),
        ]),
        Step::Freed(201),
        Step::Used(0),
        Step::Done,
        Step::Holds(false),
    ];
    check(&rt, rt.alloc(), &[Agg::Count, Agg::Sum], steps)
}

#[test]
fn missing_numbers_meet_those_that_are_there(rt: HostRuntime) -> Result<(), Fail> {
    let steps: &[Step] = &[
        // Three entries of 67.
        Step::Grant(201),
        Step::Sum(b"c", None, Fed::Taken),
        Step::Sum(b"a", None, Fed::Taken),
        Step::Sum(b"b", Some(-5), Fed::Taken),
        Step::Sum(b"a", Some(7), Fed::Taken),
        Step::Sum(b"b", None, Fed::Taken),
        Step::Sum(b"c", None, Fed::Taken),
        Step::Sum(b"a", None, Fed::Taken),
        Step::Ask(24),
        Step::Totals(&[(b"a", 3, Some(7)), (b"b", 2, Some(-5)), (b"c", 2, None)]),
        Step::Freed(201),
        Step::Used(0),
        Step::Done,
    ];
    check(&rt, rt.alloc(), &[Agg::Count, Agg::Sum], steps)
}

#[test]
fn a_page_takes_as_many_rows_as_it_has_room_for(rt: HostRuntime) -> Result<(), Fail> {
    let steps: &[Step] = &[
        Step::Grant(400000),
        Step::Count(5, 60000, Fed::Taken),
        Step::Count(3, 60000, Fed::Taken),
        Step::Count(1, 60000, Fed::Taken),
        Step::Count(4, 60000, Fed::Taken),
        Step::Count(2, 60000, Fed::Taken),
        Step::Ask(40),
        Step::Rows(4),
        Step::Rows(1),
        Step::Freed(400000),
        Step::Used(0),
        Step::Done,
        // There is nothing.
        Step::Done,
    ];
    check(&rt, rt.alloc(), &[Agg::Count], steps)
}

#[test]
fn a_reset_amid_a_spill_leaves_nothing(rt: HostRuntime) -> Result<(), Fail> {
    let steps: &[Step] = &[
        Step::Grant(400000),
        Step::Count(5, 60000, Fed::Taken),
        Step::Count(3, 60000, Fed::Taken),
        Step::Count(1, 60000, Fed::Taken),
        Step::Count(4, 60000, Fed::Taken),
        Step::Count(2, 60000, Fed::Taken),
        Step::Ask(40),
        Step::Rows(4),
        Step::Holds(true),
        // It serves groups alone.
        Step::ServesOrders(false),
        Step::Groups(&[Agg::Count, Agg::Sum]),
        Step::Grant(67),
        Step::Sum(b"x", Some(7), Fed::Taken),
        Step::Ask(8),
        Step::Totals(&[(b"x", 1, Some(7))]),
        Step::Freed(67),
        Step::Used(0),
        Step::Done,
    ];
    check(&rt, rt.alloc(), &[Agg::Count], steps)
}

// All steps come as they have to, where a spill of 300 keys is told so many bytes, and then writes so many keys, gives so
// many bytes back and uses so many.
fn check_told(
    rt: &impl Abort,
    alloc: Global,
    told: u64,
    count: u32,
    freed: u64,
    used: u64,
) -> Result<(), Fail> {
    let steps = [
        // 300 keys of four bytes cost 53 each.
        Step::Grant(15900),
        Step::Keys(300),
        Step::Ask(2400),
        Step::Grant(told),
        Step::Last(count, 300),
        Step::Freed(freed),
        Step::Done,
        Step::Used(used),
    ];
    check(rt, alloc, &[Agg::Count], &steps)
}

#[test]
fn a_spill_writes_as_many_of_the_last_keys_as_it_can_order(rt: HostRuntime) -> Result<(), Fail> {
    check_told(&rt, rt.alloc(), 0, 128, 6784, 9116)?;
    check_told(&rt, rt.alloc(), 800, 228, 12884, 3816)?;
    check_told(&rt, rt.alloc(), 2400, 300, 18300, 0)
}
