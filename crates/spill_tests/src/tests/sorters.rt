//! Sorters that are fed and spilled by hand.

use crate::tests::consumer_steps::{Step, are_right, count_right};
use crate::tests::consumer_task::Task;
use consumer_trait::Fed;
use row_sorter::RowSorter;
use std::alloc::Global;
use std::process::Abort;
use std::test::Fail;

/// How many of these steps of a sorter come as they have to.
fn count_steps(alloc: Global, steps: &[Step]) -> Result<usize, Fail> {
    count_right(alloc, &mut Task::of(alloc, RowSorter::new(alloc)), steps)
}

// All of these steps come as they have to.
fn check(rt: &impl Abort, alloc: Global, steps: &[Step]) -> Result<(), Fail> {
    are_right(rt, count_steps(alloc, steps), steps.len())
}

#[test]
fn two_keys_come_back_in_order(rt: HostRuntime) -> Result<(), Fail> {
    let steps: &[Step] = &[
        Step::Order,
        Step::Grant(300),
        Step::Feed(b"b", 0, Fed::Taken),
        Step::Feed(b"a", 0, Fed::Taken),
        Step::Write(&[b"a", b"b"], 0),
        Step::Freed(300),
        Step::Used(0),
        Step::Done,
        // It has nothing to write.
        Step::Done,
        Step::Grant(40),
        Step::Freed(40),
        Step::Used(0),
        Step::Done,
    ];
    check(&rt, rt.alloc(), steps)
}

#[test]
fn an_entry_without_room_changes_nothing(rt: HostRuntime) -> Result<(), Fail> {
    let steps: &[Step] = &[
        Step::Order,
        Step::Grant(100),
        // It takes 75 bytes.
        Step::Feed(b"key", 40, Fed::Taken),
        Step::Feed(
            b"k",
            40,
            Fed::Need {
                must: 48,
                wish: 16384,
            },
        ),
        Step::Feed(
            b"k",
            20000,
            Fed::Need {
                must: 20008,
                wish: 20008,
            },
        ),
        Step::Grant(48),
        Step::Feed(b"k", 40, Fed::Taken),
        Step::Write(&[b"k", b"key"], 40),
        Step::Freed(148),
        Step::Used(0),
        Step::Done,
    ];
    check(&rt, rt.alloc(), steps)
}

#[test]
fn a_reset_forgets_a_spill(rt: HostRuntime) -> Result<(), Fail> {
    let steps: &[Step] = &[
        Step::Order,
        Step::Grant(400000),
        Step::Feed(b"d", 65000, Fed::Taken),
        Step::Feed(b"b", 65000, Fed::Taken),
        Step::Feed(b"e", 65000, Fed::Taken),
        Step::Feed(b"a", 65000, Fed::Taken),
        Step::Feed(b"c", 65000, Fed::Taken),
        // A page has room for four.
        Step::Write(&[b"a", b"b", b"c", b"d"], 65000),
        Step::Order,
        Step::Grant(66),
        Step::Feed(b"y", 0, Fed::Taken),
        Step::Feed(b"x", 0, Fed::Taken),
        Step::Write(&[b"x", b"y"], 0),
        Step::Freed(66),
        Step::Used(0),
        Step::Done,
        Step::Order,
        Step::Grant(33),
        Step::Feed(b"z", 0, Fed::Taken),
        Step::Write(&[b"z"], 0),
        Step::Freed(33),
        Step::Used(0),
        Step::Done,
    ];
    check(&rt, rt.alloc(), steps)
}

#[test]
fn a_sorter_is_for_orders(rt: HostRuntime) -> Result<(), Fail> {
    let steps: &[Step] = &[Step::ServesOrders(true), Step::Least(256)];
    check(&rt, rt.alloc(), steps)
}
