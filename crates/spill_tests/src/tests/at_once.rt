// All workers at once: each waits at a barrier for all of them.

use std::sync::Barrier;
use std::test::*;
use worker_threads::each_place;

#[test]
fn four_workers_run_at_the_same_time(rt: HostRuntime) -> Result<(), Fail> {
    let barrier = Barrier::new(4);
    let mut workers = [0u64, 1, 2, 3];
    let mut posts = [10u64, 11, 12, 13, 14];
    let mut answers = [9usize, 9, 9, 9];
    each_place(
        &rt,
        &|place: usize, worker: &mut u64, post: &mut u64| {
            barrier.wait(&rt);
            *worker = *post;
            *post = place as u64;
            place
        },
        0,
        &mut workers,
        &mut posts,
        &mut answers,
    );
    assert_eq!(rt; workers, [10, 11, 12, 13]);
    assert_eq!(rt; posts, [0, 1, 2, 3, 14]);
    assert_eq!(rt; answers, [0, 1, 2, 3]);
    Ok(())
}
