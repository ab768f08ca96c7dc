// Worked plans: the numbers of each row were computed by hand from Spark's rules.
use crate::{Borrow, Shrink, borrow_plan, fits, shrink_plan};

const MOST: u64 = 1_125_899_906_842_624;

#[test]
fn storage_gives_up_free_bytes_before_blocks(rt: HostRuntime) {
    for (target, storage_free, unused, need) in [
        (200, 300, 200, 0),
        (200, 200, 200, 0),
        (200, 199, 199, 1),
        (200, 50, 50, 150),
        (200, 0, 0, 200),
        (0, 300, 0, 0),
        (0, 0, 0, 0),
        (MOST, 1, 1, MOST - 1),
        (u64::MAX, u64::MAX, u64::MAX, 0),
        (u64::MAX, 0, 0, u64::MAX),
    ] {
        let plan = Shrink { unused, need };
        assert_eq!(rt;
            shrink_plan(target, storage_free),
            plan,
            "{target} of {storage_free} free"
        );
    }
}

#[test]
fn a_block_borrows_what_is_free_before_others_go(rt: HostRuntime) {
    // size, storage free, execution free; borrowed, still needed
    for (size, storage_free, execution_free, moved, need) in [
        (300, 50, 200, 200, 50),
        (200, 50, 300, 150, 0),
        (200, 50, 150, 150, 0),
        (200, 50, 149, 149, 1),
        (200, 200, 300, 0, 0),
        (201, 200, 300, 1, 0),
        (200, 300, 300, 0, 0),
        (200, 50, 0, 0, 150),
        (200, 0, 0, 0, 200),
        (0, 0, 300, 0, 0),
        (0, 0, 0, 0, 0),
        (MOST, 0, MOST, MOST, 0),
        (MOST, MOST, MOST, 0, 0),
        (MOST, 1, 1, 1, MOST - 2),
    ] {
        assert!(rt; size.max(storage_free).max(execution_free) <= MOST);
        let plan = Borrow { moved, need };
        assert_eq!(rt;
            borrow_plan(size, storage_free, execution_free),
            plan,
            "{size} with {storage_free} and {execution_free} free"
        );
    }
}

#[test]
fn a_block_fits_up_to_the_last_byte(rt: HostRuntime) {
    for (size, storage_free, answer) in [
        (200, 201, true),
        (200, 200, true),
        (200, 199, false),
        (0, 0, true),
        (1, 0, false),
        (u64::MAX, u64::MAX, true),
    ] {
        assert_eq!(rt;
            fits(size, storage_free),
            answer,
            "{size} in {storage_free}"
        );
    }
}
