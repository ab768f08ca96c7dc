// Worked answers: the numbers of each row were computed by hand from Spark's rules.
use crate::{Share, ShareAt, growth, share};

const MOST: u64 = 1_125_899_906_842_624;

// Where a row awaits no grant: the task waits.
const WAITS: u64 = u64::MAX;

#[test]
fn growth_gives_what_lacks_up_to_what_storage_may_lose(rt: HostRuntime) {
    // asked, execution free, storage pool, storage free, region; what moves
    for row in [
        // what execution lacks; all that is free; all above the region; no more than that; more is free; a free region too
        [500, 300, 300, 300, 300, 200],
        [200, 0, 100, 100, 300, 100],
        [300, 100, 500, 50, 300, 200],
        [1000, 100, 500, 50, 300, 200],
        [1000, 100, 500, 250, 300, 250],
        [1000, 100, 300, 300, 300, 300],
        // blocks in the region stay; a full region stays; a byte above the region; there is no region
        [1000, 0, 200, 50, 300, 50],
        [1000, 0, 300, 0, 300, 0],
        [1000, 0, 301, 0, 300, 1],
        [1000, 0, 600, 0, 0, 600],
        // more than enough; just enough; one byte lacks; nothing is asked; there is no storage
        [99, 100, 300, 300, 300, 0],
        [100, 100, 300, 300, 300, 0],
        [101, 100, 300, 300, 300, 1],
        [0, 0, 300, 300, 300, 0],
        [5, 0, 0, 0, 0, 0],
        // 2^50 bytes of blocks; the last of 2^50; the greatest
        [MOST, 0, MOST, 0, 0, MOST],
        [MOST, MOST - 1, 1, 1, 1, 1],
        [u64::MAX, 0, u64::MAX, 0, 0, u64::MAX],
    ] {
        let [
            asked,
            execution_free,
            storage_pool,
            storage_free,
            region,
            moved,
        ] = row;
        let answer = growth(asked, execution_free, storage_pool, storage_free, region);
        assert_eq!(rt; answer, moved, "{row:?}");
    }
}

#[test]
fn a_short_grant_reaches_half_a_share_or_the_task_waits(rt: HostRuntime) {
    // max, region, stored, pool, exec, held, active, asked; what is granted
    for row in [
        // alone; half is 150; past it; freed; short; half; a byte below; whole
        [600, 300, 0, 500, 0, 0, 1, 500, 500],
        [600, 300, 0, 600, 500, 0, 2, 200, WAITS],
        [600, 300, 0, 600, 500, 500, 2, 50, 0],
        [600, 300, 0, 600, 400, 0, 2, 200, 200],
        [600, 300, 0, 600, 449, 0, 2, 200, 151],
        [600, 300, 0, 600, 450, 0, 2, 200, 150],
        [600, 300, 0, 600, 451, 0, 2, 200, WAITS],
        [600, 300, 0, 600, 451, 0, 2, 149, 149],
        // held; held, below; the last; at it; asks none
        [600, 300, 0, 600, 550, 100, 2, 200, 50],
        [600, 300, 0, 600, 551, 100, 2, 200, WAITS],
        [600, 300, 0, 600, 300, 299, 2, 50, 1],
        [600, 300, 0, 600, 300, 300, 2, 50, 0],
        [600, 300, 0, 600, 600, 0, 2, 0, 0],
        // stored; limit; region; above; no region; no memory
        [600, 300, 200, 400, 0, 0, 1, 300, 300],
        [600, 300, 200, 400, 0, 0, 1, 500, 400],
        [600, 300, 300, 300, 0, 0, 2, 300, 150],
        [1000, 300, 500, 500, 0, 0, 2, 500, 350],
        [600, 0, 400, 200, 0, 0, 2, 300, 200],
        [0, 0, 0, 0, 0, 0, 1, 5, 0],
        // half of 33; 15 is below 16; of 100.9; half; 49 is below
        [100, 50, 0, 100, 84, 0, 3, 40, 16],
        [100, 50, 0, 100, 85, 0, 3, 40, WAITS],
        [1615, 0, 0, 1615, 0, 0, 16, 200, 100],
        [1600, 9, 0, 1600, 1550, 0, 16, 99, 50],
        [1600, 9, 0, 1600, 1551, 0, 16, 99, WAITS],
        // a share; all; a byte
        [600, 300, 0, 600, 0, 0, 2, MOST, 300],
        [MOST, MOST, 0, MOST, 0, 0, 1, MOST, MOST],
        [MOST, 0, 0, MOST, 0, 0, MOST, 2, 1],
    ] {
        let [max, region, stored, pool, exec, held, active, asked, got] = row;
        assert!(rt; max.max(region).max(active).max(asked) <= MOST, "{row:?}");
        assert!(rt; pool <= max && stored <= max - pool, "{row:?}");
        assert!(rt; held <= exec && exec <= pool && 1 <= active, "{row:?}");
        let at = ShareAt {
            max,
            region,
            stored,
            pool,
            exec,
            held,
            active,
            asked,
        };
        let answer = match share(at) {
            Share::Grant(bytes) => bytes,
            Share::Wait => WAITS,
        };
        assert_eq!(rt; answer, got, "{row:?}");
    }
}
