// Worked choices: the answer of each row was found by hand, by going down the list.
ghost use Rattle.std.specs.Prelude.{◌≡◌, IfSome};
ghost use Rattle.eviction.specs.Victims.{sizes};

use crate::{Candidate, victims};
use std::test::Fail;

const MOST: u64 = 1_125_899_906_842_624;

// No dataset is excepted; the blocks don't reach the need.
const NONE: u64 = u64::MAX;

#[test]
fn the_first_blocks_that_may_go_are_chosen(rt: HostRuntime) -> Result<(), Fail> {
    let two = [block(1, 250), block(2, 200)];
    let first_pinned = [pinned(1, 250), block(2, 200)];
    let both_pinned = [pinned(1, 250), pinned(2, 200)];
    let of_one_dataset = [block(1, 250), block(1, 200)];
    let five = [
        block(1, 10),
        pinned(2, 20),
        block(1, 30),
        block(3, 40),
        block(2, 50),
    ];
    let with_empty = [block(1, 0), block(2, 5), block(3, 0)];
    let greatest = [block(1, 1), block(2, MOST - 1)];
    let lists = [
        two.as_slice(),
        &first_pinned,
        &both_pinned,
        &of_one_dataset,
        &five,
        &with_empty,
        &greatest,
        &[],
    ];
    // the list, the need, the excepted dataset, and how far the blocks go
    for row in [
        // the oldest goes first; more than is needed; just enough; one byte more; all that there is; one byte more than all
        [0, 1, NONE, 1],
        [0, 150, NONE, 1],
        [0, 250, NONE, 1],
        [0, 251, NONE, 2],
        [0, 450, NONE, 2],
        [0, 451, NONE, NONE],
        // the first excepted; the second is enough; the second isn't; nor for this; the second excepted; of no block here
        [0, 150, 1, 2],
        [0, 200, 1, 2],
        [0, 201, 1, NONE],
        [0, 300, 1, NONE],
        [0, 251, 2, NONE],
        [0, 450, 3, 2],
        // the first pinned; nor enough then; pinned and excepted; all pinned; all excepted; none excepted
        [1, 150, NONE, 2],
        [1, 201, NONE, NONE],
        [1, 1, 2, NONE],
        [2, 1, NONE, NONE],
        [3, 1, 1, NONE],
        [3, 450, 2, 2],
        // the first; past a pinned one; and one more; all but the pinned; the pinned one stays; past four; past three
        [4, 10, NONE, 1],
        [4, 11, NONE, 3],
        [4, 41, NONE, 4],
        [4, 130, NONE, 5],
        [4, 131, NONE, NONE],
        [4, 41, 1, 5],
        [4, 40, 1, 4],
        // no bytes, no help; and none behind; 2^50 bytes; one byte more; the greatest need; no blocks
        [5, 1, NONE, 2],
        [5, 5, NONE, 2],
        [6, MOST, NONE, 2],
        [6, MOST + 1, NONE, NONE],
        [6, u64::MAX, NONE, NONE],
        [7, 1, NONE, NONE],
    ] {
        let [list, need, except, answer] = row;
        let list = lists.get(list as usize).ok_or("no such list")?;
        assert_eq!(rt; chosen(list, need, except)?, answer, "{row:?}");
    }
    Ok(())
}

// How far the victims go, as a number.
fn chosen(list: &[Candidate], need: u64, except: u64) -> Result<u64, Fail> {
    let bytes = bytes_of(list).ok_or("too many bytes")?;
    if bytes > MOST || need == 0 {
        return Err(Fail::new("more bytes than blocks have, or no need"));
    }
    match victims(list, need, u32::try_from(except).ok()) {
        Some(count) => Ok(count as u64),
        None => Ok(NONE),
    }
}

fn block(dataset: u32, size: u64) -> Candidate {
    Candidate {
        dataset,
        part: 0,
        size,
        pinned: false,
    }
}

fn pinned(dataset: u32, size: u64) -> Candidate {
    Candidate {
        pinned: true,
        ..block(dataset, size)
    }
}

// The bytes of all blocks, as far as a number can say.
fn bytes_of(list: &[Candidate]) -> Option<u64>
    ensures { IfSome result (λ bytes. bytes ≡ sizes list.now) }
{
    list.iter()
        .try_fold(0_u64, |bytes, block| bytes.checked_add(block.size))
}
