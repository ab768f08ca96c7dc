// Worked choices: the numbers of each row were computed by hand from the rule.
use crate::choose;
use std::test::*;

// Who is chosen where nobody is.
const NOBODY: u64 = 9;

#[test]
fn the_least_use_that_is_enough_else_the_greatest(rt: HostRuntime) {
    // what four consumers use, which of them are candidates, the remainder, and who is chosen
    for row in [
        // equal uses; none is enough; just enough; a byte short
        [100, 300, 300, 700, 1111, 250, 2],
        [100, 300, 300, 700, 1111, 800, 3],
        [100, 300, 300, 700, 1111, 700, 3],
        [100, 300, 300, 700, 1111, 701, 3],
        // the least that is; the only one; the smallest; all are enough
        [100, 300, 300, 700, 1111, 300, 2],
        [100, 300, 300, 700, 1111, 301, 3],
        [100, 300, 300, 700, 1111, 100, 0],
        [100, 300, 300, 700, 1111, 1, 0],
        // 2 can't; 3 can't; one can; nobody can
        [100, 300, 300, 700, 1101, 250, 1],
        [100, 300, 300, 700, 1110, 800, 2],
        [100, 300, 300, 700, 1000, 800, 0],
        [100, 300, 300, 700, 0, 250, NOBODY],
        // the asker is last; the greatest of small ones; nothing in memory; nothing, two can
        [0, 300, 200, 0, 1111, 50, 2],
        [0, 40, 30, 0, 1111, 50, 1],
        [0, 0, 0, 0, 1111, 50, 3],
        [0, 0, 0, 0, 1100, 50, 1],
        // all equal and enough; all equal and short; in falling order; the most
        [5, 5, 5, 5, 1111, 5, 3],
        [5, 5, 5, 5, 1111, 6, 3],
        [700, 300, 300, 100, 1111, 250, 2],
        [u64::MAX, 1, u64::MAX, 2, 1111, u64::MAX, 2],
    ] {
        let [first, second, third, fourth, able, remainder, answer] = row;
        let candidates = [
            able / 1000 == 1,
            able / 100 % 10 == 1,
            able / 10 % 10 == 1,
            able % 10 == 1,
        ];
        let found = choose(&[first, second, third, fourth], &candidates, remainder);
        assert_eq!(rt; number_of(found), answer, "{row:?}");
    }
}

#[test]
fn nobody_is_chosen_of_nobody(rt: HostRuntime) {
    assert_eq!(rt; choose(&[], &[], 10), None);
}

fn number_of(found: Option<usize>) -> u64 {
    match found {
        Some(place) => place as u64,
        None => NOBODY,
    }
}
