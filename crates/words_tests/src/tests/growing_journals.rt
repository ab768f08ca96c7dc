// Journals of pools that grow, and of both versions, each with a slash for each line feed and without its first two
// words.
use crate::tests::told_journals::{text_behind, told_of};
use std::test::Fail;

const GROWING: &str = "\
a task that waited is granted what the pool grew by: 2,600,300,2/begin,0,0/attempt,0,0,500,200,0,500/begin,1,1/attempt,1,1,200,100,0,wait/grow,0,400/attempt,1,1,200,0,0,200/ -> yes 6
a growth by another worker than the first: 2,600,300,2/begin,0,0/attempt,0,0,500,200,0,500/begin,1,1/attempt,1,1,200,100,0,wait/grow,1,400/attempt,1,1,200,0,0,200/ -> no 5 grow
a growth in the first version: 1,600,300,2/begin,0,0/attempt,0,0,500,200,0,500/begin,1,1/attempt,1,1,200,100,0,wait/grow,0,400/attempt,1,1,200,0,0,200/ -> bad line 6
no growth in the first version: 1,600,300,2/begin,0,0/attempt,0,0,500,200,0,500/begin,1,1/attempt,1,1,200,100,0,wait/ -> yes 4
no growth in the second: 2,600,300,2/begin,0,0/attempt,0,0,500,200,0,500/begin,1,1/attempt,1,1,200,100,0,wait/ -> yes 4
a growth that no entry tells: 2,600,300,2/begin,0,0/attempt,0,0,500,200,0,500/begin,1,1/attempt,1,1,200,100,0,wait/attempt,1,1,200,0,0,200/ -> no 5 share
a growth that is too small for the grant: 2,600,300,2/begin,0,0/attempt,0,0,500,200,0,500/begin,1,1/attempt,1,1,200,100,0,wait/grow,0,99/attempt,1,1,200,0,0,200/ -> no 6 share
a growth in two entries: 2,600,300,2/begin,0,0/attempt,0,0,500,200,0,500/begin,1,1/attempt,1,1,200,100,0,wait/grow,0,50/grow,0,50/attempt,1,1,200,0,0,200/ -> yes 7
a third version: 3,600,300,2/ -> bad line 1
a bad line of the first version behind a broken rule: 1,600,300,2/begin,0,0/begin,0,1/grow,0,400/ -> bad line 4
a growth by nothing: 2,600,300,2/grow,0,0/ -> no 1 grow
the least growth: 2,600,300,2/grow,0,1/ -> yes 1
the greatest growth: 2,600,300,2/grow,0,68719476736/ -> yes 1
a byte more than the greatest growth: 2,600,300,2/grow,0,68719476737/ -> no 1 grow
the greatest number: 2,600,300,2/grow,0,18446744073709551615/ -> no 1 grow
a number too many: 2,600,300,2/grow,0,18446744073709551616/ -> bad line 2
to 2^41 bytes: 2,1099511627776,0,1/grow,0,68719476736/grow,0,68719476736/grow,0,68719476736/grow,0,68719476736/grow,0,68719476736/grow,0,68719476736/grow,0,68719476736/grow,0,68719476736/grow,0,68719476736/grow,0,68719476736/grow,0,68719476736/grow,0,68719476736/grow,0,68719476736/grow,0,68719476736/grow,0,68719476736/grow,0,68719476736/ -> yes 16
past 2^41 bytes by one: 2,1099511627776,0,1/grow,0,68719476736/grow,0,68719476736/grow,0,68719476736/grow,0,68719476736/grow,0,68719476736/grow,0,68719476736/grow,0,68719476736/grow,0,68719476736/grow,0,68719476736/grow,0,68719476736/grow,0,68719476736/grow,0,68719476736/grow,0,68719476736/grow,0,68719476736/grow,0,68719476736/grow,0,68719476736/grow,0,1/ -> no 17 grow
to 2^41 bytes by a small growth: 2,1099511627776,0,1/grow,0,68719476736/grow,0,68719476736/grow,0,68719476736/grow,0,68719476736/grow,0,68719476736/grow,0,68719476736/grow,0,68719476736/grow,0,68719476736/grow,0,68719476736/grow,0,68719476736/grow,0,68719476736/grow,0,68719476736/grow,0,68719476736/grow,0,68719476736/grow,0,68719476736/grow,0,68719476735/grow,0,1/ -> yes 17
past 2^41 bytes by two: 2,1099511627776,0,1/grow,0,68719476736/grow,0,68719476736/grow,0,68719476736/grow,0,68719476736/grow,0,68719476736/grow,0,68719476736/grow,0,68719476736/grow,0,68719476736/grow,0,68719476736/grow,0,68719476736/grow,0,68719476736/grow,0,68719476736/grow,0,68719476736/grow,0,68719476736/grow,0,68719476736/grow,0,68719476735/grow,0,2/ -> no 17 grow
a growth while evictions wait: 2,600,300,2/admit,0,1,0,150,disk,0,0/admit,0,2,0,150,memory,0,0/begin,0,7/attempt,0,7,350,0,0,300/release,0,7,300/admit,0,3,0,100,disk,100,0/evict,0,1,0,150,disk/grow,0,400/ -> no 8 pending
a bad growth while evictions wait: 2,600,300,2/admit,0,1,0,150,disk,0,0/admit,0,2,0,150,memory,0,0/begin,0,7/attempt,0,7,350,0,0,300/release,0,7,300/admit,0,3,0,100,disk,100,0/evict,0,1,0,150,disk/grow,1,0/ -> no 8 pending
a growth by a worker past the last one: 2,600,300,2/grow,2,400/ -> no 1 worker
a growth amid a task: 2,600,300,2/begin,0,0/attempt,0,0,300,0,0,300/grow,0,50/attempt,0,0,50,0,0,50/end,0,0,350/ -> yes 5
a block beside a pool that grew: 2,600,300,1/begin,0,0/attempt,0,0,600,300,0,600/grow,0,100/admit,0,1,0,100,memory,100,0/ -> yes 4
a block that finds no room in a pool that did not grow: 2,600,300,1/begin,0,0/attempt,0,0,600,300,0,600/admit,0,1,0,100,memory,100,0/ -> no 3 store";

#[test]
fn a_growth_is_told_by_its_rule_and_read_by_its_version(rt: HostRuntime) -> Result<(), Fail> {
    for case in GROWING.lines() {
        let (about, row) = case.split_once(": ").ok_or("a case without a name")?;
        let (row, wanted) = row.split_once(" -> ").ok_or("a case without an answer")?;
        let text = text_behind(rt.alloc(), b"memory journal ", row)?;
        let told = told_of(rt.alloc(), text)?;
        assert_eq!(rt; told.as_slice(), wanted.as_bytes(), "{about}");
    }
    Ok(())
}
