// Journals that were worked by hand, each with a slash for each line feed and without its first word: one of every
// event, and for each row of the table of rules one that breaks it alone, or breaks it first.
use crate::tests::told_journals::tell;
use std::test::Fail;

const WORKED: &str = "\
every event: 600,300,2/admit,0,1,0,150,disk,0,0/admit,0,2,0,150,memory,0,0/begin,0,7/attempt,0,7,350,0,0,300/release,0,7,300/admit,0,3,0,100,disk,100,0/evict,0,1,0,150,disk/attempt,0,7,300,150,1,300/pin,1,2,0,resident/unpin,1,2,0/pin,1,1,0,copy/refused,1,4,0,151,0,0/remove,0,3,0,100/end,0,7,300/ -> yes 14
no entry: 600,300,2/ -> yes 0
a worker past the last one: 600,300,2/admit,0,1,0,150,disk,0,0/admit,0,2,0,150,memory,0,0/begin,2,7/ -> no 3 worker
worker before pending: 600,300,2/admit,0,1,0,150,disk,0,0/admit,0,2,0,150,memory,0,0/begin,0,7/attempt,0,7,350,0,0,300/release,0,7,300/admit,0,3,0,100,disk,100,0/evict,0,1,0,150,disk/begin,2,8/ -> no 8 worker
another event while evictions wait: 600,300,2/admit,0,1,0,150,disk,0,0/admit,0,2,0,150,memory,0,0/begin,0,7/attempt,0,7,350,0,0,300/release,0,7,300/admit,0,3,0,100,disk,100,0/evict,0,1,0,150,disk/release,0,7,0/ -> no 8 pending
another worker while evictions wait: 600,300,2/admit,0,1,0,150,disk,0,0/admit,0,2,0,150,memory,0,0/begin,0,7/attempt,0,7,350,0,0,300/release,0,7,300/admit,0,3,0,100,disk,100,0/evict,0,1,0,150,disk/attempt,1,7,300,150,1,300/ -> no 8 pending
evictions of two workers: 600,300,2/admit,0,1,0,150,disk,0,0/admit,0,2,0,150,memory,0,0/begin,0,7/attempt,0,7,350,0,0,300/release,0,7,300/admit,0,3,0,100,disk,100,0/evict,0,1,0,150,disk/evict,1,2,0,150,gone/ -> no 8 pending
evictions left over: 600,300,2/admit,0,1,0,150,disk,0,0/admit,0,2,0,150,memory,0,0/begin,0,7/attempt,0,7,350,0,0,300/release,0,7,300/admit,0,3,0,100,disk,100,0/evict,0,1,0,150,disk/ -> no 8 pending
a task begun twice: 600,300,2/admit,0,1,0,150,disk,0,0/admit,0,2,0,150,memory,0,0/begin,0,7/end,0,7,0/begin,0,7/ -> no 5 task
a worker with a task: 600,300,2/admit,0,1,0,150,disk,0,0/admit,0,2,0,150,memory,0,0/begin,0,7/begin,0,8/ -> no 4 task
an ask for another task: 600,300,2/admit,0,1,0,150,disk,0,0/admit,0,2,0,150,memory,0,0/begin,0,7/attempt,0,8,350,0,0,300/ -> no 4 task
a release of another task: 600,300,2/admit,0,1,0,150,disk,0,0/admit,0,2,0,150,memory,0,0/begin,0,7/attempt,0,7,350,0,0,300/release,0,8,300/ -> no 5 task
the end of a task that isn't open: 600,300,2/admit,0,1,0,150,disk,0,0/admit,0,2,0,150,memory,0,0/begin,0,7/attempt,0,7,350,0,0,300/end,1,7,300/ -> no 5 task
an ask for nothing: 600,300,2/admit,0,1,0,150,disk,0,0/admit,0,2,0,150,memory,0,0/begin,0,7/attempt,0,7,0,0,0,0/ -> no 4 asked
an ask past 2^50: 600,300,2/admit,0,1,0,150,disk,0,0/admit,0,2,0,150,memory,0,0/begin,0,7/attempt,0,7,1125899906842625,0,0,300/ -> no 4 asked
an eviction of a block that isn't there: 600,300,2/admit,0,1,0,150,disk,0,0/admit,0,2,0,150,memory,0,0/begin,0,7/attempt,0,7,350,0,0,300/release,0,7,300/admit,0,3,0,100,disk,100,0/evict,0,1,1,150,disk/ -> no 7 block
an eviction of another size: 600,300,2/admit,0,1,0,150,disk,0,0/admit,0,2,0,150,memory,0,0/begin,0,7/attempt,0,7,350,0,0,300/release,0,7,300/admit,0,3,0,100,disk,100,0/evict,0,1,0,149,disk/ -> no 7 block
an eviction of a pinned block: 600,300,2/admit,0,1,0,150,disk,0,0/admit,0,2,0,150,memory,0,0/begin,0,7/attempt,0,7,350,0,0,300/release,0,7,300/admit,0,3,0,100,disk,100,0/pin,1,1,0,resident/evict,0,1,0,150,disk/ -> no 8 block
a block of level memory that leaves a copy: 600,300,2/admit,0,1,0,150,disk,0,0/admit,0,2,0,150,memory,0,0/begin,0,7/attempt,0,7,350,0,0,300/release,0,7,300/admit,0,3,0,100,disk,100,0/evict,0,2,0,150,disk/ -> no 7 block
a block of level memory without memory for a copy: 600,300,2/admit,0,1,0,150,disk,0,0/admit,0,2,0,150,memory,0,0/begin,0,7/attempt,0,7,350,0,0,300/release,0,7,300/admit,0,3,0,100,disk,100,0/evict,0,2,0,150,nomem/ -> no 7 block
a block evicted twice: 600,300,2/admit,0,1,0,150,disk,0,0/admit,0,2,0,150,memory,0,0/begin,0,7/attempt,0,7,350,0,0,300/release,0,7,300/admit,0,3,0,100,disk,100,0/evict,0,1,0,150,disk/evict,0,1,0,150,disk/ -> no 8 block
a removal of another size: 600,300,2/admit,0,1,0,150,disk,0,0/admit,0,2,0,150,memory,0,0/begin,0,7/attempt,0,7,350,0,0,300/release,0,7,300/admit,0,3,0,100,disk,100,0/evict,0,1,0,150,disk/attempt,0,7,300,150,1,300/pin,1,2,0,resident/unpin,1,2,0/pin,1,1,0,copy/refused,1,4,0,151,0,0/remove,0,3,0,101/ -> no 13 block
a removal of a pinned block: 600,300,2/admit,0,1,0,150,disk,0,0/admit,0,2,0,150,memory,0,0/begin,0,7/attempt,0,7,350,0,0,300/release,0,7,300/admit,0,3,0,100,disk,100,0/evict,0,1,0,150,disk/attempt,0,7,300,150,1,300/pin,1,2,0,resident/unpin,1,2,0/pin,1,1,0,copy/refused,1,4,0,151,0,0/pin,1,3,0,resident/remove,0,3,0,100/ -> no 14 block
an admission of a block that is there: 600,300,2/admit,0,1,0,150,disk,0,0/admit,0,2,0,150,memory,0,0/admit,0,1,0,150,disk,0,0/ -> no 3 block
a refusal of a block that is there: 600,300,2/admit,0,1,0,150,disk,0,0/admit,0,2,0,150,memory,0,0/refused,0,1,0,151,0,0/ -> no 3 block
a pin of a block that isn't there: 600,300,2/admit,0,1,0,150,disk,0,0/admit,0,2,0,150,memory,0,0/pin,1,3,0,resident/ -> no 3 block
a copy of a block that is there: 600,300,2/admit,0,1,0,150,disk,0,0/admit,0,2,0,150,memory,0,0/pin,1,2,0,copy/ -> no 3 block
a copy that no eviction left: 600,300,2/admit,0,1,0,150,disk,0,0/admit,0,2,0,150,memory,0,0/begin,0,7/attempt,0,7,350,0,0,300/release,0,7,300/admit,0,3,0,100,disk,100,0/evict,0,1,0,150,disk/attempt,0,7,300,150,1,300/pin,1,2,0,resident/unpin,1,2,0/pin,1,4,0,copy/ -> no 11 block
a second pin: 600,300,2/admit,0,1,0,150,disk,0,0/admit,0,2,0,150,memory,0,0/begin,0,7/attempt,0,7,350,0,0,300/release,0,7,300/admit,0,3,0,100,disk,100,0/evict,0,1,0,150,disk/attempt,0,7,300,150,1,300/pin,1,2,0,resident/pin,1,3,0,resident/ -> no 10 pin
a copy beside a pin: 600,300,2/admit,0,1,0,150,disk,0,0/admit,0,2,0,150,memory,0,0/begin,0,7/attempt,0,7,350,0,0,300/release,0,7,300/admit,0,3,0,100,disk,100,0/evict,0,1,0,150,disk/attempt,0,7,300,150,1,300/pin,1,2,0,resident/pin,1,1,0,copy/ -> no 10 pin
an unpin of another block: 600,300,2/admit,0,1,0,150,disk,0,0/admit,0,2,0,150,memory,0,0/begin,0,7/attempt,0,7,350,0,0,300/release,0,7,300/admit,0,3,0,100,disk,100,0/evict,0,1,0,150,disk/attempt,0,7,300,150,1,300/pin,1,2,0,resident/unpin,1,3,0/ -> no 10 pin
an unpin without a pin: 600,300,2/admit,0,1,0,150,disk,0,0/admit,0,2,0,150,memory,0,0/begin,0,7/attempt,0,7,350,0,0,300/release,0,7,300/admit,0,3,0,100,disk,100,0/evict,0,1,0,150,disk/attempt,0,7,300,150,1,300/pin,1,2,0,resident/unpin,1,2,0/unpin,1,2,0/ -> no 11 pin
a victim that isn't the least recently used: 600,300,2/admit,0,1,0,150,disk,0,0/admit,0,2,0,150,memory,0,0/begin,0,7/attempt,0,7,350,0,0,300/release,0,7,300/admit,0,3,0,100,disk,100,0/evict,0,2,0,150,gone/attempt,0,7,300,150,1,300/ -> no 8 victims
a victim too many: 600,300,2/admit,0,1,0,150,disk,0,0/admit,0,2,0,150,memory,0,0/begin,0,7/attempt,0,7,350,0,0,300/release,0,7,300/admit,0,3,0,100,disk,100,0/evict,0,1,0,150,disk/evict,0,2,0,150,gone/attempt,0,7,300,150,1,300/ -> no 9 victims
a victim too few: 600,300,2/admit,0,1,0,150,disk,0,0/admit,0,2,0,150,memory,0,0/begin,0,7/attempt,0,7,350,0,0,300/release,0,7,300/admit,0,3,0,100,disk,100,0/attempt,0,7,300,150,1,300/ -> no 7 victims
another number of victims: 600,300,2/admit,0,1,0,150,disk,0,0/admit,0,2,0,150,memory,0,0/begin,0,7/attempt,0,7,350,0,0,300/release,0,7,300/admit,0,3,0,100,disk,100,0/evict,0,1,0,150,disk/attempt,0,7,300,150,2,300/ -> no 8 victims
a block that goes and comes back: 600,300,2/admit,0,1,0,150,disk,0,0/admit,0,2,0,150,memory,0,0/begin,0,7/attempt,0,7,350,0,0,300/release,0,7,300/admit,0,3,0,100,disk,100,0/evict,0,1,0,150,disk/admit,0,1,0,150,disk,0,0/ -> no 8 victims
a byte more that moves: 600,300,2/admit,0,1,0,150,disk,0,0/admit,0,2,0,150,memory,0,0/begin,0,7/attempt,0,7,350,0,0,300/release,0,7,300/admit,0,3,0,100,disk,100,0/evict,0,1,0,150,disk/attempt,0,7,300,151,1,300/ -> no 8 growth
a grant one byte past the share: 600,300,2/admit,0,1,0,150,disk,0,0/admit,0,2,0,150,memory,0,0/begin,0,7/attempt,0,7,350,0,0,301/ -> no 4 share
a grant one byte short: 600,300,2/admit,0,1,0,150,disk,0,0/admit,0,2,0,150,memory,0,0/begin,0,7/attempt,0,7,350,0,0,300/release,0,7,300/admit,0,3,0,100,disk,100,0/evict,0,1,0,150,disk/attempt,0,7,300,150,1,299/ -> no 8 share
a wait where there is a grant: 600,300,2/admit,0,1,0,150,disk,0,0/admit,0,2,0,150,memory,0,0/begin,0,7/attempt,0,7,350,0,0,wait/ -> no 4 share
a wait: 600,300,2/admit,0,1,0,150,disk,0,0/admit,0,2,0,150,memory,0,0/begin,0,7/attempt,0,7,350,0,0,300/begin,1,8/attempt,1,8,10,0,0,wait/ -> yes 6
a wait written as 0: 600,300,2/admit,0,1,0,150,disk,0,0/admit,0,2,0,150,memory,0,0/begin,0,7/attempt,0,7,350,0,0,300/begin,1,8/attempt,1,8,10,0,0,0/ -> no 6 share
a byte more that is borrowed: 600,300,2/admit,0,1,0,150,disk,0,0/admit,0,2,0,150,memory,0,0/begin,0,7/attempt,0,7,350,0,0,300/release,0,7,300/admit,0,3,0,100,disk,101,0/ -> no 6 store
an admission of what has to be refused: 600,300,2/admit,0,1,0,150,disk,0,0/admit,0,2,0,150,memory,0,0/begin,0,7/attempt,0,7,350,0,0,300/release,0,7,300/admit,0,3,0,100,disk,100,0/evict,0,1,0,150,disk/attempt,0,7,300,150,1,300/pin,1,2,0,resident/unpin,1,2,0/pin,1,1,0,copy/admit,1,4,0,151,disk,0,0/ -> no 12 store
a refusal of what is admitted: 600,300,2/admit,0,1,0,150,disk,0,0/admit,0,2,0,150,memory,0,0/begin,0,7/attempt,0,7,350,0,0,300/release,0,7,300/refused,0,3,0,100,100,0/ -> no 6 store
a release of more than is held: 600,300,2/admit,0,1,0,150,disk,0,0/admit,0,2,0,150,memory,0,0/begin,0,7/attempt,0,7,350,0,0,300/release,0,7,301/ -> no 5 freed
an end that leaves a byte: 600,300,2/admit,0,1,0,150,disk,0,0/admit,0,2,0,150,memory,0,0/begin,0,7/attempt,0,7,350,0,0,300/end,0,7,299/ -> no 5 freed
an end that frees a byte more: 600,300,2/admit,0,1,0,150,disk,0,0/admit,0,2,0,150,memory,0,0/begin,0,7/attempt,0,7,350,0,0,300/end,0,7,301/ -> no 5 freed
all that storage has free moves: 600,300,1/begin,0,0/attempt,0,0,500,200,0,500/attempt,0,0,200,100,0,100/ -> yes 3
a byte more than all that is left: 600,300,1/begin,0,0/attempt,0,0,500,200,0,500/attempt,0,0,200,100,0,101/ -> no 3 share
a line without its task: 600,300,1/begin,0/attempt,0,0,500,200,0,500/attempt,0,0,200,100,0,100/ -> bad line 2
a refusal that only pins cause: 600,600,2/admit,0,1,0,300,memory,0,0/admit,0,2,0,300,memory,0,0/pin,0,1,0,resident/pin,1,2,0,resident/refused,0,3,0,300,0,0/ -> yes 5
a block that two pins keep: 600,600,2/admit,0,1,0,300,memory,0,0/admit,0,2,0,300,memory,0,0/pin,0,1,0,resident/pin,1,1,0,resident/evict,0,2,0,300,gone/admit,0,3,0,300,memory,0,1/ -> yes 6
a pin of the same dataset: 600,600,2/admit,0,1,0,300,memory,0,0/admit,0,2,0,300,memory,0,0/pin,0,1,0,resident/evict,0,2,0,300,gone/admit,0,1,1,300,memory,0,1/ -> yes 5
a bad line behind a broken rule: 600,300,2/admit,0,1,0,150,disk,0,0/admit,0,2,0,150,memory,0,0/begin,0,7/begin,0,8/begin,0/ -> bad line 6";

#[test]
fn each_rule_is_told_by_its_name(rt: HostRuntime) -> Result<(), Fail> {
    for case in WORKED.lines() {
        let (about, row) = case.split_once(": ").ok_or("a case without a name")?;
        let (text, wanted) = row.split_once(" -> ").ok_or("a case without an answer")?;
        let told = tell(rt.alloc(), text)?;
        assert_eq!(rt; told.as_slice(), wanted.as_bytes(), "{about}");
    }
    Ok(())
}
