// Sums that are too wide, found in runs whose entries were made by hand.
use crate::tests::{page_of_groups, put_run};
use crate::too_wide;
use aggregate::{Agg, AggList};
use run_file::RunFault;
use spill_disk::{MemoryDisk, One};
use std::alloc::Global;
use std::test::Fail;

// The key of the first of these groups that is too wide, where this call of the disk fails.
fn wide_of(
    alloc: Global,
    groups: &str,
    failing: u64,
) -> Result<Result<Option<Vec<u8>>, RunFault>, Fail> {
    let page = page_of_groups(alloc, groups)?;
    let mut disk = MemoryDisk::new(alloc, [failing].to_vec(alloc)?);
    let run = put_run(&mut disk, &page)?;
    let aggs = AggList::of(alloc, &[Agg::Count, Agg::Sum, Agg::Min, Agg::Max])?;
    let mut one = One { disk: &mut disk };
    match too_wide(alloc, &mut one, Some(&run), &aggs) {
        Ok(Some(key)) => Ok(Ok(Some(key.bytes().to_vec(alloc)?))),
        Ok(None) => Ok(Ok(None)),
        Err(fault) => Ok(Err(fault)),
    }
}

// Whether a result without a run has a group that is too wide.
fn none_is_wide(alloc: Global) -> Result<bool, Fail> {
    let mut disk = MemoryDisk::new(alloc, Vec::new(alloc));
    let aggs = AggList::of(alloc, &[Agg::Sum])?;
    Ok(too_wide(alloc, &mut One { disk: &mut disk }, None, &aggs)?.is_none())
}

// The second and the third of these pass 64 bits, one above and one below.
const WIDE: &str = "|Bonn=1 9223372036854775807 1 1/\
    |Oslo=2 9223372036854775808 1 9223372036854775807/|Rome=2 -9223372036854775809 1 1";

#[test]
fn the_first_group_that_is_too_wide_is_found(rt: HostRuntime) -> Result<(), Fail> {
    let alloc = rt.alloc();
    let fits = wide_of(alloc, "|Bonn=1 9223372036854775807 1 1", 9)?;
    assert_eq!(rt; fits, Ok(None), "all fit");
    let missing = wide_of(alloc, "|Bonn=1 - - -/|Oslo=1 1 - 1", 9)?;
    assert_eq!(rt; missing, Ok(None), "what is missing fits");
    let oslo = b"\x4f\x73\x6c\x6f\0\0".to_vec(alloc)?;
    assert_eq!(rt;
        wide_of(alloc, WIDE, 9)?,
        Ok(Some(oslo)),
        "the second of three"
    );
    let rome = b"\x52\x6f\x6d\x65\0\0".to_vec(alloc)?;
    assert_eq!(rt;
        wide_of(alloc, "|Oslo=1 - 1 1/|Rome=2 9223372036854775808 - 1", 9)?,
        Ok(Some(rome)),
        "a wide sum beside what is missing"
    );
    let fault = RunFault::DiskFault { disk: 0 };
    assert_eq!(rt; wide_of(alloc, WIDE, 2)?, Err(fault));
    assert!(rt; none_is_wide(alloc)?, "no run");
    Ok(())
}
