// Disks that fail, and files that aren't what was landed.
use crate::tests::handing::{JOB, PARTS, setup_of};
use crate::tests::landed::{land_page, page_of, plan_of};
use crate::tests::playing::{Case, play};
use run_file::{Damage, RunFault, read_page};
use spill_disk::VeilDisk;
use std::alloc::Global;
use std::marker::Brand;
use std::test::*;

// Each call of the store disk fails in turn: the copy isn't made or isn't read, and the rows are computed again.
#[test]
fn a_failing_store_disk_changes_no_rows(rt: HostRuntime) -> Result<(), Fail> {
    let steps = ["hand:1.0", "hand:2.0", "ask:400", "hand:1.0", "ask:400"];
    let wanted = " own 1,1,a 2,5,b 3,3,a own 1,1,a 3,3,a 228 own 1,1,a 2,5,b 3,3,a 174";
    let mut failed = 0;
    for call in 0..12 {
        let case = Case {
            job: JOB,
            parts: &PARTS,
            store_fails: &[call],
            fails: &[],
            steps: &steps,
        };
        let played = play::<Brand, _>(&rt, rt.alloc(), setup_of(400)?, &case)?;
        assert_eq!(rt; played.notes.as_str(), wanted, "{call}");
        if played.store_faults > 0 {
            failed = call + 1;
        }
    }
    // The calls were fewer than those that were tried, and each of them failed once.
    assert!(rt; failed >= 3, "{failed}");
    assert!(rt; failed < 12, "{failed}");
    Ok(())
}

// Two partitions take four calls. The next one reads the first partition.
#[test]
fn a_failing_disk_is_told(rt: HostRuntime) -> Result<(), Fail> {
    let case = Case {
        job: JOB,
        parts: &PARTS,
        store_fails: &[],
        fails: &[4],
        steps: &["hand:2.0", "hand:2.0"],
    };
    let played = play::<Brand, _>(&rt, rt.alloc(), setup_of(4000)?, &case)?;
    assert_eq!(rt; played.notes.as_str(), " disk own 1,1,a 3,3,a");
    assert_eq!(rt; played.entries.as_str(), " admit,1,0 admit,2,0");
    Ok(())
}

// How many of three rows are found where so many of the file's last bytes are hidden.
fn found_of(alloc: Global, hidden: u64) -> Result<Result<usize, RunFault>, Fail> {
    let mut disk = VeilDisk::new(alloc, Vec::new(alloc), vec![in alloc; (0u64, hidden)]?);
    let run = land_page(&mut disk, &page_of(alloc, 1, "1,a 5,b 3,a")?)?;
    let plan = plan_of(alloc, JOB)?;
    Ok(read_page(alloc, &mut disk, &run, plan.chain().form()).map(|page| page.rows()))
}

// Each row has 26 bytes in the file: a length, and three lengths with 8, 1 and 1 bytes.
#[test]
fn a_landed_file_is_damaged_at_the_first_row_that_is_not_whole(
    rt: HostRuntime,
) -> Result<(), Fail> {
    assert_eq!(rt; found_of(rt.alloc(), 0)?, Ok(3));
    for (hidden, found) in [(1u64, 2u64), (26, 2), (27, 1), (78, 0), (1000, 0)] {
        let damage = Damage {
            disk: 0,
            file: 0,
            kept: 3,
            found,
        };
        assert_eq!(rt;
            found_of(rt.alloc(), hidden)?,
            Err(RunFault::Damaged(damage)),
            "{hidden}"
        );
    }
    Ok(())
}
