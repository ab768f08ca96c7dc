// Disks in memory, those that hide the ends of files, and shelves.
use crate::tests::calls::make_calls;
use crate::tests::owner::add_owner;
use crate::tests::scripts::plays;
use crate::tests::told::Told;
use crate::tests::words::{number_of, parted};
use spill_disk::{Disk, MemoryDisk, One, Shelf, VeilDisk};
use std::alloc::Global;
use std::test::Fail;

/// A disk in memory of which this call fails.
pub fn play_memory(alloc: Global, failing: &str, rest: &str, told: &mut Told) {
    let (calls, _) = parted(rest, '|');
    let Ok(fails) = vec![in alloc; number_of(failing)] else {
        return told.lack();
    };
    let mut disk = MemoryDisk::new(alloc, fails);
    make_calls(&mut disk, None, calls, told);
    told.put("|");
    told.put_count("files", disk.created());
    told.put_count("faults", disk.faults());
}

/// A disk of which this call fails, and which hides one byte of the first file and nine of the second. The file that was
/// made last is at first one that isn't there.
pub fn play_veil(alloc: Global, failing: &str, rest: &str, told: &mut Told) {
    let (calls, _) = parted(rest, '|');
    let Ok(fails) = vec![in alloc; number_of(failing)] else {
        return told.lack();
    };
    let Ok(short) = vec![in alloc; (0, 1), (1, 9), (0, 3)] else {
        return told.lack();
    };
    let mut disk = VeilDisk::new(alloc, fails, short);
    make_calls(&mut disk, Some(0), calls, told);
    told.put("|");
    told.put_count("files", disk.created());
    told.put_count("faults", disk.faults());
}

/// Two owners' disks, on the second of which a file is made, or one disk, on which one is made too.
pub fn play_shelf(alloc: Global, told: &mut Told) {
    let mut owners = Vec::new(alloc);
    add_owner(alloc, &mut owners, told);
    add_owner(alloc, &mut owners, told);
    if Shelf::count(&owners) == 2 {
        let _ = Shelf::disk(&mut owners, 1).create();
        told.put_count("first", Shelf::disk(&mut owners, 0).created());
        told.put_count("second", Shelf::disk(&mut owners, 1).created());
    }
    let mut disk = MemoryDisk::new(alloc, Vec::new(alloc));
    let mut one = One { disk: &mut disk };
    let _ = Shelf::disk(&mut one, 5).create();
    told.put_count("one", disk.created());
}

// A file that is gone reads as empty, one that never was is removed without a fault, and a number isn't given out again.
// A call that fails does so alone, and an append that fails added a part from the front.
const MEMORY: &str = "\
a file is read and removed|memory never| create=0 append:abc=ok read:0:1:5=2:bc... remove:0=ok \
read:0:0:5=0:..... remove:7=ok| files=1 faults=0
a number comes once|memory never| create=0 append:abc=ok read:0:1:5=2:bc... remove:0=ok read:0:0:5=0:..... \
remove:7=ok create=1| files=2 faults=0
a part is added|memory 1| create=0 append:abc=failed append:d=ok read:0:0:8=2:ad......| files=1 faults=1
none fails|memory never| create=0 append:abcd=ok read:0:0:8=4:abcd.... remove:0=ok \
read:0:0:8=0:........| files=1 faults=0
the first fails|memory 0| create=failed| files=0 faults=1
the second fails|memory 1| create=0 append:abcd=failed read:0:0:8=2:ab...... remove:0=ok \
read:0:0:8=0:........| files=1 faults=1
the third fails|memory 2| create=0 append:abcd=ok read:0:0:8=failed remove:0=ok read:0:0:8=0:........| files=1 faults=1
the fourth fails|memory 3| create=0 append:abcd=ok read:0:0:8=4:abcd.... remove:0=failed \
read:0:0:8=4:abcd....| files=1 faults=1";

#[test]
fn a_disk_in_memory_answers_as_its_scripts_say(rt: HostRuntime) -> Result<(), Fail> {
    plays(&rt, rt.alloc(), MEMORY)
}

// An append to a file that isn't there fails. The second one is told to fail as well, and counts once.
const VEILS: &str = "\
the ends of the files that it was told|veil never| create=0 append:abcd=ok read:0:0:8=3:abc..... \
read:0:3:8=0:........ create=1 append:abcd=ok read:1:0:8=0:........ create=2 append:abcd=ok \
read:2:1:8=3:bcd..... remove:2=ok read:2:0:8=0:........ remove:9=ok create=3| files=4 faults=0
the first fails|veil 0| create=failed create=0| files=1 faults=1
the second fails|veil 1| create=0 append:abcd=failed read:0:0:8=1:a....... remove:0=ok| files=1 faults=1
the third fails|veil 2| create=0 append:abcd=ok read:0:0:8=failed read:0:0:8=3:abc.....| files=1 faults=1
the fourth fails|veil 3| create=0 append:abcd=ok read:0:0:8=3:abc..... remove:0=failed \
read:0:0:8=3:abc.....| files=1 faults=1
no file is there|veil 1| append:a=failed append:a=failed create=0 append:ab=ok \
read:0:0:8=1:a.......| files=1 faults=2";

#[test]
fn a_veil_hides_the_ends_of_files_and_fails_as_its_scripts_say(
    rt: HostRuntime,
) -> Result<(), Fail> {
    plays(&rt, rt.alloc(), VEILS)
}

#[test]
fn a_shelf_lends_the_disk_of_a_number(rt: HostRuntime) -> Result<(), Fail> {
    plays(&rt, rt.alloc(), "two and one|shelf| first=0 second=1 one=1")
}
