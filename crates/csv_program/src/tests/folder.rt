// The disks in the folder `spill/`.
use crate::spill::prepare;
use spill_disk::Disk;
use std::fs;
use std::fs::File;
use std::rt::Files;
use std::test::*;

// Makes a file of one byte on a disk.
fn put_file<D: Disk>(disk: &mut D) -> bool {
    match disk.create() {
        Ok(file) => disk.append(file, b"x").is_ok() && disk.read_at(file, 0, &mut [0]).is_ok(),
        Err(_) => false,
    }
}

// Makes two files on a disk.
fn put_files<D: Disk>(disk: &mut D) -> bool {
    put_file(disk) && put_file(disk)
}

// Makes two files on the disk of each post and of the store, in the folder of a run.
fn put_all<R: Files<File = File> + AllocGlobal + Clone + Drop>(rt: &R) -> Result<bool, Fail> {
    let (mut posts, mut store, _folder) = prepare(rt)?;
    let mut all = put_files(&mut store);
    for place in 0..posts.len() {
        all = put_files(&mut posts[place].disk) && all;
    }
    Ok(all)
}

// A file that is there already can't be made, and each disk calls its first one 0.
#[test]
fn each_post_has_a_folder_that_a_run_finds_empty(rt: HostRuntime) -> Result<(), Fail> {
    let _ = fs::remove_dir_all(&rt, "spill");
    assert!(rt; put_all(&rt)?, "a folder of several disks");
    assert!(rt; put_all(&rt)?, "a folder that wasn't emptied");
    Ok(())
}
