//! Rows of 40 bytes that are written through a folder disk and read back one by one.

use crate::asked::{USAGE, number_at};
use spill_disk::{Disk, DiskError, FolderDisk};
use std::io;
use std::rt::Files;

const ROW_BYTES: usize = 40;

// How many rows are written and read, and whether the file is taken away then.
#[derive(Clone, Copy)]
struct Wish {
    write: u64,
    read: u64,
    remove: bool,
}

// What two words ask for; without words a thousand rows go both ways and nothing is left.
fn wish_of(words: &[String]) -> Option<Wish> {
    let Some(verb) = words.first() else {
        return Some(Wish {
            write: 1000,
            read: 1000,
            remove: true,
        });
    };
    let count = number_at(words, 1)?;
    let (write, read) = match verb.as_str() {
        "write" => (count, 0),
        "read" => (0, count),
        _ => return None,
    };
    Some(Wish {
        write,
        read,
        remove: false,
    })
}

// Writes so many rows to a new file.
fn write_rows<R: Files + Drop>(disk: &mut FolderDisk<R>, rows: u64) -> Result<u64, DiskError> {
    let file = disk.create()?;
    for i in 0..rows {
        let row = [(i % 251) as u8; ROW_BYTES];
        disk.append(file, &row)?;
    }
    Ok(rows)
}

// Reads so many rows of the first file, one by one, and answers how many had their bytes.
fn read_rows<R: Files + Drop>(disk: &mut FolderDisk<R>, rows: u64) -> Result<u64, DiskError> {
    let mut row = [0u8; ROW_BYTES];
    let mut right = 0u64;
    let mut place = 0u64;
    for i in 0..rows {
        let count = disk.read_at(0, place, &mut row)?;
        if count == ROW_BYTES && row[0] == (i % 251) as u8 && row[39] == (i % 251) as u8 {
            right = right.saturating_add(1);
        }
        place = place.saturating_add(40);
    }
    Ok(right)
}

// Does what is asked, and answers how many rows were written and read.
fn work<R: Files + Drop>(disk: &mut FolderDisk<R>, wish: &Wish) -> Result<(u64, u64), DiskError> {
    let mut written = 0;
    if wish.write > 0 {
        written = write_rows(disk, wish.write)?;
    }
    let read = read_rows(disk, wish.read)?;
    if wish.remove {
        disk.remove(0)?;
    }
    Ok((written, read))
}

/// Does what the words ask for, and prints how many rows were written and read.
pub fn run<R: Files + Print + AllocGlobal + Clone + Drop>(
    rt: &R,
    words: &[String],
) -> io::Result<()> {
    let Some(wish) = wish_of(words) else {
        return println!(rt; "{USAGE}");
    };
    let folder = String::from_str(rt.alloc(), "rate")?;
    let mut disk = FolderDisk::new(rt.clone()?, rt.alloc(), folder);
    match work(&mut disk, &wish) {
        Ok((written, read)) => println!(rt; "written {written}, read {read}"),
        Err(_) => println!(rt; "a disk failed"),
    }
}
