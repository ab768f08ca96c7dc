//! The folder, made or found, taken and emptied.

ghost use Rattle.std.specs.Prelude.{◌≡◌, IfOk};

use crate::fault::{SpillFault, Strange};
use crate::look::{has_others, is_numbered, is_there, named, strange};
use crate::streams::hold_closed_streams;
use std::alloc::AllocError;
use std::fs::{File, TryLockError};
use std::rt::Files;
use std::{fs, io};

// The folder, its lock, and the lock's name in it.
const FOLDER: &str = "spill";

const LOCK: &str = "spill/lock";

const LOCK_NAME: &str = "lock";

/// The folder `spill/`, which is this process' own until it is dropped.
#[derive(Drop)]
pub struct SpillFolder {
    /// How many posts have their folders in it, from `spill/post0` on.
    pub posts: usize,
    // A lock goes with its file.
    _lock: File,
    _streams: Vec<File>,
}

/// Makes the folder `spill/` of the working folder or takes the one that runs made before, holds its lock, and removes the
/// numbered files that an earlier run left: in `spill/post0` and so on, of so many posts, and in `spill/store`.
///
/// A folder is a run's where the lock of one stands in it, or where it is empty. Nothing is removed before all of it was looked
/// at: another folder, a link, and what has a run's name and is no file of a run, are refused and stay as they are. Numbers of
/// standard streams that are closed are taken first, so that no file gets one.
pub fn take_folder<R: Files<File = File> + AllocGlobal + Clone + Drop>(
    rt: &R,
    posts: usize,
) -> Result<SpillFolder, SpillFault>
    ensures posts { IfOk result (λ folder. folder.posts ≡ posts) }
{
    let streams = named(rt.alloc(), "/", hold_closed_streams(rt, rt.alloc()))?;
    make_folder(rt)?;
    let lock = take_lock(rt)?;
    let folders = folders_of(rt, posts)?;
    for folder in folders.iter() {
        look_over(rt, folder.as_str())?;
    }
    for folder in folders.iter() {
        clear(rt, folder.as_str())?;
    }
    Ok(SpillFolder {
        posts,
        _lock: lock,
        _streams: streams,
    })
}

// Makes the folder, where it isn't there.
fn make_folder<R: Files + AllocGlobal>(rt: &R) -> Result<(), SpillFault> {
    match fs::create_dir(rt, FOLDER) {
        Err(failed) if failed.kind() == io::ErrorKind::AlreadyExists => {
            is_there(rt, FOLDER, true)?;
            Ok(())
        }
        made => named(rt.alloc(), FOLDER, made),
    }
}

// The folder's lock, which no other process has then.
fn take_lock<R: Files<File = File> + AllocGlobal + Clone + Drop>(
    rt: &R,
) -> Result<File, SpillFault> {
    // Another run makes its lock before all else, so what is there before a lock is none of a run.
    let has_others = named(rt.alloc(), FOLDER, has_others(rt, FOLDER, LOCK_NAME))?;
    let is_ours = is_there(rt, LOCK, false)?;
    if has_others && !is_ours {
        return Err(strange(rt.alloc(), FOLDER, Strange::NotOurs));
    }
    let lock = open_lock(rt, is_ours)?;
    match lock.try_lock() {
        Ok(()) => Ok(lock),
        Err(TryLockError::WouldBlock) => Err(SpillFault::InUse),
        Err(TryLockError::Error(failed)) => named(rt.alloc(), LOCK, Err(failed)),
    }
}

// The lock's file; one that wasn't there is made, and not through a link.
fn open_lock<R: Files<File = File> + AllocGlobal>(
    rt: &R,
    is_ours: bool,
) -> Result<File, SpillFault> {
    if !is_ours {
        match File::create_new(rt, LOCK) {
            // Another run made it since.
            Err(failed) if failed.kind() == io::ErrorKind::AlreadyExists => {}
            made => return named(rt.alloc(), LOCK, made),
        }
        is_there(rt, LOCK, false)?;
    }
    let opened = File::options().write(true).open(rt, LOCK);
    named(rt.alloc(), LOCK, opened)
}

// The folders of so many posts, and of the copies.
fn folders_of<R: AllocGlobal>(rt: &R, posts: usize) -> Result<Vec<String>, AllocError> {
    let mut folders = Vec::new(rt.alloc());
    for place in 0..posts {
        let folder = format!(in rt.alloc(); "spill/post{place}")?;
        folders.push(folder)?;
    }
    folders.push(String::from_str(rt.alloc(), "spill/store")?)?;
    Ok(folders)
}

// Refuses a folder that is none, and one with a number that is no plain file.
fn look_over<R: Files + AllocGlobal + Clone + Drop>(
    rt: &R,
    folder: &str,
) -> Result<(), SpillFault> {
    if !is_there(rt, folder, true)? {
        return Ok(());
    }
    for entry in named(rt.alloc(), folder, fs::read_dir(rt, folder))? {
        let entry = named(rt.alloc(), folder, entry)?;
        if is_numbered(entry.file_name()) {
            is_there(rt, entry.path().as_str(), false)?;
        }
    }
    Ok(())
}

// Removes the numbered files of a folder, where it is there.
fn clear<R: Files + AllocGlobal + Clone + Drop>(rt: &R, folder: &str) -> Result<(), SpillFault> {
    let entries = match fs::read_dir(rt, folder) {
        Ok(entries) => entries,
        Err(failed) if failed.kind() == io::ErrorKind::NotFound => return Ok(()),
        Err(failed) => return named(rt.alloc(), folder, Err(failed)),
    };
    for entry in entries {
        let entry = named(rt.alloc(), folder, entry)?;
        if is_numbered(entry.file_name()) {
            let removed = fs::remove_file(rt, entry.path());
            named(rt.alloc(), entry.path().as_str(), removed)?;
        }
    }
    Ok(())
}
