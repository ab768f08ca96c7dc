//! A disk in a folder, which tells nothing.

ghost use Rattle.std.specs.Prelude.{◌≡◌, ◌≢◌, ◌<◌, ◌≤◌, ◌+◌, ◌-◌, ◌^◌, ℕ, [], None, Some, nat_eq, length, Err, IfOk, IsOk, IsSome, OnOk, OnErr};
ghost use Rattle.indexmap.specs.IndexMap.{get, spare, Updates};
ghost use Rattle.fault_count.specs.Faults.{CountsAt, HasCauseAt};
ghost use Rattle.spill_disk.specs.Ahead.{Covers};
ghost use Rattle.spill_disk.specs.Folder.{folder_faults, folder_next, open_of, collected_of, collected_in, collected_with, IsNew, HoldsOthers, FillsFront, GivesAgain, IsAhead, IsOpenAt, StaysOpen};

use crate::opened::Opened;
use crate::places::{PLACES, place_of};
use crate::{Disk, DiskError};
use indexmap::IndexMap;
use std::alloc::{AllocError, Global};
use std::fs;
use std::fs::File;
use std::io::{ErrorKind, Read, Seek, Write};
use std::rt::Files;

/// How many files are kept open between calls.
const OPEN_FILES: usize = 32;

/// A disk whose files lie in a folder under their numbers. It makes the folder at the first `create`,
/// and removes nothing that it did not make. It keeps some files open, collects small appends and
/// reads ahead; what is collected is on a file before it is read and before the disk is dropped.
///
/// No contract sees the bytes of a file. What one sees is what the disk has in memory: which files
/// are open, what is collected for each, and what was read ahead.
#[derive(Drop)]
pub struct FolderDisk<R: Files + Drop> {
    rt: R,
    alloc: Global,
    folder: String,
    is_made: bool,
    next: u64,
    kept: IndexMap<u64, Opened<R::File>>,
    places: [u8; PLACES],
    faults: u64,
}

impl<R: Files + Drop> FolderDisk<R> {
    /// A disk in this folder, which has no file of a number's name. Nothing is made yet.
    pub fn new(rt: R, alloc: Global, folder: String) -> FolderDisk<R>
        ensures next { folder_next result ≡ 0 }
        ensures faults { folder_faults result ≡ 0 }
        ensures closed { (file : ℕ) → open_of result file ≡ None }
    {
        FolderDisk {
            rt,
            alloc,
            folder,
            is_made: false,
            next: 0,
            kept: IndexMap::new(alloc),
            places: [0; PLACES],
            faults: 0,
        }
    }
}

impl<R: Files + Drop> Disk for FolderDisk<R> {
    ghost files = { λ _. None };

    ghost faults = { folder_faults };

    ghost next_number = { folder_next };

    fn create(&mut self) -> Result<u64, DiskError>
        ensures fresh { IfOk result (λ file. folder_next self.old ≤ file) }
        ensures given { IfOk result (λ file. file < folder_next self.new) }
        ensures later { folder_next self.old ≤ folder_next self.new }
        ensures cause { HasCauseAt DiskError.Failed (folder_faults self.old) (folder_faults self.new) result }
        ensures counted { CountsAt DiskError.Failed (folder_faults self.old) (folder_faults self.new) result }

        // At the last `u64` it fails.
        ensures last { folder_next self.old ≡ 2 ^ 64 - 1 → result ≡ Err DiskError.Failed }

        // The file is open, with nothing collected. Another one may be closed for it.
        ensures opened { IfOk result (λ file. IsNew (open_of self.new file)) }
        ensures others { (other : ℕ) → other ≢ folder_next self.old
            → StaysOpen (open_of self.old other) (open_of self.new other) }
    {
        if self.next == u64::MAX {
            return counted(&mut self.faults, Err(DiskError::Failed));
        }
        let number = self.next;
        let made = make_file(
            &self.rt,
            self.alloc,
            self.folder.as_str(),
            &mut self.is_made,
            &mut self.kept,
            number,
        );
        if made.is_ok() {
            self.next = number + 1;
        }
        counted(&mut self.faults, made)
    }

    fn append(&mut self, file: u64, bytes: &[u8]) -> Result<(), DiskError>
        ensures same { folder_next self.new ≡ folder_next self.old }
        ensures cause { HasCauseAt DiskError.Failed (folder_faults self.old) (folder_faults self.new) result }
        ensures counted { CountsAt DiskError.Failed (folder_faults self.old) (folder_faults self.new) result }

        // Short ones are collected. Another file may be closed.
        ensures collected { OnOk result
            (collected_of self.new file ≡ collected_with (collected_of self.old file) bytes.now) }
        ensures others { (other : ℕ) → other ≢ file
            → StaysOpen (open_of self.old other) (open_of self.new other) }

        // What is only collected can't fail.
        ensures still { IsSome (open_of self.old file)
            → length (collected_of self.old file) + length bytes.now < 65536
            → result ≢ Err DiskError.Failed }
    {
        let added = append_to(
            &self.rt,
            self.alloc,
            self.folder.as_str(),
            &mut self.kept,
            file,
            bytes,
        );
        counted(&mut self.faults, added)
    }

    #[inline(always)]
    fn read_at(&mut self, file: u64, place: u64, buf: &mut [u8]) -> Result<usize, DiskError>
        ensures bound { IfOk result (λ count. count ≤ length buf.old) }
        ensures numbers { folder_next self.new ≡ folder_next self.old }
        ensures cause { HasCauseAt DiskError.Failed (folder_faults self.old) (folder_faults self.new) result }
        ensures counted { CountsAt DiskError.Failed (folder_faults self.old) (folder_faults self.new) result }

        // What was collected is written first. A short read is given from what is ahead, which is read
        // anew only where it hasn't all that is wanted. Another file may be closed.
        ensures collected { OnOk result (collected_of self.new file ≡ []) }
        ensures given { length buf.old < 65536
            → IfOk result (FillsFront (open_of self.new file) place buf.old buf.new) }
        ensures again { OnOk result
            (GivesAgain (open_of self.old file) (open_of self.new file) place (length buf.old)) }
        ensures others { (other : ℕ) → other ≢ file
            → StaysOpen (open_of self.old other) (open_of self.new other) }

        // What is all ahead, with nothing collected, is read without the file.
        ensures still { collected_of self.old file ≡ []
            → IsAhead (open_of self.old file) place (length buf.old) → length buf.old < 65536
            → IsOk result }
    {
        let read = read_in(
            &self.rt,
            self.alloc,
            self.folder.as_str(),
            &mut self.kept,
            &mut self.places,
            file,
            place,
            buf,
        );
        counted(&mut self.faults, read)
    }

    fn remove(&mut self, file: u64) -> Result<(), DiskError>
        ensures same { folder_next self.new ≡ folder_next self.old }
        ensures cause { HasCauseAt DiskError.Failed (folder_faults self.old) (folder_faults self.new) result }
        ensures counted { CountsAt DiskError.Failed (folder_faults self.old) (folder_faults self.new) result }

        // The file is closed, and what is collected for it is forgotten. After an `Err` nothing is.
        ensures closed { file < folder_next self.old → OnOk result (open_of self.new file ≡ None) }
        ensures kept { OnErr result (open_of self.new file ≡ open_of self.old file) }
        ensures others { (other : ℕ) → other ≢ file
            → open_of self.new other ≡ open_of self.old other }

        // A number that wasn't given out is no fault.
        ensures unmade { folder_next self.old ≤ file → IsOk result }
    {
        if file >= self.next {
            return Ok(());
        }
        let removed = remove_file(
            &self.rt,
            self.alloc,
            self.folder.as_str(),
            &mut self.kept,
            file,
        );
        counted(&mut self.faults, removed)
    }
}

/// The answer, with a count for each that failed.
#[inline(always)]
fn counted<T>(faults: &mut u64, answer: Result<T, DiskError>) -> Result<T, DiskError>
    ensures same { result ≡ answer }
    ensures cause { HasCauseAt DiskError.Failed faults.old faults.new result }
    ensures counted { CountsAt DiskError.Failed faults.old faults.new result }
{
    if let Err(DiskError::Failed) = &answer {
        *faults = faults.saturating_add(1);
    }
    answer
}

/// The path of a file.
fn path_of(alloc: Global, folder: &str, number: u64) -> Result<String, AllocError> {
    format!(in alloc; "{folder}/{number}")
}

/// Makes the folder; one that is there already serves.
fn make_folder<R: Files>(rt: &R, folder: &str) -> Result<(), DiskError> {
    match fs::create_dir(rt, folder) {
        Err(error) if error.kind() != ErrorKind::AlreadyExists => Err(DiskError::Failed),
        _ => Ok(()),
    }
}

/// Makes an empty file, and the folder before the first.
fn make_file<R: Files + Drop>(
    rt: &R,
    alloc: Global,
    folder: &str,
    is_made: &mut bool,
    kept: &mut IndexMap<u64, Opened<R::File>>,
    number: u64,
) -> Result<u64, DiskError>
    ensures number { IfOk result (λ made. made ≡ number) }
    ensures opened { OnOk result (IsNew (get nat_eq kept.new number)) }
    ensures others { HoldsOthers kept.old kept.new number }
{
    if !*is_made {
        make_folder(rt, folder)?;
        *is_made = true;
    }
    let opened = open_file(rt, alloc, folder, true, kept, number)?;
    keep_open(kept, number, opened);
    Ok(number)
}

/// Opens a file that isn't open, or makes it. Where as many are open as may be, the one that was opened
/// first is closed.
#[cold]
#[inline(never)]
fn open_file<R: Files + Drop>(
    rt: &R,
    alloc: Global,
    folder: &str,
    is_new: bool,
    kept: &mut IndexMap<u64, Opened<R::File>>,
    number: u64,
) -> Result<Opened<R::File>, DiskError>
    ensures opened { IfOk result (λ opened. IsNew (Some opened)) }
    ensures room { OnOk result (0 < spare kept.new) }
    ensures others { HoldsOthers kept.old kept.new number }
{
    let path = path_of(alloc, folder, number)?;
    make_room(kept)?;
    let file = File::options()
        .read(true)
        .write(true)
        .create_new(is_new)
        .open(rt, path.as_str())?;
    Ok(Opened::new(alloc, file))
}

/// Makes room for one more open file: closes the one that was opened first, where as many are open as
/// may be.
fn make_room<F: Read + Write + Seek + Drop>(
    kept: &mut IndexMap<u64, Opened<F>>,
) -> Result<(), DiskError>
    ensures room { OnOk result (0 < spare kept.new) }
    ensures all { (file : ℕ) → StaysOpen (get nat_eq kept.old file) (get nat_eq kept.new file) }
{
    kept.reserve(1)?;
    if kept.len() >= OPEN_FILES {
        if let Some((_, mut oldest)) = kept.shift_remove_index(0) {
            oldest.flush()?;
        }
    }
    Ok(())
}

/// Keeps an open file.
fn keep_open<F: Read + Write + Seek + Drop>(
    kept: &mut IndexMap<u64, Opened<F>>,
    number: u64,
    opened: Opened<F>,
)
    requires room { 0 < spare kept.old }
    ensures { Updates nat_eq kept.old kept.new number (Some opened) }
{
    let _ = kept.insert(number, opened);
}

/// Adds bytes at the end of a file, which is opened where it isn't.
fn append_to<R: Files + Drop>(
    rt: &R,
    alloc: Global,
    folder: &str,
    kept: &mut IndexMap<u64, Opened<R::File>>,
    number: u64,
    bytes: &[u8],
) -> Result<(), DiskError>
    ensures collected { OnOk result
        (collected_in kept.new number ≡ collected_with (collected_in kept.old number) bytes.now) }
    ensures others { HoldsOthers kept.old kept.new number }
    ensures still { IsSome (get nat_eq kept.old number)
        → length (collected_in kept.old number) + length bytes.now < 65536
        → result ≢ Err DiskError.Failed }
{
    if let Some(opened) = kept.get_mut(&number) {
        return opened.append(bytes);
    }
    let mut opened = open_file(rt, alloc, folder, false, kept, number)?;
    let added = opened.append(bytes);
    keep_open(kept, number, opened);
    added
}

/// Reads from a file, which is opened where it isn't.
#[inline(always)]
fn read_in<R: Files + Drop>(
    rt: &R,
    alloc: Global,
    folder: &str,
    kept: &mut IndexMap<u64, Opened<R::File>>,
    places: &mut [u8; PLACES],
    number: u64,
    place: u64,
    buf: &mut [u8],
) -> Result<usize, DiskError>
    ensures bound { IfOk result (λ count. count ≤ length buf.old) }
    ensures collected { OnOk result (collected_in kept.new number ≡ []) }
    ensures given { length buf.old < 65536
        → IfOk result (FillsFront (get nat_eq kept.new number) place buf.old buf.new) }
    ensures again { OnOk result
        (GivesAgain (get nat_eq kept.old number) (get nat_eq kept.new number) place (length buf.old)) }
    ensures others { HoldsOthers kept.old kept.new number }
    ensures still { collected_in kept.old number ≡ []
        → IsAhead (get nat_eq kept.old number) place (length buf.old) → length buf.old < 65536
        → IsOk result }
{
    if let Some(at) = place_of(kept, places, number) {
        return read_open(kept, at, number, place, buf);
    }
    let mut opened = open_file(rt, alloc, folder, false, kept, number)?;
    let read = opened.read_at(place, buf);
    keep_open(kept, number, opened);
    read
}

/// Reads from a file that stands there among the open ones.
#[inline(always)]
fn read_open<F: Read + Write + Seek + Drop>(
    kept: &mut IndexMap<u64, Opened<F>>,
    at: usize,
    number: u64,
    place: u64,
    buf: &mut [u8],
) -> Result<usize, DiskError>
    requires open { IsOpenAt kept.old number at }
    ensures bound { IfOk result (λ count. count ≤ length buf.old) }
    ensures collected { OnOk result (collected_in kept.new number ≡ []) }
    ensures given { length buf.old < 65536
        → IfOk result (FillsFront (get nat_eq kept.new number) place buf.old buf.new) }
    ensures again { OnOk result
        (GivesAgain (get nat_eq kept.old number) (get nat_eq kept.new number) place (length buf.old)) }
    ensures others { HoldsOthers kept.old kept.new number }
    ensures still { collected_in kept.old number ≡ []
        → IsAhead (get nat_eq kept.old number) place (length buf.old) → length buf.old < 65536
        → IsOk result }
{
    let Some(opened) = kept.get_index_mut(at) else {
        unreachable!()
    };
    opened.read_at(place, buf)
}

/// Takes a file away; one that isn't there is no fault.
fn remove_file<R: Files + Drop>(
    rt: &R,
    alloc: Global,
    folder: &str,
    kept: &mut IndexMap<u64, Opened<R::File>>,
    number: u64,
) -> Result<(), DiskError>
    ensures ok { OnOk result (get nat_eq kept.new number ≡ None) }
    ensures err { OnErr result (get nat_eq kept.new number ≡ get nat_eq kept.old number) }
    ensures others { (other : ℕ) → other ≢ number
        → get nat_eq kept.new other ≡ get nat_eq kept.old other }
{
    let path = path_of(alloc, folder, number)?;
    match fs::remove_file(rt, path.as_str()) {
        Err(error) if error.kind() != ErrorKind::NotFound => return Err(DiskError::Failed),
        _ => {}
    }
    if let Some(mut file) = kept.shift_remove(&number) {
        file.forget();
    }
    Ok(())
}
