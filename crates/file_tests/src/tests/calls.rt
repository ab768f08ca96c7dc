// Calls of a disk as words of text.
ghost use Rattle.std.specs.Prelude.{◌≡◌, IfSome};
ghost use Rattle.spill_disk.specs.Files.{IsThere};

use crate::tests::told::Told;
use crate::tests::words::{number_of, parted};
use spill_disk::{Disk, DiskError};

/// Tells what the disk answers to these calls, each with its answer behind a `=`. They are `create`, `append:TEXT` to the
/// file that was made last, `read:FILE:PLACE:ROOM` into so many bytes, and `remove:FILE`. `made` is the file that was made
/// last before.
pub fn make_calls<D: Disk>(disk: &mut D, made: Option<u64>, calls: &str, told: &mut Told)
    requires { IfSome made (IsThere (D.files disk.old)) }
{
    let mut made = made;
    for word in calls.split_whitespace() {
        make_call(disk, &mut made, word, told);
    }
}

fn make_call<D: Disk>(disk: &mut D, made: &mut Option<u64>, word: &str, told: &mut Told)
    requires { IfSome made.old (IsThere (D.files disk.old)) }
    ensures { IfSome made.new (IsThere (D.files disk.new)) }
{
    let (call, _) = parted(word, '=');
    told.begin(call);
    let (kind, rest) = parted(call, ':');
    match kind {
        "create" => create(disk, made, told),
        "append" => append(disk, *made, rest, told),
        "read" => read(disk, rest, told),
        "remove" => {
            *made = None;
            put_done(disk.remove(number_of(rest)), told);
        }
        _ => told.put("?"),
    }
}

fn create<D: Disk>(disk: &mut D, made: &mut Option<u64>, told: &mut Told)
    requires { IfSome made.old (IsThere (D.files disk.old)) }
    ensures { IfSome made.new (IsThere (D.files disk.new)) }
{
    match disk.create() {
        Ok(file) => {
            *made = Some(file);
            told.put_number(file);
        }
        Err(error) => put_fault(error, told),
    }
}

fn append<D: Disk>(disk: &mut D, made: Option<u64>, text: &str, told: &mut Told)
    requires { IfSome made (IsThere (D.files disk.old)) }
    ensures { IfSome made (IsThere (D.files disk.new)) }
{
    if let Some(file) = made {
        put_done(disk.append(file, text.as_bytes()), told);
    }
}

// How many bytes were read, and all that the buffer then has, with a dot for each byte of 0.
fn read<D: Disk>(disk: &mut D, numbers: &str, told: &mut Told)
    ensures { D.files disk.new ≡ D.files disk.old }
{
    let (file, rest) = parted(numbers, ':');
    let (place, room) = parted(rest, ':');
    let mut bytes = [0u8; 64];
    let room = number_of(room).min(64) as usize;
    match disk.read_at(number_of(file), number_of(place), &mut bytes[..room]) {
        Ok(count) => {
            told.put_number(count as u64);
            told.put(":");
            told.put_letters(&bytes[..room]);
        }
        Err(error) => put_fault(error, told),
    }
}

fn put_done(answer: Result<(), DiskError>, told: &mut Told) {
    match answer {
        Ok(()) => told.put("ok"),
        Err(error) => put_fault(error, told),
    }
}

/// Tells of a call only where it failed.
pub fn put_failed(answer: Result<(), DiskError>, told: &mut Told) {
    if let Err(error) = answer {
        put_fault(error, told);
    }
}

// Want of memory is no answer.
fn put_fault(error: DiskError, told: &mut Told) {
    match error {
        DiskError::Failed => told.put("failed"),
        DiskError::NoMemory => told.lack(),
    }
}
