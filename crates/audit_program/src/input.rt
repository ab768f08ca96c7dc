//! A source, read to its end.

ghost use Rattle.std.specs.Prelude.{◌≡◌, ◌≤◌, ◌++◌, length, take, IfOk, IsErrOf, OnOk};
ghost use Rattle.audit_program.specs.Calls.{ReadsAll};
ghost use Rattle.fault_count.specs.Faults.{Rose};

use byte_io::Source;
use std::alloc::{AllocError, Global};

/// Why a source wasn't read to its end.
#[derive(Clone, Copy, Debug, PartialEq, Eq)]
pub(crate) enum ReadError {
    /// A read failed.
    Failed,
    /// There is too little memory.
    NoMemory,
}

/// All the bytes that the source has left.
pub(crate) fn read_all<S: Source>(alloc: Global, input: &mut S) -> Result<Vec<u8>, ReadError>
    ensures ok { IfOk result (λ bytes. ReadsAll (S.left input.old) (S.left input.new) bytes.items) }
    ensures cause { IsErrOf result ReadError.Failed → Rose (S.faults input.old) (S.faults input.new) }
{
    let mut bytes = Vec::new(alloc);
    let mut buffer = [0; 16384];
    loop {
        let Ok(count) = input.read(&mut buffer) else {
            return Err(ReadError::Failed);
        };
        if count == 0 {
            return Ok(bytes);
        }
        if append(&mut bytes, &buffer, count).is_err() {
            return Err(ReadError::NoMemory);
        }
    }
}

// Appends the first bytes of a buffer, so many.
fn append(bytes: &mut Vec<u8>, buffer: &[u8], count: usize) -> Result<(), AllocError>
    requires { count ≤ length buffer.now }
    ensures ok { OnOk result (bytes.new.items ≡ bytes.old.items ++ take count buffer.now) }
{
    bytes.extend_from_slice(&buffer[..count])
}
