//! Bytes with room behind them.

ghost use Rattle.std.specs.Prelude.{◌≡◌, ◌+◌, ◌<◌, ◌≤◌, ◌^◌, ◌++◌, ◌∷◌, [], length, take, OnErr, OnOk};
ghost use Rattle.row_page.specs.Spelling.{length_bytes, row_bytes, row_length, with_length};

use crate::piece::LENGTH_BYTES;
use std::alloc::{AllocError, Global};
use std::marker::Model;

/// The least room that is made.
const LEAST_ROOM: usize = 64;

/// Bytes that grow at their end. The room behind them is bytes too, so that what comes next is stored there: a vector
/// that is appended to would look for room and set its length for each part. Contracts see the bytes.
#[derive(Debug, Drop)]
pub(crate) struct ByteBuf {
    bytes: Vec<u8>,
    used: usize,
}

impl Model for ByteBuf {
    ghost use Rattle.std.specs.Prelude.{◌≤◌, List, ℕ, length, take};

    ghost Value = { List ℕ };

    ghost view = { λ buf. take buf.used buf.bytes.items };

    ghost invariant = { λ buf. buf.used ≤ length buf.bytes.items };
}

impl ByteBuf {
    /// No bytes.
    pub(crate) fn new(alloc: Global) -> ByteBuf
        ensures { result ≡ [] }
    {
        ByteBuf {
            bytes: Vec::new(alloc),
            used: 0,
        }
    }

    /// These bytes, without room behind them.
    pub(crate) fn of(bytes: Vec<u8>) -> ByteBuf
        ensures { result ≡ bytes.items }
    {
        let used = bytes.len();
        ByteBuf { bytes, used }
    }

    /// How many bytes there are.
    #[inline(always)]
    pub(crate) fn len(&self) -> usize
        ensures { result ≡ length self.now }
    {
        self.used
    }

    /// The bytes.
    #[inline(always)]
    pub(crate) fn as_slice(&self) -> &[u8]
        ensures { result.now ≡ self.now }
    {
        &self.bytes[..self.used]
    }

    /// Takes all bytes away, and keeps their memory as room.
    pub(crate) fn clear(&mut self)
        ensures { self.new ≡ [] }
    {
        self.used = 0;
    }

    /// Puts a piece behind its length at the end. After an `Err` nothing changed.
    #[inline(always)]
    pub(crate) fn append_piece(&mut self, piece: &[u8]) -> Result<(), AllocError>
        requires { length piece.now < 2 ^ 32 }
        ensures ok { OnOk result (self.new ≡ self.old ++ with_length piece.now) }
        ensures err { OnErr result (self.new ≡ self.old) }
    {
        let size = LENGTH_BYTES + piece.len();
        if self.bytes.len() - self.used < size {
            make_room(&mut self.bytes, self.used, size)?;
        }
        put_piece(&mut self.bytes, self.used, piece);
        self.used += size;
        Ok(())
    }

    /// Puts the row of two fields behind its length at the end. After an `Err` nothing changed.
    #[inline(always)]
    pub(crate) fn append_pair(&mut self, first: &[u8], second: &[u8]) -> Result<(), AllocError>
        requires { row_length (first.now ∷ second.now ∷ []) < 2 ^ 32 }
        ensures ok { OnOk result (self.new ≡ self.old ++ with_length (row_bytes (first.now ∷ second.now ∷ []))) }
        ensures err { OnErr result (self.new ≡ self.old) }
    {
        let size = 3 * LENGTH_BYTES + first.len() + second.len();
        if self.bytes.len() - self.used < size {
            make_room(&mut self.bytes, self.used, size)?;
        }
        put_pair(&mut self.bytes, self.used, first, second);
        self.used += size;
        Ok(())
    }
}

/// Makes room for so many bytes behind the first `used`, which stay.
#[cold]
#[inline(never)]
fn make_room(bytes: &mut Vec<u8>, used: usize, size: usize) -> Result<(), AllocError>
    requires { used ≤ length bytes.old.items }
    ensures room { OnOk result (used + size ≤ length bytes.new.items) }
    ensures there { used ≤ length bytes.new.items }
    ensures kept { take used bytes.new.items ≡ take used bytes.old.items }
{
    let Some(least) = used.checked_add(size) else {
        return Err(AllocError);
    };
    let twice = bytes.len().saturating_mul(2);
    bytes.resize(least.max(twice).max(LEAST_ROOM), 0)
}

/// Puts the row of two fields behind its length at a place.
#[inline(always)]
fn put_pair(bytes: &mut [u8], at: usize, first: &[u8], second: &[u8])
    requires short { row_length (first.now ∷ second.now ∷ []) < 2 ^ 32 }
    requires room { at + (4 + row_length (first.now ∷ second.now ∷ [])) ≤ length bytes.old }
    ensures put { take (at + (4 + row_length (first.now ∷ second.now ∷ []))) bytes.new
        ≡ take at bytes.old ++ with_length (row_bytes (first.now ∷ second.now ∷ [])) }
    ensures length { length bytes.new ≡ length bytes.old }
{
    let front = LENGTH_BYTES + first.len();
    let behind = at + LENGTH_BYTES;
    put_length(bytes, at, front + (LENGTH_BYTES + second.len()));
    put_piece(bytes, behind, first);
    put_piece(bytes, behind + front, second);
}

/// Puts a piece behind its length at a place.
#[inline(always)]
fn put_piece(bytes: &mut [u8], at: usize, piece: &[u8])
    requires short { length piece.now < 2 ^ 32 }
    requires room { at + (4 + length piece.now) ≤ length bytes.old }
    ensures put { take (at + (4 + length piece.now)) bytes.new ≡ take at bytes.old ++ with_length piece.now }
    ensures length { length bytes.new ≡ length bytes.old }
{
    put_length(bytes, at, piece.len());
    put(bytes, at + LENGTH_BYTES, piece);
}

/// Puts a length as its bytes at a place.
#[inline(always)]
fn put_length(bytes: &mut [u8], at: usize, size: usize)
    requires short { size < 2 ^ 32 }
    requires room { at + 4 ≤ length bytes.old }
    ensures put { take (at + 4) bytes.new ≡ take at bytes.old ++ length_bytes size }
    ensures length { length bytes.new ≡ length bytes.old }
{
    put(bytes, at, &spelled_length(size));
}

/// A length as its bytes.
#[inline(always)]
#[tactic(auto, unfolding(crate::specs::Spelling::length_bytes))]
fn spelled_length(length: usize) -> [u8; LENGTH_BYTES]
    requires { length < 2 ^ 32 }
    ensures { result ≡ length_bytes length }
{
    (length as u32).to_be_bytes()
}

/// Puts bytes at a place.
#[inline(always)]
fn put(bytes: &mut [u8], at: usize, piece: &[u8])
    requires { at + length piece.now ≤ length bytes.old }
    ensures put { take (at + length piece.now) bytes.new ≡ take at bytes.old ++ piece.now }
    ensures length { length bytes.new ≡ length bytes.old }
{
    bytes[at..at + piece.len()].copy_from_slice(piece);
}
