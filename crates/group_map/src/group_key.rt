//! A key as the map looks it up.

ghost use Rattle.std.specs.Prelude.{◌≡◌, ◌≤◌, ◌++◌, [], drop, length, nat_eq, IfOk, OnOk, OnErr};
ghost use Rattle.std.specs.Cmp.{partial_equiv_from_equiv};
ghost use Rattle.std.specs.Cmp.Lexicographic.{bytes_decides, nat_list_eq_equiv, pointwise};
ghost use Rattle.std.proofs.Common.{ap};
ghost use Rattle.std.specs.Hash as fed;
ghost use Rattle.aggregate.specs.Fronts.{front_of};
ghost use Rattle.group_map.specs.Keys.{next_input, rest_input};

use aggregate::front;
use std::alloc::{AllocError, Global};
use std::borrow::CowSlice;
use std::hash::{Hash, Hasher};
use std::marker::Model;

/// A key's bytes. The first 8 are kept as one number, which is hashed and compared at once, and the next 8 as another;
/// those behind them are its own, or lent by who looks a key up. A key that has no more than 16 has no memory of its own.
#[derive(Drop)]
pub struct GroupKey<'a> {
    front: u64,
    next: u64,
    len: usize,
    rest: CowSlice<'a, u8>,
}

impl<'a> Model for GroupKey<'a> {
    ghost use Rattle.std.specs.Cow.{cow_slice_items};
    ghost use Rattle.std.specs.Prelude.{List, ℕ};
    ghost use Rattle.group_map.specs.Keys.{bytes_by, AreParts};

    ghost Value = { List ℕ };

    ghost view = { λ key. bytes_by key.front key.next key.len (cow_slice_items key.rest) };

    ghost invariant = { λ key. AreParts key.front key.next key.len (cow_slice_items key.rest) };
}

impl GroupKey<'static> {
    /// The key with a copy of these bytes.
    pub fn owned(alloc: Global, bytes: &[u8]) -> Result<GroupKey<'static>, AllocError>
        ensures { IfOk result (λ key. key ≡ bytes.now) }
    {
        let tail = behind(bytes);
        let rest = copy_behind(alloc, tail)?;
        Ok(GroupKey {
            front: front(bytes),
            next: next(tail),
            len: bytes.len(),
            rest: CowSlice::Owned(rest),
        })
    }
}

impl<'a> GroupKey<'a> {
    /// The key with these very bytes. It takes no memory.
    pub fn lent(bytes: &'a [u8]) -> GroupKey<'a>
        ensures { result ≡ bytes.now }
    {
        let tail = behind(bytes);
        GroupKey {
            front: front(bytes),
            next: next(tail),
            len: bytes.len(),
            rest: CowSlice::Borrowed(behind(tail)),
        }
    }

    /// Puts its bytes behind others.
    pub fn put(&self, into: &mut Vec<u8>) -> Result<(), AllocError>
        ensures { OnOk result (into.new.items ≡ into.old.items ++ self.now) }
    {
        let first = self.front.to_be_bytes();
        into.extend_from_slice(&first[..self.len.min(8)])?;
        let second = self.next.to_be_bytes();
        into.extend_from_slice(&second[..self.len.saturating_sub(8).min(8)])?;
        if self.len <= 16 {
            return Ok(());
        }
        into.extend_from_slice(self.rest.as_slice())
    }
}

/// The number that the next 8 bytes are: that of a key which has no more than 8 is 0, and isn't worked out.
fn next(tail: &[u8]) -> u64
    ensures { result ≡ front_of tail.now }
{
    if tail.is_empty() { 0 } else { front(tail) }
}

/// A copy of the bytes behind the first 8, which asks for no memory where there are none.
fn copy_behind(alloc: Global, bytes: &[u8]) -> Result<Vec<u8>, AllocError>
    ensures { IfOk result (λ copy. copy.items ≡ drop 8 bytes.now) }
{
    let mut copy = Vec::new(alloc);
    if bytes.len() > 8 {
        copy.extend_from_slice(behind(bytes))?;
    }
    Ok(copy)
}

/// The bytes behind the first 8.
fn behind(bytes: &[u8]) -> &[u8]
    ensures { result.now ≡ drop 8 bytes.now }
{
    &bytes[bytes.len().min(8)..]
}

impl<'a> PartialEq for GroupKey<'a> {
    ghost eq = { pointwise nat_eq };

    ghost laws = { partial_equiv_from_equiv nat_list_eq_equiv };

    fn eq(&self, other: &GroupKey<'a>) -> bool {
        self.front == other.front
            && self.len == other.len
            && self.next == other.next
            && (self.len <= 16 || self.rest.as_slice() == other.rest.as_slice())
    }
}

impl<'a> Eq for GroupKey<'a> {
    ghost laws = { nat_list_eq_equiv };
}

impl<'a> Hash for GroupKey<'a> {
    ghost hash_input = { λ key. rest_input (drop 8 (drop 8 key)) ++ next_input (drop 8 key) ++ fed.u64 (front_of key) };

    ghost respects_eq = { λ x y same.
        ap (λ key. rest_input (drop 8 (drop 8 key)) ++ next_input (drop 8 key) ++ fed.u64 (front_of key)) ((bytes_decides x y).0 same) };

    // The front comes last: of four bytes alone std's hasher makes numbers whose low bits are often the same.
    fn hash<H: Hasher>(&self, state: &mut H) {
        let rest = self.rest.as_slice();
        if !rest.is_empty() {
            state.write(rest);
        }
        if self.len > 8 {
            state.write_u64(self.next);
        }
        state.write_u64(self.front);
    }
}
