//! Calls on one of a list of consumers.

ghost use Rattle.std.specs.Prelude.{◌≡◌, ◌+◌, ◌≤◌, ◌<◌, ◌^◌, ◌↔◌, [], length, map, true, slice_set, IsTrue, IsSome, Some, OnOk, OnErr};
ghost use Rattle.aggregate.specs.Totals.{costs};
ghost use Rattle.consumer_trait.specs.States.{Rest, IsEntryBy, as_reset};
ghost use Rattle.consumer_trait.specs.Calls.{Feeds};
ghost use Rattle.consumer_trait.specs.Members.{state_at, OnlyAt};

use crate::answers::Fed;
use crate::consumer::Consumer;
use aggregate::Kind;
use std::alloc::AllocError;

/// What the consumer at a place uses, as `Consumer::used`.
pub fn used_at<C: Consumer>(members: &[C], i: usize) -> u64
    requires within { i < length members.now }
    ensures value { result ≡ (state_at (map C.state members.now) i).used }
    ensures covered { costs (state_at (map C.state members.now) i).entries ≤ result }
    ensures most { result ≤ 2 ^ 50 }
{
    members[i].used()
}

/// The least of the consumer at a place, as `Consumer::least`.
pub fn least_at<C: Consumer>(members: &[C], i: usize) -> u64
    requires within { i < length members.now }
    ensures value { result ≡ (state_at (map C.state members.now) i).least }
    ensures most { result ≤ 2 ^ 32 }
{
    members[i].least()
}

/// Whether the consumer at a place has no entry in memory, as `Consumer::is_empty`.
pub fn is_empty_at<C: Consumer>(members: &[C], i: usize) -> bool
    requires within { i < length members.now }
    ensures { IsTrue result ↔ ((state_at (map C.state members.now) i).entries ≡ []) }
{
    members[i].is_empty()
}

/// Resets the consumer at a place, as `Consumer::reset`.
pub fn reset_at<C: Consumer>(members: &mut [C], i: usize)
    requires within { i < length members.old }
    ensures { map C.state members.new
        ≡ slice_set (map C.state members.old) i (as_reset (state_at (map C.state members.old) i)) }
{
    members[i].reset();
}

/// Begins the consumer at a place, as `Consumer::begin`.
pub fn begin_at<C: Consumer>(members: &mut [C], i: usize, kind: &Kind) -> Result<(), AllocError>
    requires within { i < length members.old }
    requires serves { (state_at (map C.state members.old) i).serves kind.now ≡ true }
    requires fresh { state_at (map C.state members.old) i ≡ as_reset (state_at (map C.state members.old) i) }
    ensures ok { OnOk result (map C.state members.new ≡ slice_set (map C.state members.old) i
        (record (state_at (map C.state members.old) i) { kind = Some kind.now })) }
    ensures err { OnErr result (map C.state members.new ≡ map C.state members.old) }
{
    members[i].begin(kind)
}

/// Feeds the consumer at a place, as `Consumer::feed`.
pub fn feed_at<C: Consumer>(
    members: &mut [C],
    i: usize,
    key: &[u8],
    value: &[u8],
) -> Result<Fed, AllocError>
    requires within { i < length members.old }
    requires kind { IsSome (state_at (map C.state members.old) i).kind }
    requires rest { (state_at (map C.state members.old) i).stage ≡ Rest }
    requires entry { IsEntryBy (state_at (map C.state members.old) i).kind (record { key = key.now; value = value.now }) }
    ensures feeds { Feeds (state_at (map C.state members.old) i) (state_at (map C.state members.new) i)
        (record { key = key.now; value = value.now }) result }
    ensures others { OnlyAt (map C.state members.old) (map C.state members.new) i }
{
    members[i].feed(key, value)
}

/// Tells the consumer at a place that it was granted so many bytes, as `Consumer::granted`.
pub fn grant_at<C: Consumer>(members: &mut [C], i: usize, bytes: u64)
    requires within { i < length members.old }
    requires most { (state_at (map C.state members.old) i).used + bytes ≤ 2 ^ 50 }
    ensures { let old = state_at (map C.state members.old) i in
        map C.state members.new ≡ slice_set (map C.state members.old) i (record old { used = old.used + bytes }) }
{
    members[i].granted(bytes);
}
