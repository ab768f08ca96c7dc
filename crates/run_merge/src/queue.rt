//! Places that wait, one behind the other.

ghost use Rattle.std.specs.Prelude.{◌≡◌, ◌<◌, ◌≤◌, ◌+◌, ◌↔◌, [], ℕ, drop, length, slice_index_or, IsTrue, OnOk, OnErr};
ghost use Rattle.std.specs.List.{insert};

use std::alloc::{AllocError, Global};
use std::marker::Model;

/// Places, one behind the other. They leave at the front, and the room of one that left serves the next
/// that is put in: those before it move, and none where it is put to the front.
#[derive(Debug, Drop)]
pub(crate) struct Queue {
    places: Vec<usize>,
    // how many stand in front that have left
    gone: usize,
}

impl Model for Queue {
    ghost use Rattle.std.specs.Prelude.{◌≤◌, List, ℕ, drop, length};

    ghost Value = { List ℕ };

    ghost view = { λ queue. drop queue.gone queue.places.items };

    ghost invariant = { λ queue. queue.gone ≤ length queue.places.items };
}

impl Queue {
    /// No place.
    pub(crate) fn new(alloc: Global) -> Queue
        ensures { result ≡ [] }
    {
        Queue {
            places: Vec::new(alloc),
            gone: 0,
        }
    }

    /// Whether there is none.
    #[inline(always)]
    pub(crate) fn is_empty(&self) -> bool
        ensures { IsTrue result ↔ (length self.now ≡ 0) }
    {
        self.gone == self.places.len()
    }

    /// The places.
    #[inline(always)]
    pub(crate) fn places(&self) -> &[usize]
        ensures { result.now ≡ self.now }
    {
        &self.places[self.gone..]
    }

    /// The first of them.
    #[inline(always)]
    pub(crate) fn first(&self) -> usize
        requires { 0 < length self.now }
        ensures { result ≡ slice_index_or self.now 0 result }
    {
        self.places[self.gone]
    }

    /// The first of them, which leaves.
    #[inline(always)]
    pub(crate) fn leave(&mut self) -> usize
        requires { 0 < length self.old }
        ensures value { result ≡ slice_index_or self.old 0 result }
        ensures rest { self.new ≡ drop 1 self.old }
    {
        let first = self.places[self.gone];
        self.gone += 1;
        first
    }

    /// Puts a place behind the first `at`. After an `Err` nothing changed.
    #[inline(always)]
    pub(crate) fn put(&mut self, at: usize, place: usize) -> Result<(), AllocError>
        requires { at ≤ length self.old }
        ensures ok { OnOk result (self.new ≡ insert self.old at place) }
        ensures err { OnErr result (self.new ≡ self.old) }
    {
        if self.gone == 0 {
            self.places.insert(at, place)?;
            return Ok(());
        }
        let to = self.gone - 1;
        move_down(&mut self.places, to, at);
        self.places[to + at] = place;
        self.gone = to;
        Ok(())
    }
}

/// Moves so many places down by one, to `to` and behind it.
#[inline(always)]
fn move_down(places: &mut [usize], to: usize, count: usize)
    requires { to + count < length places.old }
    ensures length { length places.new ≡ length places.old }
    ensures moved { (k d : ℕ) → to ≤ k → k < to + count →
        slice_index_or places.new k d ≡ slice_index_or places.old (k + 1) d }
    ensures behind { (k d : ℕ) → to + count ≤ k →
        slice_index_or places.new k d ≡ slice_index_or places.old k d }
{
    for i in to..to + count {
        places[i] = places[i + 1];
    }
}
