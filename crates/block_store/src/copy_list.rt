//! The copies that there are.

ghost use Rattle.std.specs.Prelude.{◌≡◌, ◌==◌, ◌≤◌, ◌<◌, ◌+◌, ◌++◌, ◌∷◌, [], ℕ, Some, OnOk, OnErr, IfSome, IfNone, slice_get};
ghost use Rattle.std.specs.List.{position, remove};
ghost use Rattle.block_store.specs.Copies.{copy_at, has_copy, of_others};

use crate::block_copy::BlockCopy;
use std::alloc::{AllocError, Global};
use std::marker::Model;

/// The copies of blocks, the oldest first. Contracts see their list, and for how many more there is
/// room.
#[derive(Drop)]
pub(crate) struct CopyList {
    copies: Vec<BlockCopy>,
    room: u64,
}

impl Model for CopyList {
    ghost use Rattle.std.specs.Prelude.{◌≤◌, ◌+◌, vec_len, vec_capacity};
    ghost use Rattle.block_store.specs.Copies.{CopiesView};

    ghost Value = { CopiesView };

    ghost view = { λ it. record { list = it.copies.items; room = it.room } };

    ghost invariant = { λ it. vec_len it.copies + it.room ≤ vec_capacity it.copies };
}

impl CopyList {
    /// No copies, and room for none.
    pub(crate) fn new(alloc: Global) -> CopyList
        ensures { result ≡ record { list = []; room = 0 } }
    {
        CopyList {
            copies: Vec::new(alloc),
            room: 0,
        }
    }

    /// Whether the block has a copy.
    pub(crate) fn has(&self, dataset: u32, part: u32) -> bool
        ensures { result ≡ has_copy self.now.list dataset part }
    {
        self.copies
            .iter()
            .any(|copy| copy.dataset == dataset && copy.part == part)
    }

    /// The block's copy.
    pub(crate) fn find(&self, dataset: u32, part: u32) -> Option<BlockCopy>
        ensures { result ≡ copy_at self.now.list dataset part }
    {
        self.copies
            .iter()
            .copied()
            .find(|copy| copy.dataset == dataset && copy.part == part)
    }

    /// Makes room for `n` copies. After an `Err`, which is want of memory, all is as before.
    pub(crate) fn reserve(&mut self, n: u64) -> Result<(), AllocError>
        ensures ok { OnOk result (n ≤ self.new.room) }
        ensures keeps { self.old.room ≤ self.new.room }
        ensures same { self.new.list ≡ self.old.list }
    {
        if n > self.room {
            self.copies.reserve(n as usize)?;
            self.room = n;
        }
        Ok(())
    }

    /// Adds a copy, for which there is room.
    pub(crate) fn add(&mut self, copy: BlockCopy)
        requires { 0 < self.old.room }
        ensures list { self.new.list ≡ self.old.list ++ copy ∷ [] }
        ensures room { self.new.room + 1 ≡ self.old.room }
    {
        let _ = self.copies.push(copy);
        self.room -= 1;
    }

    /// Takes the first copy of a dataset out of the list.
    pub(crate) fn take_of(&mut self, dataset: u32) -> Option<BlockCopy>
        ensures taken { IfSome result (λ copy. (place : ℕ)
            × (slice_get self.old.list place ≡ Some copy)
            × (self.new.list ≡ remove self.old.list place)) }
        ensures of { IfSome result (λ copy. copy.dataset ≡ dataset) }
        ensures none { IfNone result (of_others dataset self.old.list ≡ self.old.list) }
        ensures same { IfNone result (self.new.list ≡ self.old.list) }
        ensures room { self.new.room ≡ self.old.room }
    {
        let Some(place) = place_of(&self.copies, dataset) else {
            return None;
        };
        Some(self.copies.remove(place))
    }
}

/// Where the first copy of a dataset stands.
fn place_of(copies: &[BlockCopy], dataset: u32) -> Option<usize>
    ensures { result ≡ position (λ copy. copy.dataset == dataset) copies.now }
{
    copies.iter().position(|copy| copy.dataset == dataset)
}
