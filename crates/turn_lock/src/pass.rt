use crate::view::View;
use atomic_table::Badge;
use std::marker::{Model, PhantomData};

// Numbers stay below it, so that each is an entry's worker.
pub(crate) const LIMIT: u64 = 1 << 32;

/// A worker's right to take the turn of one lock. A contract sees its numbers, and the history that
/// it has seen.
///
/// Whoever has it may add entries of its number, and of no other. One that is dropped takes its
/// numbers with it: the lock can then be dropped, and not closed.
pub struct Pass<B> {
    pub(crate) number: u32,
    // The lowest number that it may give away, or LIMIT.
    pub(crate) spare: u64,
    pub(crate) badge: Badge<View>,
    pub(crate) basis: PhantomData<B>,
}

impl<B> Model for Pass<B> {
    ghost use Rattle.turn_lock.specs.Passes.{WorkerView};
    ghost use Rattle.turn_lock.specs.Views.{state_of, view_of, IsAtRest};

    ghost Value = { WorkerView };

    ghost view = { λ pass. state_of pass.badge.table_id (view_of pass.badge.views) };

    ghost invariant = { λ pass.
        IsAtRest pass.number pass.spare pass.badge.table_id pass.badge.views };
}

impl<B> Pass<B> {
    ghost use Rattle.std.specs.Prelude.{◌≡◌, ◌^◌, ◌≤◌, [], ◌∷◌};
    ghost use Rattle.turn_lock.specs.Views.{view_at};

    /// The worker that its entries are by. The first pass of a lock has 0.
    pub fn number(&self) -> u32
        ensures { result ≡ self.now.number }
    {
        self.number
    }

    pub(crate) fn into_parts(self) -> (u64, Badge<View>)
        ensures spare { (result.0 ≡ self.spare) × (result.0 ≤ 2 ^ 32) }
        ensures badge { (result.1.table_id ≡ self.lock) × (result.1.views ≡ view_at self ∷ []) }
    {
        let Pass {
            number: _,
            spare,
            badge,
            basis: _,
        } = self;
        (spare, badge)
    }
}

impl<B> Drop for Pass<B> {
    fn drop(self) {
        let Self {
            number: _,
            spare: _,
            badge: _,
            basis: _,
        } = self;
    }
}
