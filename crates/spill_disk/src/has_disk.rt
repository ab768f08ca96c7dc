//! Owners of disks, of which a list is a shelf.

ghost use Rattle.std.specs.Prelude.{◌≡◌, ◌<◌, ◌^◌, ◌-◌, min, ℕ, Option, Some, vec_len, slice_get};
ghost use Rattle.std.specs.Borrow.{Lends, sem};
ghost use Rattle.spill_disk.specs.Shelves.{disk_at, with_disk_at};

use crate::{Disk, Shelf};

/// What owns a disk and lends it.
pub trait HasDisk<D: Disk> {
    /// Its disk.
    ghost own: { Self → D };

    /// It with another disk.
    ghost with_own: { Self → D → Self };

    /// Lends its disk.
    fn disk(&mut self) -> &mut D
        ensures* lent { sem 𝓛 (Lends Self.row D.row self.entry result (with_own self.old)) }
        ensures value { result.now ≡ own self.old };

    /// The disk that was put in is its disk.
    ghost own_with_own: { (owner : Self) (disk : D) → own (with_own owner disk) ≡ disk };
}

/// A list of owners is a shelf: the number is the place. It counts at most `u32::MAX`.
impl<D: Disk, P: HasDisk<D>> Shelf<D> for Vec<P> {
    ghost count_of = { λ owners. min (vec_len owners) (2 ^ 32 - 1) };

    ghost disk_of = { disk_at P.own };

    ghost with_disk = { with_disk_at P.with_own };

    ghost named = { λ _ i. i };

    fn count(&self) -> u32 {
        self.len().min(u32::MAX as usize) as u32
    }

    fn disk(&mut self, number: u32) -> &mut D {
        let owner = &mut self[number as usize];
        owner.disk()
    }

    ghost use Rattle.std.proofs.Common.{refl, ap};
    ghost use Rattle.spill_disk.specs.Shelves.{same_len, disk_changed, disk_others};

    ghost same_count = { λ owners i disk. same_len P.with_own owners i disk };

    ghost same_names = { λ owners i j disk. refl };

    ghost one_disk = { λ owners i j same. ap (disk_at P.own owners) same };

    ghost changed = { λ owners i j disk within same.
        disk_changed P.own P.with_own P.own_with_own owners i j disk within same };

    ghost others = { λ owners i j disk apart. disk_others P.own P.with_own owners i j disk apart };
}
