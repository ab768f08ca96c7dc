//! Several disks, one of which is lent at a time.

ghost use Rattle.std.specs.Prelude.{◌≡◌, ◌<◌, ◌^◌, ◌-◌, min, ℕ, length, Option, Some, vec_len, slice_get};
ghost use Rattle.std.specs.Borrow.{Lends, sem};

use crate::Disk;

/// Several disks. Each number below `count` names one of them, and several may name the same.
pub trait Shelf<D: Disk> {
    /// How many numbers there are.
    ghost count_of: { Self → ℕ };

    /// The disk that a number names; none from the count on.
    ghost disk_of: { Self → ℕ → Option D };

    /// The shelf with another disk in the place of the one that a number names.
    ghost with_disk: { Self → ℕ → D → Self };

    /// Which disk a number names: two numbers name one disk exactly where these are equal.
    ghost named: { Self → ℕ → ℕ };

    /// How many numbers there are.
    fn count(&self) -> u32
        ensures { result ≡ count_of self.now };

    /// Lends the disk that this number names. All other disks, the count and what each number names stay.
    fn disk(&mut self, number: u32) -> &mut D
        requires { number < count_of self.old }
        ensures* lent { sem 𝓛 (Lends Self.row D.row self.entry result (with_disk self.old number)) }
        ensures value { disk_of self.old number ≡ Some result.now };

    /// A change of a disk changes no count.
    ghost same_count: { (shelf : Self) (i : ℕ) (disk : D) →
        count_of (with_disk shelf i disk) ≡ count_of shelf };

    /// Nor what a number names.
    ghost same_names: { (shelf : Self) (i j : ℕ) (disk : D) →
        named (with_disk shelf i disk) j ≡ named shelf j };

    /// Numbers that name one disk have the same.
    ghost one_disk: { (shelf : Self) (i j : ℕ) → named shelf j ≡ named shelf i →
        disk_of shelf j ≡ disk_of shelf i };

    /// The disk that was changed is the one that is there.
    ghost changed: { (shelf : Self) (i j : ℕ) (disk : D) →
        i < count_of shelf → named shelf j ≡ named shelf i →
        disk_of (with_disk shelf i disk) j ≡ Some disk };

    /// Each other disk is as before.
    ghost others: { (shelf : Self) (i j : ℕ) (disk : D) → (named shelf j ≡ named shelf i → ⊥) →
        disk_of (with_disk shelf i disk) j ≡ disk_of shelf j };
}

/// One disk as a shelf: each number names it.
#[derive(Drop)]
pub struct One<'a, D: Disk> {
    /// The disk that it lends.
    pub disk: &'a mut D,
}

impl<'a, D: Disk> Shelf<D> for One<'a, D> {
    ghost count_of = { λ _. 2 ^ 32 - 1 };

    ghost disk_of = { λ one _. Some one.disk.now };

    ghost with_disk = { λ one _ disk. record one { disk = record one.disk { now = disk } } };

    ghost named = { λ _ _. 0 };

    ghost use Rattle.std.proofs.Common.{refl};

    ghost same_count = { λ shelf i disk. refl };

    ghost same_names = { λ shelf i j disk. refl };

    ghost one_disk = { λ shelf i j same. refl };

    ghost changed = { λ shelf i j disk within same. refl };

    ghost others = { λ shelf i j disk apart. absurd (apart refl) };

    fn count(&self) -> u32 {
        u32::MAX
    }

    fn disk(&mut self, _number: u32) -> &mut D {
        self.disk
    }
}
