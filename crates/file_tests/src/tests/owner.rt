// An owner of a disk, of which a list is a shelf.
use crate::tests::told::Told;
use spill_disk::{HasDisk, MemoryDisk};
use std::alloc::Global;

#[derive(Drop)]
pub struct Owner {
    pub own: MemoryDisk,
}

impl HasDisk<MemoryDisk> for Owner {
    ghost use Rattle.std.proofs.Common.{refl};

    ghost own = { λ owner. owner.own };

    ghost with_own = { λ owner disk. record owner { own = disk } };

    ghost own_with_own = { λ owner disk. refl };

    fn disk(&mut self) -> &mut MemoryDisk {
        &mut self.own
    }
}

/// Puts the owner of a new disk behind the others.
pub fn add_owner(alloc: Global, owners: &mut Vec<Owner>, told: &mut Told) {
    let own = MemoryDisk::new(alloc, Vec::new(alloc));
    if owners.push(Owner { own }).is_err() {
        told.lack();
    }
}
