//! Files by number on a disk, and shelves of disks.
#![tactic(auto)]

mod disk;
mod folder_disk;
mod has_disk;
mod memory_disk;
mod opened;
mod places;
mod shelf;
mod slots;
mod veil_disk;

pub use disk::{Disk, DiskError};
pub use folder_disk::FolderDisk;
pub use has_disk::HasDisk;
pub use memory_disk::MemoryDisk;
pub use shelf::{One, Shelf};
pub use veil_disk::VeilDisk;
