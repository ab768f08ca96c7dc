//! Where the open files of a folder disk stand among each other.

ghost use Rattle.std.specs.Prelude.{◌≡◌, None, nat_eq, IfNone, IfSome};
ghost use Rattle.indexmap.specs.IndexMap.{get};
ghost use Rattle.spill_disk.specs.Folder.{IsOpenAt};

use crate::opened::Opened;
use indexmap::IndexMap;
use std::io::{Read, Seek, Write};

/// How many places among the open files are remembered: one for all numbers that are the same modulo this.
pub const PLACES: usize = 64;

/// Where a file stands among the open ones. It is looked for first at the place that is remembered for its
/// number, which takes no hash.
#[inline(always)]
pub fn place_of<F: Read + Write + Seek + Drop>(
    kept: &IndexMap<u64, Opened<F>>,
    places: &mut [u8; PLACES],
    number: u64,
) -> Option<usize>
    ensures found { IfSome result (IsOpenAt kept.now number) }
    ensures none { IfNone result (get nat_eq kept.now number ≡ None) }
{
    let spot = (number % PLACES as u64) as usize;
    let last = places[spot] as usize;
    if let Some((key, _)) = kept.get_index(last) {
        if *key == number {
            return Some(last);
        }
    }
    let (at, _, _) = kept.get_full(&number)?;
    places[spot] = at.min(255) as u8;
    Some(at)
}
