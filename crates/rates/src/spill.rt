//! Consumers that are fed drawn entries and spilled, and runs that are read side by side.

use crate::asked::{USAGE, number_at};
use crate::feeding::feed_all;
use crate::merging::merge_drawn;
use aggregate::{Agg, AggList, Kind};
use group_map::GroupMap;
use row_sorter::RowSorter;
use std::alloc::{AllocError, Global};
use std::io;

// What entries go through.
#[derive(Clone, Copy)]
enum Way {
    Map,
    Sorter,
    /// Eight runs, which are read side by side where that is said.
    Runs { merges: bool },
}

// What the words ask for: the way, of how many keys the entries' keys are, how many entries there are, how many bytes
// the consumer is granted at most, and how many a key has, if not 8.
#[derive(Clone, Copy)]
struct Wish {
    way: Way,
    keys: u64,
    entries: u64,
    most: u64,
    key_bytes: usize,
}

// Without words a thousand entries of a hundred keys go to a map of 4,000 bytes.
fn wish_of(words: &[String]) -> Option<Wish> {
    let Some(way) = words.first() else {
        return Some(Wish {
            way: Way::Map,
            keys: 100,
            entries: 1000,
            most: 4000,
            key_bytes: 8,
        });
    };
    let way = match way.as_str() {
        "map" => Way::Map,
        "sort" => Way::Sorter,
        "runs" => Way::Runs { merges: false },
        "merge" => Way::Runs { merges: true },
        _ => return None,
    };
    let key_bytes = if words.len() > 4 {
        usize::try_from(number_at(words, 4)?).ok()?
    } else {
        8
    };
    Some(Wish {
        way,
        keys: number_at(words, 1)?,
        entries: number_at(words, 2)?,
        most: number_at(words, 3)?,
        key_bytes,
    })
}

// How many spills there were, and how many rows they wrote; or none, and how many rows the runs had.
fn work(alloc: Global, wish: Wish) -> Result<(u64, u64), AllocError> {
    let Wish {
        way,
        keys,
        entries,
        most,
        key_bytes,
    } = wish;
    match way {
        Way::Map => {
            let kind = Kind::Group(AggList::of(alloc, &[Agg::Count, Agg::Sum])?);
            let mut groups = GroupMap::new(alloc);
            feed_all(alloc, &mut groups, &kind, keys, entries, most, key_bytes)
        }
        Way::Sorter => {
            let mut sorter = RowSorter::new(alloc);
            feed_all(
                alloc,
                &mut sorter,
                &Kind::Order,
                keys,
                entries,
                most,
                key_bytes,
            )
        }
        Way::Runs { merges } => match merge_drawn(alloc, keys, entries, merges) {
            Ok(rows) => Ok((0, rows)),
            Err(_) => Err(AllocError),
        },
    }
}

/// Does what the words ask for, and prints how many spills there were and how many rows they wrote.
pub fn run(rt: &(impl Print + AllocGlobal), words: &[String]) -> io::Result<()> {
    let Some(wish) = wish_of(words) else {
        return println!(rt; "{USAGE}");
    };
    match work(rt.alloc(), wish) {
        Ok((spills, rows)) => println!(rt; "spills {spills} rows {rows}"),
        Err(_) => println!(rt; "out of memory"),
    }
}
