//! One value a key.

ghost use Rattle.std.specs.Prelude.{◌≡◌, ◌≤◌, ◌<◌, ◌*◌, length, All, IfOk, IfSome, is_some, nat_eq, position};
ghost use Rattle.std.specs.List.{list_any};
ghost use Rattle.std.specs.Cmp.Lexicographic.{pointwise};
ghost use Rattle.aggregate.specs.declared.kind.Kind.TheVariants.{Group};

use crate::group_key::GroupKey;
use aggregate::{AggList, combine, combine_is_associative, combined_values_stay_formed};
use entry_list::EntryList;
use indexmap::IndexSet;
use std::alloc::{AllocError, Global};

/// How many bytes most keys have at most. A list whose keys have more grows.
const KEY_BYTES: usize = 16;

/// Keys in the order in which they came, and their values in one run of bytes: that of the key at place i
/// from `width * i` on. Contracts see them as `entries_of_groups`.
#[derive(Drop)]
pub struct Groups {
    /// How many bytes each value has.
    pub width: usize,
    keys: IndexSet<GroupKey<'static>>,
    values: Vec<u8>,
    ghost whole: { length values.items ≡ width * length keys.keys },
    ghost narrow: { width ≤ 136 },
    ghost short: { All (λ key. length key ≤ 131152) keys.keys },
}

impl Groups {
    ghost use Rattle.std.specs.Prelude.{◌∷◌, ◌++◌, ◌↔◌, [], true, false, take, drop, IsTrue, OnOk, OnErr};
    ghost use Rattle.aggregate.specs.Totals.{cost, costs};
    ghost use Rattle.aggregate.specs.Values.{IsValueOf, width};
    ghost use Rattle.consumer_trait.specs.Calls.{has_key};
    ghost use Rattle.consumer_trait.specs.States.{IsEntryOf};
    ghost use Rattle.entry_list.specs.Lists.{entries_of_list};
    ghost use Rattle.group_map.specs.Pairs.{AreApart, entries_of_groups, TakesIn};

    /// No key. Each value will have so many bytes.
    pub fn new(alloc: Global, width: usize) -> Groups
        requires { width ≤ 136 }
        ensures none { entries_of_groups result ≡ [] }
        ensures width { result.width ≡ width }
    {
        Groups {
            width,
            keys: IndexSet::new(alloc),
            values: Vec::new(alloc),
        }
    }

    /// How many keys there are.
    pub fn len(&self) -> usize
        ensures { result ≡ length (entries_of_groups self.now) }
    {
        self.keys.len()
    }

    /// Whether there is none.
    pub fn is_empty(&self) -> bool
        ensures { IsTrue result ↔ (entries_of_groups self.now ≡ []) }
    {
        self.keys.is_empty()
    }

    /// Combines the value into that of its key, and says whether the key was there. If it wasn't, nothing changed.
    pub fn combine_known(&mut self, aggs: &AggList, key: &[u8], value: &[u8]) -> bool
        requires value { IsValueOf (Group aggs.now) value.now }
        requires width { self.old.width ≡ width aggs.now }
        requires apart { AreApart (entries_of_groups self.old) }
        requires formed { All (IsEntryOf (Group aggs.now)) (entries_of_groups self.old) }
        ensures known { result ≡ has_key key.now (entries_of_groups self.old) }
        ensures takes { result ≡ true → TakesIn aggs.now
            (entries_of_groups self.old) (entries_of_groups self.new)
            (record { key = key.now; value = value.now }) 0 }
        ensures enough { result ≡ true
            → cost (record { key = key.now; value = value.now }) ≤ costs (entries_of_groups self.old) }
        ensures same { result ≡ false → entries_of_groups self.new ≡ entries_of_groups self.old }
        ensures width { self.new.width ≡ self.old.width }
    {
        combine_is_associative();
        combined_values_stay_formed();
        let Some(place) = place_of(&self.keys, key) else {
            return false;
        };
        let at = self.width * place;
        combine(aggs, &mut self.values[at..at + self.width], value);
        true
    }

    /// Puts a copy of an entry behind the others. After an `Err` nothing changed.
    pub fn push(&mut self, alloc: Global, key: &[u8], value: &[u8]) -> Result<(), AllocError>
        requires new { has_key key.now (entries_of_groups self.old) ≡ false }
        requires key_fits { length key.now ≤ 131152 }
        requires value { length value.now ≡ self.old.width }
        ensures ok { OnOk result (entries_of_groups self.new
            ≡ entries_of_groups self.old ++ record { key = key.now; value = value.now } ∷ []) }
        ensures err { OnErr result (entries_of_groups self.new ≡ entries_of_groups self.old) }
        ensures width { self.new.width ≡ self.old.width }
    {
        let copy = GroupKey::owned(alloc, key)?;
        let count = self.values.len();
        self.values.extend_from_slice(value)?;
        let Ok(_) = self.keys.insert(copy) else {
            self.values.truncate(count);
            return Err(AllocError);
        };
        Ok(())
    }

    /// The entries from a place on, as a list of their own.
    pub fn copy_from(&self, alloc: Global, first: usize) -> Result<EntryList, AllocError>
        ensures { IfOk result (λ list. entries_of_list list ≡ drop first (entries_of_groups self.now)) }
    {
        let count = self.keys.len().saturating_sub(first);
        let bytes = count.saturating_mul(KEY_BYTES + self.width);
        let mut list = EntryList::with_room(alloc, count, bytes)?;
        let mut key = Vec::new(alloc);
        for place in first..self.keys.len() {
            let at = self.width * place;
            key.clear();
            self.keys[place].put(&mut key)?;
            list.push(&key, &self.values[at..at + self.width])?;
        }
        Ok(list)
    }

    /// Gives the memory back where no entry is left.
    pub fn let_go(&mut self, alloc: Global)
        ensures same { entries_of_groups self.new ≡ entries_of_groups self.old }
        ensures width { self.new.width ≡ self.old.width }
    {
        if self.is_empty() {
            *self = Groups::new(alloc, self.width);
        }
    }

    /// Lets go the entries from a place on.
    pub fn truncate(&mut self, len: usize)
        requires { len ≤ length (entries_of_groups self.old) }
        ensures kept { entries_of_groups self.new ≡ take len (entries_of_groups self.old) }
        ensures width { self.new.width ≡ self.old.width }
    {
        self.keys.truncate(len);
        self.values.truncate(self.width * len);
    }
}

// The place of a key, if it is there. Keys that own their bytes may stand for keys that are lent theirs.
fn place_of(keys: &IndexSet<GroupKey<'static>>, key: &[u8]) -> Option<usize>
    ensures place { result ≡ position (pointwise nat_eq key.now) keys.now.keys }
    ensures known { is_some result ≡ list_any (pointwise nat_eq key.now) keys.now.keys }
    ensures within { IfSome result (λ i. i < length keys.now.keys) }
{
    keys.get_index_of(&GroupKey::lent(key))
}
