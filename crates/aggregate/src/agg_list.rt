// What a query makes of a group's rows.
ghost use Rattle.std.specs.Prelude.{◌≡◌, ◌<◌, ◌≤◌, true, length, IfOk};
ghost use Rattle.aggregate.specs.Partial.{AreTwoSums};
ghost use Rattle.aggregate.specs.Values.{width};

use std::alloc::{AllocError, Global};
use std::fmt::{Debug, Formatter, Result as FmtResult, Write};
use std::marker::Model;

/// What a query makes of the rows of a group.
#[derive(Clone, Copy, Debug, PartialEq, Eq)]
pub enum Agg {
    /// How many rows there are.
    Count,
    /// The sum of a column's numbers.
    Sum,
    /// The least of a column's numbers.
    Min,
    /// The greatest of a column's numbers.
    Max,
}

/// One to eight aggregates, in the order of the query.
#[derive(Drop)]
pub struct AggList {
    items: Vec<Agg>,
    // whether they are two that add, as a count and a sum, so that who combines doesn't look each time
    two_sums: bool,
}

impl Model for AggList {
    ghost use Rattle.std.specs.Prelude.{◌≡◌, List, length, ◌<◌, ◌≤◌, true};
    ghost use Rattle.aggregate.specs.declared.agg_list.Agg.{Agg};
    ghost use Rattle.aggregate.specs.Partial.{AreTwoSums};

    ghost Value = { List Agg };

    ghost view = { λ aggs. aggs.items.items };

    ghost invariant = { λ aggs. (0 < length aggs.items.items) × (length aggs.items.items ≤ 8)
        × (aggs.two_sums ≡ true → AreTwoSums aggs.items.items) };
}

impl Debug for AggList {
    fn fmt<W: Write>(&self, f: &mut Formatter<W>) -> FmtResult {
        f.debug_struct("AggList")
            .field("items", &self.items)
            .finish()
    }
}

impl AggList {
    /// The list of these aggregates. Job readers and plans make it.
    pub fn of(alloc: Global, list: &[Agg]) -> Result<AggList, AllocError>
        requires some { 0 < length list.now }
        requires few { length list.now ≤ 8 }
        ensures { IfOk result (λ aggs. aggs ≡ list.now) }
    {
        Ok(AggList {
            items: list.to_vec(alloc)?,
            two_sums: are_two_sums(list),
        })
    }

    /// The aggregates, one to eight.
    pub fn items(&self) -> &[Agg]
        ensures items { result.now ≡ self.now }
        ensures some { 0 < length self.now }
        ensures few { length self.now ≤ 8 }
    {
        &self.items
    }

    /// The bytes that a value with these aggregates has: 17 for each.
    pub fn width(&self) -> usize
        ensures width { result ≡ width self.now }
        ensures small { result ≤ 136 }
    {
        17 * self.items.len()
    }

    /// The same list in memory of its own.
    pub fn copy(&self) -> Result<AggList, AllocError>
        ensures { IfOk result (λ aggs. aggs ≡ self.now) }
    {
        AggList::of(*self.items.allocator(), &self.items)
    }

    /// Whether they are known as two that add.
    pub(crate) fn has_two_sums(&self) -> bool
        ensures { result ≡ true → AreTwoSums self.now }
    {
        self.two_sums
    }
}

// Whether these are two aggregates that add.
fn are_two_sums(list: &[Agg]) -> bool
    ensures { result ≡ true → AreTwoSums list.now }
{
    matches!(list, [Agg::Count | Agg::Sum, Agg::Count | Agg::Sum])
}
