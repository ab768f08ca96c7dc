//! The consumers of a post.

ghost use Rattle.std.specs.Prelude.{◌≡◌, ◌≤◌, ◌+◌, List, map, true, IfOk, length};
ghost use Rattle.aggregate.specs.declared.agg_list.Agg.{Agg};
ghost use Rattle.aggregate.specs.declared.kind.Kind.TheVariants.{Group, Order};
ghost use Rattle.task_runner.specs.Consumers.{HasConsumers};
ghost use Rattle.csv_program.specs.Made.{AreMadeConsumers};
ghost use Rattle.csv_program.specs.QueryConsumers.{state_in};

use aggregate::Kind;
use consumer_trait::{Consumer, Fed, Turn};
use group_map::GroupMap;
use row_page::Page;
use row_sorter::RowSorter;
use std::alloc::{AllocError, Global};

// How many consumers of a post group, and how many order.
const OF_A_KIND: usize = 8;

/// A consumer of a query: a map for one that groups, a sorter for one that orders. It does what the one that it is does.
#[derive(Drop)]
pub enum QueryConsumer {
    /// It groups.
    Groups(GroupMap),
    /// It orders.
    Orders(RowSorter),
}

impl Consumer for QueryConsumer {
    ghost state = { state_in };

    fn serves(&self, kind: &Kind) -> bool {
        match self {
            QueryConsumer::Groups(groups) => groups.serves(kind),
            QueryConsumer::Orders(rows) => rows.serves(kind),
        }
    }

    fn begin(&mut self, kind: &Kind) -> Result<(), AllocError> {
        match self {
            QueryConsumer::Groups(groups) => groups.begin(kind),
            QueryConsumer::Orders(rows) => rows.begin(kind),
        }
    }

    fn feed(&mut self, key: &[u8], value: &[u8]) -> Result<Fed, AllocError> {
        match self {
            QueryConsumer::Groups(groups) => groups.feed(key, value),
            QueryConsumer::Orders(rows) => rows.feed(key, value),
        }
    }

    fn granted(&mut self, bytes: u64) {
        match self {
            QueryConsumer::Groups(groups) => groups.granted(bytes),
            QueryConsumer::Orders(rows) => rows.granted(bytes),
        }
    }

    fn used(&self) -> u64 {
        match self {
            QueryConsumer::Groups(groups) => groups.used(),
            QueryConsumer::Orders(rows) => rows.used(),
        }
    }

    fn least(&self) -> u64 {
        match self {
            QueryConsumer::Groups(groups) => groups.least(),
            QueryConsumer::Orders(rows) => rows.least(),
        }
    }

    fn is_empty(&self) -> bool {
        match self {
            QueryConsumer::Groups(groups) => groups.is_empty(),
            QueryConsumer::Orders(rows) => rows.is_empty(),
        }
    }

    fn spill_turn(&mut self, out: &mut Page) -> Result<Turn, AllocError> {
        match self {
            QueryConsumer::Groups(groups) => groups.spill_turn(out),
            QueryConsumer::Orders(rows) => rows.spill_turn(out),
        }
    }

    fn reset(&mut self) {
        match self {
            QueryConsumer::Groups(groups) => groups.reset(),
            QueryConsumer::Orders(rows) => rows.reset(),
        }
    }
}

// A map that groups.
fn grouping(alloc: Global) -> QueryConsumer
    ensures { (aggs : List Agg) → (state_in result).serves (Group aggs) ≡ true }
{
    QueryConsumer::Groups(GroupMap::new(alloc))
}

// A sorter.
fn ordering(alloc: Global) -> QueryConsumer
    ensures { (state_in result).serves Order ≡ true }
{
    QueryConsumer::Orders(RowSorter::new(alloc))
}

/// The sixteen consumers of a post: eight that group, and then eight that order.
pub fn make_consumers(alloc: Global) -> Result<Vec<QueryConsumer>, AllocError>
    ensures { IfOk result (λ consumers. HasConsumers (map state_in consumers.items)) }
{
    let mut consumers = Vec::new(alloc);
    for _ in 0..OF_A_KIND {
        consumers.push(grouping(alloc))?;
    }
    for _ in 0..OF_A_KIND {
        consumers.push(ordering(alloc))?;
    }
    Ok(consumers)
}
