//! Jobs, as they are read from their texts.

ghost use Rattle.std.specs.Bool.{OnTrue};
ghost use Rattle.std.specs.Prelude.{◌≡◌, [], length};
ghost use Rattle.job_text.specs.Jobs.{is_plain_job};

use aggregate::Agg;
use item_lists::{Listed, Name};
use pool_ledger::Level;
use row_filter::Filter;

/// Names in a list.
pub type NameList = Listed<Name>;

/// Columns in a list, each as its place in the job's names.
pub type PlaceList = Listed<u32>;

/// Aggregates in a list.
pub type PartList = Listed<Part>;

/// The keys of an order in a list, the first one deciding first.
pub type KeyList = Listed<KeyItem>;

/// Datasets in a list, from number 1 on.
pub type DatasetList = Listed<Dataset>;

/// Queries in a list.
pub type QueryList = Listed<Query>;

/// What is told of each group: how many rows it has, or the sum, the least or the greatest of a column.
#[derive(Clone, Copy, Debug, PartialEq, Eq)]
pub struct Part {
    /// Which of the four.
    pub agg: Agg,
    /// The column, but for the count.
    pub column: Option<u32>,
}

/// A column that rows are ordered by: as a number or byte by byte, the least or the greatest first.
#[derive(Clone, Copy, Debug, PartialEq, Eq)]
pub struct KeyItem {
    /// The column, as its place in the job's names.
    pub column: u32,
    /// Whether its fields are compared as numbers.
    pub number: bool,
    /// Whether the greatest comes first.
    pub down: bool,
}

/// What a query makes of its rows.
#[derive(Debug, Drop)]
pub enum Shape {
    /// Groups of rows with equal fields in these columns, and what is told of each.
    Group { columns: PlaceList, parts: PartList },
    /// The rows in the order of these keys, and the columns that are told of each.
    Order { keys: KeyList, columns: PlaceList },
}

/// A query over the rows of a dataset; 0 is the input.
#[derive(Debug, Drop)]
pub struct Query {
    /// The dataset's number.
    pub dataset: u32,
    /// Groups, or an order.
    pub shape: Shape,
}

/// A dataset that is made from an earlier one: of its rows those that the filter keeps, or all. Where it has
/// a level, its rows are kept as blocks.
#[derive(Drop)]
pub struct Dataset {
    /// What the text calls it.
    pub name: Name,
    /// The number of the dataset that it is made from.
    pub parent: u32,
    /// Which rows it keeps; without one all.
    pub filter: Option<Filter>,
    /// Where its blocks are kept; without a level nowhere.
    pub level: Option<Level>,
}

/// A job: the distinct columns in the order in which its text first names them, its datasets and its
/// queries.
#[derive(Drop)]
pub struct Job {
    /// The columns that it names.
    pub names: NameList,
    /// Its datasets, from number 1 on.
    pub datasets: DatasetList,
    /// Its queries, in the order of the text.
    pub queries: QueryList,
}

impl Job {
    /// Whether this is one query over the input, without datasets.
    pub fn is_plain(&self) -> bool
        ensures test { result ≡ is_plain_job self.now }
        ensures none { OnTrue result (self.now.datasets ≡ []) }
        ensures one { OnTrue result (length self.now.queries ≡ 1) }
    {
        self.datasets.items().is_empty() && self.queries.items().len() == 1
    }
}
