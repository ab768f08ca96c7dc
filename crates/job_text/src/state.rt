//! What was read of a text so far.

use crate::filter_state::FilterState;
use crate::job::{
    Dataset, DatasetList, KeyList, NameList, PartList, PlaceList, Query, QueryList, Shape,
};
use aggregate::Agg;
use item_lists::Name;

/// What must or may come next, and the dataset or the query at hand so far.
#[derive(Drop)]
pub(crate) enum At {
    Start,
    DatasetName,
    DatasetEquals(Name),
    DatasetSource(Name),
    Made(Dataset),
    /// A dataset's name and parent, and its filter so far.
    Filter(Name, u32, FilterState),
    Level(Dataset),
    Kept(Dataset),
    Query,
    GroupColumn(PlaceList),
    GroupColumns(PlaceList),
    Part(PlaceList, PartList),
    PartColumn(PlaceList, PartList, Agg),
    Parts(PlaceList, PartList),
    Key(KeyList),
    NumberKey(KeyList),
    KeyColumn(KeyList, u32, bool),
    Keys(KeyList),
    OrderColumn(KeyList, PlaceList),
    OrderColumns(KeyList, PlaceList),
    Source(Shape),
    Sourced(Query),
}

/// The columns, the datasets and the queries that were read.
#[derive(Drop)]
pub(crate) struct Read {
    pub(crate) names: NameList,
    pub(crate) datasets: DatasetList,
    pub(crate) queries: QueryList,
}

/// A text that was read so far.
#[derive(Drop)]
pub(crate) struct State {
    pub(crate) read: Read,
    pub(crate) at: At,
}
