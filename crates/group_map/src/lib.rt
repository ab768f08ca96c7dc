//! The consumer of queries that group: it keeps one value a key, and spills as many of the last keys as it can order.
#![tactic(auto)]

mod group_key;
mod groups;
mod map;

pub use map::GroupMap;
