//! Reading a job token by token.

ghost use Rattle.std.specs.Prelude.{◌≡◌, ◌<◌, ◌^◌, length, IfOk};
ghost use Rattle.job_text.specs.Step.{step, after_mark as mark_step, after_query as query_step, after_group_columns as group_columns_step, after_part as part_step, after_parts as parts_step, after_keys as keys_step, after_key_column as key_column_step, after_order_columns as order_columns_step, ended as end_step, after_start as start_step, after_source as source_step, after_word as word_step, after_quoted as quoted_step, after_constant as constant_step, input_as as input_number, query_of};

use crate::columns::{after_column, has_aggregate};
use crate::datasets;
use crate::datasets::{
    after_equals, after_keep, after_made, after_name, after_parent, in_filter, number_of,
};
use crate::job::{KeyItem, KeyList, Part, PartList, PlaceList, Query, Shape};
use crate::lists::{MAX_ITEMS, no_items, with_item};
use crate::mark::Mark;
use crate::state::{At, Read, State};
use crate::token::Token;
use aggregate::Agg;
use item_lists::Name;
use std::alloc::{AllocError, Global};

/// What follows a query that may end here.
fn ended(read: Read, query: Query, mark: Mark) -> Result<Option<State>, AllocError>
    ensures { IfOk result (λ next. next ≡ end_step read query mark) }
{
    match mark {
        Mark::Semicolon if read.queries.items().len() + 1 < MAX_ITEMS => {
            let queries = with_item(read.queries, query)?;
            Ok(Some(State {
                read: Read {
                    names: read.names,
                    datasets: read.datasets,
                    queries,
                },
                at: At::Query,
            }))
        }
        _ => Ok(None),
    }
}

/// A query over the input.
pub(crate) fn over_input(shape: Shape) -> Query
    ensures { result ≡ query_of 0 shape }
{
    Query { dataset: 0, shape }
}

fn after_query(alloc: Global, read: Read, mark: Mark) -> Option<State>
    ensures { result ≡ query_step read mark }
{
    match mark {
        Mark::Group => Some(State {
            read,
            at: At::GroupColumn(no_items(alloc)),
        }),
        Mark::Order => Some(State {
            read,
            at: At::Key(no_items(alloc)),
        }),
        _ => None,
    }
}

/// What follows where a dataset or a query must come.
fn after_start(alloc: Global, read: Read, mark: Mark) -> Option<State>
    ensures { result ≡ start_step read mark }
{
    match mark {
        Mark::Let if read.datasets.items().len() < MAX_ITEMS => Some(State {
            read,
            at: At::DatasetName,
        }),
        Mark::Let => None,
        _ => after_query(alloc, read, mark),
    }
}

fn after_group_columns(alloc: Global, read: Read, columns: PlaceList, mark: Mark) -> Option<State>
    ensures { result ≡ group_columns_step read columns mark }
{
    match mark {
        Mark::Comma if columns.items().len() < MAX_ITEMS => Some(State {
            read,
            at: At::GroupColumn(columns),
        }),
        Mark::Colon => Some(State {
            read,
            at: At::Part(columns, no_items(alloc)),
        }),
        _ => None,
    }
}

fn after_part(
    read: Read,
    columns: PlaceList,
    parts: PartList,
    mark: Mark,
) -> Result<Option<State>, AllocError>
    ensures { IfOk result (λ next. next ≡ part_step read columns parts mark) }
{
    match mark {
        Mark::Count => {
            let part = Part {
                agg: Agg::Count,
                column: None,
            };
            if has_aggregate(&parts, part) {
                return Ok(None);
            }
            let parts = with_item(parts, part)?;
            Ok(Some(State {
                read,
                at: At::Parts(columns, parts),
            }))
        }
        Mark::Sum => Ok(Some(State {
            read,
            at: At::PartColumn(columns, parts, Agg::Sum),
        })),
        Mark::Min => Ok(Some(State {
            read,
            at: At::PartColumn(columns, parts, Agg::Min),
        })),
        Mark::Max => Ok(Some(State {
            read,
            at: At::PartColumn(columns, parts, Agg::Max),
        })),
        _ => Ok(None),
    }
}

fn after_parts(
    read: Read,
    columns: PlaceList,
    parts: PartList,
    mark: Mark,
) -> Result<Option<State>, AllocError>
    ensures { IfOk result (λ next. next ≡ parts_step read columns parts mark) }
{
    match mark {
        Mark::Comma if parts.items().len() < MAX_ITEMS => Ok(Some(State {
            read,
            at: At::Part(columns, parts),
        })),
        Mark::Comma => Ok(None),
        Mark::From => Ok(Some(State {
            read,
            at: At::Source(Shape::Group { columns, parts }),
        })),
        _ => ended(read, over_input(Shape::Group { columns, parts }), mark),
    }
}

fn after_keys(alloc: Global, read: Read, keys: KeyList, mark: Mark) -> Option<State>
    ensures { result ≡ keys_step read keys mark }
{
    match mark {
        Mark::Comma if keys.items().len() < MAX_ITEMS => Some(State {
            read,
            at: At::Key(keys),
        }),
        Mark::Colon => Some(State {
            read,
            at: At::OrderColumn(keys, no_items(alloc)),
        }),
        _ => None,
    }
}

fn after_key_column(
    alloc: Global,
    read: Read,
    keys: KeyList,
    column: u32,
    number: bool,
    mark: Mark,
) -> Result<Option<State>, AllocError>
    ensures { IfOk result (λ next. next ≡ key_column_step read keys column number mark) }
{
    match mark {
        Mark::Down => {
            let keys = with_item(
                keys,
                KeyItem {
                    column,
                    number,
                    down: true,
                },
            )?;
            Ok(Some(State {
                read,
                at: At::Keys(keys),
            }))
        }
        _ => {
            let keys = with_item(
                keys,
                KeyItem {
                    column,
                    number,
                    down: false,
                },
            )?;
            Ok(after_keys(alloc, read, keys, mark))
        }
    }
}

fn after_order_columns(
    read: Read,
    keys: KeyList,
    columns: PlaceList,
    mark: Mark,
) -> Result<Option<State>, AllocError>
    ensures { IfOk result (λ next. next ≡ order_columns_step read keys columns mark) }
{
    match mark {
        Mark::Comma if columns.items().len() < MAX_ITEMS => Ok(Some(State {
            read,
            at: At::OrderColumn(keys, columns),
        })),
        Mark::Comma => Ok(None),
        Mark::From => Ok(Some(State {
            read,
            at: At::Source(Shape::Order { keys, columns }),
        })),
        _ => ended(read, over_input(Shape::Order { keys, columns }), mark),
    }
}

/// What follows the source of a query, which is None where the source is none.
fn after_source(read: Read, shape: Shape, dataset: Option<u32>) -> Option<State>
    ensures { result ≡ source_step read shape dataset }
{
    let dataset = dataset?;
    let at = At::Sourced(Query { dataset, shape });
    Some(State { read, at })
}

/// `input`, which is 0, and no dataset's name.
fn input_as(mark: Mark) -> Option<u32>
    ensures { result ≡ input_number mark }
{
    match mark {
        Mark::Input => Some(0),
        _ => None,
    }
}

fn after_mark(alloc: Global, read: Read, at: At, mark: Mark) -> Result<Option<State>, AllocError>
    requires room { length read.names < 2 ^ 32 }
    ensures { IfOk result (λ next. next ≡ mark_step read at mark) }
{
    match at {
        At::Start => Ok(after_start(alloc, read, mark)),
        At::DatasetEquals(name) => Ok(after_equals(read, name, mark)),
        At::DatasetSource(name) => Ok(after_parent(read, name, input_as(mark))),
        At::Made(dataset) => after_made(alloc, read, dataset, mark),
        At::Filter(name, parent, filter) => {
            in_filter(alloc, read, name, parent, filter, Token::Fixed(mark))
        }
        At::Level(dataset) => Ok(after_keep(read, dataset, mark)),
        At::Kept(dataset) => datasets::ended(read, dataset, mark),
        At::Query => Ok(after_query(alloc, read, mark)),
        At::GroupColumns(columns) => Ok(after_group_columns(alloc, read, columns, mark)),
        At::Part(columns, parts) => after_part(read, columns, parts, mark),
        At::Parts(columns, parts) => after_parts(read, columns, parts, mark),
        At::Key(keys) => match mark {
            Mark::Number => Ok(Some(State {
                read,
                at: At::NumberKey(keys),
            })),
            _ => Ok(None),
        },
        At::KeyColumn(keys, column, number) => after_key_column(
            alloc, read, keys, column, number, mark,
        ),
        At::Keys(keys) => Ok(after_keys(alloc, read, keys, mark)),
        At::OrderColumns(keys, columns) => after_order_columns(read, keys, columns, mark),
        At::Source(shape) => Ok(after_source(read, shape, input_as(mark))),
        At::Sourced(query) => ended(read, query, mark),
        _ => Ok(None),
    }
}

/// What follows a word that isn't reserved, None where it is refused.
fn after_word(alloc: Global, read: Read, at: At, word: Name) -> Result<Option<State>, AllocError>
    requires room { length read.names < 2 ^ 32 }
    requires few { length read.datasets < 2 ^ 31 }
    ensures { IfOk result (λ next. next ≡ word_step read at word) }
{
    match at {
        At::Filter(name, parent, filter) => {
            in_filter(alloc, read, name, parent, filter, Token::Word(word))
        }
        At::DatasetName => Ok(after_name(read, word)),
        At::DatasetSource(name) => {
            let parent = number_of(&read.datasets, &word);
            Ok(after_parent(read, name, parent))
        }
        At::Source(shape) => {
            let dataset = number_of(&read.datasets, &word);
            Ok(after_source(read, shape, dataset))
        }
        _ => after_column(read, at, word),
    }
}

/// What follows a name in quotes, None where it is refused.
fn after_quoted(
    alloc: Global,
    read: Read,
    at: At,
    column: Name,
) -> Result<Option<State>, AllocError>
    requires room { length read.names < 2 ^ 32 }
    ensures { IfOk result (λ next. next ≡ quoted_step read at column) }
{
    match at {
        At::Filter(name, parent, filter) => {
            in_filter(alloc, read, name, parent, filter, Token::Quoted(column))
        }
        _ => after_column(read, at, column),
    }
}

/// What follows a text or a whole number, None where it is refused.
fn after_constant(
    alloc: Global,
    read: Read,
    at: At,
    token: Token,
) -> Result<Option<State>, AllocError>
    requires room { length read.names < 2 ^ 32 }
    ensures { IfOk result (λ next. next ≡ constant_step read at token) }
{
    match at {
        At::Filter(name, parent, filter) => in_filter(alloc, read, name, parent, filter, token),
        _ => Ok(None),
    }
}

/// What follows a token, None where it is refused.
#[tactic(auto, unfolding(crate::specs::Step::step))]
pub(crate) fn take(alloc: Global, state: State, token: Token) -> Result<Option<State>, AllocError>
    requires room { length state.read.names < 2 ^ 32 }
    requires few { length state.read.datasets < 2 ^ 31 }
    ensures { IfOk result (λ next. next ≡ step state token) }
{
    match token {
        Token::Fixed(mark) => after_mark(alloc, state.read, state.at, mark),
        Token::Word(name) => after_word(alloc, state.read, state.at, name),
        Token::Quoted(name) => after_quoted(alloc, state.read, state.at, name),
        Token::Text(text) => after_constant(alloc, state.read, state.at, Token::Text(text)),
        Token::Whole(value) => after_constant(alloc, state.read, state.at, Token::Whole(value)),
    }
}
