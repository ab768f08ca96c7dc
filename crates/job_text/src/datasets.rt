//! Datasets, read token by token.

ghost use Rattle.std.specs.Prelude.{◌≡◌, ◌<◌, ◌^◌, length, IfOk, Some};
ghost use Rattle.job_text.specs.declared.state.At.TheVariants as ats;
ghost use Rattle.job_text.specs.Columns.{number_of as dataset_number};
ghost use Rattle.job_text.specs.Step.{after_equals as equals_step, after_keep as keep_step, after_made as made_step, filter_ended as filter_end_step, in_filter as filter_token_step, after_name as name_step, after_parent as parent_step, dataset_ended as end_step};

use crate::filter_state::FilterState;
use crate::filter_step::{filter_end, filter_start, filter_take};
use crate::job::{Dataset, DatasetList};
use crate::lists::with_item;
use crate::mark::Mark;
use crate::state::{At, Read, State};
use crate::token::Token;
use item_lists::Name;
use pool_ledger::Level;
use row_filter::Filter;
use std::alloc::{AllocError, Global};

const MAX_NAME: usize = 64;

/// The number of the dataset with this name, if there is one.
pub(crate) fn number_of(datasets: &DatasetList, name: &Name) -> Option<u32>
    requires room { length datasets.now < 2 ^ 31 }
    ensures { result ≡ dataset_number datasets.now name.now }
{
    let list = datasets.items();
    for i in 0..list.len() {
        if list[i].name.text() == name.text() {
            return Some(i as u32 + 1);
        }
    }
    None
}

/// What follows a dataset's name.
pub(crate) fn after_name(read: Read, name: Name) -> Option<State>
    requires few { length read.datasets < 2 ^ 31 }
    ensures { result ≡ name_step read name }
{
    if name.text().len() > MAX_NAME || number_of(&read.datasets, &name).is_some() {
        return None;
    }
    let at = At::DatasetEquals(name);
    Some(State { read, at })
}

pub(crate) fn after_equals(read: Read, name: Name, mark: Mark) -> Option<State>
    ensures { result ≡ equals_step read name mark }
{
    match mark {
        Mark::Equal => Some(State {
            read,
            at: At::DatasetSource(name),
        }),
        _ => None,
    }
}

/// What follows the source of a dataset, which is None where the source is none.
pub(crate) fn after_parent(read: Read, name: Name, parent: Option<u32>) -> Option<State>
    ensures { result ≡ parent_step read name parent }
{
    let parent = parent?;
    let dataset = Dataset {
        name,
        parent,
        filter: None,
        level: None,
    };
    let at = At::Made(dataset);
    Some(State { read, at })
}

/// What follows a dataset that may end here.
pub(crate) fn ended(read: Read, dataset: Dataset, mark: Mark) -> Result<Option<State>, AllocError>
    ensures { IfOk result (λ next. next ≡ end_step read dataset mark) }
{
    match mark {
        Mark::Semicolon => {
            let datasets = with_item(read.datasets, dataset)?;
            Ok(Some(State {
                read: Read {
                    names: read.names,
                    datasets,
                    queries: read.queries,
                },
                at: At::Start,
            }))
        }
        _ => Ok(None),
    }
}

pub(crate) fn after_made(
    alloc: Global,
    read: Read,
    dataset: Dataset,
    mark: Mark,
) -> Result<Option<State>, AllocError>
    ensures { IfOk result (λ next. next ≡ made_step read dataset mark) }
{
    match mark {
        Mark::Where => Ok(Some(State {
            read,
            at: At::Filter(dataset.name, dataset.parent, filter_start(alloc)),
        })),
        Mark::Keep => Ok(Some(State {
            read,
            at: At::Level(dataset),
        })),
        _ => ended(read, dataset, mark),
    }
}

/// What follows a filter behind which `keep` or `;` stands.
fn filter_ended(
    read: Read,
    name: Name,
    parent: u32,
    filter: Option<Filter>,
    mark: Mark,
) -> Result<Option<State>, AllocError>
    ensures { IfOk result (λ next. next ≡ filter_end_step read name parent filter mark) }
{
    let Some(filter) = filter else {
        return Ok(None);
    };
    let dataset = Dataset {
        name,
        parent,
        filter: Some(filter),
        level: None,
    };
    match mark {
        Mark::Keep => Ok(Some(State {
            read,
            at: At::Level(dataset),
        })),
        _ => ended(read, dataset, mark),
    }
}

/// What follows a token behind `where`.
pub(crate) fn in_filter(
    alloc: Global,
    read: Read,
    name: Name,
    parent: u32,
    filter: FilterState,
    token: Token,
) -> Result<Option<State>, AllocError>
    requires room { length read.names < 2 ^ 32 }
    ensures { IfOk result (λ next. next ≡ filter_token_step read name parent filter token) }
{
    match token {
        Token::Fixed(Mark::Keep) => {
            filter_ended(read, name, parent, filter_end(filter)?, Mark::Keep)
        }
        Token::Fixed(Mark::Semicolon) => {
            filter_ended(read, name, parent, filter_end(filter)?, Mark::Semicolon)
        }
        token => {
            let Read {
                names,
                datasets,
                queries,
            } = read;
            let Some((names, filter)) = filter_take(alloc, names, filter, token)? else {
                return Ok(None);
            };
            Ok(Some(State {
                read: Read {
                    names,
                    datasets,
                    queries,
                },
                at: At::Filter(name, parent, filter),
            }))
        }
    }
}

fn kept(dataset: Dataset, level: Level) -> At
    ensures { result ≡ ats.Kept (record dataset { level = Some level }) }
{
    let Dataset {
        name,
        parent,
        filter,
        level: _,
    } = dataset;
    At::Kept(Dataset {
        name,
        parent,
        filter,
        level: Some(level),
    })
}

/// What follows `keep`.
pub(crate) fn after_keep(read: Read, dataset: Dataset, mark: Mark) -> Option<State>
    ensures { result ≡ keep_step read dataset mark }
{
    match mark {
        Mark::Memory => {
            let at = kept(dataset, Level::Memory);
            Some(State { read, at })
        }
        Mark::Disk => {
            let at = kept(dataset, Level::Disk);
            Some(State { read, at })
        }
        _ => None,
    }
}
