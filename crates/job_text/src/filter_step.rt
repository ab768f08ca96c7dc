//! Reading a filter token by token.

ghost use Rattle.std.specs.Prelude.{◌≡◌, ◌<◌, ◌^◌, ◌++◌, length, IfOk};
ghost use Rattle.job_text.specs.FilterLists.{and_of as units_as_one, or_of as parts_as_one, parts_in, units_in};
ghost use Rattle.job_text.specs.FilterStep.{after_behind as behind_step, after_close as closed_step, after_test as test_step, after_unit as unit_step, close_nots as nots_closed, comparison_of as mark_test, filter_at as whole_at_end, filter_column as column_step, filter_constant as constant_step, filter_mark as mark_step, filter_of as terms_as_one, filter_start as start, filter_step, is_not as not_first, unit_read as unit_state, whole_parts as parts_with_units};

use crate::columns::{MAX_LENGTH, place};
use crate::filter_stack::Stack;
use crate::filter_state::{FilterAt, FilterState, Open, Terms};
use crate::job::NameList;
use crate::lists::{no_items, with_item};
use crate::mark::Mark;
use crate::token::Token;
use item_lists::{Boxed, Name};
use row_filter::{Comparison, Constant, Filter, FilterList};
use std::alloc::{AllocError, Global};

const MAX_OPEN: usize = 64;

fn joined(list: FilterList, more: FilterList) -> Result<FilterList, AllocError>
    ensures { IfOk result (λ longer. longer ≡ list ++ more) }
{
    let mut items = list.into_items();
    let mut behind = more.into_items();
    items.append(&mut behind)?;
    Ok(FilterList::of(items))
}

fn with_unit(units: FilterList, unit: Filter) -> Result<FilterList, AllocError>
    ensures { IfOk result (λ longer. longer ≡ units ++ units_in unit) }
{
    match unit {
        Filter::And(more) => joined(units, more),
        other => with_item(units, other),
    }
}

fn with_part(parts: FilterList, part: Filter) -> Result<FilterList, AllocError>
    ensures { IfOk result (λ longer. longer ≡ parts ++ parts_in part) }
{
    match part {
        Filter::Or(more) => joined(parts, more),
        other => with_item(parts, other),
    }
}

fn and_of(units: FilterList) -> Filter
    ensures { result ≡ units_as_one units }
{
    let mut items = units.into_items();
    if items.len() != 1 {
        return Filter::And(FilterList::of(items));
    }
    match items.pop() {
        Some(unit) => unit,
        None => unreachable!(),
    }
}

fn or_of(parts: FilterList) -> Filter
    ensures { result ≡ parts_as_one parts }
{
    let mut items = parts.into_items();
    if items.len() != 1 {
        return Filter::Or(FilterList::of(items));
    }
    match items.pop() {
        Some(part) => part,
        None => unreachable!(),
    }
}

fn whole_parts(terms: Terms) -> Result<FilterList, AllocError>
    ensures { IfOk result (λ parts. parts ≡ parts_with_units terms) }
{
    with_part(terms.parts, and_of(terms.units))
}

/// The parts and the units as one filter.
fn filter_of(terms: Terms) -> Result<Filter, AllocError>
    ensures { IfOk result (λ filter. filter ≡ terms_as_one terms) }
{
    Ok(or_of(whole_parts(terms)?))
}

fn is_not(around: &Stack<Open>) -> bool
    ensures { result ≡ not_first around.now }
{
    match around.first() {
        Some(Open::Not) => true,
        _ => false,
    }
}

fn close_nots(
    alloc: Global,
    around: Stack<Open>,
    unit: Filter,
) -> Result<(Stack<Open>, Filter), AllocError>
    ensures { IfOk result (λ closed. closed ≡ nots_closed around unit) }
{
    let mut around = around;
    let mut unit = unit;
    while is_not(&around) {
        around.pop();
        unit = Filter::Not(Boxed::of(Box::new(alloc, unit)?));
    }
    Ok((around, unit))
}

/// The state behind a whole unit.
fn unit_read(
    alloc: Global,
    terms: Terms,
    around: Stack<Open>,
    unit: Filter,
) -> Result<FilterState, AllocError>
    ensures { IfOk result (λ state. state ≡ unit_state terms (nots_closed around unit)) }
{
    let (around, unit) = close_nots(alloc, around, unit)?;
    let units = with_unit(terms.units, unit)?;
    Ok(FilterState {
        around,
        terms: Terms {
            parts: terms.parts,
            units,
        },
        at: FilterAt::Behind,
    })
}

fn comparison_of(mark: Mark) -> Option<Comparison>
    ensures { result ≡ mark_test mark }
{
    match mark {
        Mark::Equal => Some(Comparison::Equal),
        Mark::NotEqual => Some(Comparison::NotEqual),
        Mark::Less => Some(Comparison::Less),
        Mark::AtMost => Some(Comparison::AtMost),
        Mark::Greater => Some(Comparison::Greater),
        Mark::AtLeast => Some(Comparison::AtLeast),
        _ => None,
    }
}

fn after_unit(
    alloc: Global,
    state: FilterState,
    mark: Mark,
) -> Result<Option<FilterState>, AllocError>
    ensures { IfOk result (λ next. next ≡ unit_step state mark) }
{
    match mark {
        Mark::Not if state.around.len() < MAX_OPEN => {
            let around = state.around.with(Open::Not)?;
            Ok(Some(FilterState {
                around,
                terms: state.terms,
                at: FilterAt::Unit,
            }))
        }
        Mark::Open if state.around.len() < MAX_OPEN => {
            let around = state.around.with(Open::Parenthesis(state.terms))?;
            let terms = Terms {
                parts: no_items(alloc),
                units: no_items(alloc),
            };
            Ok(Some(FilterState {
                around,
                terms,
                at: FilterAt::Unit,
            }))
        }
        _ => Ok(None),
    }
}

fn after_test(state: FilterState, column: u32, test: Option<Comparison>) -> Option<FilterState>
    ensures { result ≡ test_step state column test }
{
    Some(FilterState {
        around: state.around,
        terms: state.terms,
        at: FilterAt::Constant(column, test?),
    })
}

fn after_close(
    alloc: Global,
    around: Stack<Open>,
    filter: Filter,
) -> Result<Option<FilterState>, AllocError>
    ensures { IfOk result (λ next. next ≡ closed_step around filter) }
{
    let mut around = around;
    match around.pop() {
        Some(Open::Parenthesis(terms)) => Ok(Some(unit_read(alloc, terms, around, filter)?)),
        _ => Ok(None),
    }
}

fn after_behind(
    alloc: Global,
    state: FilterState,
    mark: Mark,
) -> Result<Option<FilterState>, AllocError>
    ensures { IfOk result (λ next. next ≡ behind_step state mark) }
{
    let FilterState {
        around,
        terms,
        at: _,
    } = state;
    match mark {
        Mark::And => Ok(Some(FilterState {
            around,
            terms,
            at: FilterAt::Unit,
        })),
        Mark::Or => {
            let parts = whole_parts(terms)?;
            let terms = Terms {
                parts,
                units: no_items(alloc),
            };
            Ok(Some(FilterState {
                around,
                terms,
                at: FilterAt::Unit,
            }))
        }
        Mark::Close => {
            let filter = filter_of(terms)?;
            after_close(alloc, around, filter)
        }
        _ => Ok(None),
    }
}

fn after_mark(
    alloc: Global,
    state: FilterState,
    mark: Mark,
) -> Result<Option<FilterState>, AllocError>
    ensures { IfOk result (λ next. next ≡ mark_step state state.at mark) }
{
    match state.at {
        FilterAt::Unit => after_unit(alloc, state, mark),
        FilterAt::Test(column) => Ok(after_test(state, column, comparison_of(mark))),
        FilterAt::Constant(..) => Ok(None),
        FilterAt::Behind => after_behind(alloc, state, mark),
    }
}

fn after_constant(
    alloc: Global,
    state: FilterState,
    constant: Constant,
) -> Result<Option<FilterState>, AllocError>
    ensures { IfOk result (λ next. next ≡ constant_step state state.at constant) }
{
    match state.at {
        FilterAt::Constant(column, test) => {
            let unit = Filter::Test {
                column,
                test,
                constant,
            };
            Ok(Some(unit_read(alloc, state.terms, state.around, unit)?))
        }
        _ => Ok(None),
    }
}

fn after_column(
    names: NameList,
    state: FilterState,
    name: Name,
) -> Result<Option<(NameList, FilterState)>, AllocError>
    requires room { length names < 2 ^ 32 }
    ensures { IfOk result (λ next. next ≡ column_step names state state.at name) }
{
    match state.at {
        FilterAt::Unit => {
            if name.text().len() > MAX_LENGTH {
                return Ok(None);
            }
            let (names, column) = place(names, name)?;
            let state = FilterState {
                around: state.around,
                terms: state.terms,
                at: FilterAt::Test(column),
            };
            Ok(Some((names, state)))
        }
        _ => Ok(None),
    }
}

/// What follows a token: the names and the state; None where it is refused.
#[tactic(auto, unfolding(crate::specs::FilterStep::filter_step))]
pub(crate) fn filter_take(
    alloc: Global,
    names: NameList,
    state: FilterState,
    token: Token,
) -> Result<Option<(NameList, FilterState)>, AllocError>
    requires room { length names < 2 ^ 32 }
    ensures { IfOk result (λ next. next ≡ filter_step names state token) }
{
    let next = match token {
        Token::Fixed(mark) => after_mark(alloc, state, mark)?,
        Token::Word(name) => return after_column(names, state, name),
        Token::Quoted(name) => return after_column(names, state, name),
        Token::Text(text) => after_constant(alloc, state, Constant::Text(text))?,
        Token::Whole(Some(number)) => after_constant(alloc, state, Constant::Number(number))?,
        Token::Whole(None) => None,
    };
    match next {
        Some(state) => Ok(Some((names, state))),
        None => Ok(None),
    }
}

/// Nothing of a filter was read.
pub(crate) fn filter_start(alloc: Global) -> FilterState
    ensures { result ≡ start }
{
    FilterState {
        around: Stack::new(alloc),
        terms: Terms {
            parts: no_items(alloc),
            units: no_items(alloc),
        },
        at: FilterAt::Unit,
    }
}

/// The filter, where it may end here.
pub(crate) fn filter_end(state: FilterState) -> Result<Option<Filter>, AllocError>
    ensures { IfOk result (λ filter. filter ≡ whole_at_end state) }
{
    if state.around.len() > 0 {
        return Ok(None);
    }
    match state.at {
        FilterAt::Behind => Ok(Some(filter_of(state.terms)?)),
        _ => Ok(None),
    }
}
