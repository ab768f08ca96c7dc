//! The columns that filters compare with a number.

ghost use Rattle.std.specs.Prelude.{◌≡◌, ◌++◌, OnOk};
ghost use Rattle.std.specs.List.{flat_map};
ghost use Rattle.job_plan.specs.Columns.{filter_numbers, numbers_for, test_numbers};

use row_filter::{Constant, Filter, Link};
use std::alloc::AllocError;

fn put_test(into: &mut Vec<u32>, column: u32, constant: &Constant) -> Result<(), AllocError>
    ensures { OnOk result (into.new.items ≡ into.old.items ++ test_numbers column constant.now) }
{
    match constant {
        Constant::Number(_) => into.push(column)?,
        Constant::Text(_) => {}
    }
    Ok(())
}

#[cycle(put_filter)]
fn put_each(into: &mut Vec<u32>, filters: &[Filter]) -> Result<(), AllocError>
    ensures { OnOk result (into.new.items ≡ into.old.items ++ flat_map filter_numbers filters.now) }
{
    for filter in filters {
        put_one(into, filter)?;
    }
    Ok(())
}

// Puts the columns that a filter compares with a number behind others.
#[cycle(put_filter)]
fn put_one(into: &mut Vec<u32>, filter: &Filter) -> Result<(), AllocError>
    ensures { OnOk result (into.new.items ≡ into.old.items ++ filter_numbers filter.now) }
{
    match filter {
        Filter::Test {
            column,
            constant,
            ..
        } => put_test(into, *column, constant),
        Filter::And(parts) => put_each(into, parts.items()),
        Filter::Or(parts) => put_each(into, parts.items()),
        Filter::Not(inner) => put_one(into, inner.value()),
    }
}

fn put_own(into: &mut Vec<u32>, filter: &Option<Filter>) -> Result<(), AllocError>
    ensures { OnOk result (into.new.items ≡ into.old.items ++ numbers_for filter.now) }
{
    match filter {
        Some(filter) => put_one(into, filter),
        None => Ok(()),
    }
}

/// Puts the columns that the datasets' filters compare with a number behind others.
pub(crate) fn put_filter_numbers(into: &mut Vec<u32>, links: &[Link]) -> Result<(), AllocError>
    ensures { OnOk result (into.new.items ≡ into.old.items ++ flat_map (λ link. numbers_for link.filter) links.now) }
{
    for link in links {
        put_own(into, &link.filter)?;
    }
    Ok(())
}
