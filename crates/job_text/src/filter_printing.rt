//! A filter's tokens.

ghost use Rattle.std.specs.Prelude.{◌≡◌, ◌<◌, All, IfOk, length};
ghost use Rattle.job_text.specs.FilterForms.{filter_places, list_places};
ghost use Rattle.job_text.specs.FilterPrinting.{constant_token, filter_tokens, list_tokens, printed_filter, printed_in, test_mark};
ghost use Rattle.job_text.specs.Sheets.{WritesTokens, with_token};

use crate::mark::Mark;
use crate::printer::Printer;
use crate::printing::{print_column, print_sign, print_word};
use item_lists::Name;
use row_filter::{Comparison, Constant, Filter};
use std::alloc::AllocError;

fn mark_of(test: Comparison) -> Mark
    ensures { result ≡ test_mark test }
{
    match test {
        Comparison::Equal => Mark::Equal,
        Comparison::NotEqual => Mark::NotEqual,
        Comparison::Less => Mark::Less,
        Comparison::AtMost => Mark::AtMost,
        Comparison::Greater => Mark::Greater,
        Comparison::AtLeast => Mark::AtLeast,
    }
}

fn print_constant(printer: &mut Printer, constant: &Constant) -> Result<(), AllocError>
    ensures { IfOk result (λ _. printer.new ≡ with_token printer.old (constant_token constant.now)) }
{
    match constant {
        Constant::Number(number) => printer.whole(*number),
        Constant::Text(text) => printer.text(text),
    }
}

/// Adds the items of a list, with a sign between two items.
#[cycle(print_nested)]
fn print_items(
    printer: &mut Printer,
    names: &[Name],
    items: &[Filter],
    sign: Mark,
    as_units: bool,
) -> Result<(), AllocError>
    requires named { All (λ column. column < length names.now) (list_places items.now) }
    ensures { WritesTokens printer.old printer.new result (list_tokens names.now sign as_units items.now) }
{
    for i in 0..items.len() {
        print_sign(printer, i, sign)?;
        print_as(printer, names, &items[i], as_units)?;
    }
    Ok(())
}

/// Adds a filter: as a unit, where an `or` or an `and` stands in parentheses, or as it stands by itself.
#[cycle(print_nested)]
fn print_as(
    printer: &mut Printer,
    names: &[Name],
    filter: &Filter,
    as_unit: bool,
) -> Result<(), AllocError>
    requires named { All (λ column. column < length names.now) (filter_places filter.now) }
    ensures { WritesTokens printer.old printer.new result (printed_in as_unit (printed_filter names.now filter.now)) }
{
    match filter {
        Filter::Test {
            column,
            test,
            constant,
        } => {
            print_column(printer, names, *column)?;
            printer.mark(mark_of(*test))?;
            print_constant(printer, constant)
        }
        Filter::And(units) => {
            print_word(printer, as_unit, Mark::Open)?;
            print_items(printer, names, units.items(), Mark::And, true)?;
            print_word(printer, as_unit, Mark::Close)
        }
        Filter::Or(parts) => {
            print_word(printer, as_unit, Mark::Open)?;
            print_items(printer, names, parts.items(), Mark::Or, false)?;
            print_word(printer, as_unit, Mark::Close)
        }
        Filter::Not(unit) => {
            printer.mark(Mark::Not)?;
            print_as(printer, names, unit.value(), true)
        }
    }
}

/// Adds a filter as it stands behind `where`: parentheses are exactly round an `or` in an `and`, and round an
/// `or` or `and` in a `not`.
pub(crate) fn print_filter(
    printer: &mut Printer,
    names: &[Name],
    filter: &Filter,
) -> Result<(), AllocError>
    requires named { All (λ column. column < length names.now) (filter_places filter.now) }
    ensures { WritesTokens printer.old printer.new result (filter_tokens names.now filter.now) }
{
    print_as(printer, names, filter, false)
}
