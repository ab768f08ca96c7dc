//! The tokens of shapes.

ghost use Rattle.std.specs.Prelude.{◌≡◌, ◌<◌, All, IfSome, length};
ghost use Rattle.job_text.specs.declared.mark.Mark.TheVariants as marks;
ghost use Rattle.job_text.specs.Jobs.{IsAggregate, IsShape};
ghost use Rattle.job_text.specs.Grammar.{separated, optional};
ghost use Rattle.job_text.specs.Printing.{agg_mark, agg_column_tokens, key_tokens, part_tokens, place_tokens, shape_tokens, sign_before};
ghost use Rattle.job_text.specs.Sheets.{WritesTokens};

use crate::job::{KeyItem, Part, Shape};
use crate::mark::Mark;
use crate::printer::Printer;
use aggregate::Agg;
use item_lists::Name;
use std::alloc::AllocError;

fn mark_of(agg: Agg) -> Mark
    ensures { result ≡ agg_mark agg }
{
    match agg {
        Agg::Count => Mark::Count,
        Agg::Sum => Mark::Sum,
        Agg::Min => Mark::Min,
        Agg::Max => Mark::Max,
    }
}

/// Adds the sign before an item that isn't the first.
#[tactic(auto, unfolding(crate::specs::Sheets::with_tokens))]
pub(crate) fn print_sign(printer: &mut Printer, place: usize, sign: Mark) -> Result<(), AllocError>
    ensures { WritesTokens printer.old printer.new result (sign_before place sign) }
{
    if place > 0 {
        printer.mark(sign)?;
    }
    Ok(())
}

#[tactic(auto, unfolding(crate::specs::Sheets::with_tokens))]
pub(crate) fn print_word(printer: &mut Printer, written: bool, word: Mark) -> Result<(), AllocError>
    ensures { WritesTokens printer.old printer.new result (optional written word) }
{
    if written {
        printer.mark(word)?;
    }
    Ok(())
}

#[tactic(auto, unfolding(crate::specs::Sheets::with_tokens))]
pub(crate) fn print_column(
    printer: &mut Printer,
    names: &[Name],
    column: u32,
) -> Result<(), AllocError>
    requires named { column < length names.now }
    ensures { WritesTokens printer.old printer.new result (place_tokens names.now column) }
{
    printer.column(&names[column as usize])?;
    Ok(())
}

fn print_columns(printer: &mut Printer, names: &[Name], columns: &[u32]) -> Result<(), AllocError>
    requires named { All (λ column. column < length names.now) columns.now }
    ensures { WritesTokens printer.old printer.new result (separated marks.Comma (place_tokens names.now) columns.now) }
{
    for i in 0..columns.len() {
        print_sign(printer, i, Mark::Comma)?;
        print_column(printer, names, columns[i])?;
    }
    Ok(())
}

#[tactic(auto, unfolding(crate::specs::Sheets::with_tokens))]
fn print_part(printer: &mut Printer, names: &[Name], part: Part) -> Result<(), AllocError>
    requires fine { IsAggregate (length names.now) part }
    ensures { WritesTokens printer.old printer.new result (part_tokens names.now part) }
{
    printer.mark(mark_of(part.agg))?;
    match part.column {
        Some(column) => print_column(printer, names, column),
        None => Ok(()),
    }
}

fn print_parts(printer: &mut Printer, names: &[Name], parts: &[Part]) -> Result<(), AllocError>
    requires fine { All (IsAggregate (length names.now)) parts.now }
    ensures { WritesTokens printer.old printer.new result (separated marks.Comma (part_tokens names.now) parts.now) }
{
    for i in 0..parts.len() {
        print_sign(printer, i, Mark::Comma)?;
        print_part(printer, names, parts[i])?;
    }
    Ok(())
}

fn print_key(printer: &mut Printer, names: &[Name], key: KeyItem) -> Result<(), AllocError>
    requires named { key.column < length names.now }
    ensures { WritesTokens printer.old printer.new result (key_tokens names.now key) }
{
    print_word(printer, key.number, Mark::Number)?;
    print_column(printer, names, key.column)?;
    print_word(printer, key.down, Mark::Down)?;
    Ok(())
}

fn print_keys(printer: &mut Printer, names: &[Name], keys: &[KeyItem]) -> Result<(), AllocError>
    requires named { All (λ key. key.column < length names.now) keys.now }
    ensures { WritesTokens printer.old printer.new result (separated marks.Comma (key_tokens names.now) keys.now) }
{
    for i in 0..keys.len() {
        print_sign(printer, i, Mark::Comma)?;
        print_key(printer, names, keys[i])?;
    }
    Ok(())
}

pub(crate) fn print_shape(
    printer: &mut Printer,
    names: &[Name],
    shape: &Shape,
) -> Result<(), AllocError>
    requires fine { IsShape (length names.now) shape.now }
    ensures { WritesTokens printer.old printer.new result (shape_tokens names.now shape.now) }
{
    match shape {
        Shape::Group { columns, parts } => {
            printer.mark(Mark::Group)?;
            print_columns(printer, names, columns.items())?;
            printer.mark(Mark::Colon)?;
            print_parts(printer, names, parts.items())?;
            Ok(())
        }
        Shape::Order { keys, columns } => {
            printer.mark(Mark::Order)?;
            print_keys(printer, names, keys.items())?;
            printer.mark(Mark::Colon)?;
            print_columns(printer, names, columns.items())?;
            Ok(())
        }
    }
}
