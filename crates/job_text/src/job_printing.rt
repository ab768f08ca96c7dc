//! A job's text.

ghost use Rattle.std.specs.Prelude.{◌≡◌, ◌≤◌, [], ◌∷◌, All, IfOk, IfSome, length, string_bytes};
ghost use Rattle.job_text.specs.declared.mark.Mark.TheVariants as marks;
ghost use Rattle.job_text.specs.declared.token.Token.TheVariants.{Fixed};
ghost use Rattle.job_text.specs.Columns.{dataset_names};
ghost use Rattle.job_text.specs.FilterForms.{IsFilter};
ghost use Rattle.job_text.specs.Jobs.{AreGoodDatasets, IsJob, IsQuery, IsShape};
ghost use Rattle.job_text.specs.Grammar.{ended_by, keep_written, level_written, separated};
ghost use Rattle.job_text.specs.JobPrinting.{dataset_tokens, from_tokens, printed, query_tokens, source_token, where_tokens};
ghost use Rattle.job_text.specs.Place.{IsJobText};
ghost use Rattle.job_text.specs.Sheets.{WritesTokens};

use crate::filter_printing::print_filter;
use crate::job::{Dataset, Job, Query};
use crate::mark::Mark;
use crate::printer::Printer;
use crate::printing::{print_shape, print_sign};
use item_lists::Name;
use pool_ledger::Level;
use row_filter::Filter;
use std::alloc::{AllocError, Global};

fn mark_of(level: Level) -> Mark
    ensures { Fixed result ∷ [] ≡ level_written level }
{
    match level {
        Level::Memory => Mark::Memory,
        Level::Disk => Mark::Disk,
    }
}

/// Adds the name of the dataset with this number, or `input`.
#[tactic(auto, unfolding(crate::specs::Sheets::with_tokens))]
fn print_source(printer: &mut Printer, datasets: &[Dataset], number: u32) -> Result<(), AllocError>
    requires there { number ≤ length datasets.now }
    ensures { WritesTokens printer.old printer.new result (source_token (dataset_names datasets.now) number ∷ []) }
{
    if number == 0 {
        printer.mark(Mark::Input)?;
        return Ok(());
    }
    printer.word(&datasets[number as usize - 1].name)?;
    Ok(())
}

#[tactic(auto, unfolding(crate::specs::Sheets::with_tokens))]
fn print_where(
    printer: &mut Printer,
    names: &[Name],
    filter: &Option<Filter>,
) -> Result<(), AllocError>
    requires fine { IfSome filter.now (IsFilter (length names.now)) }
    ensures { WritesTokens printer.old printer.new result (where_tokens names.now filter.now) }
{
    match filter {
        Some(filter) => {
            printer.mark(Mark::Where)?;
            print_filter(printer, names, filter)
        }
        None => Ok(()),
    }
}

#[tactic(auto, unfolding(crate::specs::Sheets::with_tokens))]
fn print_level(printer: &mut Printer, level: Option<Level>) -> Result<(), AllocError>
    ensures { WritesTokens printer.old printer.new result (keep_written level) }
{
    match level {
        Some(level) => {
            printer.mark(Mark::Keep)?;
            printer.mark(mark_of(level))
        }
        None => Ok(()),
    }
}

fn print_dataset(
    printer: &mut Printer,
    names: &[Name],
    datasets: &[Dataset],
    dataset: &Dataset,
) -> Result<(), AllocError>
    requires source { dataset.now.parent ≤ length datasets.now }
    requires fine { IfSome dataset.now.filter (IsFilter (length names.now)) }
    ensures { WritesTokens printer.old printer.new result
        (dataset_tokens names.now (dataset_names datasets.now) dataset.now) }
{
    printer.mark(Mark::Let)?;
    printer.word(&dataset.name)?;
    printer.mark(Mark::Equal)?;
    print_source(printer, datasets, dataset.parent)?;
    print_where(printer, names, &dataset.filter)?;
    print_level(printer, dataset.level)?;
    Ok(())
}

fn print_datasets(
    printer: &mut Printer,
    names: &[Name],
    datasets: &[Dataset],
) -> Result<(), AllocError>
    requires made { AreGoodDatasets (length names.now) datasets.now }
    ensures { WritesTokens printer.old printer.new result
        (ended_by marks.Semicolon (dataset_tokens names.now (dataset_names datasets.now)) datasets.now) }
{
    for i in 0..datasets.len() {
        print_dataset(printer, names, datasets, &datasets[i])?;
        printer.mark(Mark::Semicolon)?;
    }
    Ok(())
}

#[tactic(auto, unfolding(crate::specs::Sheets::with_tokens))]
fn print_from(printer: &mut Printer, datasets: &[Dataset], number: u32) -> Result<(), AllocError>
    requires there { number ≤ length datasets.now }
    ensures { WritesTokens printer.old printer.new result (from_tokens (dataset_names datasets.now) number) }
{
    if number == 0 {
        return Ok(());
    }
    printer.mark(Mark::From)?;
    print_source(printer, datasets, number)?;
    Ok(())
}

fn print_query(
    printer: &mut Printer,
    names: &[Name],
    datasets: &[Dataset],
    query: &Query,
) -> Result<(), AllocError>
    requires fine { IsQuery (length names.now) (length datasets.now) query.now }
    ensures { WritesTokens printer.old printer.new result
        (query_tokens names.now (dataset_names datasets.now) query.now) }
{
    print_shape(printer, names, &query.shape)?;
    print_from(printer, datasets, query.dataset)?;
    Ok(())
}

fn print_queries(
    printer: &mut Printer,
    names: &[Name],
    datasets: &[Dataset],
    queries: &[Query],
) -> Result<(), AllocError>
    requires fine { All (IsQuery (length names.now) (length datasets.now)) queries.now }
    ensures { WritesTokens printer.old printer.new result
        (separated marks.Semicolon (query_tokens names.now (dataset_names datasets.now)) queries.now) }
{
    for i in 0..queries.len() {
        print_sign(printer, i, Mark::Semicolon)?;
        print_query(printer, names, datasets, &queries[i])?;
    }
    Ok(())
}

/// The text of a job, in its one printed form.
///
/// Two tokens are one blank apart, with none before `,` `:` `;` `)` and none after `(`. A column is a word where
/// that is possible, and in quotes else; a number has no leading zeros. `from input` isn't printed. Parentheses
/// are exactly round an `or` in an `and`, and round an `or` or `and` in a `not`. The one error is want of
/// memory.
#[tactic(auto, unfolding(crate::specs::JobPrinting::printed))]
pub fn print(alloc: Global, job: &Job) -> Result<String, AllocError>
    requires whole { IsJob job.now }
    // Want of memory is the one answer without a cause; a test shows success.
    ensures text { IfOk result (λ text. string_bytes text ≡ printed job.now) }

    // The text is read as the very job.
    ensures again { IfOk result (λ text. length (string_bytes text) ≤ 16384 → IsJobText (string_bytes text) job.now) }
{
    let mut printer = Printer::new(alloc);
    let names = job.names.items();
    let datasets = job.datasets.items();
    print_datasets(&mut printer, names, datasets)?;
    print_queries(&mut printer, names, datasets, job.queries.items())?;
    Ok(printer.into_text())
}
