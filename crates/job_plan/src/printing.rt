//! A plan's text.

ghost use Rattle.std.specs.Prelude.{◌≡◌, ◌++◌, IfOk, OnOk, map, string_bytes};
ghost use Rattle.std.specs.Fmt.{decimal};
ghost use Rattle.std.specs.List.{flat_map};
ghost use Rattle.job_plan.specs.PlanText.{column_text, columns_line, comma_before, dataset_text, comma_joined, pass_line, plan_text, removal_line};

use crate::passing::Pass;
use crate::query_plan::Plan;
use item_lists::Name;
use job_text::spell_column;
use std::alloc::{AllocError, Global};

// Adds the comma before an item of a list, which the first one hasn't.
fn push_comma(out: &mut String, place: usize) -> Result<(), AllocError>
    ensures { OnOk result (string_bytes out.new ≡ string_bytes out.old ++ comma_before place) }
{
    if place == 0 {
        return Ok(());
    }
    out.push_str(",")
}

// Adds a column, as a printed job spells it.
fn push_column(alloc: Global, out: &mut String, column: &Name) -> Result<(), AllocError>
    ensures { OnOk result (string_bytes out.new ≡ string_bytes out.old ++ column_text column.now) }
{
    out.push_str(&spell_column(alloc, column)?)
}

// Adds the line of the kept columns.
fn push_columns(alloc: Global, out: &mut String, columns: &[Name]) -> Result<(), AllocError>
    ensures { OnOk result (string_bytes out.new ≡ string_bytes out.old ++ columns_line columns.now) }
{
    out.push_str("columns ")?;
    for i in 0..columns.len() {
        push_comma(out, i)?;
        push_column(alloc, out, &columns[i])?;
    }
    out.push_str("\n")
}

// Adds the name of a dataset, or `input`.
fn push_dataset(out: &mut String, names: &[Name], dataset: u32) -> Result<(), AllocError>
    ensures { OnOk result (string_bytes out.new ≡ string_bytes out.old ++ dataset_text names.now dataset) }
{
    if dataset == 0 {
        return out.push_str("input");
    }
    match names.get(dataset as usize - 1) {
        Some(name) => out.push_str(name.text()),
        None => Ok(()),
    }
}

// Adds numbers, with a comma between two of them.
fn push_numbers(out: &mut String, numbers: &[u32]) -> Result<(), AllocError>
    ensures { OnOk result (string_bytes out.new ≡ string_bytes out.old ++ comma_joined (map decimal numbers.now)) }
{
    for i in 0..numbers.len() {
        push_comma(out, i)?;
        write!(out, "{}", numbers[i])?;
    }
    Ok(())
}

// Adds the line of a pass.
fn push_pass(out: &mut String, names: &[Name], place: usize, pass: &Pass) -> Result<(), AllocError>
    ensures { OnOk result (string_bytes out.new ≡ string_bytes out.old ++ pass_line names.now place pass.now.dataset pass.now.queries.items) }
{
    write!(out, "pass {place} ")?;
    push_dataset(out, names, pass.dataset)?;
    out.push_str(" queries ")?;
    push_numbers(out, &pass.queries)?;
    out.push_str("\n")
}

// Adds the lines of the datasets whose blocks are removed after a pass.
fn push_removed(
    out: &mut String,
    names: &[Name],
    place: usize,
    removed: &[u32],
) -> Result<(), AllocError>
    ensures { OnOk result (string_bytes out.new ≡ string_bytes out.old ++ flat_map (removal_line names.now place) removed.now) }
{
    for dataset in removed {
        out.push_str("remove ")?;
        push_dataset(out, names, *dataset)?;
        writeln!(out, " after {place}")?;
    }
    Ok(())
}

impl Plan {
    /// The plan's text: a line of the kept columns, and for each pass a line with its dataset and its queries
    /// and one for each dataset whose blocks are removed after it. The one error is want of memory.
    pub fn print(&self, alloc: Global) -> Result<String, AllocError>
        // Want of memory is the one answer without a cause; a test shows success.
        ensures { IfOk result (λ text. string_bytes text ≡ plan_text self.now) }
    {
        let mut out = String::new(alloc);
        push_columns(alloc, &mut out, &self.columns)?;
        for i in 0..self.passes.len() {
            let pass = &self.passes[i];
            push_pass(&mut out, &self.names, i, pass)?;
            push_removed(&mut out, &self.names, i, &pass.removed)?;
        }
        Ok(out)
    }
}
