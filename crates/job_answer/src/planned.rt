//! The rows of a job's datasets, as the job's plan derives them.

ghost use Rattle.job_answer.specs.Planned.{PlansDeriveRows};

use row_filter::moved_filters_keep;

/// The rows of a job's dataset, landed each with its own number, are those that the chain of the job's plan derives
/// of the landed rows. It does nothing when run.
pub fn plans_derive_rows()
    ensures { PlansDeriveRows }
{
    moved_filters_keep();
}
