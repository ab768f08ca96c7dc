//! Which values of a landed row are missing.

ghost use Rattle.job_answer.specs.MissingValues.{MissingIsEmpty};

/// Of a row that has the form of a job's plan, a value that the job's queries tell is missing exactly where the
/// row's field is empty. It does nothing when run.
pub fn missing_values_are_empty()
    ensures { MissingIsEmpty }
{}
