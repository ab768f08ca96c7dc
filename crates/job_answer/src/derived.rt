//! The rows of a job's datasets.

ghost use Rattle.job_answer.specs.Chained.{LandedRowsAreDerived, MovedChainsHaveDatasets};
ghost use Rattle.job_answer.specs.Derivation.{DatasetsFilterParents, InputHasAll};
ghost use Rattle.job_answer.specs.PlainJobs.{PlainJobsGoOverInput, PlainJobsDeriveAll, QueriesOverInputTellAll};

/// A dataset's rows are those of the dataset that it is made from which its own filter keeps, and the input's
/// are all. It does nothing when run.
pub fn datasets_filter_parents()
    ensures input { InputHasAll }
    ensures made { DatasetsFilterParents }
{}

/// A query over the input is over all rows; and in a job without datasets each query is. It does nothing when
/// run.
pub fn plain_jobs_derive_all()
    ensures plain { PlainJobsGoOverInput }
    ensures query { QueriesOverInputTellAll }
    ensures output { PlainJobsDeriveAll }
{}

/// The rows of a job's dataset, landed each with its own number, are those that a chain with the same datasets
/// derives from the landed rows; and a chain of the job's datasets has the same, where their filters are moved to
/// the kept columns. It does nothing when run.
pub fn landed_rows_are_derived()
    ensures rows { LandedRowsAreDerived }
    ensures moved { MovedChainsHaveDatasets }
{}
