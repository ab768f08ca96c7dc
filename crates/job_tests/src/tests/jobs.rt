// Jobs read from their texts, and printed.
ghost use Rattle.std.specs.Prelude.{IfOk};
ghost use Rattle.job_text.specs.Jobs.{IsJob};

use job_text::{Job, JobFault, print, read};
use std::alloc::{AllocError, Global};

/// The job of a text.
pub fn job_of(alloc: Global, text: &str) -> Result<Job, JobFault>
    ensures job { IfOk result IsJob }
{
    read(alloc, text)
}

/// The job's text.
pub fn print_job(alloc: Global, job: &Job) -> Result<String, AllocError>
    requires job { IsJob job.now }
{
    print(alloc, job)
}
