//! A job from its text.

ghost use Rattle.std.specs.Prelude.{◌≡◌, ◌≤◌, length, IfOk, IfErr, Ok, Some};
ghost use Rattle.job_text.specs.declared.job.Job.{Job};
ghost use Rattle.job_text.specs.Step.{start as start_state, last_query as query_at};
ghost use Rattle.job_text.specs.Begins.{job_at};
ghost use Rattle.job_text.specs.Text.{read_of, ReadsLike, outcome_of, scan};
ghost use Rattle.job_text.specs.Place.{IsJobText, IsFaultOf};
ghost use Rattle.job_text.specs.Jobs.{IsJob};

use crate::fault::JobFault;
use crate::job::{Job, Query, Shape};
use crate::lists::{no_items, with_item};
use crate::state::{At, Read, State};
use crate::step::{over_input, take};
use crate::tokens::{is_blank, token};
use std::alloc::{AllocError, Global};

const MAX_LENGTH: usize = 16_384;

fn start(alloc: Global) -> State
    ensures { result ≡ start_state }
{
    State {
        read: Read {
            names: no_items(alloc),
            datasets: no_items(alloc),
            queries: no_items(alloc),
        },
        at: At::Start,
    }
}

/// The query at hand, where it may end here.
fn last_query(at: At) -> Option<Query>
    ensures { result ≡ query_at at }
{
    match at {
        At::Parts(columns, parts) => Some(over_input(Shape::Group { columns, parts })),
        At::OrderColumns(keys, columns) => Some(over_input(Shape::Order { keys, columns })),
        At::Sourced(query) => Some(query),
        _ => None,
    }
}

/// The job that was read, where it may end here.
fn finish(state: State) -> Result<Option<Job>, AllocError>
    ensures { IfOk result (λ job. job ≡ job_at (Some state)) }
{
    let State { read, at } = state;
    let Some(query) = last_query(at) else {
        return Ok(None);
    };
    let queries = with_item(read.queries, query)?;
    Ok(Some(Job {
        names: read.names,
        datasets: read.datasets,
        queries,
    }))
}

fn read_short(alloc: Global, text: &str) -> Result<Job, JobFault>
    requires short { length text.now ≤ 16384 }
    ensures { ReadsLike result (outcome_of (length text.now) start_state (scan 0 0 text.now)) }
{
    let mut state = start(alloc);
    let mut at = 0;
    while at < text.len() {
        if is_blank(text.as_bytes()[at]) {
            at += 1;
        } else {
            let Some((token, length)) = token(alloc, &text[at..])? else {
                return Err(JobFault::BadJob { place: at as u32 });
            };
            let Some(next) = take(alloc, state, token)? else {
                return Err(JobFault::BadJob { place: at as u32 });
            };
            state = next;
            at += length;
        }
    }
    match finish(state)? {
        Some(job) => Ok(job),
        None => Err(JobFault::BadJob { place: at as u32 }),
    }
}

#[tactic(auto, unfolding(crate::specs::Text::read_of))]
fn read_all(alloc: Global, text: &str) -> Result<Job, JobFault>
    ensures { ReadsLike result (read_of text.now) }
{
    if text.len() > MAX_LENGTH {
        return Err(JobFault::BadJob { place: 16_384 });
    }
    read_short(alloc, text)
}

/// The job of a text, or the place where the text stops being the beginning of one.
///
/// A place is a byte of the text, from 0. A text has at most 16,384 bytes: a longer one is refused there.
/// Programs read their job with it.
pub fn read(alloc: Global, text: &str) -> Result<Job, JobFault>
    // The computing definition; memory may run out.
    ensures gives { ReadsLike result (read_of text.now) }
    // What is read is the job of the text.
    ensures found { IfOk result (λ job. IsJobText text.now job) }
    // A job's text is read, unless memory runs out.
    ensures only { (job : Job) → IsJobText text.now job → ReadsLike result (Ok job) }
    // What is refused stops beginning a job at that place.
    ensures refused { IfErr result (λ fault. IsFaultOf text.now fault) }

    // What each job has.
    ensures whole { IfOk result IsJob }
{
    read_all(alloc, text)
}
