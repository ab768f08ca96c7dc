//! Grouping and ordering queries over one CSV input, in tasks of Spark's unified memory manager.
#![tactic(auto)]

mod asked;
mod audited;
mod clearing;
mod consumers;
mod finishing;
mod input;
mod plan;
mod pool;
mod queries;
mod record;
mod spill;
mod sums;
mod table;
#[cfg(test)]
mod tests;
mod top;
mod trial;

use asked::judge_run;
use audit_program::{AuditStatus, audit_call};
use byte_io::{FileSink, Sink, Source, StdSink, StdSource};
use job_ending::Status;
use plan::plan_call;
use spill::{POSTS, prepare};
use std::alloc::{AllocError, Global};
use std::fmt::Display;
use std::process::ExitCode;
use std::rt::{Env, Files};
use std::{env, io};
use task_runner::NoGate;
use top::run;
use trial::{judge_trial, trial};
use words::begins_with;

// The words behind the program's name. One that is no text makes the words faulty.
fn words_of_call(rt: &(impl Env + AllocGlobal)) -> Result<Vec<String>, Status> {
    match env::args(rt) {
        Ok(args) => match args.skip(1).collect(rt.alloc()) {
            Ok(words) => Ok(words),
            Err(_) => Err(Status::NoMemory),
        },
        Err(e) if e.kind() == io::ErrorKind::OutOfMemory => Err(Status::NoMemory),
        Err(_) => Err(Status::BadWords),
    }
}

// The words as texts.
fn texts<'a>(alloc: Global, words: &'a [String]) -> Result<Vec<&'a str>, AllocError> {
    let mut texts = Vec::new(alloc);
    for word in words {
        texts.push(word.as_str())?;
    }
    Ok(texts)
}

// The process' end with a number, and the text that tells it.
fn end_with(rt: &impl Eprint, number: u8, text: &impl Display) -> ExitCode {
    if number != 0 {
        // Where standard error can't be written, the process' status still tells.
        let _ = eprintln!(rt; "{text}");
    }
    ExitCode::from(number)
}

// The process' end after an audit. The line of a verdict says all; any other end has its text.
fn end_audit(rt: &impl Eprint, ended: AuditStatus) -> ExitCode {
    let number = ended.number();
    match ended {
        AuditStatus::BadWords => end_with(rt, number, &Status::BadWords),
        AuditStatus::ReadFault => end_with(rt, number, &Status::ReadFault),
        AuditStatus::WriteFault => end_with(rt, number, &Status::WriteFault),
        AuditStatus::NoMemory => end_with(rt, number, &Status::NoMemory),
        AuditStatus::Yes { .. } | AuditStatus::No { .. } | AuditStatus::BadLine { .. } => {
            ExitCode::from(number)
        }
    }
}

// The sink of the journal, whose file is made by the first write.
fn journal_sink<R: Files + AllocGlobal + Clone + Drop>(rt: &R) -> Result<FileSink<R>, AllocError> {
    let path = String::from_str(rt.alloc(), "journal.csv")?;
    Ok(FileSink::new(rt.clone()?, path))
}

// The process' end with a status.
fn end(rt: &impl Eprint, status: &Status) -> ExitCode {
    end_with(rt, status.number(), status)
}

// The process' end after words that call for no folder: those of a plan or an audit, and those that call for nothing, which touch
// nothing.
fn end_without_folder(
    rt: &(impl Eprint + AllocGlobal),
    words: &[&str],
    input: &mut impl Source,
    output: &mut impl Sink,
) -> Option<ExitCode> {
    let alloc = rt.alloc();
    if begins_with(words, "plan") {
        return Some(end(rt, &plan_call(alloc, words, input, output)));
    }
    if begins_with(words, "audit") {
        return Some(end_audit(rt, audit_call(alloc, words, input, output)));
    }
    let judged = if begins_with(words, "trial") {
        judge_trial(alloc, POSTS, words)
    } else {
        judge_run(alloc, POSTS, words)
    };
    Some(end(rt, &judged.err()?))
}

fn main(rt: HostRuntime) -> ExitCode {
    let words = match words_of_call(&rt) {
        Ok(words) => words,
        Err(status) => return end(&rt, &status),
    };
    let Ok(texts) = texts(rt.alloc(), &words) else {
        return end(&rt, &Status::NoMemory);
    };
    let mut input = StdSource::new(rt.reader());
    let mut output = StdSink::new(io::writer(&rt));
    if let Some(ended) = end_without_folder(&rt, &texts, &mut input, &mut output) {
        return ended;
    }
    let alloc = rt.alloc();
    // The folder is this process' own until its end.
    let (mut posts, store, _folder) = match prepare(&rt) {
        Ok(made) => made,
        Err(fault) => return end_with(&rt, fault.number(), &fault),
    };
    if begins_with(&texts, "trial") {
        let left = trial(&rt, alloc, &texts, &mut output, &mut posts, store, &NoGate);
        return end(&rt, &left.status);
    }
    let Ok(mut journal) = journal_sink(&rt) else {
        return end(&rt, &Status::NoMemory);
    };
    let left = run(
        &rt,
        alloc,
        &texts,
        &mut input,
        &mut output,
        &mut journal,
        &mut posts,
        store,
        &NoGate,
    );
    end(&rt, &left.status)
}
