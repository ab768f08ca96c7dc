// Tables of lists of words, and what each of them says.
use std::alloc::Global;
use std::test::Fail;
use words::{
    WordsFault, WorkOptions, begins_with, read_audit_words, read_plan_words, read_run_call,
    read_trial_words,
};

// What a list says as the tables write it: numbers, the flag and then the job in brackets, `ok` for nothing, and `bad`.
pub fn told(alloc: Global, words: &[&str]) -> Result<String, Fail> {
    if begins_with(words, "trial") {
        told_trial(alloc, words)
    } else if begins_with(words, "plan") {
        told_plan(alloc, words)
    } else if begins_with(words, "audit") {
        told_audit(alloc, words)
    } else {
        told_run(alloc, words)
    }
}

fn told_run(alloc: Global, words: &[&str]) -> Result<String, Fail> {
    match read_run_call(alloc, words) {
        Err(WordsFault::BadWords) => Ok(format!(in alloc; "bad")?),
        read => {
            let said = read?;
            let options = told_options(alloc, said.options)?;
            let journal = if said.journal { " journal" } else { "" };
            Ok(format!(in alloc; "{options} {}{journal} [{}]", said.max_rows, said.job)?)
        }
    }
}

fn told_trial(alloc: Global, words: &[&str]) -> Result<String, Fail> {
    match read_trial_words(alloc, words) {
        Err(WordsFault::BadWords) => Ok(format!(in alloc; "bad")?),
        read => {
            let said = read?;
            let options = told_options(alloc, said.options)?;
            Ok(format!(in alloc; "{options} {}", said.rows)?)
        }
    }
}

fn told_plan(alloc: Global, words: &[&str]) -> Result<String, Fail> {
    match read_plan_words(alloc, words) {
        Err(WordsFault::BadWords) => Ok(format!(in alloc; "bad")?),
        read => Ok(format!(in alloc; "[{}]", read?)?),
    }
}

fn told_audit(alloc: Global, words: &[&str]) -> Result<String, Fail> {
    match read_audit_words(alloc, words) {
        Err(WordsFault::BadWords) => Ok(format!(in alloc; "bad")?),
        read => {
            read?;
            Ok(format!(in alloc; "ok")?)
        }
    }
}

fn told_options(alloc: Global, options: WorkOptions) -> Result<String, Fail> {
    let WorkOptions {
        workers,
        heap,
        reserved,
        fraction,
        storage,
        part_rows,
    } = options;
    Ok(format!(in alloc; "{workers} {heap} {reserved} {fraction} {storage} {part_rows}")?)
}
