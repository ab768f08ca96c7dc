// Scripts as text, and what they are answered.
use crate::tests::steps::{Note, Step};
use pool_ledger::{Entry, Event};
use run_file::Run;
use spill_disk::{Disk, MemoryDisk};
use std::alloc::{AllocError, Global};
use std::string::String;
use std::test::Fail;
use task_memory::TaskFault;

/// The steps of a script: `acquire:C:MUST:WISH`, `feed:C:KEY`, `drain:C`, `free`, `room:MUST:WISH` and `give:BYTES`, each
/// up to a `=`.
pub fn steps_of(alloc: Global, script: &str) -> Result<Vec<Step>, Fail> {
    let mut steps = Vec::new(alloc);
    for word in script.split(' ') {
        let (step, _) = word.split_once('=').unwrap_or((word, ""));
        steps.push(step_of(step)?)?;
    }
    Ok(steps)
}

fn number_in(text: &str) -> Result<u64, Fail> {
    Ok(text.parse()?)
}

fn step_of(step: &str) -> Result<Step, Fail> {
    if step == "free" {
        return Ok(Step::FreeLeasts);
    }
    let (kind, rest) = step.split_once(':').ok_or("a step without a consumer")?;
    let (first, rest) = rest.split_once(':').unwrap_or((rest, ""));
    let first = number_in(first)?;
    if kind == "give" {
        return Ok(Step::GiveBack { bytes: first });
    }
    if kind == "room" {
        return Ok(Step::Room {
            must: first,
            wish: number_in(rest)?,
        });
    }
    consumer_step(kind, first as usize, rest)
}

// A step of one of the consumers.
fn consumer_step(kind: &str, consumer: usize, rest: &str) -> Result<Step, Fail> {
    if kind == "drain" {
        return Ok(Step::Drain { consumer });
    }
    if kind == "feed" {
        let key = *rest.as_bytes().first().ok_or("a feed without a key")?;
        return Ok(Step::Feed { consumer, key });
    }
    if kind != "acquire" {
        return Err("an unknown step".into());
    }
    let (must, wish) = rest.split_once(':').ok_or("an acquire without a wish")?;
    Ok(Step::Acquire {
        consumer,
        must: number_in(must)?,
        wish: number_in(wish)?,
    })
}

/// The script's steps with their answers: `=GOT/USES`, or `=no_room:ASKED`, `=disk_fault` or `=no_memory`.
pub fn answers_of(alloc: Global, script: &str, notes: &[Note]) -> Result<String, Fail> {
    let mut answers = String::new(alloc);
    push_answers(alloc, &mut answers, script, notes)?;
    Ok(answers)
}

fn push_answers(
    alloc: Global,
    answers: &mut String,
    script: &str,
    notes: &[Note],
) -> Result<(), Fail> {
    let mut count = 0usize;
    for word in script.split(' ') {
        let Some(note) = notes.get(count) else {
            return Ok(());
        };
        let (step, _) = word.split_once('=').unwrap_or((word, ""));
        if count > 0 {
            answers.push(' ')?;
        }
        answers.push_str(step)?;
        answers.push_str(answer_of(alloc, note)?.as_str())?;
        count = count.saturating_add(1);
    }
    Ok(())
}

fn answer_of(alloc: Global, note: &Note) -> Result<String, Fail> {
    let [first, second, third, fourth] = note.uses;
    Ok(match note.answer {
        Ok(got) => format!(in alloc; "={got}/{first}.{second}.{third}.{fourth}")?,
        Err(TaskFault::NoRoom { asked, .. }) => format!(in alloc; "=no_room:{asked}")?,
        Err(TaskFault::DiskFault) => format!(in alloc; "=disk_fault")?,
        Err(TaskFault::NoMemory) => format!(in alloc; "=no_memory")?,
    })
}

/// The runs of all consumers, one after another: `C:FILE:KEYS` for each.
pub fn runs_of(
    alloc: Global,
    disk: &mut MemoryDisk,
    runs: &[(usize, Run)],
) -> Result<String, Fail> {
    let mut text = String::new(alloc);
    for consumer in 0..4usize {
        push_runs(alloc, disk, runs, consumer, &mut text)?;
    }
    Ok(text)
}

// The runs of one consumer.
fn push_runs(
    alloc: Global,
    disk: &mut MemoryDisk,
    runs: &[(usize, Run)],
    consumer: usize,
    text: &mut String,
) -> Result<(), Fail> {
    for (who, run) in runs {
        if *who == consumer {
            let file = run.file;
            push_word(text, format!(in alloc; "{consumer}:{file}:")?.as_str())?;
            push_keys(disk, run, text)?;
        }
    }
    Ok(())
}

// Puts a word behind a text, with a blank between them.
fn push_word(text: &mut String, word: &str) -> Result<(), AllocError> {
    if word.is_empty() {
        return Ok(());
    }
    if !text.is_empty() {
        text.push(' ')?;
    }
    text.push_str(word)
}

// The keys of a run, of rows with a key of one byte and an empty value, as they stand on the disk.
fn push_keys(disk: &mut MemoryDisk, run: &Run, text: &mut String) -> Result<(), Fail> {
    if run.bytes != run.count.saturating_mul(13) || run.greatest != 33 {
        return Err("a run of other rows".into());
    }
    for number in 0..run.count {
        let mut row = [0u8; 13];
        let place = number.saturating_mul(13);
        // One call of the disk may fail, and the next one doesn't.
        let count = match disk.read_at(run.file, place, &mut row) {
            Ok(count) => count,
            Err(_) => disk.read_at(run.file, place, &mut row)?,
        };
        let key = row[8];
        if count != 13 || row != [0, 0, 0, 9, 0, 0, 0, 1, key, 0, 0, 0, 0] {
            return Err("a row of another form".into());
        }
        text.push(char::from(key))?;
    }
    Ok(())
}

/// The script's answers where the step behind the first `answered` ones meets a fault of the disk.
pub fn with_fault(alloc: Global, script: &str, answered: usize) -> Result<String, Fail> {
    let mut answers = String::new(alloc);
    push_with_fault(&mut answers, script, answered)?;
    Ok(answers)
}

fn push_with_fault(answers: &mut String, script: &str, answered: usize) -> Result<(), AllocError> {
    let mut count = 0usize;
    for word in script.split(' ') {
        if count >= answered {
            let (step, _) = word.split_once('=').unwrap_or((word, ""));
            push_word(answers, step)?;
            return answers.push_str("=disk_fault");
        }
        push_word(answers, word)?;
        count = count.saturating_add(1);
    }
    Ok(())
}

/// What was asked of the pool and granted, as `ASKED=GOT`, and what was given back, as `-BYTES`.
pub fn pool_of(alloc: Global, entries: &[Entry]) -> Result<String, Fail> {
    let mut text = String::new(alloc);
    push_pool(alloc, entries, &mut text)?;
    Ok(text)
}

fn push_pool(alloc: Global, entries: &[Entry], text: &mut String) -> Result<(), AllocError> {
    for entry in entries {
        push_word(text, word_of(alloc, entry.event)?.as_str())?;
    }
    Ok(())
}

// What one entry asked, was granted or gave back; nothing of other entries.
fn word_of(alloc: Global, event: Event) -> Result<String, AllocError> {
    match event {
        Event::Attempt {
            asked,
            got: None,
            ..
        } => format!(in alloc; "{asked}=wait"),
        Event::Attempt {
            asked,
            got: Some(got),
            ..
        } => format!(in alloc; "{asked}={got}"),
        Event::Release { freed, .. } if freed > 0 => format!(in alloc; "-{freed}"),
        _ => Ok(String::new(alloc)),
    }
}

/// How often a script feeds a consumer this key.
pub fn count_fed(script: &str, consumer: &str, key: char) -> usize {
    let mut count = 0usize;
    for word in script.split(' ') {
        let (kind, rest) = word.split_once(':').unwrap_or((word, ""));
        let (who, keys) = rest.split_once(':').unwrap_or((rest, ""));
        if kind == "feed" && who == consumer && keys.contains(key) {
            count = count.saturating_add(1);
        }
    }
    count
}

/// How often the key stands in the consumer's runs.
pub fn count_drained(runs: &str, consumer: &str, key: char) -> usize {
    let mut count = 0usize;
    for word in runs.split(' ') {
        let (who, rest) = word.split_once(':').unwrap_or((word, ""));
        let (_, keys) = rest.split_once(':').unwrap_or((rest, ""));
        if who == consumer {
            for found in keys.chars() {
                if found == key {
                    count = count.saturating_add(1);
                }
            }
        }
    }
    count
}
