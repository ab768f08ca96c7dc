// Rows, faults and entries as words.
use lineage::{Rows, RowsFault};
use pool_ledger::{Entry, Event, Fate};
use row_page::RowView;
use std::alloc::AllocError;
use std::string::String;

// A text before and behind the first of these characters.
pub fn cut(text: &str, at: char) -> (&str, &str) {
    text.split_once(at).unwrap_or((text, ""))
}

// The number that a script has, and 0 for anything else.
pub fn number(text: &str) -> u32 {
    text.parse().unwrap_or(0)
}

pub fn put_number(text: &mut String, number: u64) -> Result<(), AllocError> {
    let alloc = *text.allocator();
    let digits = format!(in alloc; "{number}")?;
    text.push_str(digits.as_str())
}

fn put_numbered(text: &mut String, word: &str, numbers: &[u64]) -> Result<(), AllocError> {
    text.push_str(word)?;
    for number in numbers {
        text.push(',')?;
        put_number(text, *number)?;
    }
    Ok(())
}

// The word for how rows are handed out, and the rows: the number of each, and its fields.
pub fn put_rows(text: &mut String, rows: &Rows) -> Result<(), AllocError> {
    text.push_str(match rows {
        Rows::Pinned(_) => " pinned",
        Rows::Own(_) => " own",
    })?;
    let page = rows.page();
    for i in 0..page.rows() {
        put_row(text, page.row(i))?;
    }
    Ok(())
}

fn put_row(text: &mut String, row: RowView<'_>) -> Result<(), AllocError> {
    text.push(' ')?;
    for j in 0..row.count() {
        if j == 0 {
            put_number(text, number_of(row.field(0)))?;
        } else {
            text.push(',')?;
            text.push_str(str::from_utf8(row.field(j)).unwrap_or("?"))?;
        }
    }
    Ok(())
}

// The number that these bytes are, the greatest first.
fn number_of(bytes: &[u8]) -> u64 {
    let mut number = 0u64;
    for byte in bytes {
        number = number.wrapping_mul(256).wrapping_add(u64::from(*byte));
    }
    number
}

pub fn put_fault(text: &mut String, fault: RowsFault) -> Result<(), AllocError> {
    match fault {
        RowsFault::DiskFault => text.push_str(" disk"),
        RowsFault::Damaged(damage) => {
            let numbers = [
                u64::from(damage.disk),
                damage.file,
                damage.kept,
                damage.found,
            ];
            put_numbered(text, " damaged", &numbers)
        }
        RowsFault::NoMemory => text.push_str(" memory"),
    }
}

// The entries of blocks and tasks, with no bytes.
pub fn put_entries(text: &mut String, entries: &[Entry]) -> Result<(), AllocError> {
    for entry in entries {
        put_event(text, entry.event)?;
    }
    Ok(())
}

fn put_event(text: &mut String, event: Event) -> Result<(), AllocError> {
    match event {
        Event::Pin {
            dataset,
            part,
            copy,
        } => put_block(text, if copy { " copy" } else { " pin" }, dataset, part),
        Event::Unpin { dataset, part } => put_block(text, " unpin", dataset, part),
        Event::Admit { dataset, part, .. } => put_block(text, " admit", dataset, part),
        Event::Refused { dataset, part, .. } => put_block(text, " refused", dataset, part),
        Event::Evict {
            dataset,
            part,
            fate,
            ..
        } => put_block(text, fate_word(fate), dataset, part),
        Event::Attempt { .. } => text.push_str(" ask"),
        _ => Ok(()),
    }
}

fn fate_word(fate: Fate) -> &'static str {
    match fate {
        Fate::Disk => " written",
        Fate::Gone => " gone",
        Fate::NoMemory => " lost",
    }
}

fn put_block(text: &mut String, word: &str, dataset: u32, part: u32) -> Result<(), AllocError> {
    put_numbered(text, word, &[u64::from(dataset), u64::from(part)])
}
