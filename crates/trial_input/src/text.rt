//! The text of a trial's input.

ghost use Rattle.std.specs.Prelude.{◌≡◌, ◌≤◌, ◌++◌, IfOk, OnOk};
ghost use Rattle.trial_input.specs.Generator.{line_of, number_after, price_of, trial_text as text_of_rows};

use itoa::Buffer;
use std::alloc::{AllocError, Global};

// As many bytes as a line has at most, and the heading's.
const LINE_ROOM: usize = 11;

fn next(number: u64) -> u64
    ensures { result ≡ number_after number }
{
    number
        .wrapping_mul(6_364_136_223_846_793_005)
        .wrapping_add(1_442_695_040_888_963_407)
}

fn price(number: u64) -> i64
    ensures { result ≡ price_of number }
{
    (number / 1_099_511_627_776 % 2001) as i64 - 1000
}

/// Adds the line of a row.
fn push_line(text: &mut Vec<u8>, number: u64) -> Result<(), AllocError>
    ensures { OnOk result (text.new.items ≡ text.old.items ++ line_of number) }
{
    let mut buffer = Buffer::new();
    text.push(b'k')?;
    text.extend_from_slice(buffer.format(number / 8_589_934_592 % 1000).as_bytes())?;
    text.push(b',')?;
    text.extend_from_slice(buffer.format(price(number)).as_bytes())?;
    text.push(b'\n')?;
    Ok(())
}

/// The text of a trial's input: the heading `key,price` and so many rows, each line ended by a line feed.
pub fn trial_text(alloc: Global, rows: u64) -> Result<Vec<u8>, AllocError>
    requires few { rows ≤ 1000000 }
    ensures text { IfOk result (λ text. text.items ≡ text_of_rows rows) }
{
    let mut text = Vec::with_capacity(alloc, LINE_ROOM * (rows as usize + 1))?;
    text.extend_from_slice(b"key,price\n")?;
    let mut number = 1;
    for _row in 0..rows {
        number = next(number);
        push_line(&mut text, number)?;
    }
    Ok(text)
}
