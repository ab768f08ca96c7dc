// Filters and rows from texts, and what a filter's text says by itself.
use crate::{Comparison, Constant, Filter, covers, keeps};
use item_lists::{Boxed, Listed, Name};
use row_page::RowBuf;
use std::alloc::Global;
use std::test::Fail;

fn comparison_of(sign: &str) -> Option<Comparison> {
    match sign {
        "=" => Some(Comparison::Equal),
        "!=" => Some(Comparison::NotEqual),
        "<" => Some(Comparison::Less),
        "<=" => Some(Comparison::AtMost),
        ">" => Some(Comparison::Greater),
        ">=" => Some(Comparison::AtLeast),
        _ => None,
    }
}

// A column, a sign and a constant as `text:<:b` or `number:>=:-3`.
fn parts_of(word: &str) -> Result<(&str, &str, &str), Fail> {
    let Some((column, rest)) = word.split_once(':') else {
        return Err("a test without a column".into());
    };
    match rest.split_once(':') {
        Some((sign, constant)) => Ok((column, sign, constant)),
        None => Err("a test without a sign".into()),
    }
}

// The test of a word, over columns 0 and 1.
fn test_of(alloc: Global, word: &str) -> Result<Filter, Fail> {
    let (column, sign, constant) = parts_of(word)?;
    let Some(test) = comparison_of(sign) else {
        return Err("another sign".into());
    };
    if column == "number" {
        return Ok(Filter::Test {
            column: 1,
            test,
            constant: Constant::Number(constant.parse()?),
        });
    }
    let constant = Constant::Text(Name::of(String::from_str(alloc, constant)?));
    Ok(Filter::Test {
        column: 0,
        test,
        constant,
    })
}

// The last two of these filters, taken off.
fn last_two(stack: &mut Vec<Filter>) -> Result<Listed<Filter>, Fail> {
    let second = stack.pop().ok_or("no second filter")?;
    let first = stack.pop().ok_or("no first filter")?;
    let mut both = Vec::new(*stack.allocator());
    both.push(first)?;
    both.push(second)?;
    Ok(Listed::of(both))
}

// The last of these filters, taken off and negated.
fn last_negated(alloc: Global, stack: &mut Vec<Filter>) -> Result<Filter, Fail> {
    match stack.pop() {
        Some(inner) => Ok(Filter::Not(Boxed::of(Box::new(alloc, inner)?))),
        None => Err("nothing to negate".into()),
    }
}

// The filter that a word makes of those before it.
fn filter_by(alloc: Global, stack: &mut Vec<Filter>, word: &str) -> Result<Filter, Fail> {
    match word {
        "and" => Ok(Filter::And(last_two(stack)?)),
        "or" => Ok(Filter::Or(last_two(stack)?)),
        "not" => last_negated(alloc, stack),
        "all" => Ok(Filter::And(Listed::of(Vec::new(alloc)))),
        "none" => Ok(Filter::Or(Listed::of(Vec::new(alloc)))),
        _ => test_of(alloc, word),
    }
}

fn push_word(alloc: Global, stack: &mut Vec<Filter>, word: &str) -> Result<(), Fail> {
    let filter = filter_by(alloc, stack, word)?;
    Ok(stack.push(filter)?)
}

/// The filter of a text of words, in which `and`, `or` and `not` stand behind what they join; `all` and
/// `none` are the empty `and` and `or`.
pub fn filter_of(alloc: Global, text: &str) -> Result<Filter, Fail> {
    let mut stack = Vec::new(alloc);
    for word in text.split(' ') {
        push_word(alloc, &mut stack, word)?;
    }
    match stack.pop() {
        Some(filter) => Ok(filter),
        None => Err("no filter".into()),
    }
}

fn says_of_number(sign: &str, number: i64, constant: i64) -> bool {
    match sign {
        "=" => number == constant,
        "!=" => number != constant,
        "<" => number < constant,
        "<=" => number <= constant,
        ">" => number > constant,
        _ => number >= constant,
    }
}

fn says_of_text(sign: &str, text: &[u8], constant: &[u8]) -> bool {
    match sign {
        "=" => text == constant,
        "!=" => text != constant,
        "<" => text < constant,
        "<=" => text <= constant,
        ">" => text > constant,
        _ => text >= constant,
    }
}

fn says_by_test(word: &str, text: &str, number: i64) -> Result<bool, Fail> {
    let (column, sign, constant) = parts_of(word)?;
    if column == "number" {
        return Ok(says_of_number(sign, number, constant.parse()?));
    }
    Ok(says_of_text(sign, text.as_bytes(), constant.as_bytes()))
}

// The answers behind a word, as the bits of a number, the last one lowest.
fn answers_behind(answers: u64, word: &str, text: &str, number: i64) -> Result<u64, Fail> {
    let last = answers & 1;
    let before = (answers >> 1) & 1;
    Ok(match word {
        "and" => (answers >> 2 << 1) | (before & last),
        "or" => (answers >> 2 << 1) | (before | last),
        "not" => answers ^ 1,
        "all" => (answers << 1) | 1,
        "none" => answers << 1,
        _ => (answers << 1) | u64::from(says_by_test(word, text, number)?),
    })
}

/// What a filter's text says of a text and a number: its words in their order, with the answers so far.
pub fn says(filter: &str, text: &str, number: i64) -> Result<bool, Fail> {
    let mut answers: u64 = 0;
    for word in filter.split(' ') {
        answers = answers_behind(answers, word, text, number)?;
    }
    Ok(answers == 1)
}

/// A landed row of two columns.
pub fn row_of(alloc: Global, first: &[u8], second: &[u8]) -> Result<RowBuf, Fail> {
    if first.len() > 1024 || second.len() > 1024 {
        return Err("a long field".into());
    }
    let mut row = RowBuf::new(alloc);
    row.add(&[0, 0, 0, 0, 0, 0, 0, 1])?;
    row.add(first)?;
    row.add(second)?;
    Ok(row)
}

/// Whether a filter keeps a row.
pub fn is_kept(filter: &Filter, row: &RowBuf) -> Result<bool, Fail> {
    let row = row.view();
    if !covers(filter, row.count()) {
        return Err("a column that isn't there".into());
    }
    Ok(keeps(filter, row))
}
