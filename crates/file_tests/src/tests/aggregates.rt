// Spellings and partial values against bytes that were written by hand from the format.
use aggregate::{
    Agg, AggList, Key, Kind, Name, combine, finish, put_field, put_number, put_partial, take_field,
};
use std::alloc::Global;
use std::process::Abort;
use std::test::Fail;

// The bytes of a text: numbers with a blank between two.
fn bytes_of(alloc: Global, text: &str) -> Result<Vec<u8>, Fail> {
    let mut bytes = Vec::new(alloc);
    if text.is_empty() {
        return Ok(bytes);
    }
    for word in text.split(' ') {
        let byte: u8 = word.parse()?;
        bytes.push(byte)?;
    }
    Ok(bytes)
}

// What a row asks, and what stands behind `: `.
fn row_of(row: &str) -> Result<(&str, &str), Fail> {
    Ok(row.split_once(": ").ok_or("a row without an answer")?)
}

// The first word, and those behind it.
fn first_of(words: &str) -> Result<(&str, &str), Fail> {
    Ok(words.split_once(' ').ok_or("a row with one word")?)
}

// What the rows of a table are answered.
#[derive(Clone, Copy)]
enum What {
    Field,
    Number,
    Taken,
    Partial,
    Formed,
    Joint,
}

// What a row is answered.
fn answer(alloc: Global, what: What, asked: &str) -> Result<String, Fail> {
    match what {
        What::Field => spelled(alloc, asked),
        What::Number => spelled_number(alloc, asked),
        What::Taken => taken(alloc, asked),
        What::Partial => partial(alloc, asked),
        What::Formed => formed(alloc, asked),
        What::Joint => joined(alloc, asked),
    }
}

// Each row is answered as it says.
fn assert_rows(rt: &impl Abort, alloc: Global, what: What, rows: &str) -> Result<(), Fail> {
    for row in rows.lines() {
        let (asked, wanted) = row_of(row)?;
        let answer = answer(alloc, what, asked)?;
        assert_eq!(rt; answer.as_str(), wanted, "{row}");
    }
    Ok(())
}

// A field's spelling behind a 7.
fn spelled(alloc: Global, asked: &str) -> Result<String, Fail> {
    let (way, field) = first_of(asked)?;
    let field = bytes_of(alloc, field)?;
    let mut key = Vec::from_slice(alloc, &[7])?;
    put_field(&mut key, &field, way == "down")?;
    Ok(format!(in alloc; "{key:?}")?)
}

// A field, and its spelling behind a 7 that stood there.
const FIELDS: &str = "\
    up 97: [7, 97, 0, 0]\n\
    down 97: [7, 158, 255, 255]\n\
    up : [7, 0, 0]\n\
    down : [7, 255, 255]\n\
    up 0: [7, 0, 1, 0, 0]\n\
    down 0: [7, 255, 254, 255, 255]\n\
    up 0 1: [7, 0, 1, 1, 0, 0]\n\
    down 0 1: [7, 255, 254, 254, 255, 255]\n\
    up 255: [7, 255, 0, 0]\n\
    down 255: [7, 0, 255, 255]";

#[test]
fn fields_are_spelled_as_the_format_says(rt: HostRuntime) -> Result<(), Fail> {
    assert_rows(&rt, rt.alloc(), What::Field, FIELDS)
}

// A number's spelling behind a 7.
fn spelled_number(alloc: Global, asked: &str) -> Result<String, Fail> {
    let (way, number) = first_of(asked)?;
    let mut key = Vec::from_slice(alloc, &[7])?;
    put_number(&mut key, number.parse()?, way == "down")?;
    Ok(format!(in alloc; "{key:?}")?)
}

// A number, and its spelling behind a 7 that stood there.
const NUMBERS: &str = "\
    up 75: [7, 128, 0, 0, 0, 0, 0, 0, 75]\n\
    down 75: [7, 127, 255, 255, 255, 255, 255, 255, 180]\n\
    up 0: [7, 128, 0, 0, 0, 0, 0, 0, 0]\n\
    down 0: [7, 127, 255, 255, 255, 255, 255, 255, 255]\n\
    up -1: [7, 127, 255, 255, 255, 255, 255, 255, 255]\n\
    down -1: [7, 128, 0, 0, 0, 0, 0, 0, 0]\n\
    up -256: [7, 127, 255, 255, 255, 255, 255, 255, 0]\n\
    down -256: [7, 128, 0, 0, 0, 0, 0, 0, 255]\n\
    up -9223372036854775808: [7, 0, 0, 0, 0, 0, 0, 0, 0]\n\
    down -9223372036854775808: [7, 255, 255, 255, 255, 255, 255, 255, 255]\n\
    up 9223372036854775807: [7, 255, 255, 255, 255, 255, 255, 255, 255]\n\
    down 9223372036854775807: [7, 0, 0, 0, 0, 0, 0, 0, 0]";

#[test]
fn numbers_are_spelled_as_the_format_says(rt: HostRuntime) -> Result<(), Fail> {
    assert_rows(&rt, rt.alloc(), What::Number, NUMBERS)
}

// How long the spelling at a key's front is, and its field.
fn taken(alloc: Global, asked: &str) -> Result<String, Fail> {
    let key = bytes_of(alloc, asked)?;
    let mut into = Vec::new(alloc);
    let length = take_field(&key, &mut into)?;
    Ok(format!(in alloc; "{length:?} {into:?}")?)
}

const KEYS: &str = "\
    97 0 0: Some(3) [97]\n\
    0 0 0 0: Some(2) []\n\
    0 1 0 0 9: Some(4) [0]\n\
    0 1 1 0 0 5: Some(5) [0, 1]\n\
    255 0 0: Some(3) [255]\n\
    : None []\n\
    97 0: None []\n\
    97 0 1: None []\n\
    97 0 2 0 0: None []";

#[test]
fn a_field_is_taken_back_with_its_length(rt: HostRuntime) -> Result<(), Fail> {
    assert_rows(&rt, rt.alloc(), What::Taken, KEYS)
}

// A number, or none.
fn number_of(word: &str) -> Result<Option<i128>, Fail> {
    if word == "none" {
        return Ok(None);
    }
    let number: i128 = word.parse()?;
    Ok(Some(number))
}

// The partial values of some numbers or missing ones, with a blank between two.
fn value_of(alloc: Global, numbers: &str) -> Result<Vec<u8>, Fail> {
    let mut value = Vec::new(alloc);
    for word in numbers.split(' ') {
        put_partial(&mut value, number_of(word)?)?;
    }
    Ok(value)
}

// The bytes of the partial value of a number, or of a missing one.
fn partial(alloc: Global, asked: &str) -> Result<String, Fail> {
    let value = value_of(alloc, asked)?;
    Ok(format!(in alloc; "{value:?}")?)
}

const PARTIALS: &str = "\
    none: [0, 0, 0, 0, 0, 0, 0, 0, 0, 0, 0, 0, 0, 0, 0, 0, 0]\n\
    0: [1, 0, 0, 0, 0, 0, 0, 0, 0, 0, 0, 0, 0, 0, 0, 0, 0]\n\
    1: [1, 0, 0, 0, 0, 0, 0, 0, 0, 0, 0, 0, 0, 0, 0, 0, 1]\n\
    75: [1, 0, 0, 0, 0, 0, 0, 0, 0, 0, 0, 0, 0, 0, 0, 0, 75]\n\
    -1: [1, 255, 255, 255, 255, 255, 255, 255, 255, 255, 255, 255, 255, 255, 255, 255, 255]\n\
    1339673755198158349044581307228491536: [1, 1, 2, 3, 4, 5, 6, 7, 8, 9, 10, 11, 12, 13, 14, 15, 16]\n\
    -18446744073709551616: [1, 255, 255, 255, 255, 255, 255, 255, 255, 0, 0, 0, 0, 0, 0, 0, 0]\n\
    9223372036854775807: [1, 0, 0, 0, 0, 0, 0, 0, 0, 127, 255, 255, 255, 255, 255, 255, 255]\n\
    -9223372036854775808: [1, 255, 255, 255, 255, 255, 255, 255, 255, 128, 0, 0, 0, 0, 0, 0, 0]";

#[test]
fn partial_values_are_1_and_twos_complement_or_zeros(rt: HostRuntime) -> Result<(), Fail> {
    assert_rows(&rt, rt.alloc(), What::Partial, PARTIALS)
}

fn agg_of(name: &str) -> Result<Agg, Fail> {
    match name {
        "count" => Ok(Agg::Count),
        "sum" => Ok(Agg::Sum),
        "min" => Ok(Agg::Min),
        "max" => Ok(Agg::Max),
        _ => Err("no aggregate".into()),
    }
}

// The aggregates of these names, with a blank between two.
fn aggs_of(alloc: Global, names: &str) -> Result<AggList, Fail> {
    let mut list = Vec::new(alloc);
    for name in names.split(' ') {
        list.push(agg_of(name)?)?;
    }
    if list.is_empty() || list.len() > 8 {
        return Err("too few aggregates, or too many".into());
    }
    Ok(AggList::of(alloc, &list)?)
}

// The group of these aggregates.
fn group_of(alloc: Global, names: &str) -> Result<Kind, Fail> {
    Ok(Kind::Group(aggs_of(alloc, names)?))
}

// Combines a value into another.
fn feed(group: &Kind, total: &mut [u8], fed: &[u8]) -> Result<(), Fail> {
    let Kind::Group(aggs) = group else {
        return Err("no group".into());
    };
    if !group.takes(total) || !group.takes(fed) {
        return Err("no value of the group".into());
    }
    combine(aggs, total, fed);
    Ok(())
}

// Adds what stands at a place.
fn put_finished(
    alloc: Global,
    group: &Kind,
    total: &[u8],
    place: usize,
    shown: &mut String,
) -> Result<(), Fail> {
    let Kind::Group(aggs) = group else {
        return Err("no group".into());
    };
    if !group.takes(total) || place >= aggs.items().len() {
        return Err("no value of the group".into());
    }
    let told = finish(aggs, total, place);
    shown.push_str(format!(in alloc; "{told:?}")?.as_str())?;
    Ok(())
}

// How many aggregates a group has.
fn count_of(group: &Kind) -> usize {
    match group {
        Kind::Group(aggs) => aggs.items().len(),
        Kind::Order => 0,
    }
}

// What stands at each place, with a blank between two.
fn finished(alloc: Global, group: &Kind, total: &[u8]) -> Result<String, Fail> {
    let mut shown = String::new(alloc);
    for place in 0..count_of(group) {
        if place > 0 {
            shown.push(' ')?;
        }
        put_finished(alloc, group, total, place, &mut shown)?;
    }
    Ok(shown)
}

// Combines these numbers into a value, and tells what then stands there.
fn after(alloc: Global, group: &Kind, total: &mut [u8], fed: &str) -> Result<String, Fail> {
    let fed = value_of(alloc, fed)?;
    feed(group, total, &fed)?;
    finished(alloc, group, total)
}

// An aggregate, two numbers, of which one or both may be missing, and what it makes of them.
const JOINED: &str = "\
    count 1 1: Number(2)\n\
    count 9223372036854775807 1: Wide\n\
    sum 9223372036854775807 -9223372036854775808: Number(-1)\n\
    sum 9223372036854775807 1: Wide\n\
    sum -9223372036854775808 -1: Wide\n\
    min -1 1: Number(-1)\n\
    min 1 -1: Number(-1)\n\
    min 2 1: Number(1)\n\
    min -9223372036854775808 9223372036854775807: Number(-9223372036854775808)\n\
    min 9223372036854775807 -9223372036854775808: Number(-9223372036854775808)\n\
    min 9223372036854775807 9223372036854775807: Number(9223372036854775807)\n\
    max -1 1: Number(1)\n\
    max 1 -1: Number(1)\n\
    max -2 -1: Number(-1)\n\
    max -9223372036854775808 9223372036854775807: Number(9223372036854775807)\n\
    max 9223372036854775807 -9223372036854775808: Number(9223372036854775807)\n\
    max -9223372036854775808 -9223372036854775808: Number(-9223372036854775808)\n\
    sum none 5: Number(5)\n\
    sum -5 none: Number(-5)\n\
    sum none none: Missing\n\
    sum none 9223372036854775808: Wide\n\
    sum 9223372036854775808 none: Wide\n\
    min none 5: Number(5)\n\
    min 5 none: Number(5)\n\
    min none -5: Number(-5)\n\
    min none none: Missing\n\
    max none -5: Number(-5)\n\
    max -5 none: Number(-5)\n\
    max 5 none: Number(5)\n\
    max none none: Missing";

// What the aggregate of a row makes of its two numbers.
fn joined(alloc: Global, asked: &str) -> Result<String, Fail> {
    let (name, numbers) = first_of(asked)?;
    let (first, second) = first_of(numbers)?;
    let group = group_of(alloc, name)?;
    let mut total = value_of(alloc, first)?;
    after(alloc, &group, &mut total, second)
}

#[test]
fn each_aggregate_joins_two_numbers(rt: HostRuntime) -> Result<(), Fail> {
    assert_rows(&rt, rt.alloc(), What::Joint, JOINED)
}

// Feeds a value with one row of numbers after another, and compares what then stands there.
fn assert_totals(
    rt: &impl Abort,
    alloc: Global,
    names: &str,
    first: &str,
    rows: &str,
) -> Result<(), Fail> {
    let group = group_of(alloc, names)?;
    let mut total = value_of(alloc, first)?;
    for row in rows.lines() {
        let (fed, wanted) = row_of(row)?;
        let told = after(alloc, &group, &mut total, fed)?;
        assert_eq!(rt; told.as_str(), wanted, "after {fed}");
    }
    Ok(())
}

// What is fed, and what then stands there.
const BESIDE: &str = "\
    -5 -5 -5 1: Number(-5) Number(-2) Number(3) Number(2)\n\
    9 9 9 1: Number(-5) Number(7) Number(9) Number(3)\n\
    -2 -2 -2 1: Number(-5) Number(5) Number(9) Number(4)\n\
    9 9 9 1: Number(-5) Number(14) Number(9) Number(5)";

#[test]
fn aggregates_stand_side_by_side(rt: HostRuntime) -> Result<(), Fail> {
    assert_totals(&rt, rt.alloc(), "min sum max count", "3 3 3 1", BESIDE)
}

// A count and a number that are fed, and what then stands there.
const SUMS: &str = "\
    1 1: Number(2) Wide\n\
    1 9223372036854775807: Number(3) Wide\n\
    1 -9223372036854775808: Number(4) Number(9223372036854775807)\n\
    1 -9223372036854775808: Number(5) Number(-1)\n\
    1 -9223372036854775808: Number(6) Wide\n\
    1 1: Number(7) Number(-9223372036854775808)";

#[test]
fn a_sum_leaves_the_range_and_comes_back(rt: HostRuntime) -> Result<(), Fail> {
    assert_totals(&rt, rt.alloc(), "count sum", "1 9223372036854775807", SUMS)
}

// What is fed to missing values, and what then stands there.
const MISSING: &str = "\
    none none none 1: Missing Missing Missing Number(2)\n\
    4 4 4 1: Number(4) Number(4) Number(4) Number(3)\n\
    none none none 1: Number(4) Number(4) Number(4) Number(4)\n\
    -9 none -9 1: Number(-9) Number(4) Number(4) Number(5)\n\
    none -9 7 1: Number(-9) Number(-5) Number(7) Number(6)";

#[test]
fn a_missing_value_is_passed_over(rt: HostRuntime) -> Result<(), Fail> {
    assert_totals(
        &rt,
        rt.alloc(),
        "min sum max count",
        "none none none 1",
        MISSING,
    )
}

// A count and a number that are fed, and what then stands there.
const MISSING_SUMS: &str = "\
    1 none: Number(2) Missing\n\
    1 0: Number(3) Number(0)\n\
    1 none: Number(4) Number(0)\n\
    1 -6: Number(5) Number(-6)";

#[test]
fn a_sum_is_missing_until_a_number_comes(rt: HostRuntime) -> Result<(), Fail> {
    assert_totals(&rt, rt.alloc(), "count sum", "1 none", MISSING_SUMS)
}

// A copy of a kind, as text.
fn copied(alloc: Global, kind: &Kind) -> Result<String, Fail> {
    let copy = kind.copy()?;
    Ok(format!(in alloc; "{copy:?}")?)
}

#[test]
fn lists_and_kinds_are_copied_where_memory_is_ample(rt: HostRuntime) -> Result<(), Fail> {
    let alloc = rt.alloc();
    let aggs = aggs_of(alloc, "sum count sum")?.copy()?;
    let list = [Agg::Sum, Agg::Count, Agg::Sum];
    assert_eq!(rt; aggs.items(), list.as_slice());
    assert_eq!(rt;
        copied(alloc, &Kind::Group(aggs))?.as_str(),
        "Group(AggList { items: [Sum, Count, Sum] })"
    );
    assert_eq!(rt; copied(alloc, &Kind::Order)?.as_str(), "Order");
    Ok(())
}

// The 17 bytes of a text such as `1,255`: the first, and 16 times another.
fn slot_of(word: &str) -> Result<[u8; 17], Fail> {
    let (first, others) = word.split_once(',').ok_or("a slot of one byte")?;
    let mut slot = [others.parse()?; 17];
    slot[0] = first.parse()?;
    Ok(slot)
}

// Whether a group takes the value of these slots.
fn formed(alloc: Global, asked: &str) -> Result<String, Fail> {
    let (names, slots) = asked.split_once('|').ok_or("a row without slots")?;
    let group = group_of(alloc, names)?;
    let mut value = Vec::new(alloc);
    for word in slots.split_whitespace() {
        value.extend_from_slice(&slot_of(word)?)?;
    }
    let is_formed = group.takes(&value);
    Ok(format!(in alloc; "{is_formed}")?)
}

// Aggregates, the slots of a value, and whether it is one of theirs: a count is never missing, and where a value is
// missing all bytes are zeros.
const FORMED: &str = "\
    count sum|1,0 1,0: true\n\
    count sum|1,255 1,7: true\n\
    count sum|1,0 0,0: true\n\
    count sum|0,0 1,0: false\n\
    count sum|1,0 0,1: false\n\
    count sum|1,0 2,0: false\n\
    count sum|2,0 1,0: false\n\
    count sum|255,0 1,0: false\n\
    count sum|1,0: false\n\
    count sum|1,0 1,0 1,0: false\n\
    count sum|: false\n\
    count|0,0: false\n\
    sum|0,0: true\n\
    min|0,0: true\n\
    max|0,0: true\n\
    min|0,255: false\n\
    max|3,0: false";

#[test]
fn a_value_is_a_number_or_zeros_for_each_aggregate(rt: HostRuntime) -> Result<(), Fail> {
    assert_rows(&rt, rt.alloc(), What::Formed, FORMED)
}

#[test]
fn a_value_of_two_aggregates_has_34_bytes(rt: HostRuntime) -> Result<(), Fail> {
    let group = Kind::Group(aggs_of(rt.alloc(), "count sum")?);
    assert!(rt; group.takes(&[1; 34]));
    assert!(rt; !group.takes(&[1; 33]), "a byte is missing");
    assert!(rt; !group.takes(&[1; 35]), "a byte is too many");
    assert!(rt;
        Kind::Order.takes(&[0; 31]),
        "an order's value is any bytes"
    );
    Ok(())
}

#[test]
fn names_and_keys_give_their_bytes_back(rt: HostRuntime) -> Result<(), Fail> {
    let name = Name::of(Vec::from_slice(rt.alloc(), b"price")?);
    let key = Key::of(Vec::from_slice(rt.alloc(), b"k774")?);
    assert_eq!(rt; name.bytes(), b"price".as_slice());
    assert_eq!(rt; key.bytes(), b"k774".as_slice());
    Ok(())
}
