// Forms of rows, and fields that are numbers.
use crate::tests::lists::kind_of;
use crate::tests::scripts::plays;
use crate::tests::told::Told;
use crate::tests::words::{number_of, parted};
use row_form::{Form, NumberList, NumberPlace, is_decimal, parse_number};
use row_page::RowBuf;
use std::alloc::{AllocError, Global};
use std::test::Fail;

// Tells whether a form takes a row, and where its copy takes it otherwise.
fn put_taken(form: &Form, row: &RowBuf, greatest: u64, told: &mut Told) {
    let taken = form.accepts(row.view(), greatest);
    told.put_bool(taken);
    match form.copy() {
        Ok(copy) => told.put(if copy.accepts(row.view(), greatest) == taken {
            ""
        } else {
            "!"
        }),
        Err(_) => told.lack(),
    }
}

// An entry of the key `k` and a value of so many bytes: the first of a number, the last of another, and zeros between.
fn entry_of(alloc: Global, count: u8, first: u8, last: u8) -> Result<RowBuf, AllocError> {
    let mut value = vec![in alloc; 0u8; count as usize]?;
    if let Some(byte) = value.last_mut() {
        *byte = last;
    }
    if let Some(byte) = value.first_mut() {
        *byte = first;
    }
    let mut row = RowBuf::new(alloc);
    row.add(b"k")?;
    row.add(&value)?;
    Ok(row)
}

fn byte_of(word: &str) -> u8 {
    number_of(word).min(255) as u8
}

// Tells whether a form takes such an entry. Its bytes are told as `17:1:255`.
fn put_entry(alloc: Global, form: &Form, value: &str, greatest: u64, told: &mut Told) {
    let (count, bytes) = parted(value, ':');
    let (first, last) = parted(bytes, ':');
    match entry_of(alloc, byte_of(count), byte_of(first), byte_of(last)) {
        Ok(row) => put_taken(form, &row, greatest, told),
        Err(_) => told.lack(),
    }
}

// A landed row whose number has so many zeros, with two columns of which this is the second.
fn landed_of(alloc: Global, zeros: u8, column: &str) -> Result<RowBuf, AllocError> {
    if column.len() > 1000 {
        return Err(AllocError);
    }
    let mut row = RowBuf::new(alloc);
    row.add(&vec![in alloc; 0u8; zeros as usize]?)?;
    row.add(b"text")?;
    row.add(column.as_bytes())?;
    Ok(row)
}

// Tells whether a form takes such a row.
fn put_row(alloc: Global, form: &Form, zeros: &str, column: &str, told: &mut Told) {
    match landed_of(alloc, byte_of(zeros), column) {
        Ok(row) => put_taken(form, &row, 100, told),
        Err(_) => told.lack(),
    }
}

fn put_entries(alloc: Global, form: &Form, words: &str, told: &mut Told) {
    for word in words.split_whitespace() {
        let (row, _) = parted(word, '=');
        let (greatest, value) = parted(row, ':');
        told.begin(row);
        put_entry(alloc, form, value, number_of(greatest), told);
    }
}

/// Whether the form of a kind's entries takes one with this greatest cost and such a value.
pub fn play_entries(alloc: Global, kind: &str, words: &str, told: &mut Told) {
    match kind_of(alloc, kind) {
        Ok(kind) => put_entries(alloc, &Form::Entries(kind), words, told),
        Err(_) => told.lack(),
    }
}

fn landed(alloc: Global, place: &str) -> Result<Form, AllocError> {
    let (column, value) = parted(place, ' ');
    let place = NumberPlace {
        column: number_of(column).min(255) as u32,
        value: value == "value",
    };
    Ok(Form::Landed {
        columns: 2,
        numbers: NumberList::of(alloc, &[place])?,
    })
}

fn put_landed(alloc: Global, form: &Form, words: &str, told: &mut Told) {
    for word in words.split_whitespace() {
        let (row, _) = parted(word, '=');
        let (zeros, column) = parted(row, ':');
        told.begin(row);
        put_row(alloc, form, zeros, column, told);
    }
}

/// Whether the form of landed rows with two columns, of which the one at a place is a number or a value column, takes a row
/// with so many bytes for its number and this second column; and an entry whose value has 17 bytes.
pub fn play_landed(alloc: Global, place: &str, rest: &str, told: &mut Told) {
    let (words, _) = parted(rest, '|');
    match landed(alloc, place) {
        Ok(form) => {
            put_landed(alloc, &form, words, told);
            told.put("|");
            told.begin("entry");
            put_entry(alloc, &form, "17:1:0", 100, told);
        }
        Err(_) => told.lack(),
    }
}

// An entry with a value of 17 bytes costs 50: 24, 5 and 21. A count is never missing, and a missing sum is zeros alone. Of
// the landed rows the second column of some is no whole number, or empty, and the number of some has 7 bytes; the first
// column is a text; a place past the columns takes no row.
const FORMS: &str = "\
the form of a count|entries count| 50:17:1:0=yes 49:17:1:0=no 100:17:1:255=yes 100:16:1:0=no 100:18:1:0=no \
100:17:0:0=no 100:17:2:0=no 100:17:0:1=no 100:0:0:0=no
the form of a sum|entries sum| 50:17:1:0=yes 50:17:0:0=yes 50:17:0:1=no 50:17:2:0=no 50:17:255:0=no 50:17:1:255=yes
the form of an order|entries order| 50:17:2:0=yes 100:16:0:1=yes
a number column takes numbers alone|landed 1 number| 8:-12=yes 8:1.5=no 8:=no 7:1=no| entry=no
a value column takes nothing too|landed 1 value| 8:-12=yes 8:=yes 8:1.5=no 8:-=no 7:=no| entry=no
a text is in no number column|landed 0 number| 8:1=no 8:=no| entry=no
a text is in no value column|landed 0 value| 8:1=no 8:=no| entry=no
a value column past the columns|landed 2 value| 8:1=no 8:=no| entry=no";

#[test]
fn a_form_takes_its_rows_and_no_others(rt: HostRuntime) -> Result<(), Fail> {
    plays(&rt, rt.alloc(), FORMS)
}

/// The number that a field is, where the two calls agree whether it is one.
pub fn play_number(row: &str, told: &mut Told) {
    let (field, _) = parted(row, '=');
    told.put(field);
    let number = parse_number(field.as_bytes());
    if is_decimal(field.as_bytes()) != number.is_some() {
        told.put(" otherwise");
    }
    let is_ok = match number {
        Some(number) => write!(told.text, "={number}").is_ok(),
        None => write!(told.text, "=none").is_ok(),
    };
    told.need(is_ok);
}

// Fields, and the numbers that they are. 9223372036854775799 is the greatest number that is read digit by digit.
const NUMBERS: &str = "\
the field 0|number|0=0
the field 7|number|7=7
the field +5|number|+5=5
the field -0|number|-0=0
the field -41|number|-41=-41
the field 007|number|007=7
the field 922337203685477579|number|922337203685477579=922337203685477579
the field 9223372036854775799|number|9223372036854775799=9223372036854775799
the field -9223372036854775799|number|-9223372036854775799=-9223372036854775799
the field 9223372036854775800|number|9223372036854775800=9223372036854775800
the field 9223372036854775807|number|9223372036854775807=9223372036854775807
the field -9223372036854775808|number|-9223372036854775808=-9223372036854775808
the field 00000000000000000000000012|number|00000000000000000000000012=12
the field 9223372036854775808|number|9223372036854775808=none
the field -9223372036854775809|number|-9223372036854775809=none
the field 92233720368547758070|number|92233720368547758070=none
the field |number|=none
the field -|number|-=none
the field +|number|+=none
the field --1|number|--1=none
the field -+1|number|-+1=none
the field  1|number| 1=none
the field 1/|number|1/=none
the field 1:|number|1:=none
the field -999999999999999999|number|-999999999999999999=-999999999999999999
the field 99999999999999999:|number|99999999999999999:=none
the field 1000000000000000000|number|1000000000000000000=1000000000000000000";

#[test]
fn a_number_is_a_sign_and_digits_of_64_bits(rt: HostRuntime) -> Result<(), Fail> {
    plays(&rt, rt.alloc(), NUMBERS)
}
