// The fields of a row, put one behind the other into a text.
ghost use Rattle.std.specs.Prelude.{◌≡◌, ◌<◌, ◌∷◌, [], List, Option, ℕ, ℤ, IfNone, IfOk, IfSome, OnOk, length, map, not, true, false};
ghost use Rattle.std.specs.Fmt.{signed_decimal};
ghost use Rattle.std.specs.List.{list_any};
ghost use Rattle.aggregate.specs.Partial.{finished_of};
ghost use Rattle.aggregate.specs.Values.{IsValueOf};
ghost use Rattle.aggregate.specs.declared.kind.Kind.TheVariants.{Group};
ghost use Rattle.row_page.specs.Grammar.{ArePieces, HasPieces};
ghost use Rattle.job_plan.specs.Telling.{key_fields, leaves_i64, told_field, value_partials};
ghost use Rattle.result_table.specs.Table.{EndsRow, IsInRow, PutsFields};
ghost use Rattle.result_table.specs.Told.{IsSpelling};

use aggregate::{AggList, Finished, finish, spellings_are_apart, take_field};
use csv::Writer;
use itoa::Buffer;
use row_page::split_piece;
use std::alloc::AllocError;

// Puts a field.
fn put_field(writer: &mut Writer<Vec<u8>>, field: &[u8]) -> Result<(), AllocError>
    ensures { OnOk result (PutsFields writer.old writer.new (field.now ∷ [])) }
{
    match writer.write_field(field) {
        Ok(()) => Ok(()),
        Err(_) => Err(AllocError),
    }
}

// Ends the row.
pub(crate) fn end_row(writer: &mut Writer<Vec<u8>>) -> Result<(), AllocError>
    ensures { OnOk result ((start : List ℕ) (fields : List (List ℕ)) →
        IsInRow start fields writer.old → EndsRow start fields writer.new) }
{
    match writer.end_record() {
        Ok(()) => Ok(()),
        Err(_) => Err(AllocError),
    }
}

// Puts the fields of an encoding, and says how many they are, if it is one of fields.
pub(crate) fn put_pieces(
    writer: &mut Writer<Vec<u8>>,
    bytes: &[u8],
) -> Result<Option<usize>, AllocError>
    ensures some { IfOk result (λ count. IfSome count (λ n. (fields : List (List ℕ)) × ArePieces bytes.now fields
        × (length fields ≡ n) × PutsFields writer.old writer.new fields)) }
    ensures none { IfOk result (λ count. IfNone count (HasPieces bytes.now → ⊥)) }
{
    let mut rest = bytes;
    let mut count = 0;
    while !rest.is_empty() {
        let Some((piece, behind)) = split_piece(rest) else {
            return Ok(None);
        };
        put_field(writer, piece)?;
        rest = behind;
        count += 1;
    }
    Ok(Some(count))
}

// Puts the fields of which a key is the spelling, and says whether it is that of so many fields.
pub(crate) fn put_key(
    writer: &mut Writer<Vec<u8>>,
    columns: usize,
    key: &[u8],
    field: &mut Vec<u8>,
) -> Result<bool, AllocError>
    ensures row { IfOk result (λ told. told ≡ true → PutsFields writer.old writer.new (key_fields columns key.now)) }
    ensures told { IfOk result (λ told. told ≡ true → IsSpelling columns (key_fields columns key.now) key.now) }
    ensures untold { IfOk result (λ told. told ≡ false →
        (fields : List (List ℕ)) → IsSpelling columns fields key.now → ⊥) }
{
    spellings_are_apart();
    let mut at = 0;
    for _column in 0..columns {
        field.clear();
        let Some(size) = take_field(&key[at..], field)? else {
            return Ok(false);
        };
        put_field(writer, field)?;
        at += size;
    }
    Ok(at == key.len())
}

// Puts what is told of a value, aggregate by aggregate, and says whether no number of it leaves `i64`.
pub(crate) fn put_numbers(
    writer: &mut Writer<Vec<u8>>,
    aggs: &AggList,
    value: &[u8],
) -> Result<bool, AllocError>
    requires value { IsValueOf (Group aggs.now) value.now }
    ensures row { IfOk result (λ told. told ≡ true →
        PutsFields writer.old writer.new (map told_field (value_partials (length aggs.now) value.now))) }
    ensures narrow { IfOk result (λ told. told ≡ not (list_any leaves_i64 (value_partials (length aggs.now) value.now))) }
{
    for place in 0..aggs.items().len() {
        if !put_told(writer, finish(aggs, value, place))? {
            return Ok(false);
        }
    }
    Ok(true)
}

// Puts what is told of a partial value, and says whether it doesn't leave `i64`.
fn put_told(writer: &mut Writer<Vec<u8>>, told: Finished) -> Result<bool, AllocError>
    ensures narrow { IfOk result (λ done. (partial : Option ℤ) → told ≡ finished_of partial →
        done ≡ not (leaves_i64 partial)) }
    ensures row { IfOk result (λ done. (partial : Option ℤ) → told ≡ finished_of partial → done ≡ true →
        PutsFields writer.old writer.new (told_field partial ∷ [])) }
{
    match told {
        Finished::Missing => put_field(writer, &[])?,
        Finished::Number(number) => put_number(writer, number)?,
        Finished::Wide => return Ok(false),
    }
    Ok(true)
}

// Puts the decimal of a number.
fn put_number(writer: &mut Writer<Vec<u8>>, number: i64) -> Result<(), AllocError>
    ensures { OnOk result (PutsFields writer.old writer.new (signed_decimal number ∷ [])) }
{
    let mut digits = Buffer::new();
    put_field(writer, digits.format(number).as_bytes())
}
