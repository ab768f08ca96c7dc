//! What the rows below a header are held to.

ghost use Rattle.std.specs.Prelude.{◌≡◌, ◌+◌, ◌<◌, ◌≤◌, ◌^◌, ◌++◌, ◌∷◌, [], ℕ, List, All, IfErr, IfOk, None, Some, false, OnOk, length, map, slice_index_or};
ghost use Rattle.csv.specs.Records.{fields_of};
ghost use Rattle.row_page.specs.Spelling.{row_length};
ghost use Rattle.job_text.specs.Jobs.{IsJob};
ghost use Rattle.job_plan.specs.Columns.{Fields};
ghost use Rattle.job_plan.specs.Rows.{AreBytes};
ghost use Rattle.landing.specs.Checks.{Refused, bad_place, checked, head_at, is_too_long};
ghost use Rattle.landing.specs.Explaining.{Explains, Never};
ghost use Rattle.landing.specs.Headers.{IsOfHeader};
ghost use Rattle.landing.specs.Ruling.{AreRules, IsRuled, refusal_in, row_in};

use crate::fault::LandFault;
use crate::length::is_long;
use csv::ByteRecord;
use job_plan::{Plan, PlanFault, plan};
use job_text::Job;
use row_form::{Form, NumberPlace};
use row_page::RowBuf;
use std::alloc::{AllocError, Global};

/// What the rows below a header are held to: the job's plan, where its number columns stand in the header,
/// how many fields the header has, and how many rows there may be.
#[derive(Drop)]
pub(crate) struct Rules {
    pub(crate) plan: Plan,
    pub(crate) heads: Vec<NumberPlace>,
    pub(crate) count: usize,
    pub(crate) max_rows: u64,
}

/// The rules of a job over a header, or why it is refused.
pub(crate) fn rules_of(
    alloc: Global,
    job: &Job,
    header: &ByteRecord,
    max_rows: u64,
) -> Result<Rules, LandFault>
    requires job { IsJob job.now }
    ensures rules { IfOk result (AreRules job.now (fields_of header.now)) }
    ensures most { IfOk result (λ rules. rules.max_rows ≡ max_rows) }
    ensures short { OnOk result (is_too_long (fields_of header.now) ≡ false) }
    ensures err { IfErr result (Explains
        (λ why. (rows : List Fields) → checked job.now max_rows (fields_of header.now ∷ rows) ≡ Refused why)
        ⊥ Never) }
    ensures of_header { IfErr result IsOfHeader }
{
    if is_long(header) {
        return Err(LandFault::RowTooLong { row: 0 });
    }
    let plan = match plan(alloc, job, header) {
        Ok(plan) => plan,
        Err(PlanFault::NoColumn { column }) => return Err(LandFault::NoColumn { column }),
        Err(PlanFault::NoMemory) => return Err(LandFault::NoMemory),
    };
    let Form::Landed {
        columns: _,
        numbers,
    } = plan.chain().form()
    else {
        unreachable!()
    };
    let heads = heads_of(alloc, plan.places(), numbers.items())?;
    Ok(Rules {
        plan,
        heads,
        count: header.len(),
        max_rows,
    })
}

/// The number columns as they stand in the header, by how they stand among the kept columns.
fn heads_of(
    alloc: Global,
    places: &[u32],
    numbers: &[NumberPlace],
) -> Result<Vec<NumberPlace>, AllocError>
    requires { All (λ place. place.column < length places.now) numbers.now }
    ensures { IfOk result (λ heads. heads.items ≡ map (head_at places.now) numbers.now) }
{
    let mut heads = Vec::new(alloc);
    for place in numbers {
        heads.push(NumberPlace {
            column: places[place.column as usize],
            value: place.value,
        })?;
    }
    Ok(heads)
}

/// The field at a place, and an empty one where there is none.
fn field_of(row: &ByteRecord, place: u32) -> &[u8]
    ensures { result.now ≡ slice_index_or (fields_of row.now) place [] }
{
    match row.get(place as usize) {
        Some(field) => field,
        None => &[],
    }
}

/// The first of these places whose field in a record may not stand there.
fn bad_head(heads: &[NumberPlace], row: &ByteRecord) -> Option<u32>
    ensures { result ≡ bad_place heads.now (fields_of row.now) }
{
    for head in heads {
        if !head.may_be(field_of(row, head.column)) {
            return Some(head.column);
        }
    }
    None
}

/// Whether the record is a row that may have this number.
pub(crate) fn check_row(rules: &Rules, n: u64, row: &ByteRecord) -> Result<(), LandFault>
    ensures ok { OnOk result (refusal_in rules.now n (fields_of row.now) ≡ None) }
    ensures err { IfErr result (Explains
        (λ why. refusal_in rules.now n (fields_of row.now) ≡ Some why) ⊥ Never) }
{
    if n > rules.max_rows {
        return Err(LandFault::TooManyRows);
    }
    if is_long(row) {
        return Err(LandFault::RowTooLong { row: n });
    }
    if row.len() != rules.count {
        return Err(LandFault::Ragged { row: n });
    }
    match bad_head(&rules.heads, row) {
        Some(column) => Err(LandFault::BadNumber { row: n, column }),
        None => Ok(()),
    }
}

/// Puts a field behind those of a row. After an `Err` the row has any fields.
#[inline(always)]
fn add_field(landed: &mut RowBuf, field: &[u8]) -> Result<(), AllocError>
    requires { row_length landed.old + (4 + length field.now) < 2 ^ 31 }
    ensures ok { OnOk result (landed.new ≡ landed.old ++ field.now ∷ []) }
    ensures bytes { All (λ b. b < 256) field.now }
{
    landed.add(field)
}

/// Puts the landed row of a record that passed in the place of what `landed` has.
pub(crate) fn make_row(
    rules: &Rules,
    n: u64,
    row: &ByteRecord,
    landed: &mut RowBuf,
) -> Result<(), AllocError>
    requires rules { IsRuled rules.now }
    requires passes { refusal_in rules.now n (fields_of row.now) ≡ None }
    ensures row { OnOk result (landed.new ≡ row_in rules.now n (fields_of row.now)) }
    ensures bytes { OnOk result (AreBytes landed.new) }
{
    landed.clear();
    add_field(landed, &n.to_be_bytes())?;
    for place in rules.plan.places() {
        add_field(landed, field_of(row, *place))?;
    }
    Ok(())
}
