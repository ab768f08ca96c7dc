//! How long a record is.

ghost use Rattle.std.specs.Prelude.{◌≡◌, ◌<◌, [], length, slice_index_or};
ghost use Rattle.csv.specs.Records.{fields_of};
ghost use Rattle.landing.specs.Checks.{is_too_long};

use csv::ByteRecord;

const MAX_FIELDS: usize = 1024;

const MAX_BYTES: usize = 65536;

/// The bytes of the field at a place.
fn field_len(row: &ByteRecord, i: usize) -> usize
    requires { i < length (fields_of row.now) }
    ensures { result ≡ length (slice_index_or (fields_of row.now) i []) }
{
    match row.get(i) {
        Some(field) => field.len(),
        None => 0,
    }
}

/// Whether a record has over 1,024 fields, or over 65,536 bytes in its fields together.
pub(crate) fn is_long(row: &ByteRecord) -> bool
    ensures { result ≡ is_too_long (fields_of row.now) }
{
    if row.len() > MAX_FIELDS {
        return true;
    }
    let mut left = MAX_BYTES;
    for i in 0..row.len() {
        let size = field_len(row, i);
        if size > left {
            return true;
        }
        left -= size;
    }
    false
}
