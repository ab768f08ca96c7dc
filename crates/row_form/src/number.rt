//! Which fields are numbers.

ghost use Rattle.std.specs.Prelude.{◌≡◌, ◌<◌, ◌^◌, true, IfSome, length};
ghost use Rattle.std.specs.Str.{all_ascii_digits};
ghost use Rattle.std.specs.Str.Parse.{digits_value, starts_with_minus, without_leading_sign};
ghost use Rattle.row_form.specs.Numbers.{number, is_number};

// The greatest number behind which any digit may stand.
const MOST: u64 = 922_337_203_685_477_579;

// So many digits are in range whichever they are.
const MOST_DIGITS: usize = 18;

// The number that digits spell, where there are some, and no digit stands behind a number beyond `MOST`.
#[inline(always)]
fn short_value(digits: &[u8]) -> Option<u64>
    ensures some { IfSome result (λ value. 0 < length digits.now) }
    ensures digits { IfSome result (λ value. all_ascii_digits digits.now ≡ true) }
    ensures value { IfSome result (λ value. value ≡ digits_value 10 digits.now) }
    ensures fits { IfSome result (λ value. value < 2 ^ 63) }
{
    if digits.is_empty() {
        return None;
    }
    let mut value: u64 = 0;
    for byte in digits {
        let digit = byte.wrapping_sub(b'0');
        if digit > 9 || value > MOST {
            return None;
        }
        value = value * 10 + u64::from(digit);
    }
    Some(value)
}

// The number that a field of any length is.
#[cold]
#[inline(never)]
fn long_number(field: &[u8]) -> Option<i64>
    ensures { result ≡ number field.now }
{
    match str::from_utf8(field) {
        Ok(text) => text.parse::<i64>().ok(),
        Err(_) => None,
    }
}

// Whether a field begins with a minus.
#[inline(always)]
fn is_down(field: &[u8]) -> bool
    ensures { result ≡ starts_with_minus field.now }
{
    matches!(field.first(), Some(b'-'))
}

// A field without its sign.
#[inline(always)]
fn digits_of(field: &[u8]) -> &[u8]
    ensures { result.now ≡ without_leading_sign field.now }
{
    match field.first() {
        Some(b'-' | b'+') => &field[1..],
        _ => field,
    }
}

/// The number that a field is: an optional sign, then ASCII digits, in the range of `i64`.
#[inline(always)]
pub fn parse_number(field: &[u8]) -> Option<i64>
    ensures { result ≡ number field.now }
{
    match short_value(digits_of(field)) {
        Some(value) if is_down(field) => Some(-(value as i64)),
        Some(value) => Some(value as i64),
        None => long_number(field),
    }
}

// Whether all of these bytes are digits.
#[inline(always)]
fn are_digits(digits: &[u8]) -> bool
    ensures { result ≡ all_ascii_digits digits.now }
{
    for byte in digits {
        if byte.wrapping_sub(b'0') > 9 {
            return false;
        }
    }
    true
}

/// Whether a field is a number. No number is worked out of up to 18 digits: they are in range whichever they are.
#[tactic(auto, using(crate::proofs::Numerals::short_fits))]
#[inline(always)]
pub fn is_decimal(field: &[u8]) -> bool
    ensures { result ≡ is_number field.now }
{
    let digits = digits_of(field);
    if digits.is_empty() || digits.len() > MOST_DIGITS {
        return parse_number(field).is_some();
    }
    are_digits(digits)
}
