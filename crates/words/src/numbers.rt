//! Values that are numbers.

ghost use Rattle.std.specs.Prelude.{◌≡◌, ◌≤◌, IfOk, IfErr, IfSome, Option, Some, None, true, false, if◌then◌else◌};
ghost use Rattle.std.specs.Char.{is_ascii_digit};
ghost use Rattle.std.specs.List.{list_all};
ghost use Rattle.std.specs.Str.Parse.{digits_value};
ghost use Rattle.clap.specs.Words.{first_value, found_of};
ghost use Rattle.words.specs.Numbers.{fits_text, is_decimal, is_number, number_or};

use crate::WordsFault;
use clap::ArgMatches;

/// The number of an option, from the least to the greatest, or the default where it isn't given.
pub fn number(
    matches: &ArgMatches<'_>,
    name: &str,
    least: u64,
    greatest: u64,
    default: u64,
) -> Result<u64, WordsFault>
    requires from { least ≤ default }
    requires to { default ≤ greatest }
    ensures ok { IfOk result (λ n. n ≡ number_or default (first_value (found_of matches.now) name.now)) }
    ensures fits { IfOk result (λ n. fits_text least greatest (first_value (found_of matches.now) name.now) ≡ true) }
    ensures from { IfOk result (λ n. least ≤ n) }
    ensures to { IfOk result (λ n. n ≤ greatest) }
    ensures bad { IfErr result (λ e. fits_text least greatest (first_value (found_of matches.now) name.now) ≡ false) }
{
    match matches.get_str(name) {
        Some(text) => read_number(text, least, greatest).ok_or(WordsFault::BadWords),
        None => Ok(default),
    }
}

/// The number that a text of 1 to 20 digits is, if it is one from the least to the greatest.
pub fn read_number(text: &str, least: u64, greatest: u64) -> Option<u64>
    ensures value { result ≡ (if is_number least greatest text.now then Some (digits_value 10 text.now) else None) }
    ensures from { IfSome result (λ n. least ≤ n) }
    ensures to { IfSome result (λ n. n ≤ greatest) }
{
    if !is_decimal(text) {
        return None;
    }
    match text.parse::<u64>() {
        Ok(number) => {
            if least <= number && number <= greatest {
                Some(number)
            } else {
                None
            }
        }
        // 20 digits may pass 64 bits, and so each range.
        Err(_) => None,
    }
}

fn is_decimal(text: &str) -> bool
    ensures { result ≡ is_decimal text.now }
{
    !text.is_empty() && text.len() <= 20 && are_digits(text)
}

fn are_digits(text: &str) -> bool
    ensures { result ≡ list_all is_ascii_digit text.now }
{
    text.bytes().all(|byte| byte.is_ascii_digit())
}
