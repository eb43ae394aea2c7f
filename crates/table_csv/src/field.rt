//! A field of a table file as a text and as a number.

ghost use Rattle.std.specs.Prelude.{◌≡◌, ◌≤◌, ◌<◌, ◌^◌, true, false, length, MatchOption, IfSome, if◌then◌else◌};
ghost use Rattle.std.specs.Char.{is_ascii_digit};
ghost use Rattle.std.specs.List.{list_all};
ghost use Rattle.std.specs.Str.Parse.{digits_value, starts_with_minus, without_leading_sign};
ghost use Rattle.table_csv.specs.Fault.{unless_faulty};
ghost use Rattle.table_csv.specs.Field.{is_text, number_codes, number_in};

use crate::codes::{NO_NUMBER, TOO_MANY_DIGITS};
use std::str;

/// The most digits of a number, as it is written.
const MOST_DIGITS: usize = 18;

/// The field as a text. It is None where the field is not UTF-8 or holds the byte 00.
pub(crate) fn text_of(field: &[u8]) -> Option<&str>
    ensures { MatchOption result (is_text field.now ≡ false)
        (λ text. (is_text field.now ≡ true) × (text.now ≡ field.now)) }
{
    let Ok(text) = str::from_utf8(field) else {
        return None;
    };
    if field.contains(&0) {
        return None;
    }
    Some(text)
}

/// The number that a field writes, or the code of its first fault.
pub(crate) fn number_of(field: &[u8]) -> Result<i64, u16>
    ensures { result ≡ unless_faulty (number_codes field.now) (number_in field.now) }
{
    let digits = without_sign(field);
    if digits.is_empty() {
        return Err(NO_NUMBER);
    }
    if digits.len() > MOST_DIGITS {
        return Err(code_of_many(digits));
    }
    let Some(size) = value_of(digits) else {
        return Err(NO_NUMBER);
    };
    let size = size as i64;
    if is_negative(field) {
        return Ok(-size);
    }
    Ok(size)
}

fn is_negative(text: &[u8]) -> bool
    ensures { result ≡ starts_with_minus text.now }
{
    matches!(text, [b'-', ..])
}

/// What stands behind an optional sign.
fn without_sign(text: &[u8]) -> &[u8]
    ensures { result.now ≡ without_leading_sign text.now }
{
    match text {
        [b'+' | b'-', digits @ ..] => digits,
        _ => text,
    }
}

fn are_digits(bytes: &[u8]) -> bool
    ensures { result ≡ list_all is_ascii_digit bytes.now }
{
    bytes.iter().all(|byte| byte.is_ascii_digit())
}

/// The code of the fault of more bytes than a number may have digits.
fn code_of_many(bytes: &[u8]) -> u16
    ensures { result ≡ (if list_all is_ascii_digit bytes.now then 505 else 504) }
{
    if are_digits(bytes) {
        TOO_MANY_DIGITS
    } else {
        NO_NUMBER
    }
}

/// The number that these bytes write, where they are digits. They are gone through once.
fn value_of(bytes: &[u8]) -> Option<u64>
    requires few { length bytes.now ≤ 18 }
    ensures value { MatchOption result (list_all is_ascii_digit bytes.now ≡ false)
        (λ value. (list_all is_ascii_digit bytes.now ≡ true)
        × (value ≡ digits_value 10 bytes.now)) }
    ensures small { IfSome result (λ value. value < 10 ^ 18) }
{
    let mut value = 0;
    for byte in bytes {
        if !byte.is_ascii_digit() {
            return None;
        }
        value = value * 10 + u64::from(*byte - b'0');
    }
    Some(value)
}
