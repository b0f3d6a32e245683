// Whole numbers in decimal, read exactly however long the field is.
ghost use Rattle.std.specs.Prelude.{◌≡◌, ◌-◌, ◌^◌, true, pos, negsuc};
ghost use Rattle.std.specs.Option.{option_map, ok_or};
ghost use Rattle.text.specs.declared.fault.Cause.TheVariants.{BadField};
ghost use Rattle.text.specs.Faults.{fault_at};
ghost use Rattle.text.specs.Numbers.{all_digits, read_on, is_numeral, natural, negative, whole, within, WrittenOneWay};
ghost use Rattle.text.specs.Sizes.{sized, capped};

use crate::fault::{Cause, Fault, Place};

/// The largest size that an `i64` can have, that of its minimum: past it, reading gives up.
const LARGEST: u64 = 9_223_372_036_854_775_808;

fn all_digits(bytes: &[u8]) -> bool
    ensures { result ≡ all_digits bytes.now }
{
    bytes.iter().all(u8::is_ascii_digit)
}

/// One digit, or more of which the first is not 0.
fn is_numeral(field: &[u8]) -> bool
    ensures { result ≡ is_numeral field.now }
{
    !field.is_empty() && (field[0] != b'0' || field.len() == 1) && all_digits(field)
}

/// The value of a row of digits, up to the largest size.
// By the library's `parse`, which wants a `str`, a number of one or two digits took twice the time.
fn value(digits: &[u8]) -> Option<u64>
    requires { all_digits digits.now ≡ true }
    ensures { result ≡ sized (read_on 0 digits.now) }
{
    let mut size = 0u64;
    for digit in digits {
        size = size.checked_mul(10)?.checked_add(u64::from(*digit - b'0'))?;
    }
    (size <= LARGEST).then_some(size)
}

/// A number without a sign.
fn unsigned(field: &[u8]) -> Option<u64>
    ensures { result ≡ capped (natural field.now) }
{
    if !is_numeral(field) {
        return None;
    }
    value(field)
}

fn as_positive(size: Option<u64>) -> Option<i128>
    ensures { result ≡ option_map pos size }
{
    size.map(i128::from)
}

/// The number of that size below zero; there is none of size 0.
fn as_negative(size: Option<u64>) -> Option<i128>
    ensures { result ≡ negative size }
{
    size.filter(|n| *n > 0).map(|n| -i128::from(n))
}

/// A number with or without a minus.
fn any_sign(field: &[u8]) -> Option<i128>
    ensures { result ≡ within (negsuc (2 ^ 63 - 1)) (pos (2 ^ 63)) (whole field.now) }
{
    let (below, digits) = match field {
        [b'-', digits @ ..] => (true, digits),
        _ => (false, field),
    };
    let size = unsigned(digits);
    if below {
        as_negative(size)
    } else {
        as_positive(size)
    }
}

fn bounded(number: Option<i128>, low: i64, high: i64) -> Option<i64>
    ensures { result ≡ within low high number }
{
    i64::try_from(number?)
        .ok()
        .filter(|z| (low..=high).contains(z))
}

/// The number that a field means, if it is one from `low` to `high`.
fn number_within(field: &[u8], low: i64, high: i64) -> Option<i64>
    ensures value { result ≡ within low high (whole field.now) }
    ensures exactly { WrittenOneWay }
{
    bounded(any_sign(field), low, high)
}

/// The number that a field means, from `low` to `high`.
pub fn number(field: &[u8], low: i64, high: i64, place: Place) -> Result<i64, Fault>
    ensures value { result ≡ ok_or (within low high (whole field.now)) (fault_at BadField place.line place.field) }
    ensures exactly { WrittenOneWay }
{
    number_within(field, low, high).ok_or(place.fault(Cause::BadField))
}
