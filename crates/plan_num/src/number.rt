// The numbers that fields spell.
ghost use Rattle.std.specs.Prelude.{◌≡◌, ◌+◌, ◌^◌, ◌<◌, ◌≤◌, min, pos, neg_ℤ, ◌≤ℤ◌, true};
ghost use Rattle.std.specs.Prelude.{is_some, option_map, IfSome, length, drop};
ghost use Rattle.std.specs.List.{position_or_len};
ghost use Rattle.plan_num.specs.Print.{places};
ghost use Rattle.plan_num.specs.Number.{spelling_of, value_of, value_at, is_point, all_digits};
ghost use Rattle.plan_num.specs.Number.{is_numeral, parts_of, all_zero, has_minus, magnitude_of};
ghost use Rattle.plan_num.specs.Number.{is_beyond, signed, fixed_from, whole_from, fixed_of};
ghost use Rattle.plan_num.specs.Number.{whole_of, whole_limit};
ghost use Rattle.plan_num.specs.Written.{spelled};

use crate::fixed::Fixed;
use crate::print::PLACES;

// The greatest number that may be written in a field of fixed numbers.
const FIXED_LIMIT: u64 = 1_000_000_000_000;

/// The greatest whole number in a field, and the greatest number of millionths: 10^18. Twice as much
/// fits 64 bits with a sign.
pub const NUMBER_LIMIT: u64 = 1_000_000_000_000_000_000;

// A field that has the form of a number, in its parts: digits before the point, and digits behind
// it.
#[derive(Clone, Copy)]
struct Written<'a> {
    minus: bool,
    whole: &'a [u8],
    fraction: &'a [u8],
}

/// The fixed-point number that a field spells: an optional `-`, at least one digit, and optionally
/// a point with at least one digit. Digits after the sixth are dropped. None exactly where the field
/// has another form, or where the number as it is written exceeds 10^12 in absolute value.
#[tactic(auto, unfolding(crate::specs::Number::fixed_of))]
pub fn parse_fixed(field: &[u8]) -> Option<Fixed>
    ensures { result ≡ fixed_of field.now }
{
    let written = read(field)?;
    fixed(written)
}

/// The whole number that a field spells, in the form of a fixed-point number whose digits after a
/// point are all 0. None exactly where the form differs, such a digit is not 0, or the number
/// exceeds 10^18 in absolute value.
#[tactic(auto, unfolding(crate::specs::Number::whole_of))]
pub fn parse_whole(field: &[u8]) -> Option<i64>
    ensures value { result ≡ whole_of field.now }
    ensures low { IfSome result (λ n. neg_ℤ (pos (10 ^ 18)) ≤ℤ n) }
    ensures high { IfSome result (λ n. n ≤ℤ pos (10 ^ 18)) }
{
    let written = read(field)?;
    whole(written)
}

// The millionths of a written number.
fn fixed(written: Written<'_>) -> Option<Fixed>
    requires whole { all_digits written.whole.now ≡ true }
    requires fraction { all_digits written.fraction.now ≡ true }
    ensures { result ≡ fixed_from (spelled written.entry) }
{
    if is_beyond(written) {
        return None;
    }
    let magnitude = capped_value(written.whole) * 1_000_000 + millionths(written.fraction);
    Fixed::from_millionths(with_sign(written.minus, magnitude))
}

// A written number that is whole.
fn whole(written: Written<'_>) -> Option<i64>
    requires { all_digits written.whole.now ≡ true }
    ensures value { result ≡ whole_from (spelled written.entry) }
    ensures low { IfSome result (λ n. neg_ℤ (pos (10 ^ 18)) ≤ℤ n) }
    ensures high { IfSome result (λ n. n ≤ℤ pos (10 ^ 18)) }
{
    let magnitude = capped_value(written.whole);
    if is_all_zero(written.fraction) && magnitude <= NUMBER_LIMIT {
        Some(with_sign(written.minus, magnitude))
    } else {
        None
    }
}

// Whether a written number exceeds the limit of fixed numbers.
fn is_beyond(written: Written<'_>) -> bool
    requires { all_digits written.whole.now ≡ true }
    ensures { result ≡ is_beyond (spelled written.entry) }
{
    let whole = capped_value(written.whole);
    whole > FIXED_LIMIT || (whole == FIXED_LIMIT && !is_all_zero(written.fraction))
}

// A magnitude with its sign.
fn with_sign(minus: bool, magnitude: u64) -> i64
    requires { magnitude ≤ whole_limit }
    ensures value { result ≡ signed minus magnitude }
    ensures low { neg_ℤ (pos (10 ^ 18)) ≤ℤ result }
    ensures high { result ≤ℤ pos (10 ^ 18) }
{
    let number = magnitude as i64;
    if minus { -number } else { number }
}

// The parts of a field that has the form of a number.
#[tactic(auto, unfolding(crate::specs::Number::spelling_of))]
fn read(field: &[u8]) -> Option<Written<'_>>
    ensures value { option_map spelled result ≡ spelling_of field.now }
    ensures whole { IfSome result (λ w. all_digits w.whole.now ≡ true) }
    ensures fraction { IfSome result (λ w. all_digits w.fraction.now ≡ true) }
{
    let (minus, magnitude) = without_sign(field);
    let (whole, fraction) = cut_at_point(magnitude)?;
    Some(Written {
        minus,
        whole,
        fraction,
    })
}

// Whether a minus stands in front, and what stands behind it.
fn without_sign(field: &[u8]) -> (bool, &[u8])
    ensures minus { result.0 ≡ has_minus field.now }
    ensures magnitude { result.1.now ≡ magnitude_of field.now }
{
    match field {
        [b'-', magnitude @ ..] => (true, magnitude),
        _ => (false, field),
    }
}

// The digits before a point and those behind it, where there is nothing else.
fn cut_at_point(magnitude: &[u8]) -> Option<(&[u8], &[u8])>
    ensures whole { IfSome result (λ p. all_digits p.0.now ≡ true) }
    ensures fraction { IfSome result (λ p. all_digits p.1.now ≡ true) }
    ensures value { option_map (λ p. (p.0.now, p.1.now)) result ≡ parts_of magnitude.now }
{
    let at = point_in(magnitude);
    let (whole, fraction) = (&magnitude[..at], behind(magnitude, at));
    let ends_well = at == magnitude.len() || is_numeral(fraction);
    if is_numeral(whole) && ends_well {
        Some((whole, fraction))
    } else {
        None
    }
}

// Where the first point stands, or the length where there is none.
fn point_in(magnitude: &[u8]) -> usize
    ensures place { result ≡ position_or_len is_point magnitude.now }
    ensures within { result ≤ length magnitude.now }
{
    magnitude
        .iter()
        .position(|byte| *byte == b'.')
        .unwrap_or(magnitude.len())
}

// What stands behind a place.
fn behind(bytes: &[u8], at: usize) -> &[u8]
    requires { at ≤ length bytes.now }
    ensures { result.now ≡ drop (at + 1) bytes.now }
{
    if at == bytes.len() {
        &[]
    } else {
        &bytes[at + 1..]
    }
}

// Whether there is one digit or more, and nothing else.
fn is_numeral(digits: &[u8]) -> bool
    ensures { result ≡ is_numeral digits.now }
{
    !digits.is_empty() && is_all_digits(digits)
}

// Whether there is nothing but digits.
fn is_all_digits(bytes: &[u8]) -> bool
    ensures { result ≡ all_digits bytes.now }
{
    bytes.iter().all(|byte| byte.is_ascii_digit())
}

// Whether there is nothing but zeros.
fn is_all_zero(digits: &[u8]) -> bool
    ensures { result ≡ all_zero digits.now }
{
    digits.iter().all(|digit| *digit == b'0')
}

// What digits are worth, or one more than the limit of whole numbers where they are worth more.
fn capped_value(digits: &[u8]) -> u64
    requires { all_digits digits.now ≡ true }
    ensures { result ≡ min (value_of digits.now) (whole_limit + 1) }
{
    let mut value = 0;
    for digit in digits {
        value = (value * 10 + u64::from(*digit - b'0')).min(NUMBER_LIMIT + 1);
    }
    value
}

// What the first six digits behind a point are worth, in millionths.
fn millionths(fraction: &[u8]) -> u64
    requires { all_digits fraction.now ≡ true }
    ensures value { result ≡ value_at places fraction.now }
    ensures small { result < 1000000 }
    ensures zero { all_zero fraction.now ≡ true → result ≡ 0 }
{
    let mut sum = 0;
    for (place, digit) in PLACES.iter().zip(fraction) {
        sum += u64::from(*place) * u64::from(*digit - b'0');
    }
    sum
}
