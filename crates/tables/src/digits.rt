// Fields of digits alone, which are most of all fields.
ghost use Rattle.std.specs.Prelude.{◌≡◌, ◌<◌, ◌^◌, pos, true, length, IfSome, Some};
ghost use Rattle.plan_num.specs.Number.{all_digits, fixed_of, value_of, whole_of};
ghost use Rattle.text_fields.specs.Rows.{without_blanks, without_quotes};

use text_fields::behind_space;

// The most digits of such a field.
const MOST_DIGITS: usize = 18;

// What such a field is worth less than, where its millionths are wanted.
const UNITS_LIMIT: u64 = 1_000_000_000_000;

/// The whole number of a field of digits alone, which has not been trimmed yet. None does not say
/// that it spells no number.
pub(crate) fn plain_whole(piece: &[u8]) -> Option<i64>
    ensures { IfSome result
        (λ number. whole_of (without_quotes (without_blanks piece.now)) ≡ Some number) }
{
    match digits_value(behind_space(piece)) {
        Some(value) => Some(signed(value)),
        None => None,
    }
}

/// The same in millionths.
pub(crate) fn plain_fixed(piece: &[u8]) -> Option<i64>
    ensures { IfSome result
        (λ number. fixed_of (without_quotes (without_blanks piece.now)) ≡ Some number) }
{
    match digits_value(behind_space(piece)) {
        Some(value) if value < UNITS_LIMIT => Some(signed(value * 1_000_000)),
        _ => None,
    }
}

// What digits are worth, of which there are few, and at least one.
fn digits_value(field: &[u8]) -> Option<u64>
    ensures some { IfSome result (λ _. 0 < length field.now) }
    ensures digits { IfSome result (λ _. all_digits field.now ≡ true) }
    ensures value { IfSome result (λ value. value ≡ value_of field.now) }
    ensures few { IfSome result (λ value. value < 10 ^ 18) }
{
    if field.is_empty() || field.len() > MOST_DIGITS {
        return None;
    }
    let mut value = 0;
    for byte in field {
        if !byte.is_ascii_digit() {
            return None;
        }
        value = value * 10 + u64::from(*byte - b'0');
    }
    Some(value)
}

// A small number as a signed one.
fn signed(value: u64) -> i64
    requires { value < 10 ^ 18 }
    ensures { result ≡ pos value }
{
    value as i64
}
