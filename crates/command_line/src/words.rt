// Numbers among words.
ghost use Rattle.std.specs.Prelude.{◌≡◌, ◌≤◌, ◌≤ℤ◌, IfSome};
ghost use Rattle.command_line.specs.FormWords.{amount_in, id_in, number_in, spelled_in};

use itoa::Buffer;
use plan_num::parse_whole;

/// The number of a word that is spelled in its shortest way and lies in a range.
pub(crate) fn number_in(least: i64, most: i64, word: &str) -> Option<i64>
    ensures number { result ≡ number_in least most word.now }
    ensures low { IfSome result (λ number. least ≤ℤ number) }
    ensures high { IfSome result (λ number. number ≤ℤ most) }
{
    match parse_whole(word.as_bytes()) {
        Some(number) => spelled_in(least, most, word, number),
        None => None,
    }
}

// The same, where the word may spell that number.
fn spelled_in(least: i64, most: i64, word: &str, number: i64) -> Option<i64>
    ensures number { result ≡ spelled_in least most word.now number }
    ensures low { IfSome result (λ number. least ≤ℤ number) }
    ensures high { IfSome result (λ number. number ≤ℤ most) }
{
    let mut buffer = Buffer::new();
    if buffer.format(number).as_bytes() == word.as_bytes() && least <= number && number <= most {
        Some(number)
    } else {
        None
    }
}

/// The amount that a word is, from 0 on.
pub(crate) fn amount_in(least: u32, most: u32, word: &str) -> Option<u32>
    ensures amount { result ≡ amount_in least most word.now }
    ensures low { IfSome result (λ amount. least ≤ amount) }
    ensures high { IfSome result (λ amount. amount ≤ most) }
{
    match number_in(i64::from(least), i64::from(most), word) {
        Some(number) => Some(number.unsigned_abs() as u32),
        None => None,
    }
}

/// The id that a word is.
pub(crate) fn id_in(word: &str) -> Option<i64>
    ensures { result ≡ id_in word.now }
{
    number_in(1, 1_000_000_000, word)
}
