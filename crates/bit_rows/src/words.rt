// Words of 64 bits.
ghost use Rattle.std.specs.Prelude.{◌≡◌, ℕ, ◌+◌, ◌-◌, ◌<◌, ◌≤◌, ◌&&◌, nat_lt, if◌then◌else◌};
ghost use Rattle.std.specs.Prelude.{◌++◌, ◌*◌, ◌%◌, length, All, OnOk};
ghost use Rattle.bit_rows.specs.Bits.{IsFirstBit, IsLastBit, has_bit, places_in, with_bit};
ghost use Rattle.bit_rows.specs.Bits.{words_of};

use plan_num::NoMemory;

/// How many words hold so many bits.
pub fn words_of(bits: usize) -> usize
    requires few { bits ≤ 1000000 }
    ensures value { result ≡ words_of bits }
{
    (bits + 63) / 64
}

/// Whether a bit of a word is set.
pub fn has_bit(word: u64, bit: usize) -> bool
    requires { bit < 64 }
    ensures { result ≡ has_bit word bit }
{
    (word >> bit) % 2 == 1
}

/// A word where a bit is set or not.
pub fn with_bit(word: u64, bit: usize, is: bool) -> u64
    requires { bit < 64 }
    ensures { result ≡ with_bit word bit is }
{
    if is {
        word | 1 << bit
    } else {
        word & !(1 << bit)
    }
}

/// The first bit of a word from one on that is set.
pub fn first_bit(word: u64, from: usize) -> Option<usize>
    requires { from < 64 }
    ensures { IsFirstBit word from result }
{
    let rest = word >> from;
    if rest == 0 {
        return None;
    }
    Some(from + rest.trailing_zeros() as usize)
}

/// The last bit of a word before one that is set.
pub fn last_bit(word: u64, end: usize) -> Option<usize>
    ensures { IsLastBit word end result }
{
    let rest = cut(word, end);
    if rest == 0 {
        return None;
    }
    Some(63 - rest.leading_zeros() as usize)
}

/// The first bits of a word, so many, and none of the others.
#[tactic(auto, using(crate::proofs::WordBits::cut_low))]
pub fn cut(word: u64, count: usize) -> u64
    ensures { (bit : ℕ) → bit < 64 → has_bit result bit ≡ (nat_lt bit count && has_bit word bit) }
{
    if count < 64 {
        word & ((1 << count) - 1)
    } else {
        word
    }
}

/// The last bits of a word, from one on, and behind them the first ones of another word.
#[tactic(auto, using(crate::proofs::WordBits::joined_bit))]
pub fn joined(first: u64, second: u64, from: usize) -> u64
    requires some { 1 ≤ from }
    requires few { from < 64 }
    ensures { (bit : ℕ) → bit < 64 → has_bit result bit ≡
        (if nat_lt (from + bit) 64 then has_bit first (from + bit)
        else has_bit second (from + bit - 64)) }
{
    (first >> from) | (second << (64 - from))
}

// The word at a place of rows of so many columns where all bits are set.
#[tactic(auto, using(crate::proofs::FullRows::whole_word))]
pub(crate) fn full_word(place: usize, columns: usize) -> u64
    requires some { 1 ≤ columns }
    requires few { columns ≤ 1000000 }
    ensures { (bit : ℕ) → bit < 64
        → has_bit result bit ≡ nat_lt (64 * (place % words_of columns) + bit) columns }
{
    cut(u64::MAX, columns - 64 * (place % words_of(columns)))
}

// Makes all words 0.
pub(crate) fn put_zeros(words: &mut [u64])
    ensures each { length words.new ≡ length words.old }
    ensures zeros { All (λ word. word ≡ 0) words.new }
{
    for index in 0..words.len() {
        words[index] = 0;
    }
}

// Puts the places of the bits that are set behind others, counted from the place of the first bit.
pub(crate) fn push_places(word: u64, start: usize, found: &mut Vec<usize>) -> Result<(), NoMemory>
    requires { start ≤ 1000000 }
    ensures { OnOk result (found.new.items ≡ found.old.items ++ places_in start word) }
{
    let mut left = word;
    while let Some(bit) = first_bit(left, 0) {
        found.push(start + bit)?;
        left = with_bit(left, bit, false);
    }
    Ok(())
}
