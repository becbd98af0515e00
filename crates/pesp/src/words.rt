// Words with a bit for each time of a period.
ghost use Rattle.std.specs.Prelude.{◌≡◌, ℕ, ◌+◌, ◌<◌, length};
ghost use Rattle.bit_rows.specs.Bits.{has_bit, marked};

use bit_rows::joined;

/// How many words hold a set of times that is worked on: up to 12 for the times of a period, and
/// one behind them in which no bit is set.
pub(crate) const WORDS: usize = 13;

/// The 64 bits from a place on.
pub(crate) fn word_from(words: &[u64; WORDS], place: usize) -> u64
    requires long { length words.now ≡ 13 }
    requires within { place < 768 }
    ensures { (bit : ℕ) → bit < 64 → has_bit result bit ≡ marked words.now (place + bit) }
{
    let index = place / 64;
    let past = place % 64;
    if past == 0 {
        return words[index];
    }
    joined(words[index], words[index + 1], past)
}
