// Windows of a period in which a time is left.
ghost use Rattle.std.specs.Prelude.{◌≡◌, ℕ, ◌<◌, ◌≤◌, ◌+◌, ◌-◌, ◌*◌, ◌%◌, ◌&&◌, ◌||◌, nat_lt};
ghost use Rattle.std.specs.Prelude.{◌∷◌, [], length};
ghost use Rattle.std.specs.Prelude.{true, false};
ghost use Rattle.bit_rows.specs.Bits.{has_bit, marked};
ghost use Rattle.pesp.specs.Marks.{is_left};
ghost use Rattle.pesp.specs.Revising.{IsClear, reaches, turned_to};

use crate::marks::TimeMarks;
use crate::words::{WORDS, word_from};
use bit_rows::{cut, words_of};

/// The times of the period behind which a time is left to an event, in the window that opens so
/// many minutes behind them and is so many minutes wide.
pub(crate) fn reached(sets: &TimeMarks, event: usize, offset: usize, width: usize) -> [u64; WORDS]
    requires event { event < sets.now.rows }
    requires offset { offset ≤ sets.now.columns }
    requires width { width < sets.now.columns }
    ensures long { length result ≡ 13 }
    ensures each { (time : ℕ) → time < sets.now.columns → marked result time
        ≡ reaches sets.now.columns (is_left sets.now event) offset width time }
{
    if sets.period() <= 64 {
        reached_in_word(sets, event, offset, width)
    } else {
        reached_in_words(sets, event, offset, width)
    }
}

// Does so where the times of the period are in one word.
fn reached_in_word(sets: &TimeMarks, event: usize, offset: usize, width: usize) -> [u64; WORDS]
    requires event { event < sets.now.rows }
    requires offset { offset ≤ sets.now.columns }
    requires width { width < sets.now.columns }
    requires small { sets.now.columns ≤ 64 }
    ensures long { length result ≡ 13 }
    ensures each { (time : ℕ) → time < sets.now.columns → marked result time
        ≡ reaches sets.now.columns (is_left sets.now event) offset width time }
{
    let period = sets.period();
    let mut times = sets.word(event, 0);
    let mut span = 1;
    while span <= width {
        let by = span.min(width + 1 - span);
        times |= turned(times, period, by);
        span += by;
    }
    let mut reached = [0; WORDS];
    reached[0] = turned(times, period, offset);
    reached
}

// The times so many minutes before one that has a bit, where those of the period are in one word.
fn turned(times: u64, period: usize, by: usize) -> u64
    requires some { 1 ≤ period }
    requires small { period ≤ 64 }
    requires by { by ≤ period }
    requires clear { IsClear period (times ∷ []) }
    ensures { (time : ℕ) → marked (result ∷ []) time ≡ turned_to period (times ∷ []) by time }
{
    if by == 0 || by == period {
        return times;
    }
    cut((times >> by) | (times << (period - by)), period)
}

// Does so where they are in several words.
fn reached_in_words(sets: &TimeMarks, event: usize, offset: usize, width: usize) -> [u64; WORDS]
    requires event { event < sets.now.rows }
    requires offset { offset ≤ sets.now.columns }
    requires width { width < sets.now.columns }
    ensures long { length result ≡ 13 }
    ensures each { (time : ℕ) → time < sets.now.columns → marked result time
        ≡ reaches sets.now.columns (is_left sets.now event) offset width time }
{
    let period = sets.period();
    let mut times = sets.times_of(event);
    let mut wide = 1;
    while wide <= width {
        let by = wide.min(width + 1 - wide);
        times = widened(&times, period, by);
        wide += by;
    }
    let mut reached = [0; WORDS];
    add_turned(&mut reached, &times, period, offset);
    reached
}

// The times that have a bit, and those so many minutes before one.
fn widened(times: &[u64; WORDS], period: usize, by: usize) -> [u64; WORDS]
    requires some { 1 ≤ period }
    requires few { period ≤ 720 }
    requires by { by ≤ period }
    requires long { length times.now ≡ 13 }
    requires clear { IsClear period times.now }
    ensures long { length result ≡ 13 }
    ensures each { (time : ℕ) → marked result time
        ≡ (marked times.now time || turned_to period times.now by time) }
{
    let mut wide = *times;
    add_turned(&mut wide, times, period, by);
    wide
}

// Adds the times that are so many minutes before one that has a bit, in a period that goes round.
fn add_turned(all: &mut [u64; WORDS], times: &[u64; WORDS], period: usize, by: usize)
    requires some { 1 ≤ period }
    requires few { period ≤ 720 }
    requires by { by ≤ period }
    requires all_long { length all.old ≡ 13 }
    requires long { length times.now ≡ 13 }
    requires clear { IsClear period times.now }
    ensures long { length all.new ≡ 13 }
    ensures each { (time : ℕ) → marked all.new time
        ≡ (marked all.old time || turned_to period times.now by time) }
{
    for index in 0..words_of(period) {
        let start = 64 * index;
        all[index] |= cut(word_round(times, period, start + by), period - start);
    }
}

// The 64 bits from a time on, in a period that goes round.
fn word_round(times: &[u64; WORDS], period: usize, from: usize) -> u64
    requires some { 1 ≤ period }
    requires few { period ≤ 720 }
    requires from { from < 2 * period }
    requires long { length times.now ≡ 13 }
    requires clear { IsClear period times.now }
    ensures { (bit : ℕ) → bit < 64 → bit < period → has_bit result bit
        ≡ marked times.now ((from + bit) % period) }
{
    let start = in_period(from, period);
    let rest = period - start;
    let word = word_from(times, start);
    if rest < 64 {
        word | times[0] << rest
    } else {
        word
    }
}

// The time of the period that is shown after so many minutes, less than two periods.
fn in_period(minutes: usize, period: usize) -> usize
    requires some { 1 ≤ period }
    requires few { minutes < 2 * period }
    ensures shown { result ≡ minutes % period }
    ensures within { result < period }
{
    if minutes < period {
        minutes
    } else {
        minutes - period
    }
}
