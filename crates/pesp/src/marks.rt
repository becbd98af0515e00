// Marks of the times that are left to events.
ghost use Rattle.std.specs.Prelude.{◌≡◌, ℕ, ◌<◌, ◌≤◌, ◌+◌, ◌*◌, ◌/◌, true};
ghost use Rattle.std.specs.Prelude.{get_or, length, IfOk, IfSome};
ghost use Rattle.bit_rows.specs.Bits.{FitsAt, marked, with_word, word_of, words_of};
ghost use Rattle.pesp.specs.Listings.{is_empty};
ghost use Rattle.pesp.specs.Marks.{AreMarks, IsNext, is_left, times_from};

use crate::words::WORDS;
use bit_rows::{BitRows, first_bit};
use plan_num::NoMemory;
use std::alloc::Global;
use std::marker::Model;

/// A row of bits for each event, with a column for each time of a period, set where the time is
/// left to the event.
#[derive(Drop)]
pub(crate) struct TimeMarks {
    bits: BitRows,
}

impl Model for TimeMarks {
    ghost use Rattle.pesp.specs.Marks.{AreMarks, Marks};

    ghost Value = { Marks };

    ghost view = { λ sets. sets.bits };

    ghost invariant = { λ sets. AreMarks sets.bits };
}

impl TimeMarks {
    /// All times of the period are left to each event.
    pub(crate) fn all(alloc: Global, period: usize, events: usize) -> Result<TimeMarks, NoMemory>
        requires some { 1 ≤ period }
        requires few { period ≤ 720 }
        requires few_events { events ≤ 4000 }
        ensures period { IfOk result (λ sets. sets.columns ≡ period) }
        ensures events { IfOk result (λ sets. sets.rows ≡ events) }
        ensures all { IfOk result (λ sets. (event time : ℕ) → event < events → time < period
            → is_left sets event time ≡ true) }
    {
        let bits = BitRows::all(alloc, events, period)?;
        Ok(TimeMarks { bits })
    }

    /// The length of the period.
    pub(crate) fn period(&self) -> usize
        ensures value { result ≡ self.now.columns }
        ensures sound { AreMarks self.now }
    {
        self.bits.columns()
    }

    /// How many events there are.
    pub(crate) fn events(&self) -> usize
        ensures value { result ≡ self.now.rows }
        ensures sound { AreMarks self.now }
    {
        self.bits.rows()
    }

    /// How many words an event has.
    pub(crate) fn width(&self) -> usize
        ensures value { result ≡ words_of self.now.columns }
        ensures sound { AreMarks self.now }
    {
        self.bits.width()
    }

    /// The word of some times of an event.
    pub(crate) fn word(&self, event: usize, index: usize) -> u64
        requires event { event < self.now.rows }
        requires index { index < words_of self.now.columns }
        ensures value { (time : ℕ) → time / 64 ≡ index → word_of self.now event time ≡ result }
        ensures sound { AreMarks self.now }
    {
        self.bits.word(event, index)
    }

    /// The place of a word of an event among the words of all, and that word.
    pub(crate) fn placed_word(&self, event: usize, index: usize) -> (usize, u64)
        requires event { event < self.now.rows }
        requires index { index < words_of self.now.columns }
        ensures place { result.0 ≡ event * words_of self.now.columns + index }
        ensures within { result.0 < self.now.rows * words_of self.now.columns }
        ensures word { result.1 ≡ get_or self.now.words result.0 0 }
        ensures sound { AreMarks self.now }
    {
        self.bits.placed_word(event, index)
    }

    /// Replaces the word at a place.
    pub(crate) fn put_word(&mut self, place: usize, word: u64)
        requires place { place < self.old.rows * words_of self.old.columns }
        requires word { FitsAt self.old.rows self.old.columns place word }
        ensures put { self.new ≡ with_word self.old place word }
        ensures sound { AreMarks self.old }
    {
        self.bits.put_word(place, word);
    }

    /// The times that are left to an event.
    pub(crate) fn times_of(&self, event: usize) -> [u64; WORDS]
        requires event { event < self.now.rows }
        ensures long { length result ≡ 13 }
        ensures each { (time : ℕ) → marked result time ≡ is_left self.now event time }
    {
        let mut times = [0; WORDS];
        for index in 0..self.width() {
            times[index] = self.word(event, index);
        }
        times
    }

    /// The first time from one on that is left to an event.
    pub(crate) fn next_left(&self, event: usize, from: usize) -> Option<usize>
        requires event { event < self.now.rows }
        ensures next { IsNext self.now event from result }
        ensures few { IfSome result (λ time. time < 720) }
    {
        for index in from / 64..self.width() {
            let word = self.word(event, index);
            if let Some(bit) = first_bit(word, from.max(64 * index) - 64 * index) {
                return Some(64 * index + bit);
            }
        }
        None
    }

    /// Whether no time is left to an event.
    pub(crate) fn is_empty(&self, event: usize) -> bool
        requires event { event < self.now.rows }
        ensures { result ≡ is_empty (times_from self.now event 0) }
    {
        self.next_left(event, 0).is_none()
    }

    /// How many times are left to an event.
    pub(crate) fn count(&self, event: usize) -> usize
        requires event { event < self.now.rows }
        ensures { result ≡ length (times_from self.now event 0) }
    {
        let mut count = 0;
        for index in 0..self.width() {
            count += self.word(event, index).count_ones() as usize;
        }
        count
    }
}
