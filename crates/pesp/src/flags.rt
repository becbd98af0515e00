// Flags of events.
ghost use Rattle.std.specs.Prelude.{◌≡◌, ◌⊎◌, ℕ, ◌+◌, ◌*◌, ◌/◌, ◌<◌, ◌≤◌, ◌==◌, length, true};
ghost use Rattle.std.specs.Prelude.{false, slice_set, IfOk};
ghost use Rattle.bit_rows.specs.Bits.{has_bit};
ghost use Rattle.pesp.specs.Flags.{IsLastFlag, has_changed, some_changed};

use bit_rows::{BitRows, last_bit};
use plan_num::NoMemory;
use std::alloc::Global;
use std::marker::Model;

/// A flag for each event, as a row of bits. Outside of a range of words no flag is set. Contracts
/// see it as a list of flags.
pub(crate) struct EventFlags {
    bits: BitRows,
    low: usize,
    high: usize,
}

impl Drop for EventFlags {
    fn drop(self) {
        let EventFlags {
            bits: _,
            low: _,
            high: _,
        } = self;
    }
}

impl Model for EventFlags {
    ghost use Rattle.std.specs.Prelude.{◌≡◌, ◌≤◌};
    ghost use Rattle.pesp.specs.Flags.{Flags, IsClearOutside, flags_of};

    ghost Value = { Flags };

    ghost view = { λ flags. flags_of flags.bits };

    ghost invariant = { λ flags. (flags.bits.rows ≡ 1) × (flags.bits.columns ≤ 4000)
        × IsClearOutside flags.low flags.high flags.bits };
}

impl EventFlags {
    /// Flags of so many events, of which none is set.
    pub(crate) fn none(alloc: Global, events: usize) -> Result<EventFlags, NoMemory>
        requires { events ≤ 4000 }
        ensures events { IfOk result (λ flags. length flags ≡ events) }
        ensures none { IfOk result (λ flags. (event : ℕ) → has_changed flags event ≡ false) }
    {
        let bits = BitRows::none(alloc, 1, events)?;
        Ok(EventFlags {
            bits,
            low: events,
            high: 0,
        })
    }

    /// Flags of so many events, which are all set.
    pub(crate) fn all(alloc: Global, events: usize) -> Result<EventFlags, NoMemory>
        requires { events ≤ 4000 }
        ensures events { IfOk result (λ flags. length flags ≡ events) }
        ensures all { IfOk result
            (λ flags. (event : ℕ) → event < events → has_changed flags event ≡ true) }
    {
        let mut flags = EventFlags::none(alloc, events)?;
        for event in 0..events {
            flags.put(event, true);
        }
        Ok(flags)
    }

    /// Sets the flag of one event alone.
    pub(crate) fn set_alone(&mut self, event: usize)
        requires { event < length self.old }
        ensures events { length self.new ≡ length self.old }
        ensures alone { (other : ℕ) → has_changed self.new other ≡ (other == event) }
    {
        self.clear();
        self.put(event, true);
    }

    // Takes all flags away.
    fn clear(&mut self)
        ensures events { length self.new ≡ length self.old }
        ensures none { (event : ℕ) → has_changed self.new event ≡ false }
    {
        self.bits.clear_all();
        self.low = self.bits.columns();
        self.high = 0;
    }

    /// How many events there are.
    pub(crate) fn events(&self) -> usize
        ensures value { result ≡ length self.now }
        ensures few { length self.now ≤ 4000 }
    {
        self.bits.columns()
    }

    // The word of the flags of some events.
    fn word(&self, index: usize) -> u64
        requires { index < (length self.now + 63) / 64 }
        ensures { (bit : ℕ) → bit < 64 → 64 * index + bit < length self.now
            → has_bit result bit ≡ has_changed self.now (64 * index + bit) }
    {
        self.bits.word(0, index)
    }

    /// Sets the flag of an event or takes it away.
    pub(crate) fn put(&mut self, event: usize, flag: bool)
        requires { event < length self.old }
        ensures { self.new ≡ slice_set self.old event flag }
    {
        let index = event / 64;
        self.bits.put(0, event, flag);
        self.low = self.low.min(index);
        self.high = self.high.max(index + 1);
    }

    /// Whether some flag is set.
    pub(crate) fn has_some(&self) -> bool
        ensures { result ≡ some_changed self.now }
    {
        self.last(self.events()).is_some()
    }

    // The first word and the end of those in which flags may be set.
    fn range(&self) -> (usize, usize)
        ensures clear { (event : ℕ) → (event / 64 < result.0) ⊎ (result.1 ≤ event / 64)
            → has_changed self.now event ≡ false }
        ensures few { length self.now ≤ 4000 }
    {
        (self.low, self.high)
    }

    /// The last event before one whose flag is set.
    pub(crate) fn last(&self, end: usize) -> Option<usize>
        requires { end ≤ length self.now }
        ensures { IsLastFlag self.now end result }
    {
        let (low, high) = self.range();
        let mut index = ((end + 63) / 64).min(high);
        while index > low {
            index -= 1;
            if let Some(bit) = last_bit(self.word(index), end - 64 * index) {
                return Some(64 * index + bit);
            }
        }
        None
    }
}
