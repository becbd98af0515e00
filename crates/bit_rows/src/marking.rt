// Marks of places, the next of which is found fast.
ghost use Rattle.std.specs.Prelude.{ℕ, ◌≡◌, ◌<◌, ◌≤◌, ◌/◌, ◌%◌, false, get_or, length};
ghost use Rattle.std.specs.Prelude.{replicate, slice_set, IfOk};
ghost use Rattle.bit_rows.specs.Bits.{with_bit};
ghost use Rattle.bit_rows.specs.Markings.{Covers, IsNext, IsNextBit, IsNextWord, IsWithin};
ghost use Rattle.bit_rows.specs.Markings.{most_places};

use crate::words::{first_bit, with_bit};
use plan_num::NoMemory;
use std::alloc::Global;
use std::marker::Model;

/// Which of some places are marked: bits of words, and a bit for each word, without which no mark
/// stands in it. Contracts see it as one truth value for each place.
#[derive(Drop)]
pub struct Marking {
    count: usize,
    words: Vec<u64>,
    blocks: Vec<u64>,
}

impl Model for Marking {
    ghost use Rattle.std.specs.Prelude.{Bool, List};
    ghost use Rattle.bit_rows.specs.Markings.{AreBlocked, marks_of};

    ghost Value = { List Bool };

    ghost view = { λ m. marks_of m.words.items m.count };

    ghost invariant = { λ m. AreBlocked m.count m.words.items m.blocks.items };
}

impl Marking {
    /// No place of so many is marked. It takes a bit for each, and a bit for each 64.
    #[tactic(auto, using(crate::proofs::MarkWords::none_marked))]
    pub fn none(alloc: Global, count: usize) -> Result<Marking, NoMemory>
        requires few { count ≤ most_places }
        ensures { IfOk result (λ marks. marks ≡ replicate count false) }
    {
        let words = count / 64 + 1;
        Ok(Marking {
            count,
            words: vec![in alloc; 0; words]?,
            blocks: vec![in alloc; 0; words / 64 + 1]?,
        })
    }

    /// No place is marked any more.
    #[tactic(auto, using(crate::proofs::MarkWords::none_marked, crate::proofs::MarkWords::size_is))]
    pub fn clear(&mut self)
        ensures { self.new ≡ replicate (length self.old) false }
    {
        put_zeros(&mut self.words);
        put_zeros(&mut self.blocks);
    }

    /// Marks a place, or takes its mark away.
    pub fn set(&mut self, place: usize, is: bool)
        requires { place < length self.old }
        ensures { self.new ≡ slice_set self.old place is }
    {
        let some = put(&mut self.words, place, is);
        put(&mut self.blocks, place / 64, some);
    }

    /// The first place from one on that is marked.
    pub fn next(&self, from: usize) -> Option<usize>
        ensures { IsNext self.now from result }
    {
        within(next_bit(&self.words, &self.blocks, from), self.count)
    }
}

// A place that was found, where it is one of so many.
fn within(found: Option<usize>, count: usize) -> Option<usize>
    ensures { IsWithin count found result }
{
    match found {
        None => None,
        Some(place) => { if place < count { Some(place) } else { None } }
    }
}

// All words are 0.
fn put_zeros(words: &mut Vec<u64>)
    ensures { words.new.items ≡ replicate (length words.old.items) 0 }
{
    words.fill(0);
}

// A bit of words is set or taken away; whether its word has one then.
fn put(words: &mut Vec<u64>, place: usize, is: bool) -> bool
    requires { place / 64 < length words.old.items }
    ensures put { words.new.items ≡ slice_set words.old.items (place / 64)
        (with_bit (get_or words.old.items (place / 64) 0) (place % 64) is) }
    ensures some { result ≡ false → get_or words.new.items (place / 64) 0 ≡ 0 }
{
    let word = with_bit(words[place / 64], place % 64, is);
    words[place / 64] = word;
    word != 0
}

// The first bit of words from a place on, where a bit of others stands for each word that has one.
fn next_bit(words: &[u64], blocks: &[u64], from: usize) -> Option<usize>
    requires few { length words.now ≤ most_places }
    requires covers { Covers words.now blocks.now }
    ensures { IsNextBit words.now from result }
{
    let mut place = from;
    while place / 64 < words.len() {
        if let Some(bit) = first_bit(words[place / 64], place % 64) {
            return Some(place / 64 * 64 + bit);
        }
        match next_word(words, blocks, place / 64 + 1) {
            None => return None,
            Some(word) => place = 64 * word,
        }
    }
    None
}

// The first word from one on that may have a bit.
fn next_word(words: &[u64], blocks: &[u64], from: usize) -> Option<usize>
    requires few { length words.now ≤ most_places }
    requires covers { Covers words.now blocks.now }
    ensures { IsNextWord words.now from result }
{
    let mut word = from;
    while word < words.len() {
        if let Some(bit) = first_bit(blocks[word / 64], word % 64) {
            return Some(word / 64 * 64 + bit);
        }
        word = word / 64 * 64 + 64;
    }
    None
}
