// Walks that go on.
ghost use Rattle.std.specs.Prelude.{◌≡◌, ◌≤◌, [], ◌∷◌, All, IfSome, IfNone, OnOk, OnErr};
ghost use Rattle.std.specs.List.Sorted.{IsPermutation};

use plan_num::NoMemory;
use std::alloc::Global;
use std::cmp::Reverse;
use std::collections::BinaryHeap;
use std::marker::Model;

/// Sums of walks, each with the index of the stop to which the walk comes. The least sum comes
/// first. Contracts see it as the list of these pairs, in any order.
#[derive(Drop)]
pub(crate) struct Frontier {
    heap: BinaryHeap<Reverse<(u64, usize)>>,
}

impl Model for Frontier {
    ghost use Rattle.std.specs.Prelude.{List, ℕ, map};
    ghost use Rattle.std.specs.BinaryHeap.{heap_items, IsHeap};
    ghost use Rattle.walks.specs.Frontier.{by_sum};

    ghost Value = { List (ℕ × ℕ) };

    ghost view = { λ frontier. map (λ entry. entry.0) (heap_items frontier.heap) };

    ghost invariant = { λ frontier. IsHeap by_sum (heap_items frontier.heap) };
}

impl Frontier {
    /// Before any walk.
    pub(crate) fn new(alloc: Global) -> Frontier
        ensures { result ≡ [] }
    {
        Frontier {
            heap: BinaryHeap::new(alloc),
        }
    }

    /// One more walk, of a sum and to a stop.
    pub(crate) fn push(&mut self, sum: u64, stop: usize) -> Result<(), NoMemory>
        ensures more { OnOk result (IsPermutation ((sum, stop) ∷ self.old) self.new) }
        ensures same { OnErr result (self.new ≡ self.old) }
    {
        self.heap.push(Reverse((sum, stop)))?;
        Ok(())
    }

    /// Takes out a walk of the least sum, where there is a walk.
    pub(crate) fn pop(&mut self) -> Option<(u64, usize)>
        ensures least { IfSome result (λ walk. All (λ other. walk.0 ≤ other.0) self.old) }
        ensures rest { IfSome result (λ walk. IsPermutation self.old (walk ∷ self.new)) }
        ensures none { IfNone result (self.old ≡ []) }
        ensures stays { IfNone result (self.new ≡ []) }
    {
        let Reverse(walk) = self.heap.pop()?;
        Some(walk)
    }
}
