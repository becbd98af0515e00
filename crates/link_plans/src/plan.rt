// Plans of links.
ghost use Rattle.std.specs.Prelude.{◌≡◌, ◌<◌, false, length, slice_set, replicate, None, Some};
ghost use Rattle.std.specs.Prelude.{IfOk};
ghost use Rattle.link_plans.specs.Plans.{next, is_next, is_trip, AreSuccessors};

use plan_num::NoMemory;
use std::alloc::Global;
use std::marker::Model;

/// For each trip the one that comes next, or none. Contracts see it as this list. No trip follows
/// two.
#[derive(Debug, Drop)]
pub struct Plan {
    successors: Vec<Option<usize>>,
}

impl Model for Plan {
    ghost use Rattle.std.specs.Prelude.{List, ℕ, Option};
    ghost use Rattle.link_plans.specs.Plans.{AreSuccessors};

    ghost Value = { List (Option ℕ) };

    ghost view = { λ plan. plan.successors.items };

    ghost invariant = { λ plan. AreSuccessors plan.successors.items };
}

impl Plan {
    /// A plan over so many trips in which no trip follows another.
    pub fn empty(alloc: Global, trips: usize) -> Result<Plan, NoMemory>
        ensures { IfOk result (λ plan. plan ≡ replicate trips None) }
    {
        let mut successors = Vec::new(alloc);
        for _trip in 0..trips {
            successors.push(None)?;
        }
        Ok(Plan { successors })
    }

    /// How many trips there are.
    pub fn len(&self) -> usize
        ensures count { result ≡ length self.now }
        ensures successors { AreSuccessors self.now }
    {
        self.successors.len()
    }

    /// Makes a trip the successor of another one.
    pub fn link(&mut self, i: usize, j: usize)
        requires from { i < length self.old }
        requires to { j < length self.old }
        requires free { next self.old i ≡ None }
        requires apart { is_next self.old j ≡ false }
        ensures { self.new ≡ slice_set self.old i (Some j) }
    {
        self.successors[i] = Some(j);
    }

    /// The trip that comes next after one, if there is one.
    pub fn next(&self, i: usize) -> Option<usize>
        requires { i < length self.now }
        ensures { result ≡ next self.now i }
    {
        self.successors[i]
    }

    /// Whether a trip follows another one.
    pub fn is_next(&self, j: usize) -> bool
        ensures { result ≡ is_next self.now j }
    {
        self.successors.iter().any(|next| is_trip(j, next))
    }
}

// Whether a successor is a trip.
fn is_trip(j: usize, next: &Option<usize>) -> bool
    ensures { result ≡ is_trip j next.now }
{
    match next {
        Some(other) => j == *other,
        None => false,
    }
}
