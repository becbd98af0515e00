// How far below 0 walks of the residual graph go.
ghost use Rattle.std.specs.Prelude.{map, ◌-◌, ◌≡◌, ◌<◌, length, replicate, slice_set, get_or, IfOk};
ghost use Rattle.canonical_potentials.specs.Canonical.{AreCanonical};
ghost use Rattle.canonical_potentials.specs.Drops.{ArePassed, IsSearched};
ghost use Rattle.link_plans.specs.Potentials.{AreValid};
ghost use Rattle.link_plans.specs.Links.{links_in};

use crate::linked_plan::LinkedPlan;
use link_plans::{LinkTable, Potentials, zeros};
use plan_num::NoMemory;
use std::alloc::Global;
use std::marker::Model;

/// For the root, and for the left and the right node of each trip, how much less than nothing some
/// walk costs that ends there.
pub(crate) struct Drops {
    root: u64,
    left: Vec<u64>,
    right: Vec<u64>,
}

impl Drop for Drops {
    fn drop(self) {
        let Drops {
            root: _,
            left: _,
            right: _,
        } = self;
    }
}

impl Model for Drops {
    ghost use Rattle.canonical_potentials.specs.Drops.{DropParts};

    ghost Value = { DropParts };

    ghost view = { λ drops. record {
      root = drops.root;
      left = drops.left.items;
      right = drops.right.items;
    } };
}

impl Drops {
    /// What walks without an arc cost.
    pub(crate) fn new(alloc: Global, trips: usize) -> Result<Drops, NoMemory>
        ensures { IfOk result (λ drops. drops
            ≡ record { root = 0; left = replicate trips 0; right = replicate trips 0 }) }
    {
        Ok(Drops {
            root: 0,
            left: zeros(alloc, trips)?,
            right: zeros(alloc, trips)?,
        })
    }

    /// The potentials of numbers that no arc makes better.
    pub(crate) fn into_potentials(
        self,
        alloc: Global,
        trips: &LinkTable,
        plan: &LinkedPlan,
    ) -> Result<Potentials, NoMemory>
        requires known { IsSearched (links_in trips.now) plan.now self }
        requires kept { ArePassed (links_in trips.now) plan.now self }
        ensures least { IfOk result (AreCanonical (links_in trips.now) plan.now) }
        ensures valid { IfOk result (AreValid (links_in trips.now) plan.now) }
    {
        let root = self.root;
        let u = below(alloc, root, &self.left)?;
        let v = above(alloc, root, &self.right)?;
        Ok(Potentials::of_numbers(u, v))
    }

    /// The number of the root.
    pub(crate) fn root(&self) -> u64
        ensures { result ≡ self.now.root }
    {
        self.root
    }

    /// The number of the left node of a trip; 0 where there is no such trip.
    pub(crate) fn left_or(&self, i: usize) -> u64
        ensures { result ≡ get_or self.now.left i 0 }
    {
        self.left.get(i).copied().unwrap_or(0)
    }

    /// Gives the root a number.
    pub(crate) fn set_root(&mut self, number: u64)
        ensures { self.new ≡ record self.old { root = number } }
    {
        self.root = number;
    }

    /// The number of the left node of a trip.
    pub(crate) fn left(&self, i: usize) -> u64
        requires { i < length self.now.left }
        ensures { result ≡ get_or self.now.left i 0 }
    {
        self.left[i]
    }

    /// The number of the right node of a trip.
    pub(crate) fn right(&self, j: usize) -> u64
        requires { j < length self.now.right }
        ensures { result ≡ get_or self.now.right j 0 }
    {
        self.right[j]
    }

    /// Gives the left node of a trip a number.
    pub(crate) fn set_left(&mut self, i: usize, number: u64)
        requires { i < length self.old.left }
        ensures { self.new ≡ record self.old { left = slice_set self.old.left i number } }
    {
        self.left[i] = number;
    }

    /// Gives the right node of a trip a number.
    pub(crate) fn set_right(&mut self, j: usize, number: u64)
        requires { j < length self.old.right }
        ensures { self.new ≡ record self.old { right = slice_set self.old.right j number } }
    {
        self.right[j] = number;
    }
}

// How far numbers lie below another one.
fn below(alloc: Global, root: u64, numbers: &[u64]) -> Result<Vec<u64>, NoMemory>
    ensures { IfOk result (λ made. made.items ≡ map (λ number. root - number) numbers.now) }
{
    let mut made = Vec::new(alloc);
    for number in numbers {
        made.push(root.saturating_sub(*number))?;
    }
    Ok(made)
}

// How far numbers lie above another one.
fn above(alloc: Global, root: u64, numbers: &[u64]) -> Result<Vec<u64>, NoMemory>
    ensures { IfOk result (λ made. made.items ≡ map (λ number. number - root) numbers.now) }
{
    let mut made = Vec::new(alloc);
    for number in numbers {
        made.push(number.saturating_sub(root))?;
    }
    Ok(made)
}
