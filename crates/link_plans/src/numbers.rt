// Potentials of trips.
ghost use Rattle.std.specs.Prelude.{◌≡◌, ◌+◌, ◌*◌, ◌<◌, ◌≤◌, ◌≤ℤ◌, pos, length, replicate};
ghost use Rattle.std.specs.Prelude.{slice_set, sum, unsigned_abs, All, IfOk};
ghost use Rattle.link_plans.specs.declared.limits.TheConstants.{MOST_POTENTIAL, MOST_TRIPS};
ghost use Rattle.link_plans.specs.Potentials.{at, total, ArePotentials, AreOver, IsSmall};

use plan_num::NoMemory;
use std::alloc::Global;
use std::marker::Model;

/// Two numbers for each trip, in millionths from 0 to 10^18: one is for its link to the next trip, and
/// one for that from the trip before it. Contracts see them as two lists.
#[derive(Debug)]
pub struct Potentials {
    u: Vec<u64>,
    v: Vec<u64>,
}

impl Drop for Potentials {
    fn drop(self) {
        let Potentials { u: _, v: _ } = self;
    }
}

impl Model for Potentials {
    ghost use Rattle.link_plans.specs.Potentials.{PotentialParts, ArePotentials};

    ghost Value = { PotentialParts };

    ghost view = { λ potentials. record { u = potentials.u.items; v = potentials.v.items } };

    ghost invariant = { λ potentials.
        ArePotentials (record { u = potentials.u.items; v = potentials.v.items }) };
}

impl Potentials {
    /// Potentials of so many trips that are 0.
    pub fn zeros(alloc: Global, trips: usize) -> Result<Potentials, NoMemory>
        ensures { IfOk result
            (λ made. made ≡ record { u = replicate trips 0; v = replicate trips 0 }) }
    {
        Ok(Potentials {
            u: zeros(alloc, trips)?,
            v: zeros(alloc, trips)?,
        })
    }

    /// Potentials of two lists, which have as many numbers.
    pub fn of_numbers(u: Vec<u64>, v: Vec<u64>) -> Potentials
        requires { ArePotentials (record { u = u.items; v = v.items }) }
        ensures { result ≡ record { u = u.items; v = v.items } }
    {
        Potentials { u, v }
    }

    /// All numbers of few trips together.
    pub fn total(&self) -> u128
        requires { length self.now.u ≤ MOST_TRIPS }
        ensures total { result ≡ total self.now }
        ensures small { result ≤ 4000000000000000000000 }
    {
        total(&self.u) + total(&self.v)
    }

    /// How many trips there are.
    pub fn len(&self) -> usize
        ensures over { AreOver result self.now }
        ensures potentials { ArePotentials self.now }
    {
        self.u.len()
    }

    /// The number of a trip for its link to the next one.
    pub fn u(&self, trip: usize) -> i64
        requires { trip < length self.now.u }
        ensures value { result ≡ pos (at self.now.u trip) }
        ensures low { pos 0 ≤ℤ result }
        ensures high { result ≤ℤ pos MOST_POTENTIAL }
    {
        self.u[trip] as i64
    }

    /// The number of a trip for its link from the one before.
    pub fn v(&self, trip: usize) -> i64
        requires { trip < length self.now.v }
        ensures value { result ≡ pos (at self.now.v trip) }
        ensures low { pos 0 ≤ℤ result }
        ensures high { result ≤ℤ pos MOST_POTENTIAL }
    {
        self.v[trip] as i64
    }

    /// The same without a sign.
    pub fn natural_v(&self, trip: usize) -> u64
        requires { trip < length self.now.v }
        ensures value { result ≡ at self.now.v trip }
        ensures small { result ≤ MOST_POTENTIAL }
    {
        self.v[trip]
    }

    /// The numbers of a link from a trip to another, together.
    pub fn both(&self, i: usize, j: usize) -> u64
        requires from { i < length self.now.u }
        requires to { j < length self.now.v }
        ensures { result ≡ at self.now.u i + at self.now.v j }
    {
        self.u[i] + self.v[j]
    }

    /// Gives a trip a number for its link to the next one.
    pub fn set_u(&mut self, trip: usize, value: i64)
        requires trip { trip < length self.old.u }
        requires low { pos 0 ≤ℤ value }
        requires high { value ≤ℤ pos MOST_POTENTIAL }
        ensures { self.new ≡ record { u = slice_set self.old.u trip (unsigned_abs value); v = self.old.v } }
    {
        self.u[trip] = value.unsigned_abs();
    }

    /// Gives a trip a number for its link from the one before.
    pub fn set_v(&mut self, trip: usize, value: i64)
        requires trip { trip < length self.old.v }
        requires low { pos 0 ≤ℤ value }
        requires high { value ≤ℤ pos MOST_POTENTIAL }
        ensures { self.new ≡ record { u = self.old.u; v = slice_set self.old.v trip (unsigned_abs value) } }
    {
        self.v[trip] = value.unsigned_abs();
    }
}

/// So many zeros.
pub fn zeros(alloc: Global, count: usize) -> Result<Vec<u64>, NoMemory>
    ensures { IfOk result (λ made. made.items ≡ replicate count 0) }
{
    let mut numbers = Vec::new(alloc);
    for _trip in 0..count {
        numbers.push(0)?;
    }
    Ok(numbers)
}

// The sum of some numbers.
fn total(numbers: &[u64]) -> u128
    requires small { All IsSmall numbers.now }
    requires few { length numbers.now ≤ MOST_TRIPS }
    ensures sum { result ≡ sum numbers.now }
    ensures small { result ≤ length numbers.now * MOST_POTENTIAL }
{
    let mut sum = 0;
    for number in numbers {
        sum += u128::from(*number);
    }
    sum
}
