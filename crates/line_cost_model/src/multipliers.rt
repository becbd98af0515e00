// Multipliers of edges.
ghost use Rattle.plan_num.specs.declared.number.TheConstants.{NUMBER_LIMIT};
ghost use Rattle.std.specs.Prelude.{◌≡◌, ◌<◌, ◌++◌, ◌∷◌, [], ◌≤ℤ◌, pos, length, slice_get, Some};
ghost use Rattle.std.specs.Prelude.{option_map, unsigned_abs, IfOk, OnOk, OnErr};
ghost use Rattle.line_cost_model.specs.Multipliers.{AreMultipliers, IsAfter, IsAmount};

use plan_num::NoMemory;
use std::alloc::Global;
use std::marker::Model;

/// The multiplier of the edge of an index, in millionths.
#[derive(Clone, Copy, Debug)]
pub(crate) struct Multiplier {
    pub(crate) edge: usize,
    pub(crate) amount: u64,
}

/// Multipliers of edges, in millionths, the edges rising. Contracts see it as their list.
#[derive(Debug, Drop)]
pub struct Multipliers {
    list: Vec<Multiplier>,
}

impl Model for Multipliers {
    ghost use Rattle.std.specs.Prelude.{List};
    ghost use Rattle.line_cost_model.specs.declared.multipliers.Multiplier.{Multiplier};
    ghost use Rattle.line_cost_model.specs.Multipliers.{AreMultipliers};

    ghost Value = { List Multiplier };

    ghost view = { λ multipliers. multipliers.list.items };

    ghost invariant = { λ multipliers. AreMultipliers multipliers.list.items };
}

impl Multipliers {
    /// No multiplier.
    pub fn new(alloc: Global) -> Multipliers
        ensures { result ≡ [] }
    {
        Multipliers {
            list: Vec::new(alloc),
        }
    }

    /// One multiplier more, of an edge behind those that are there.
    pub fn push(&mut self, edge: usize, millionths: i64) -> Result<(), NoMemory>
        requires some { pos 1 ≤ℤ millionths }
        requires few { millionths ≤ℤ pos NUMBER_LIMIT }
        requires after { IsAfter self.old edge }
        ensures ok { OnOk result
            (self.new ≡ self.old ++ record { edge = edge; amount = unsigned_abs millionths } ∷ []) }
        ensures err { OnErr result (self.new ≡ self.old) }
    {
        self.push_amount(edge, millionths.unsigned_abs())
    }

    /// The same of an amount that is known to be one.
    pub(crate) fn push_amount(&mut self, edge: usize, amount: u64) -> Result<(), NoMemory>
        requires amount { IsAmount amount }
        requires after { IsAfter self.old edge }
        ensures ok { OnOk result
            (self.new ≡ self.old ++ record { edge = edge; amount = amount } ∷ []) }
        ensures err { OnErr result (self.new ≡ self.old) }
    {
        self.list.push(Multiplier { edge, amount })?;
        Ok(())
    }

    /// None are left.
    pub(crate) fn clear(&mut self)
        ensures { self.new ≡ [] }
    {
        self.list.clear();
    }

    /// The same ones.
    pub fn copy(&self, alloc: Global) -> Result<Multipliers, NoMemory>
        ensures same { IfOk result (λ multipliers. multipliers ≡ self.now) }
        ensures sound { IfOk result AreMultipliers }
    {
        let list = Vec::from_slice(alloc, &self.list)?;
        Ok(Multipliers { list })
    }

    /// How many there are.
    pub fn len(&self) -> usize
        ensures len { result ≡ length self.now }
        ensures sound { AreMultipliers self.now }
    {
        self.list.len()
    }

    /// The edge and the millionths of the one at a place.
    pub fn get(&self, index: usize) -> (usize, i64)
        requires { index < length self.now }
        ensures { option_map (λ at. (at.edge, pos at.amount)) (slice_get self.now index)
            ≡ Some result }
    {
        let multiplier = self.list[index];
        (multiplier.edge, multiplier.amount as i64)
    }

    /// The one at a place.
    pub(crate) fn at(&self, index: usize) -> Multiplier
        requires { index < length self.now }
        ensures { slice_get self.now index ≡ Some result }
    {
        self.list[index]
    }
}
