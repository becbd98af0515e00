// Dual bounds.
ghost use Rattle.std.specs.Prelude.{◌≡◌, [], length, pos, IfOk, OnOk, true};
ghost use Rattle.line_cost_model.specs.DualBounds.{CostsAtLeastIn, are_within, dual_bound};
ghost use Rattle.line_cost_model.specs.DualBounds.{multipliers_of};

use crate::multipliers::Multipliers;
use crate::pass::next_multiplier;
use crate::problem::LineProblem;
use crate::region::Region;
use crate::summed::SummedRegion;
use crate::sums::signed;
use plan_num::NoMemory;
use std::alloc::Global;

/// What a region costs at least, in millionths, and the multipliers that prove it.
#[derive(Debug, Drop)]
pub struct Bound {
    pub value: i128,
    pub multipliers: Multipliers,
}

/// A bound whose room, and that for what is left of the costs of lines, is kept for the next
/// region.
#[derive(Drop)]
pub struct KeptBound {
    pub value: i128,
    pub multipliers: Multipliers,
    pub(crate) left: Vec<u64>,
}

impl KeptBound {
    /// What any region costs at least: nothing.
    pub fn new(alloc: Global) -> KeptBound
        ensures value { result.value ≡ pos 0 }
        ensures multipliers { result.multipliers ≡ [] }
    {
        KeptBound {
            value: 0,
            multipliers: Multipliers::new(alloc),
            left: Vec::new(alloc),
        }
    }

    // The bound alone.
    fn bound(self) -> Bound
        ensures { result ≡ record { value = self.value; multipliers = self.multipliers } }
    {
        Bound {
            value: self.value,
            multipliers: self.multipliers,
        }
    }
}

impl LineProblem {
    /// What each feasible concept of a region costs at least, edge by edge: where drives are
    /// missing on an edge, its multiplier is the least that the multipliers before leave of the
    /// costs of the open lines over it. The region has a range for each line.
    pub fn dual_bound(&self, alloc: Global, region: &Region) -> Result<Bound, NoMemory>
        requires { length region.now ≡ length self.now.lines }
        ensures value { IfOk result (λ bound. bound.value ≡ pos (dual_bound self.now region.now)) }
        ensures multipliers { IfOk result
            (λ bound. bound.multipliers ≡ multipliers_of self.now region.now) }
        ensures within { IfOk result
            (λ bound. are_within self.now region.now bound.multipliers ≡ true) }
        ensures least { IfOk result
            (λ _. CostsAtLeastIn self.now region.now (dual_bound self.now region.now)) }
    {
        let region = SummedRegion::of(alloc, self, region)?;
        let mut kept = KeptBound::new(alloc);
        region.renew_bound(&mut kept)?;
        Ok(kept.bound())
    }
}

impl<'a> SummedRegion<'a> {
    /// What each feasible concept of the region costs at least, edge by edge: where drives are
    /// missing on an edge, its multiplier is the least that the multipliers before leave of the
    /// costs of the open lines over it. It takes the place of another bound.
    pub fn renew_bound(&self, bound: &mut KeptBound) -> Result<(), NoMemory>
        ensures value { OnOk result
            (bound.new.value ≡ pos (dual_bound self.now.problem self.now.ranges)) }
        ensures multipliers { OnOk result
            (bound.new.multipliers ≡ multipliers_of self.now.problem self.now.ranges) }
        ensures within { OnOk result
            (are_within self.now.problem self.now.ranges bound.new.multipliers ≡ true) }
        ensures least { OnOk result (CostsAtLeastIn self.now.problem self.now.ranges
            (dual_bound self.now.problem self.now.ranges)) }
    {
        bound.multipliers.clear();
        self.renew_costs(&mut bound.left)?;
        let mut value = self.least_millionths();
        let mut from = 0;
        while let Some(edge) = self.next_short(from) {
            from = edge + 1;
            let (missing, amount) = next_multiplier(self, edge, &bound.left);
            if amount == 0 {
                continue;
            }
            bound.multipliers.push_amount(edge, amount)?;
            value += u128::from(amount) * u128::from(missing);
            self.take_off(edge, amount, &mut bound.left);
        }
        bound.value = signed(value);
        Ok(())
    }
}
