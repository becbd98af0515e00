// What given multipliers, a named edge and least frequencies show of a region.
ghost use Rattle.std.specs.Prelude.{◌≡◌, ◌<◌, pos, length, IfOk, All};
ghost use Rattle.line_cost_model.specs.DualBounds.{are_within, bound_by};

use crate::multipliers::Multipliers;
use crate::summed::SummedRegion;
use crate::sums::signed;
use plan_num::NoMemory;

impl<'a> SummedRegion<'a> {
    /// Whether multipliers are within the costs of the open lines of the region: they take off none
    /// of these more than it costs. The room for what is left of these is kept.
    pub fn are_within(
        &self,
        multipliers: &Multipliers,
        left: &mut Vec<u64>,
    ) -> Result<bool, NoMemory>
        requires { All
            (λ multiplier. multiplier.edge < length self.now.problem.edges) multipliers.now }
        ensures { IfOk result (λ within. within
            ≡ are_within self.now.problem self.now.ranges multipliers.now) }
    {
        if multipliers.len() == 0 {
            return Ok(true);
        }
        self.renew_costs(left)?;
        for place in 0..multipliers.len() {
            let multiplier = multipliers.at(place);
            if !self.can_pay(multiplier.edge, multiplier.amount, left) {
                return Ok(false);
            }
            self.take_off(multiplier.edge, multiplier.amount, left);
        }
        Ok(true)
    }

    /// What multipliers prove of the region, in millionths: the cost of its least frequencies, and
    /// for each drive that these leave missing on an edge its multiplier.
    pub fn bound_by(&self, multipliers: &Multipliers) -> i128
        requires { All
            (λ multiplier. multiplier.edge < length self.now.problem.edges) multipliers.now }
        ensures { result ≡ pos (bound_by self.now.problem self.now.ranges multipliers.now) }
    {
        let mut value = self.least_millionths();
        for place in 0..multipliers.len() {
            let multiplier = multipliers.at(place);
            let missing = self.shortfall(multiplier.edge);
            value += u128::from(multiplier.amount) * u128::from(missing);
        }
        signed(value)
    }
}
