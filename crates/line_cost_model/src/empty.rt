// Regions without a feasible concept.
ghost use Rattle.std.specs.Prelude.{◌≡◌, ◌<◌, length, slice_get, Some, option_map, IfSome};
ghost use Rattle.line_cost_model.specs.Regions.{HasNoFeasible, empty_edge, empty_side};

use crate::problem::LineProblem;
use crate::region::Region;
use crate::side::{Side, side_of};
use crate::summed::SummedRegion;
use crate::sums::ends_on;

impl LineProblem {
    /// The first edge that shows that a region has no feasible concept, and how: its least
    /// frequencies drive it too often, or its greatest ones not often enough. The region has a
    /// range for each line.
    pub fn empty_edge(&self, region: &Region) -> Option<(usize, Side)>
        requires { length region.now ≡ length self.now.lines }
        ensures first { result ≡ empty_edge self.now region.now }
        ensures none { IfSome result (λ _. HasNoFeasible self.now region.now) }
    {
        for edge in 0..self.edge_count() {
            if let Some(side) = empty_side(self, region, edge) {
                return Some((edge, side));
            }
        }
        None
    }
}

impl<'a> SummedRegion<'a> {
    /// The first edge that shows that the region has no feasible concept, and how: the least
    /// frequencies drive it too often, or the greatest ones not often enough.
    pub fn empty_edge(&self) -> Option<(usize, Side)>
        ensures first { result ≡ empty_edge self.now.problem self.now.ranges }
        ensures none { IfSome result (λ _. HasNoFeasible self.now.problem self.now.ranges) }
    {
        if self.has_no_empty_edge() {
            return None;
        }
        for edge in 0..self.edge_count() {
            if let Some(side) = self.empty_side(edge) {
                return Some((edge, side));
            }
        }
        None
    }
}

// On which side the edge at an index shows that a region has no feasible concept, where it does.
fn empty_side(problem: &LineProblem, region: &Region, edge: usize) -> Option<Side>
    requires there { edge < length problem.now.edges }
    requires each { length region.now ≡ length problem.now.lines }
    ensures { option_map (empty_side problem.now.lines region.now edge)
        (slice_get problem.now.edges edge) ≡ Some result }
{
    let (least, greatest) = ends_on(problem, region.ranges(), edge);
    side_of(problem.bounds_of(edge), least, greatest)
}
