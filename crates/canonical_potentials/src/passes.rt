// Rounds over all arcs of the residual graph.
ghost use Rattle.std.specs.Prelude.{◌≡◌, ◌<◌, false, length};
ghost use Rattle.canonical_potentials.specs.Drops.{RowKept, TripPassed, ArePassed, IsSearched};
ghost use Rattle.canonical_potentials.specs.Drops.{IsStep};
ghost use Rattle.link_plans.specs.Links.{links_in};

use crate::arcs::either;
use crate::drops::Drops;
use crate::linked_plan::LinkedPlan;
use link_plans::LinkTable;

impl Drops {
    // The links of a trip that are worth something may make better walks. One that gains less than
    // nothing makes none that matters: its trip lies no further below 0 than the root, and the
    // place to which it leads counts only where it lies further.
    fn relax_row(&mut self, trips: &LinkTable, plan: &LinkedPlan, i: usize) -> bool
        requires known { IsSearched (links_in trips.now) plan.now self.old }
        requires within { i < length trips.now }
        ensures step { IsStep (links_in trips.now) plan.now self.old self.new result }
        ensures kept { result ≡ false → RowKept (links_in trips.now) self.old i }
    {
        let links = trips.row(i);
        let mut changed = false;
        for link in links {
            let better = self.relax_link_of(trips, plan, i, *link);
            changed = either(changed, better);
        }
        changed
    }

    // All arcs that leave the left node of a trip, or join its nodes to a link or to the root.
    fn relax_trip(&mut self, trips: &LinkTable, plan: &LinkedPlan, i: usize) -> bool
        requires known { IsSearched (links_in trips.now) plan.now self.old }
        requires within { i < length trips.now }
        ensures step { IsStep (links_in trips.now) plan.now self.old self.new result }
        ensures kept { result ≡ false → TripPassed (links_in trips.now) plan.now self.old i }
    {
        let next = self.relax_next(trips, plan, i);
        let row = self.relax_row(trips, plan, i);
        let root = self.relax_root(trips, plan, i);
        either(either(next, row), root)
    }

    // All arcs.
    fn relax_all(&mut self, trips: &LinkTable, plan: &LinkedPlan) -> bool
        requires known { IsSearched (links_in trips.now) plan.now self.old }
        ensures step { IsStep (links_in trips.now) plan.now self.old self.new result }
        ensures kept { result ≡ false → ArePassed (links_in trips.now) plan.now self.old }
    {
        let mut changed = false;
        for i in 0..trips.len() {
            let better = self.relax_trip(trips, plan, i);
            changed = either(changed, better);
        }
        changed
    }

    /// Goes round over all arcs until no walk gets better.
    pub(crate) fn pass_to_end(&mut self, trips: &LinkTable, plan: &LinkedPlan)
        requires known { IsSearched (links_in trips.now) plan.now self.old }
        ensures known { IsSearched (links_in trips.now) plan.now self.new }
        ensures kept { ArePassed (links_in trips.now) plan.now self.new }
    {
        let mut changed = true;
        while changed {
            changed = self.relax_all(trips, plan);
        }
    }
}
