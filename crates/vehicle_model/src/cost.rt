// What plans cost.
ghost use Rattle.std.specs.Prelude.{◌≡◌, ◌≤◌, ◌≤ℤ◌, ◌*◌, ◌-ℤ◌, pos, true, length, is_some, Some};
ghost use Rattle.vehicle_model.specs.Plans.{plan_cost};
ghost use Rattle.link_plans.specs.Plans.{plan_gain, IsPlan};
ghost use Rattle.vehicle_model.specs.Trips.{link_minutes, links_of};

use crate::trips::Trips;
use assignment::Plan;

/// What a plan costs, in millionths: its vehicles, and the dead minutes of its links.
pub fn plan_cost(trips: &Trips, plan: &Plan) -> i128
    requires { IsPlan (links_of trips.now) plan.now }
    ensures cost { result ≡ pos (plan_cost trips.now plan.now) }
    ensures gain { result ≡ pos (trips.now.vehicle * length trips.now.trips)
        -ℤ plan_gain (links_of trips.now) plan.now }
    ensures small { result ≤ℤ pos 100000000000000000000000000000 }
{
    let mut links = 0;
    let mut minutes = 0;
    for i in 0..trips.len() {
        if let Some(j) = plan.next(i) {
            links += 1;
            minutes += minutes_of(trips, i, j);
        }
    }
    trips.cost_of(trips.len() - links, minutes)
}

/// The dead minutes of a link.
pub(crate) fn minutes_of(trips: &Trips, i: usize, j: usize) -> u64
    requires { is_some (link_minutes trips.now i j) ≡ true }
    ensures value { link_minutes trips.now i j ≡ Some result }
    ensures small { result ≤ 10000000000000 }
{
    match trips.link_minutes(i, j) {
        Some(minutes) => minutes,
        None => 0,
    }
}
