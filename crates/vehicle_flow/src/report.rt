// The line of the stage in a report.
ghost use Rattle.std.specs.Prelude.{◌≡◌, ◌++◌, pos, length, codes, IfOk};
ghost use Rattle.plan_num.specs.Print.{fixed_text};
ghost use Rattle.vehicle_flow.specs.PinnedSchedules.{mark_text, plan_kept};
ghost use Rattle.vehicle_flow.specs.VehicleStage.{vehicles_line};
ghost use Rattle.vehicle_model.specs.Plans.{plan_cost, starts};
ghost use Rattle.link_plans.specs.Plans.{IsPlan};
ghost use Rattle.vehicle_model.specs.Trips.{links_of};

use flow_potentials::Potentials;
use giv_files::{Stage, count_text, report_line};
use plan_num::{NoMemory, Text, print_fixed};
use std::alloc::Global;
use vehicle_model::{Plan, Trips, plan_cost};

/// The line of the report on a plan of least cost: its vehicles, and what it costs.
pub(crate) fn vehicles_line(alloc: Global, trips: &Trips, plan: &Plan) -> Result<Text, NoMemory>
    requires { IsPlan (links_of trips.now) plan.now }
    ensures { IfOk result (λ text. text ≡ vehicles_line trips.now plan.now) }
{
    report_line(
        alloc,
        Stage::Vehicles,
        &[
            count_text(alloc, vehicle_count(trips, plan), "vehicles")?,
            cost_text(alloc, trips, plan)?,
            Text::copy(alloc, b"optimal")?,
        ],
    )
}

/// The line of the report on the plan of a planner, with potentials that mark it or without.
pub(crate) fn pinned_line(
    alloc: Global,
    trips: &Trips,
    plan: &Plan,
    potentials: &Option<Potentials>,
) -> Result<Text, NoMemory>
    requires { IsPlan (links_of trips.now) plan.now }
    ensures { IfOk result
        (λ text. text ≡ (plan_kept trips.now plan.now potentials.now).report) }
{
    report_line(
        alloc,
        Stage::Vehicles,
        &[
            count_text(alloc, vehicle_count(trips, plan), "vehicles")?,
            cost_text(alloc, trips, plan)?,
            Text::copy(alloc, mark_text(potentials))?,
            Text::copy(alloc, b"pinned")?,
        ],
    )
}

// How the report tells of a mark.
fn mark_text(potentials: &Option<Potentials>) -> &'static [u8]
    ensures { result.now ≡ mark_text potentials.now }
{
    match potentials {
        Some(_) => b"optimal",
        None => b"not proved optimal",
    }
}

// How many vehicles a plan has: as many as trips without a next one.
fn vehicle_count(trips: &Trips, plan: &Plan) -> usize
    requires { IsPlan (links_of trips.now) plan.now }
    ensures { result ≡ length (starts plan.now) }
{
    let mut links = 0;
    for i in 0..trips.len() {
        if plan.next(i).is_some() {
            links += 1;
        }
    }
    trips.len() - links
}

// What a plan costs.
fn cost_text(alloc: Global, trips: &Trips, plan: &Plan) -> Result<Text, NoMemory>
    requires { IsPlan (links_of trips.now) plan.now }
    ensures { IfOk result
        (λ text. text ≡ codes "cost " ++ fixed_text (pos (plan_cost trips.now plan.now))) }
{
    let mut text = Vec::from_slice(alloc, b"cost ")?;
    let cost = plan_cost(trips, plan);
    text.extend_from_slice(print_fixed(alloc, cost)?.as_bytes())?;
    Ok(Text::from_vec(text))
}
