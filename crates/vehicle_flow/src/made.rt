// What the stage makes of its trips.
ghost use Rattle.std.specs.Prelude.{◌≡◌, length, IfOk};
ghost use Rattle.flow_potentials.specs.PotentialTables.{potentials_text};
ghost use Rattle.link_plans.specs.Potentials.{AreOver, AreValid};
ghost use Rattle.canonical_potentials.specs.Rounds.{canonical};
ghost use Rattle.vehicle_flow.specs.VehicleStage.{vehicles_made};
ghost use Rattle.vehicle_model.specs.Plans.{chosen_plan};
ghost use Rattle.link_plans.specs.Plans.{IsPlan};
ghost use Rattle.vehicle_model.specs.Trips.{links_of};

use crate::cheapest::cheapest_of;
use crate::report::vehicles_line;
use assignment::{Potentials, Solved, canonical_potentials, first_best_plan};
use flow_potentials::{links_of_trips, write_potentials};
use giv_files::{Made, MadeFile, MadeList};
use plan_num::{NoMemory, Text};
use std::alloc::Global;
use tables::FileId;
use vehicle_model::{Trips, write_plan};

/// What is made of trips: the schedule of the chosen plan, its canonical potentials, and the line of
/// the report.
pub(crate) fn vehicles_made(alloc: Global, trips: &Trips) -> Result<Made, NoMemory>
    ensures { IfOk result (λ made. made ≡ vehicles_made trips.now (chosen_plan trips.now)) }
{
    let chosen = chosen_solution(alloc, trips)?;
    let mut files = MadeList::new(alloc);
    files.push(MadeFile {
        file: FileId::Schedule,
        text: write_plan(alloc, trips, &chosen.plan)?,
    })?;
    files.push(MadeFile {
        file: FileId::Potential,
        text: potentials_text(alloc, trips, &chosen.potentials)?,
    })?;
    Ok(Made {
        files,
        report: vehicles_line(alloc, trips, &chosen.plan)?,
    })
}

// The chosen plan, with its canonical potentials.
fn chosen_solution(alloc: Global, trips: &Trips) -> Result<Solved, NoMemory>
    ensures possible { IfOk result (λ chosen. IsPlan (links_of trips.now) chosen.plan) }
    ensures valid { IfOk result (λ chosen.
        AreValid (links_of trips.now) chosen.plan chosen.potentials) }
    ensures plan { IfOk result (λ chosen. chosen.plan ≡ chosen_plan trips.now) }
    ensures potentials { IfOk result (λ chosen.
        chosen.potentials ≡ canonical (links_of trips.now) chosen.plan) }
{
    let links = links_of_trips(alloc, trips)?;
    let solved = cheapest_of(alloc, trips, &links)?;
    let plan = first_best_plan(alloc, &links, &solved)?;
    let potentials = canonical_potentials(alloc, &links, &plan, &solved.potentials)?;
    Ok(Solved { plan, potentials })
}

/// The text of potentials of all trips, which are few.
pub(crate) fn potentials_text(
    alloc: Global,
    trips: &Trips,
    potentials: &Potentials,
) -> Result<Text, NoMemory>
    requires { AreOver (length trips.now.trips) potentials.now }
    ensures { IfOk result (λ text. text ≡ potentials_text potentials.now) }
{
    trips.are_trips();
    write_potentials(alloc, potentials)
}
