// The bounds of the frequency of an edge by its load.
ghost use Rattle.std.specs.Prelude.{◌≡◌, ◌≤◌, map, All, IfOk, ⊤};
ghost use Rattle.tables.specs.Inputs.{UnlessFault};
ghost use Rattle.demand_load.specs.LoadStage.{bounded, frequency_faults};
ghost use Rattle.demand_load.specs.LoadTables.{HasSpread};

use giv_files::{Key, Settings};
use plan_num::NoMemory;
use ptn_network::EdgeLoad;
use std::alloc::Global;
use tables::{Counted, Refusal, StageFault};

const MOST_FREQUENT: i64 = 1_000;

/// Loads with their bounds of frequency.
pub(crate) fn bounds_of(
    alloc: Global,
    settings: &Settings,
    loads: &[u64],
) -> Result<Vec<EdgeLoad>, NoMemory>
    requires settings { HasSpread settings.now }
    requires loads { All (λ load. load ≤ 100000000000000000) loads.now }
    ensures { IfOk result (λ bounds. bounds.items ≡ map (bounded settings.now) loads.now) }
{
    let mut bounds = Vec::new(alloc);
    for load in loads {
        bounds.push(bounded(settings, *load))?;
    }
    Ok(bounds)
}

// A load with its bounds of frequency.
fn bounded(settings: &Settings, load: u64) -> EdgeLoad
    requires settings { HasSpread settings.now }
    requires load { load ≤ 100000000000000000 }
    ensures { result ≡ bounded settings.now load }
{
    let places = settings.amount(Key::GenPassengersPerVehicle) * 1_000_000;
    let least = load.div_ceil(places);
    EdgeLoad {
        load: load as i64,
        least: least as i64,
        most: (least + settings.amount(Key::LoadSpread)) as i64,
    }
}

/// Refuses the first maximal frequency that is too great.
pub(crate) fn check_frequencies(loads: &[EdgeLoad]) -> Result<(), StageFault>
    ensures { UnlessFault (frequency_faults loads.now) (λ _. ⊤) result }
{
    for load in loads {
        if load.most > MOST_FREQUENT {
            return Err(StageFault::Refused(Refusal::TooMany {
                what: Counted::Frequency,
                count: load.most.unsigned_abs(),
            }));
        }
    }
    Ok(())
}
