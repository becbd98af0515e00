// The stage that writes how often each edge is to be driven.
ghost use Rattle.std.specs.Prelude.{◌≡◌, IfOk};
ghost use Rattle.giv_files.specs.declared.stage.Stage.TheVariants as stages;
ghost use Rattle.tables.specs.declared.file_id.FileId.TheVariants as files;
ghost use Rattle.tables.specs.Inputs.{input_faults, UnlessFault};
ghost use Rattle.ptn_network.specs.Loads.{load_input, loads_of};
ghost use Rattle.giv_files.specs.Settings.{Fits};
ghost use Rattle.giv_files.specs.StageCalls.{StageGives, TakesSteps};
ghost use Rattle.demand_load.specs.LoadStage.{load_stage, loads_by, text_faults};
ghost use Rattle.demand_load.specs.LoadTables.{HasSpread};
ghost use Rattle.demand_load.specs.RightLoads.{LoadsAreRight};

use crate::demand::read_demand;
use crate::frequency::{bounds_of, check_frequencies};
use crate::load_table::loads_made;
use giv_files::{Bundle, Key, Made, Settings};
use plan_num::{Ledger, Steps};
use ptn_network::{EdgeLoad, Loads, Network};
use std::alloc::Global;
use tables::{FileId, StageFault};

/// The loads of edges with the bounds of their frequencies, from the settings and the texts of
/// stops, edges, and demand or given loads. It takes one step.
pub fn make_load<L: Ledger>(
    alloc: Global,
    bundle: &Bundle,
    steps: &mut Steps<L>,
) -> Result<Made, StageFault>
    requires stage { bundle.now.stage ≡ stages.Load }
    requires fits { Fits bundle.now }
    ensures made { StageGives (load_stage bundle.now) result }
    ensures right { IfOk result (λ made. LoadsAreRight bundle.now made) }
    ensures steps { TakesSteps 1 steps.old steps.new result }
{
    steps.tick();
    loads_of_bundle(alloc, bundle)
}

// What the stage gives.
fn loads_of_bundle(alloc: Global, bundle: &Bundle) -> Result<Made, StageFault>
    requires stage { bundle.now.stage ≡ stages.Load }
    requires fits { Fits bundle.now }
    ensures { StageGives (load_stage bundle.now) result }
{
    let network = Network::from_texts(alloc, bundle.input(0), bundle.input(1))?;
    let loads = loads_of_text(alloc, bundle.settings(), &network, bundle.input(2))?;
    check_frequencies(&loads)?;
    Ok(loads_made(alloc, &network, &loads)?)
}

// The loads by a text of demand or of given loads, or the first fault of the text.
fn loads_of_text(
    alloc: Global,
    settings: &Settings,
    network: &Network,
    text: &[u8],
) -> Result<Vec<EdgeLoad>, StageFault>
    requires { HasSpread settings.now }
    ensures { UnlessFault (text_faults settings.now network.now text.now)
        (λ loads. loads.items ≡ loads_by settings.now network.now text.now) result }
{
    if settings.amount(Key::LoadSource) != 0 {
        return read_given(alloc, network, text);
    }
    let loads = read_demand(alloc, network, text)?;
    Ok(bounds_of(alloc, settings, &loads)?)
}

// The loads that a text gives, or the first fault of the text.
fn read_given(alloc: Global, network: &Network, text: &[u8]) -> Result<Vec<EdgeLoad>, StageFault>
    ensures { UnlessFault (input_faults (load_input files.LoadGiven network.now.edges) text.now)
        (λ loads. loads.items ≡ loads_of files.LoadGiven network.now.edges text.now) result }
{
    let loads = Loads::from_text(alloc, network, FileId::LoadGiven, text)?;
    Ok(loads.into_vec())
}
