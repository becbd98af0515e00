// What comes before a run that is to be fresh.
ghost use Rattle.std.specs.Prelude.{◌≡◌, IfErr, IfOk, IfSome, OnOk, Some, map};
ghost use Rattle.plan_files.specs.declared.write.Write.TheVariants.{Removal};
ghost use Rattle.plan_files.specs.Applied.{AreApplied};
ghost use Rattle.plan_files.specs.Counts.{Counts};
ghost use Rattle.stage_chain.specs.Ends.{has_failed};
ghost use Rattle.stage_chain.specs.Hand.{keep_names};
ghost use Rattle.stage_chain.specs.Runs.{AddsNoHandFile, AreNotAll, SameHand, removed};

use crate::keep::keep_name;
use crate::outcome::ChainFault;
use crate::settle::settle;
use command_line::Mode;
use giv_files::Stage;
use plan_files::{Files, Name, Write};
use plan_num::NoMemory;
use std::alloc::Global;

/// Removes what is kept, where a run is to be fresh.
pub(crate) fn clear<F: Files>(alloc: Global, files: &mut F, mode: Mode) -> Result<(), ChainFault>
    ensures ok { IfSome (F.contents files.old) (λ folder. OnOk result (AreApplied
        (removed mode folder) (Some folder)
        (F.contents files.new) (F.writes files.old) (F.writes files.new))) }
    ensures err { IfSome (F.contents files.old) (λ folder. IfErr result (λ fault. AreNotAll fault
        (removed mode folder) (Some folder)
        (F.contents files.new) (F.writes files.old) (F.writes files.new))) }
    ensures hand { SameHand (F.contents files.old) (F.contents files.new) }
    ensures writes_no_hand_file { AddsNoHandFile (F.writes files.old) (F.writes files.new) }
    ensures faults { Counts (has_failed result) (F.faults files.old) (F.faults files.new) }
{
    match mode {
        Mode::Make => Ok(()),
        Mode::Fresh => {
            let wishes = removals(alloc)?;
            settle(alloc, files, wishes, Vec::new(alloc))
        }
    }
}

// A removal of each file in which a stage keeps what it made.
fn removals(alloc: Global) -> Result<Vec<Write>, NoMemory>
    ensures { IfOk result (λ writes. writes.items ≡ map Removal keep_names) }
{
    let mut writes = Vec::new(alloc);
    for stage in Stage::all() {
        writes.push(Write::Removal(Name::copy(alloc, keep_name(*stage))?))?;
    }
    Ok(writes)
}
