// Writes that change something, made in order.
ghost use Rattle.std.specs.Prelude.{◌≡◌, ◌++◌, ◌⊎◌, ◌∷◌, [], Bool, List, ℕ, IfErr, IfOk, IfSome};
ghost use Rattle.std.specs.Prelude.{None, OnOk, Some};
ghost use Rattle.std.specs.FinMap as map;
ghost use Rattle.plan_files.specs.Applied.{AreApplied};
ghost use Rattle.plan_files.specs.Counts.{Counts};
ghost use Rattle.plan_files.specs.Folder.{has_failed};
ghost use Rattle.plan_files.specs.Others.{AreOutside};
ghost use Rattle.plan_files.specs.Reads.{OnlyReads};
ghost use Rattle.stage_chain.specs.Ends.{has_failed as has_broken};
ghost use Rattle.stage_chain.specs.Hand.{is_hand};
ghost use Rattle.stage_chain.specs.Runs.{AddsNoHandFile, AreNotAll, SameHand, is_met, same_bytes};
ghost use Rattle.stage_chain.specs.Runs.{unmet};

use crate::outcome::ChainFault;
use plan_files::{FileFault, Files, Got, Write, apply_all};
use plan_num::NoMemory;
use std::alloc::Global;

/// Makes those of some writes that change something, and then others. All is read before anything
/// is written.
pub(crate) fn settle<F: Files>(
    alloc: Global,
    files: &mut F,
    wishes: Vec<Write>,
    more: Vec<Write>,
) -> Result<(), ChainFault>
    requires wishes { AreOutside is_hand wishes.items }
    requires more { AreOutside is_hand more.items }
    ensures ok { IfSome (F.contents files.old) (λ folder. OnOk result (AreApplied
        (unmet folder wishes.items ++ more.items) (Some folder)
        (F.contents files.new) (F.writes files.old) (F.writes files.new))) }
    ensures err { IfSome (F.contents files.old) (λ folder. IfErr result (λ fault. AreNotAll fault
        (unmet folder wishes.items ++ more.items) (Some folder)
        (F.contents files.new) (F.writes files.old) (F.writes files.new))) }
    ensures hand { SameHand (F.contents files.old) (F.contents files.new) }
    ensures writes_no_hand_file { AddsNoHandFile (F.writes files.old) (F.writes files.new) }
    ensures faults { Counts (has_broken result) (F.faults files.old) (F.faults files.new) }
{
    let writes = joined(unmet(alloc, files, wishes)?, more)?;
    apply_all(files, &writes)?;
    Ok(())
}

// Some writes, and then others.
fn joined(writes: Vec<Write>, more: Vec<Write>) -> Result<Vec<Write>, NoMemory>
    ensures { IfOk result (λ both. both.items ≡ writes.items ++ more.items) }
{
    let mut both = writes;
    let mut more = more;
    both.append(&mut more)?;
    Ok(both)
}

// Those of some writes that change something.
fn unmet<F: Files>(
    alloc: Global,
    files: &mut F,
    wishes: Vec<Write>,
) -> Result<Vec<Write>, ChainFault>
    ensures writes { IfSome (F.contents files.old) (λ folder.
        IfOk result (λ writes. writes.items ≡ unmet folder wishes.items)) }
    ensures outside { (test : List ℕ → Bool) → AreOutside test wishes.items →
        IfOk result (λ writes. AreOutside test writes.items) }
    ensures only_reads { OnlyReads F.contents F.writes F.faults files.old files.new
        (has_broken result) }
{
    let mut writes = Vec::new(alloc);
    for wish in wishes {
        add_unmet(alloc, files, &mut writes, wish)?;
    }
    Ok(writes)
}

// One write more, where it changes something.
fn add_unmet<F: Files>(
    alloc: Global,
    files: &mut F,
    writes: &mut Vec<Write>,
    wish: Write,
) -> Result<(), ChainFault>
    ensures writes { IfSome (F.contents files.old) (λ folder.
        OnOk result (writes.new.items ≡ writes.old.items ++ unmet folder (wish ∷ []))) }
    ensures either { OnOk result ((writes.new.items ≡ writes.old.items)
        ⊎ (writes.new.items ≡ writes.old.items ++ wish ∷ [])) }
    ensures only_reads { OnlyReads F.contents F.writes F.faults files.old files.new
        (has_broken result) }
{
    if !is_met(alloc, files, &wish)? {
        writes.push(wish)?;
    }
    Ok(())
}

// Whether a write would change nothing.
fn is_met<F: Files>(alloc: Global, files: &mut F, write: &Write) -> Result<bool, FileFault>
    ensures met { IfSome (F.contents files.old) (λ folder.
        IfOk result (λ met. met ≡ is_met folder write.now)) }
    ensures only_reads { OnlyReads F.contents F.writes F.faults files.old files.new
        (has_failed result) }
{
    match write {
        Write::Put(name, text) => files.has_bytes(alloc, name.as_str(), text.as_bytes()),
        Write::Removal(name) => is_absent(alloc, files, name.as_str()),
    }
}

/// Whether a file is not there. It is not read.
pub(crate) fn is_absent<F: Files>(
    alloc: Global,
    files: &mut F,
    name: &str,
) -> Result<bool, FileFault>
    ensures absent { IfSome (F.contents files.old) (λ folder. IfOk result (λ absent.
        absent ≡ same_bytes (map.get folder name.now) None)) }
    ensures only_reads { OnlyReads F.contents F.writes F.faults files.old files.new
        (has_failed result) }
{
    match files.get(alloc, name, 0)? {
        Got::Absent => Ok(true),
        Got::Bytes(_) | Got::TooLong => Ok(false),
    }
}
