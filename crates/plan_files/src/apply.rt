// Writes that are made one after the other.
ghost use Rattle.std.specs.Prelude.{IfErr, OnOk};
ghost use Rattle.plan_files.specs.Applied.{AreApplied, AreCutShort, Leaves, Notes};
ghost use Rattle.plan_files.specs.Counts.{Counts};
ghost use Rattle.plan_files.specs.Folder.{has_failed};

use crate::file_fault::FileFault;
use crate::store::Files;
use crate::write::Write;

/// Makes writes in their order. A fault ends it: those before are made, and one that failed may be
/// made in part.
pub fn apply_all<F: Files>(files: &mut F, writes: &[Write]) -> Result<(), FileFault>
    ensures ok { OnOk result (AreApplied writes.now
        (F.contents files.old) (F.contents files.new) (F.writes files.old) (F.writes files.new)) }
    ensures err { IfErr result (λ fault. AreCutShort fault writes.now
        (F.contents files.old) (F.contents files.new) (F.writes files.old) (F.writes files.new)) }
    ensures faults { Counts (has_failed result) (F.faults files.old) (F.faults files.new) }
{
    for write in writes {
        apply(files, write)?;
    }
    Ok(())
}

// Makes one write.
pub(crate) fn apply<F: Files>(files: &mut F, write: &Write) -> Result<(), FileFault>
    ensures contents { Leaves write.now (F.contents files.old) (F.contents files.new) result }
    ensures writes { Notes write.now (F.writes files.old) (F.writes files.new) result }
    ensures faults { Counts (has_failed result) (F.faults files.old) (F.faults files.new) }
{
    match write {
        Write::Put(name, text) => files.put(name.as_str(), text.as_bytes()),
        Write::Removal(name) => files.remove(name.as_str()),
    }
}
