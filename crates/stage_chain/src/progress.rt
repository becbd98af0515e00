// What a chain has made so far.
ghost use Rattle.std.specs.Prelude.{◌≡◌, ◌++◌, OnOk};
ghost use Rattle.std.specs.Option.{option_to_list};
ghost use Rattle.stage_chain.specs.Progress.{nothing, with_made};

use giv_files::{Made, MadeFile};
use plan_files::Write;
use plan_num::NoMemory;
use std::alloc::Global;
use std::marker::Model;

/// The files that the stages of a chain made so far, their lines of the report, and the writes of
/// their new entries. Contracts see it as these three.
pub(crate) struct Progress {
    files: Vec<MadeFile>,
    report: Vec<u8>,
    entries: Vec<Write>,
}

impl Drop for Progress {
    fn drop(self) {
        let Progress {
            files: _,
            report: _,
            entries: _,
        } = self;
    }
}

impl Model for Progress {
    ghost use Rattle.stage_chain.specs.Progress.{SoFar};

    ghost Value = { SoFar };

    ghost view = { λ p. record {
      files = p.files.items;
      report = p.report.items;
      entries = p.entries.items;
    } };
}

impl Progress {
    /// Before the first stage.
    pub(crate) fn new(alloc: Global) -> Progress
        ensures { result ≡ nothing }
    {
        Progress {
            files: Vec::new(alloc),
            report: Vec::new(alloc),
            entries: Vec::new(alloc),
        }
    }

    /// The files so far.
    pub(crate) fn files(&self) -> &[MadeFile]
        ensures { result.now ≡ self.now.files }
    {
        &self.files
    }

    /// One stage more, and its entry where that is new.
    pub(crate) fn add(&mut self, made: Made, entry: Option<Write>) -> Result<(), NoMemory>
        ensures { OnOk result (self.new ≡ with_made self.old made (option_to_list entry)) }
    {
        let Made { files, report } = made;
        self.report.extend_from_slice(report.as_bytes())?;
        self.report.push(b'\n')?;
        let mut files = files.into_vec();
        self.files.append(&mut files)?;
        add_entry(&mut self.entries, entry)
    }

    /// The files, the report, and the writes of new entries.
    pub(crate) fn into_parts(self) -> (Vec<MadeFile>, Vec<u8>, Vec<Write>)
        ensures files { result.0.items ≡ self.files }
        ensures report { result.1.items ≡ self.report }
        ensures entries { result.2.items ≡ self.entries }
    {
        let Progress {
            files,
            report,
            entries,
        } = self;
        (files, report, entries)
    }
}

// One entry more, where there is one.
fn add_entry(entries: &mut Vec<Write>, entry: Option<Write>) -> Result<(), NoMemory>
    ensures { OnOk result (entries.new.items ≡ entries.old.items ++ option_to_list entry) }
{
    if let Some(entry) = entry {
        entries.push(entry)?;
    }
    Ok(())
}
