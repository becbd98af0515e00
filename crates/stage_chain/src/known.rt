// What is known of the stages before one.
ghost use Rattle.std.specs.Prelude.{◌≡◌, OnOk};
ghost use Rattle.stage_chain.specs.States.{known_with, lacks_input, is_one_of, nothing_known};

use crate::holding::Holding;
use crate::origin::chosen;
use config_keys::Config;
use giv_files::{MadeFile, Stage};
use plan_num::NoMemory;
use std::alloc::Global;
use std::marker::Model;
use tables::FileId;

/// The files that are kept of the stages so far, and the files of those of which nothing is kept
/// that fits. Contracts see it as these two lists.
pub(crate) struct Known {
    kept: Vec<MadeFile>,
    lost: Vec<FileId>,
}

impl Drop for Known {
    fn drop(self) {
        let Known { kept: _, lost: _ } = self;
    }
}

impl Model for Known {
    ghost use Rattle.stage_chain.specs.States.{KnownFiles};

    ghost Value = { KnownFiles };

    ghost view = { λ known. record {
      kept = known.kept.items;
      lost = known.lost.items;
    } };
}

impl Known {
    /// Before the first stage.
    pub(crate) fn new(alloc: Global) -> Known
        ensures { result ≡ nothing_known }
    {
        Known {
            kept: Vec::new(alloc),
            lost: Vec::new(alloc),
        }
    }

    /// The files that are kept.
    pub(crate) fn kept(&self) -> &[MadeFile]
        ensures { result.now ≡ self.now.kept }
    {
        &self.kept
    }

    /// Whether an input of a stage is a file of a stage of which nothing is kept that fits.
    pub(crate) fn lacks_input(&self, config: &Config, stage: Stage) -> bool
        ensures { result ≡ lacks_input config.now self.now.lost stage }
    {
        for file in stage.inputs() {
            if is_one_of(&self.lost, chosen(config, *file)) {
                return true;
            }
        }
        false
    }

    /// One stage more.
    pub(crate) fn add(&mut self, stage: Stage, holding: Holding) -> Result<(), NoMemory>
        ensures { OnOk result (self.new ≡ known_with self.old stage holding) }
    {
        match holding {
            Holding::Off => {}
            Holding::Unknown | Holding::Stale => self.lost.extend_from_slice(stage.makes())?,
            Holding::Held(made) => {
                let mut files = made.files.into_vec();
                self.kept.append(&mut files)?;
            }
        }
        Ok(())
    }
}

// Whether a file is among others.
fn is_one_of(others: &[FileId], file: FileId) -> bool
    ensures { result ≡ is_one_of others.now file }
{
    for other in others {
        if file.name() == other.name() {
            return true;
        }
    }
    false
}
