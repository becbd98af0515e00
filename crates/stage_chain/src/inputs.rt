// What a stage is given by the files that stand in a folder.
ghost use Rattle.std.specs.Prelude.{◌≡◌, IfSome, IfOk};
ghost use Rattle.plan_files.specs.Reads.{OnlyReads};
ghost use Rattle.giv_files.specs.Settings.{Fits};
ghost use Rattle.stage_chain.specs.Ends.{is_broken, Gives};
ghost use Rattle.stage_chain.specs.Right.{text_in};
ghost use Rattle.stage_chain.specs.StandingInputs.{standing_bundle};

use crate::chain_end::ChainEnd;
use crate::gather::{gather, input};
use config_keys::read_config;
use giv_files::{Bundle, Stage};
use plan_files::Files;
use plan_num::Text;
use std::alloc::Global;
use tables::FileId;

/// A stage with its settings and its inputs over the files that stand there, whoever made them, or why
/// the settings are refused or an input is not there.
pub fn standing_bundle<F: Files>(
    alloc: Global,
    files: &mut F,
    stage: Stage,
) -> Result<Bundle, ChainEnd>
    ensures bundle { IfSome (F.contents files.old) (λ folder.
        Gives (standing_bundle folder stage) result) }
    ensures fits { IfOk result (λ bundle. Fits bundle) }
    ensures stage { IfOk result (λ bundle. bundle.stage ≡ stage) }
    ensures only_reads { OnlyReads F.contents F.writes F.faults files.old files.new
        (is_broken result) }
{
    let config = read_config(alloc, files)?;
    gather(alloc, files, &config, stage)
}

/// The text of a file that stands there, or why it is not there: a file that people write has at
/// most 64 MiB, and a file of delays is empty where it is not there.
pub fn standing_text<F: Files>(alloc: Global, files: &mut F, file: FileId) -> Result<Text, ChainEnd>
    ensures text { IfSome (F.contents files.old) (λ folder. Gives (text_in folder file) result) }
    ensures only_reads { OnlyReads F.contents F.writes F.faults files.old files.new
        (is_broken result) }
{
    let text = input(alloc, files, file, None)?;
    Ok(text.into_text(alloc)?)
}
