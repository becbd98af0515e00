// What a stage is given.
ghost use Rattle.std.specs.Prelude.{◌≡◌, false, IfSome, IfOk, None, option_copied};
ghost use Rattle.plan_files.specs.Reads.{OnlyReads};
ghost use Rattle.config_keys.specs.Items.{look_in};
ghost use Rattle.tables.specs.FileNames.{file_name};
ghost use Rattle.giv_files.specs.Settings.{Fits};
ghost use Rattle.giv_files.specs.Stages.{stage_inputs};
ghost use Rattle.stage_chain.specs.Chain.{bundle_told, hand_text, made_text, texts_by};
ghost use Rattle.stage_chain.specs.Ends.{is_broken, Gives};
ghost use Rattle.stage_chain.specs.Looks.{look_over};
ghost use Rattle.stage_chain.specs.Right.{made_in};

use crate::cause::Cause;
use crate::chain_end::ChainEnd;
use crate::origin::{Origin, chosen, origin_of};
use crate::standing::text_at;
use config_keys::{Config, FILE_LIMIT};
use giv_files::{Bundle, MadeFile, Stage};
use plan_files::{Files, Got};
use plan_num::Text;
use stage_keep::{Given, LentText};
use std::alloc::Global;
use tables::FileId;

/// A stage with its settings and its inputs over the files that stand in the folder, or why an
/// input is not there.
pub(crate) fn gather<F: Files>(
    alloc: Global,
    files: &mut F,
    config: &Config,
    stage: Stage,
) -> Result<Bundle, ChainEnd>
    ensures bundle { IfSome (F.contents files.old) (λ folder.
        Gives (bundle_told config.now stage
        (texts_by (look_over None folder) config.now (stage_inputs stage))) result) }
    ensures fits { IfOk result (λ bundle. Fits bundle) }
    ensures stage { IfOk result (λ bundle. bundle.stage ≡ stage) }
    ensures only_reads { OnlyReads F.contents F.writes F.faults files.old files.new
        (is_broken result) }
{
    let given = given(alloc, files, config, stage, None)?;
    Ok(given.into_bundle(alloc)?)
}

/// A stage with its settings and its inputs, or why an input is not there. Files that stages before
/// it make are those that are lent, or, where none are, those that stand in the folder.
pub(crate) fn given<'a, F: Files>(
    alloc: Global,
    files: &mut F,
    config: &Config,
    stage: Stage,
    made: Option<&'a [MadeFile]>,
) -> Result<Given<'a>, ChainEnd>
    ensures bundle { IfSome (F.contents files.old) (λ folder.
        Gives (bundle_told config.now stage
        (texts_by (look_over (option_copied made.entry) folder) config.now (stage_inputs stage)))
        result) }
    ensures fits { IfOk result (λ given. Fits given) }
    ensures stage { IfOk result (λ given. given.stage ≡ stage) }
    ensures only_reads { OnlyReads F.contents F.writes F.faults files.old files.new
        (is_broken result) }
{
    let settings = config.stage_settings(alloc, stage)?;
    let mut given = Given::new(alloc, stage, settings);
    for file in stage.inputs() {
        let text = input(alloc, files, chosen(config, *file), made)?;
        given.push_text(text)?;
    }
    Ok(given)
}

/// The text of an input.
pub(crate) fn input<'a, F: Files>(
    alloc: Global,
    files: &mut F,
    file: FileId,
    made: Option<&'a [MadeFile]>,
) -> Result<LentText<'a>, ChainEnd>
    ensures text { IfSome (F.contents files.old) (λ folder.
        Gives (look_over (option_copied made.entry) folder file) result) }
    ensures only_reads { OnlyReads F.contents F.writes F.faults files.old files.new
        (is_broken result) }
{
    match origin_of(file) {
        Origin::Needed => hand_text(alloc, files, file, false),
        Origin::Optional => hand_text(alloc, files, file, true),
        Origin::Earlier => match made {
            Some(made) => made_text(made, file),
            None => standing_text(alloc, files, file),
        },
    }
}

// The text of a made file that stands in the folder.
fn standing_text<'a, F: Files>(
    alloc: Global,
    files: &mut F,
    file: FileId,
) -> Result<LentText<'a>, ChainEnd>
    ensures text { IfSome (F.contents files.old) (λ folder.
        Gives (made_in folder file) result) }
    ensures only_reads { OnlyReads F.contents F.writes F.faults files.old files.new
        (is_broken result) }
{
    match text_at(alloc, files, file)? {
        Some(text) => Ok(LentText::own(text)),
        None => Err(ChainEnd::Stopped(Cause::Missing(file))),
    }
}

// The text of a hand file, which may be left out or not.
fn hand_text<'a, F: Files>(
    alloc: Global,
    files: &mut F,
    file: FileId,
    optional: bool,
) -> Result<LentText<'a>, ChainEnd>
    ensures text { IfSome (F.contents files.old) (λ folder.
        Gives (hand_text optional file (look_in folder (file_name file))) result) }
    ensures only_reads { OnlyReads F.contents F.writes F.faults files.old files.new
        (is_broken result) }
{
    match files.get(alloc, file.name(), FILE_LIMIT)? {
        Got::Bytes(text) => Ok(LentText::own(text)),
        Got::Absent if optional => Ok(LentText::own(Text::from_vec(Vec::new(alloc)))),
        Got::Absent => Err(ChainEnd::Stopped(Cause::Missing(file))),
        Got::TooLong => Err(ChainEnd::Stopped(Cause::TooLong(file))),
    }
}

// The text of a file that a stage before made.
fn made_text(made: &[MadeFile], file: FileId) -> Result<LentText<'_>, ChainEnd>
    ensures text { Gives (made_text made.now file) result }
    ensures fault_free { is_broken result ≡ false }
{
    for other in made {
        if other.file.name() == file.name() {
            return Ok(LentText::lent(other.text.as_bytes()));
        }
    }
    Err(ChainEnd::Stopped(Cause::Missing(file)))
}
