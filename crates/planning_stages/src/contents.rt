// The judge of files that are to be those that their stage makes of what it is given.
ghost use Rattle.std.specs.Prelude.{◌≡◌, [], ◌∷◌, IfOk, IfNone, zip};
ghost use Rattle.std.specs.List.{list_all};
ghost use Rattle.std.specs.Str.{bytes_eq};
ghost use Rattle.giv_files.specs.MadeLists.{MakesAs, ids_of, made_lists};
ghost use Rattle.giv_files.specs.Settings.{Fits};
ghost use Rattle.giv_files.specs.Stages.{stage_makes};
ghost use Rattle.planning_stages.specs.Planning.{planning};
ghost use Rattle.planning_stages.specs.Verdicts.{content_found, files_found, same_texts};

use crate::stages::make_stage;
use config_keys::Config;
use giv_files::{Bundle, MadeFile, Stage};
use plan_num::{NoMemory, Silent, Steps};
use stage_chain::{Cause, Finding, Rule};
use std::alloc::Global;
use tables::StageFault;

/// What is found of files. Where nothing is, and all of them are to be there, they are right.
pub(crate) fn judge_contents(
    alloc: Global,
    _config: &Config,
    bundle: &Bundle,
    there: &[MadeFile],
) -> Result<Option<Finding>, NoMemory>
    requires fits { Fits bundle.now }
    ensures found { IfOk result (λ found.
        found ≡ content_found bundle.now.stage (planning.run bundle.now) there.now) }
    ensures passes { made_lists bundle.now.stage ≡ stage_makes bundle.now.stage ∷ []
        → MakesAs bundle.now.stage (ids_of there.now) → IfOk result (λ found.
        IfNone found (planning.IsRight bundle.now.stage bundle.now there.now)) }
{
    content_found(alloc, bundle, there)
}

// What is found of files.
fn content_found(
    alloc: Global,
    bundle: &Bundle,
    there: &[MadeFile],
) -> Result<Option<Finding>, NoMemory>
    requires fits { Fits bundle.now }
    ensures { IfOk result (λ found.
        found ≡ content_found bundle.now.stage (planning.run bundle.now) there.now) }
{
    let mut steps = Steps::new(Silent);
    let stage = bundle.stage();
    match make_stage(alloc, bundle, &mut steps) {
        Ok(made) => Ok(files_found(stage, &made.files.into_vec(), there)),
        Err(StageFault::Refused(refusal)) => {
            Ok(Some(Finding::of(stage, Cause::Refused(stage, refusal))))
        }
        Err(StageFault::NoMemory) => Err(NoMemory),
    }
}

// What is found of files that are to be those that their stage makes.
fn files_found(stage: Stage, made: &[MadeFile], there: &[MadeFile]) -> Option<Finding>
    ensures { result ≡ files_found stage made.now there.now }
{
    if same_texts(made, there) {
        None
    } else {
        Some(Finding::Broken(stage, Rule::Content))
    }
}

// Whether files have the same texts as others.
#[tactic(auto, unfolding(crate::specs::Verdicts::same_texts))]
fn same_texts(made: &[MadeFile], others: &[MadeFile]) -> bool
    ensures { result ≡ same_texts made.now others.now }
{
    made.len() == others.len() && same_each(made, others)
}

// Whether each file has the same text as the other one at its place.
fn same_each(made: &[MadeFile], others: &[MadeFile]) -> bool
    ensures { result ≡ list_all (λ at. bytes_eq at.0.text at.1.text) (zip made.now others.now) }
{
    made.iter()
        .zip(others)
        .all(|(file, other)| same_text(file, other))
}

// Whether a file has the same text as another one.
fn same_text(file: &MadeFile, other: &MadeFile) -> bool
    ensures { result ≡ bytes_eq file.now.text other.now.text }
{
    file.text.as_bytes() == other.text.as_bytes()
}
