// Where the inputs of stages come from.
ghost use Rattle.std.specs.Prelude.{◌≡◌};
ghost use Rattle.stage_chain.specs.Chain.{origin_of, chosen};

use config_keys::Config;
use giv_files::Key;
use tables::FileId;

/// Where an input of a stage comes from.
#[derive(Clone, Copy)]
pub(crate) enum Origin {
    /// People write the file, and it has to be there.
    Needed,
    /// People write the file, and it reads as empty where it is not there.
    Optional,
    /// A stage before makes it.
    Earlier,
}

/// Where a file comes from as an input.
pub(crate) fn origin_of(file: FileId) -> Origin
    ensures { result ≡ origin_of file }
{
    match file {
        FileId::Stop
        | FileId::Edge
        | FileId::LoadGiven
        | FileId::Od
        | FileId::Pool
        | FileId::PinnedConcept
        | FileId::PinnedTimes
        | FileId::PinnedSchedule => Origin::Needed,
        FileId::EventDelays
        | FileId::ActivityDelays
        | FileId::PinnedTree
        | FileId::PinnedPotential => Origin::Optional,
        _ => Origin::Earlier,
    }
}

/// The file that an input stands for under the settings of a dataset: given loads in the place of
/// the demand.
pub(crate) fn chosen(config: &Config, file: FileId) -> FileId
    ensures { result ≡ chosen config.now file }
{
    match file {
        FileId::Od if config.value(Key::LoadSource) == 1 => FileId::LoadGiven,
        other => other,
    }
}
