// The rows of the table of stages.
ghost use Rattle.std.specs.Prelude.{◌≡◌};

use crate::stage::Stage;
use tables::FileId;

/// What is told of a stage.
#[derive(Clone, Copy)]
pub struct StageRow {
    /// The word for it in settings and reports.
    pub name: &'static str,
    /// The path of the file that keeps what it made last, below the folder of a dataset.
    pub kept: &'static str,
    /// The place that it runs in, by the stage that runs there where nothing is pinned.
    pub place: Stage,
    /// The files that it takes, in order.
    pub inputs: &'static [FileId],
    /// The files that it makes, in order.
    pub makes: &'static [FileId],
    /// The one of these that it may make alone, where it may leave out the others.
    pub alone: Option<FileId>,
}

/// A row.
pub(crate) fn row(
    name: &'static str,
    kept: &'static str,
    place: Stage,
    inputs: &'static [FileId],
    makes: &'static [FileId],
    alone: Option<FileId>,
) -> StageRow
    ensures name { result.name.now ≡ name.entry.now }
    ensures kept { result.kept.now ≡ kept.entry.now }
    ensures place { result.place ≡ place }
    ensures inputs { result.inputs.now ≡ inputs.entry.now }
    ensures makes { result.makes.now ≡ makes.entry.now }
    ensures alone { result.alone ≡ alone }
{
    StageRow {
        name,
        kept,
        place,
        inputs,
        makes,
        alone,
    }
}
