// The files whose rows are lines.
ghost use Rattle.std.specs.Prelude.{◌≡◌};
ghost use Rattle.line_walks.specs.Pools.{file_of};

use tables::FileId;

/// A file that has lines, row by row: the pool, or a line concept, which has the frequency of each
/// line too.
#[derive(Clone, Copy)]
pub enum LineFile {
    Pool,
    Concept,
}

impl LineFile {
    /// The file that a refusal names.
    pub(crate) fn id(self) -> FileId
        ensures { result ≡ file_of self }
    {
        match self {
            LineFile::Pool => FileId::Pool,
            LineFile::Concept => FileId::Concept,
        }
    }
}
