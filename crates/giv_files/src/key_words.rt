// Words that the value of a key may be.
ghost use Rattle.std.specs.Prelude.{◌≡◌, ◌<◌, [], length, position, slice_index_or};
ghost use Rattle.std.specs.Str.{bytes_eq};
ghost use Rattle.giv_files.specs.KeyKinds.{key_words};
ghost use Rattle.tables.specs.Reading.{place_of};
ghost use Rattle.giv_files.specs.Stages.{places, stage_name};

use crate::stage::Stage;
use tables::{is_same, place_among};

const LOAD_SOURCES: &[&str] = &["od", "file"];

const NO_OR_YES: &[&str] = &["no", "yes"];

/// A table of words that the value of a key may be.
#[derive(Clone, Copy, Debug, PartialEq, Eq)]
pub enum KeyWords {
    /// The names of the stages.
    Stages,
    /// Where loads come from: `od` or `file`.
    LoadSources,
    /// `no` or `yes`.
    NoOrYes,
}

impl KeyWords {
    /// How many words there are.
    pub(crate) fn count(self) -> usize
        ensures { result ≡ length (key_words self) }
    {
        match self {
            KeyWords::Stages => Stage::places().len(),
            KeyWords::LoadSources => LOAD_SOURCES.len(),
            KeyWords::NoOrYes => NO_OR_YES.len(),
        }
    }

    /// The word at a place.
    pub(crate) fn word(self, place: usize) -> &'static str
        requires { place < length (key_words self) }
        ensures { result.now ≡ slice_index_or (key_words self) place [] }
    {
        match self {
            KeyWords::Stages => Stage::places()[place].name(),
            KeyWords::LoadSources => LOAD_SOURCES[place],
            KeyWords::NoOrYes => NO_OR_YES[place],
        }
    }

    /// The place of the word that the field is, from 0.
    pub(crate) fn place_of(self, field: &[u8]) -> Option<usize>
        ensures { result ≡ place_of (key_words self) field.now }
    {
        match self {
            KeyWords::Stages => stage_place(field),
            KeyWords::LoadSources => place_among(LOAD_SOURCES, field),
            KeyWords::NoOrYes => place_among(NO_OR_YES, field),
        }
    }
}

// The place of the stage that the field names.
fn stage_place(field: &[u8]) -> Option<usize>
    ensures { result ≡ position (λ stage. bytes_eq (stage_name stage) field.now) places }
{
    Stage::places()
        .iter()
        .position(|stage| is_same(stage.name(), field))
}
