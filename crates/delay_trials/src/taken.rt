// Decisions that can be taken back.
ghost use Rattle.std.specs.Prelude.{◌≡◌};

use crate::decided::Decided;

/// A decision, how many events that were made later were noted before it, and whether those that
/// it made later are noted.
#[derive(Clone, Copy)]
pub(crate) struct Taken {
    pub(crate) decided: Decided,
    pub(crate) moved: usize,
    pub(crate) is_noted: bool,
}

impl Taken {
    /// The decision on a change after so many notes, with notes of its own or without.
    pub(crate) fn new(change: usize, kept: bool, moved: usize, is_noted: bool) -> Taken
        ensures { result ≡ record {
          decided = record { change = change; kept = kept };
          moved = moved;
          is_noted = is_noted;
        } }
    {
        Taken {
            decided: Decided { change, kept },
            moved,
            is_noted,
        }
    }
}
