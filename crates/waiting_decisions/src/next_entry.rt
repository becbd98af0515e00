// What comes next in a search.
use crate::best::Best;

/// What is said of the region in hand: it is cut off by its bound, a choice is found there, or it is
/// split by a change.
#[derive(Drop)]
pub(crate) enum NextEntry {
    CutOff,
    Found { best: Best },
    Split { change: usize },
}
