// Steps of cycles.

/// A step of a cycle: the activity at a place, along it or against it, from the event where the
/// step starts to the one where it ends. A cut counts the slack of a flipped step from its span
/// down. The lower bound is the activity's; the span is the most slack that it can have.
#[derive(Clone, Copy, Debug)]
pub(crate) struct Step {
    pub(crate) place: usize,
    pub(crate) forward: bool,
    pub(crate) flipped: bool,
    pub(crate) start: usize,
    pub(crate) end: usize,
    pub(crate) lower: i64,
    pub(crate) span: i64,
}
