// Why a timetable does not pass.

/// The rule that a timetable breaks: its text is a table, with one time in the period for each
/// event in order, and each activity keeps its bounds.
#[derive(Clone, Copy, Debug, PartialEq, Eq)]
pub enum TimetableFault {
    Row,
    Events,
    Tension,
}
