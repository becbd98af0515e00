// Events of runs.

use event_tables::PeriodicEvent;
use ptn_network::Edge;

/// An event of a run: its row, its place in the run from 0, the edge of the drive that it begins or
/// ends, and how often its line is driven in a period.
#[derive(Clone, Copy)]
pub(crate) struct RunEvent {
    pub(crate) row: PeriodicEvent,
    pub(crate) place: usize,
    pub(crate) edge: Edge,
    pub(crate) frequency: u32,
}
