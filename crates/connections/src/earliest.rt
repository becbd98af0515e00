// Where the journey that arrives first ends, and what can be reached before it arrives.
ghost use Rattle.std.specs.Prelude.{◌≡◌, ◌&&◌, length, IfOk};
ghost use Rattle.connections.specs.Ends.{IsFirstEnd, earlier_end, is_before_end, reached_before};
ghost use Rattle.connections.specs.Ways.{is_reached, way_at};

use crate::event_list::EventList;
use crate::net::JourneyNet;
use crate::query::Query;
use crate::way::{Way, way_at};
use plan_num::NoMemory;
use std::alloc::Global;

/// The first arrival at a stop that can be reached: of least time, then of least index.
pub(crate) fn first_end(net: &JourneyNet, ways: &[Way], query: &Query) -> Option<usize>
    ensures { IsFirstEnd net.now ways.now query.now.to (length ways.now) result }
{
    let mut first = None;
    for event in 0..ways.len() {
        first = earlier_end(net, ways, query, first, event);
    }
    first
}

// An event, where it is an arrival at a stop that can be reached and is before another one, or else
// that one.
fn earlier_end(
    net: &JourneyNet,
    ways: &[Way],
    query: &Query,
    first: Option<usize>,
    event: usize,
) -> Option<usize>
    ensures { result ≡ earlier_end net.now ways.now query.now.to first event }
{
    if net.is_arrival(query, event) && is_told(net, ways, first, event) {
        Some(event)
    } else {
        first
    }
}

/// The events that can be reached before an end.
pub(crate) fn reached_before(
    alloc: Global,
    net: &JourneyNet,
    ways: &[Way],
    end: Option<usize>,
) -> Result<EventList, NoMemory>
    ensures { IfOk result (λ reached. reached ≡ reached_before net.now ways.now end) }
{
    let mut reached = Vec::new(alloc);
    for event in 0..ways.len() {
        if is_told(net, ways, end, event) {
            reached.push(event)?;
        }
    }
    Ok(EventList::from_vec(reached))
}

// Whether an event can be reached and is before an end.
fn is_told(net: &JourneyNet, ways: &[Way], end: Option<usize>, event: usize) -> bool
    ensures { result ≡ is_reached (way_at ways.now event) && is_before_end net.now end event }
{
    way_at(ways, event).is_reached() && net.is_before(end, event)
}
