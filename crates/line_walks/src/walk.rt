// Walks over edges.
ghost use Rattle.std.specs.Prelude.{◌≡◌, [], IfOk, unwrap_or, option_map};
ghost use Rattle.line_walks.specs.Pools.{walk_from, walk_of};

use plan_num::NoMemory;
use ptn_network::Edge;
use std::alloc::Global;

/// The stops of the walk of a line over edges; none where the edges do not join end to end.
pub(crate) fn line_stops(alloc: Global, edges: &[Edge]) -> Result<Vec<usize>, NoMemory>
    ensures { IfOk result (λ stops. stops.items ≡ unwrap_or (walk_of edges.now) []) }
{
    let [first, ..] = edges else {
        return Ok(Vec::new(alloc));
    };
    if let Some(stops) = stops_from(alloc, first.left, edges)? {
        return Ok(stops);
    }
    if let Some(stops) = stops_from(alloc, first.right, edges)? {
        return Ok(stops);
    }
    Ok(Vec::new(alloc))
}

// The stops of the walk over edges from a stop, where the edges join end to end from there.
fn stops_from(alloc: Global, start: usize, edges: &[Edge]) -> Result<Option<Vec<usize>>, NoMemory>
    ensures { IfOk result (λ stops. option_map (λ some. some.items) stops ≡ walk_from start edges.now) }
{
    let mut stops = Vec::new(alloc);
    let mut end = start;
    for edge in edges {
        match edge.across(end) {
            None => return Ok(None),
            Some(next) => {
                stops.push(end)?;
                end = next;
            }
        }
    }
    stops.push(end)?;
    Ok(Some(stops))
}
