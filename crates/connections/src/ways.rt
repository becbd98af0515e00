// Which events can be reached, and how: a connection scan.
ghost use Rattle.std.specs.Prelude.{◌≡◌, ◌<◌, length, map, All, IfOk};
ghost use Rattle.connections.specs.Nets.{IsNet};
ghost use Rattle.connections.specs.Ways.{AreWays, first_way, go_by, ways_along};

use crate::links::Link;
use crate::net::JourneyNet;
use crate::query::Query;
use crate::timed_event::TimedEvent;
use crate::way::Way;
use plan_num::NoMemory;
use std::alloc::Global;

/// How each event can be reached from the starts at a stop, at a time or later.
pub(crate) fn ways_from(
    alloc: Global,
    net: &JourneyNet,
    query: &Query,
) -> Result<Vec<Way>, NoMemory>
    ensures ways { IfOk result
        (λ ways. AreWays net.now query.now.from query.now.start ways.items) }
    ensures net { IsNet net.now }
{
    let mut ways = first_ways(alloc, net.events(), query)?;
    go_along(&mut ways, net.links());
    Ok(ways)
}

// The ways before any connection is looked at.
fn first_ways(alloc: Global, events: &[TimedEvent], query: &Query) -> Result<Vec<Way>, NoMemory>
    ensures { IfOk result
        (λ ways. ways.items ≡ map (first_way query.now.from query.now.start) events.now) }
{
    Ok(
        events
            .iter()
            .map(|event| Way::first(event, query))
            .collect(alloc)?,
    )
}

// The ways after connections, one after the other.
fn go_along(ways: &mut [Way], links: &[Link])
    requires { All (λ link. (link.from < length ways.old) × (link.to < length ways.old))
        links.now }
    ensures { ways.new ≡ ways_along links.now ways.old }
{
    for link in links {
        go_by(ways, link);
    }
}

// The ways after one connection.
fn go_by(ways: &mut [Way], link: &Link)
    requires from { link.now.from < length ways.old }
    requires to { link.now.to < length ways.old }
    ensures { ways.new ≡ go_by ways.old link.now }
{
    if ways[link.from as usize].is_reached() {
        let to = link.to as usize;
        ways[to] = ways[to].or_by(link.index);
    }
}
