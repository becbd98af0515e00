// The rules of a journey from any hand, and of the events that are to prove that none arrives
// earlier.
ghost use Rattle.std.specs.Prelude.{◌≡◌, ◌<◌, ◌==◌, ◌&&◌, ◌||◌, not, true, false, length, All, IfNone};
ghost use Rattle.connections.specs.Earliest.{is_rising};
ghost use Rattle.connections.specs.Nets.{IsConnection};
ghost use Rattle.connections.specs.Journeys.{begins, ends, is_journey, is_ride, last_of};
ghost use Rattle.connections.specs.Judged.{NoneEarlier, first_broken_rule, has_arrival, is_astray, is_in, is_missed};
ghost use Rattle.connections.specs.Judged.{is_no_journey, misses_start, misses_step};
ghost use Rattle.connections.specs.Links.{followed, leads_on};

use crate::found::Found;
use crate::links::Link;
use crate::net::JourneyNet;
use crate::query::Query;
use crate::rule::JourneyRule;

/// The first rule that a journey breaks, or the events that are to prove that none arrives earlier.
pub(crate) fn first_broken(net: &JourneyNet, query: &Query, found: &Found) -> Option<JourneyRule>
    ensures first { result
        ≡ first_broken_rule net.now query.now.from query.now.to query.now.start found.now }
    ensures none_earlier { IfNone result (NoneEarlier net.now query.now.from query.now.to
        query.now.start found.now.journey) }
{
    if breaks_journey(net, query, found) {
        return Some(JourneyRule::Journey);
    }
    if misses_start(net, query, found) {
        return Some(JourneyRule::Start);
    }
    if misses_step(net, found) {
        return Some(JourneyRule::Step);
    }
    has_arrival(net, query, found).then_some(JourneyRule::Early)
}

// Whether there is a journey and it is none, an event is not there, or the set does not rise.
fn breaks_journey(net: &JourneyNet, query: &Query, found: &Found) -> bool
    ensures broken { let asked = query.now in let told = found.now in
        result ≡ is_no_journey net.now asked.from asked.to asked.start told.journey
        || is_astray net.now told.journey || is_astray net.now told.reached
        || not (is_rising told.reached) }
    ensures rising { result ≡ false → is_rising found.now.reached ≡ true }
{
    is_unlisted(net, query, found) || !is_rising(found.reached.as_slice())
}

// Whether there is a journey and it is none, or an event is not there.
fn is_unlisted(net: &JourneyNet, query: &Query, found: &Found) -> bool
    ensures { let asked = query.now in let told = found.now in
        result ≡ is_no_journey net.now asked.from asked.to asked.start told.journey
        || is_astray net.now told.journey || is_astray net.now told.reached }
{
    is_no_journey(net, query, found.journey.as_slice())
        || is_astray(net, found.journey.as_slice())
        || is_astray(net, found.reached.as_slice())
}

// Whether there is a journey, and it is none.
fn is_no_journey(net: &JourneyNet, query: &Query, journey: &[usize]) -> bool
    ensures { let asked = query.now in
        result ≡ is_no_journey net.now asked.from asked.to asked.start journey.now }
{
    !journey.is_empty() && !is_journey(net, query, journey)
}

// Whether events begin with a start, are a ride, and end with an arrival at a stop.
fn is_journey(net: &JourneyNet, query: &Query, journey: &[usize]) -> bool
    ensures { let asked = query.now in
        result ≡ is_journey net.now asked.from asked.to asked.start journey.now }
{
    rides_from(net, query, journey) && ends(net, query, journey)
}

// Whether events begin with a start and are a ride.
fn rides_from(net: &JourneyNet, query: &Query, journey: &[usize]) -> bool
    ensures { result ≡ begins net.now query.now.from query.now.start journey.now
        && is_ride net.now journey.now }
{
    begins(net, query, journey) && is_ride(net, journey)
}

// Whether the first of some events is a start.
fn begins(net: &JourneyNet, query: &Query, journey: &[usize]) -> bool
    ensures { result ≡ begins net.now query.now.from query.now.start journey.now }
{
    match journey.first() {
        None => false,
        Some(first) => net.is_start(query, *first),
    }
}

// Whether the last of some events is an arrival at a stop.
fn ends(net: &JourneyNet, query: &Query, journey: &[usize]) -> bool
    ensures { result ≡ ends net.now query.now.to journey.now }
{
    match last_of(journey) {
        None => false,
        Some(last) => net.is_arrival(query, last),
    }
}

// Whether a connection leads from each event to the next one. The links are gone along once, since
// those from a later event of a ride stand behind those from an earlier one.
fn is_ride(net: &JourneyNet, journey: &[usize]) -> bool
    ensures { result ≡ is_ride net.now journey.now }
{
    events_left(net.links(), journey) <= 1
}

// How many events are left where links are followed from the first one on.
fn events_left(links: &[Link], events: &[usize]) -> usize
    ensures { result ≡ length (followed links.now events.now) }
{
    let mut left = events;
    for link in links {
        if leads_on(link, left) {
            left = &left[1..];
        }
    }
    left.len()
}

// Whether a link leads from the first of some events to the second one.
fn leads_on(link: &Link, events: &[usize]) -> bool
    ensures { result ≡ leads_on link.now events.now }
{
    match events {
        [from, to, ..] => link.leads(*from, *to),
        _ => false,
    }
}

// Whether some of these events is not there.
fn is_astray(net: &JourneyNet, events: &[usize]) -> bool
    ensures { result ≡ is_astray net.now events.now }
{
    let count = net.event_count();
    events.iter().any(|event| !(*event < count))
}

// Whether the events of a list rise.
fn is_rising(events: &[usize]) -> bool
    ensures { result ≡ is_rising events.now }
{
    events
        .iter()
        .zip(events.iter().skip(1))
        .all(|(event, next)| *event < *next)
}

// Whether a start before the arrival is missed.
fn misses_start(net: &JourneyNet, query: &Query, found: &Found) -> bool
    requires { is_rising found.now.reached ≡ true }
    ensures { result ≡ misses_start net.now query.now.from query.now.start found.now }
{
    (0..net.event_count()).any(|event| net.is_start(query, event) && is_missed(net, found, event))
}

// Whether the head of a connection from the set is missed.
fn misses_step(net: &JourneyNet, found: &Found) -> bool
    requires { is_rising found.now.reached ≡ true }
    ensures missed { result ≡ misses_step net.now found.now }
    ensures sound { All (IsConnection net.now) net.now.connections }
{
    net.connections().iter().any(|connection| {
        is_in(found.reached.as_slice(), connection.from as usize)
            && is_missed(net, found, connection.to as usize)
    })
}

// Whether an arrival at the stop is in the set.
fn has_arrival(net: &JourneyNet, query: &Query, found: &Found) -> bool
    ensures { result ≡ has_arrival net.now query.now.to found.now }
{
    let reached = found.reached.as_slice();
    reached.iter().any(|event| net.is_arrival(query, *event))
}

// Whether an event before the arrival is not in the set.
fn is_missed(net: &JourneyNet, found: &Found, event: usize) -> bool
    requires { is_rising found.now.reached ≡ true }
    ensures { result ≡ is_missed net.now found.now event }
{
    net.is_before(last_of(found.journey.as_slice()), event)
        && !is_in(found.reached.as_slice(), event)
}

// The last of some events.
fn last_of(events: &[usize]) -> Option<usize>
    ensures { result ≡ last_of events.now }
{
    events.last().copied()
}

// Whether an event is one of some, which rise.
fn is_in(events: &[usize], event: usize) -> bool
    requires { is_rising events.now ≡ true }
    ensures { result ≡ is_in events.now event }
{
    events.binary_search(&event).is_ok()
}
