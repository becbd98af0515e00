// A day of as many events and activities as there may be, and days with one more.
use giv_files::{Counted, Refusal, StageFault};
use journeys::{JourneyNet, print_journey};
use plan_num::NoMemory;
use std::alloc::{AllocError, Global};
use std::test::Fail;

// The event that ends a journey.
const END: u32 = 83_339;

// The row of an event: each takes place in the minute of its id.
fn event_row(alloc: Global, id: u32) -> Result<String, AllocError> {
    let (kind, stop) = match id {
        1 => ("departure", 3),
        END => ("arrival", 4),
        _ => ("departure", 1),
    };
    format!(in alloc; "{id}; 1; {kind}; {id}; {stop}\n")
}

// The row of an activity: six lead from each event, to those behind it.
fn activity_row(alloc: Global, id: u32) -> Result<String, AllocError> {
    let from = id.saturating_sub(1) / 6 + 1;
    let to = from + 1 + id.saturating_sub(1) % 6;
    format!(in alloc; "{id}; 1; drive; {from}; {to}; 1; 9\n")
}

// The texts of so many events and so many activities.
fn texts(alloc: Global, events: u32, activities: u32) -> Result<(String, String), AllocError> {
    let mut event_rows = String::new(alloc);
    for id in 1..=events {
        event_rows.push_str(event_row(alloc, id)?.as_str())?;
    }
    let mut activity_rows = String::new(alloc);
    for id in 1..=activities {
        activity_rows.push_str(activity_row(alloc, id)?.as_str())?;
    }
    Ok((event_rows, activity_rows))
}

// The net of them.
fn large_net(alloc: Global, events: u32, activities: u32) -> Result<JourneyNet, StageFault> {
    let (events, activities) = texts(alloc, events, activities)?;
    JourneyNet::from_texts(alloc, events.as_bytes(), activities.as_bytes(), None)
}

// The lengths of the journey to the end and of the set, how many lines are printed, and whether both
// pass.
fn told(alloc: Global, net: &JourneyNet) -> Result<(usize, usize, usize, bool), NoMemory> {
    let found = net.earliest(alloc, 3, 4, 0)?;
    let text = print_journey(alloc, net, &found)?;
    let lines = text
        .as_bytes()
        .iter()
        .filter(|byte| **byte == b'\n')
        .count();
    let passes = net.check_reached(3, 4, 0, &found).is_none();
    Ok((found.journey.len(), found.reached.len(), lines, passes))
}

#[test]
fn as_large_a_day_as_there_may_be(rt: HostRuntime) -> Result<(), Fail> {
    let net = large_net(rt.alloc(), 100_000, 500_000)?;
    assert_eq!(rt; told(rt.alloc(), &net)?, (13_891, 83_338, 97_230, true));
    Ok(())
}

// The refusal of a text with more of something than there may be.
fn too_many(what: Counted, count: u64) -> Option<StageFault> {
    Some(StageFault::Refused(Refusal::TooMany { what, count }))
}

#[test]
fn larger_days_are_refused(rt: HostRuntime) -> Result<(), Fail> {
    let events = large_net(rt.alloc(), 100_001, 0).err();
    assert_eq!(rt; events, too_many(Counted::ExpandedEvents, 100_001));
    let activities = large_net(rt.alloc(), 100_000, 500_001).err();
    assert_eq!(rt; activities, too_many(Counted::ExpandedActivities, 500_001));
    Ok(())
}
