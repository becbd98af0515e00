// Days over which journeys are looked for.
use giv_files::StageFault;
use journeys::JourneyNet;
use std::alloc::Global;

/// The texts of a day: events, activities, and disposed times where there are any.
pub(crate) type Day = (&'static str, &'static str, Option<&'static str>);

/// Two lines over three stops, each in both directions, twice from minute 0 to 20: line 1 goes over
/// all stops, and line 2 between the first two.
pub(crate) const TWO_LINES: Day = (
    "1; 1; departure; 0; 1\n2; 2; arrival; 4; 2\n3; 3; departure; 5; 2\n\
     4; 4; arrival; 11; 3\n5; 1; departure; 20; 1\n6; 2; arrival; 24; 2\n\
     7; 3; departure; 25; 2\n8; 4; arrival; 31; 3\n9; 5; departure; 0; 3\n\
     10; 6; arrival; 6; 2\n11; 7; departure; 7; 2\n12; 8; arrival; 11; 1\n\
     13; 5; departure; 20; 3\n14; 6; arrival; 26; 2\n15; 7; departure; 27; 2\n\
     16; 8; arrival; 31; 1\n17; 9; departure; 0; 1\n18; 10; arrival; 4; 2\n\
     19; 9; departure; 20; 1\n20; 10; arrival; 24; 2\n21; 11; departure; 0; 2\n\
     22; 12; arrival; 4; 1\n23; 11; departure; 20; 2\n24; 12; arrival; 24; 1\n",
    "1; 1; drive; 1; 2; 4; 5\n2; 2; wait; 2; 3; 1; 3\n3; 3; drive; 3; 4; 6; 6\n\
     4; 1; drive; 5; 6; 4; 5\n5; 2; wait; 6; 7; 1; 3\n6; 3; drive; 7; 8; 6; 6\n\
     7; 4; drive; 9; 10; 6; 6\n8; 5; wait; 10; 11; 1; 3\n9; 6; drive; 11; 12; 4; 5\n\
     10; 4; drive; 13; 14; 6; 6\n11; 5; wait; 14; 15; 1; 3\n12; 6; drive; 15; 16; 4; 5\n\
     13; 7; drive; 17; 18; 4; 5\n14; 7; drive; 19; 20; 4; 5\n15; 8; drive; 21; 22; 4; 5\n\
     16; 8; drive; 23; 24; 4; 5\n17; 9; change; 2; 23; 2; 62\n18; 10; change; 10; 23; 2; 62\n\
     19; 11; change; 12; 19; 2; 62\n20; 12; change; 18; 7; 2; 62\n21; 13; change; 18; 11; 2; 62\n\
     22; 13; change; 20; 15; 2; 62\n23; 14; change; 22; 5; 2; 62\n",
    None,
);

/// The events and the activities of three trips: from the first there are changes to the second and
/// to the third.
pub(crate) const EVENTS: &str = "1; 1; departure; 0; 1\n2; 2; arrival; 10; 2\n\
     3; 3; departure; 13; 2\n4; 4; arrival; 20; 3\n5; 5; departure; 30; 2\n\
     6; 6; arrival; 37; 3\n";

pub(crate) const ACTIVITIES: &str = "1; 1; drive; 1; 2; 8; 10\n2; 2; drive; 3; 4; 7; 9\n\
     3; 3; change; 2; 3; 2; 62\n4; 4; change; 2; 5; 2; 62\n5; 5; drive; 5; 6; 7; 9\n";

/// These trips on time.
pub(crate) const ON_TIME: Day = (EVENTS, ACTIVITIES, None);

/// The same, where the first trip is late, so that the first change is missed.
pub(crate) const LATE: Day = (
    EVENTS,
    ACTIVITIES,
    Some("1; 5\n2; 13\n3; 13\n4; 20\n5; 30\n6; 37\n"),
);

/// Two ways into one event, of which the one of lesser id comes from the later train; a start that is
/// reached from another; two arrivals at one time; and two events at one minute whose planned order
/// is not that of their disposed times.
pub(crate) const TIES: Day = (
    "1; 1; departure; 0; 1\n2; 2; arrival; 5; 2\n3; 3; departure; 1; 1\n\
     4; 4; arrival; 6; 2\n5; 5; departure; 8; 2\n6; 6; arrival; 9; 3\n\
     7; 7; arrival; 9; 3\n8; 8; departure; 3; 1\n9; 9; arrival; 3; 1\n",
    "1; 1; drive; 3; 4; 5; 5\n2; 2; drive; 1; 2; 5; 5\n3; 3; change; 4; 5; 2; 9\n\
     4; 4; change; 2; 5; 2; 9\n5; 5; drive; 5; 7; 1; 1\n6; 6; drive; 5; 6; 1; 1\n\
     7; 7; drive; 1; 9; 3; 3\n8; 8; wait; 9; 8; 0; 5\n9; 9; drive; 8; 2; 2; 2\n",
    None,
);

/// The net of a day, or its first fault.
pub(crate) fn net_of(alloc: Global, day: Day) -> Result<JourneyNet, StageFault> {
    let (events, activities, times) = day;
    let (events, activities) = (events.as_bytes(), activities.as_bytes());
    match times {
        None => JourneyNet::from_texts(alloc, events, activities, None),
        Some(times) => { JourneyNet::from_texts(alloc, events, activities, Some(times.as_bytes())) }
    }
}
