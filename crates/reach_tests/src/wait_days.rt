// Days with delays, for the choice of the changes that they keep.
use giv_files::{Bundle, Key, Settings, Stage};
use std::alloc::Global;
use std::test::Fail;

/// The five inputs of a day.
pub(crate) type Day = [&'static str; 5];

/// Two trips of two vehicles, with a change of the id 3 from the first to the second; the first one
/// starts 5 minutes late.
pub(crate) const ONE_CHANGE: Day = [
    "1; 1; departure; 0; 1\n2; 2; arrival; 10; 2\n3; 3; departure; 13; 2\n4; 4; arrival; 20; 3\n",
    "1; 1; drive; 1; 2; 8; 10\n2; 2; drive; 3; 4; 7; 9\n3; 3; change; 2; 3; 2; 62\n",
    "1; 1; 1; TRIP; 1; 1; 1; 0; 2; 2; 2; 10; 1\n2; 2; 1; TRIP; 3; 3; 2; 13; 4; 4; 3; 20; 2\n",
    "1; 5\n",
    "",
];

/// Two trips that come late to a stop, from where two others go on: four changes, of the ids 5 to 8,
/// of which the last one is slow by a minute.
pub(crate) const HUB: Day = [
    "1; 1; departure; 0; 1\n2; 2; arrival; 10; 2\n3; 3; departure; 0; 4\n4; 4; arrival; 12; 2\n\
     5; 5; departure; 13; 2\n6; 6; arrival; 20; 3\n7; 7; departure; 14; 2\n8; 8; arrival; 25; 5\n",
    "1; 1; drive; 1; 2; 8; 10\n2; 2; drive; 3; 4; 9; 12\n3; 3; drive; 5; 6; 7; 9\n\
     4; 4; drive; 7; 8; 10; 12\n5; 5; change; 2; 5; 2; 62\n6; 6; change; 2; 7; 2; 62\n\
     7; 7; change; 4; 5; 2; 62\n8; 8; change; 4; 7; 2; 62\n",
    "1; 1; 1; TRIP; 1; 1; 1; 0; 2; 2; 2; 10; 1\n2; 2; 1; TRIP; 3; 3; 4; 0; 4; 4; 2; 12; 2\n\
     3; 3; 1; TRIP; 5; 5; 2; 13; 6; 6; 3; 20; 3\n4; 4; 1; TRIP; 7; 7; 2; 14; 8; 8; 5; 25; 4\n",
    "1; 6\n3; 9\n",
    "8; 1\n",
];

/// The inputs of a day as a bundle of the stage, with a turnover time of 5.
pub(crate) fn bundle(alloc: Global, day: &Day) -> Result<Bundle, Fail> {
    let mut settings = Settings::new(alloc);
    settings.push(Key::VsTurnOverTime, 5)?;
    settings.push(Key::DmWait, 3)?;
    let mut bundle = Bundle::new(alloc, Stage::Disposition, settings);
    for input in day {
        bundle.push_input(input.as_bytes())?;
    }
    Ok(bundle)
}
