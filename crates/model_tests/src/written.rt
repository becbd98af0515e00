// The texts of the files of events, activities, times, trips and schedules: what was read is
// written as it stood, behind a header.
use crate::refusing::{DAY, EVENTS, TWO_OF_DAY};
use event_tables::{
    disposed_times, disposed_times_text, expanded_activities, expanded_activities_text,
    expanded_events, expanded_events_text, periodic_activities, periodic_activities_text,
    periodic_events, periodic_events_text, periodic_times, periodic_times_text, schedule_rows,
    schedule_text, trips, trips_text,
};
use giv_files::FileId;
use plan_num::Text;
use std::alloc::Global;
use std::process::Abort;
use std::test::Fail;

const TWO_EVENTS: &[u8] = b"1; departure; 1; 1; >; 1\n2; arrival; 2; 1; <; 3\n";

// A file, the events behind which it stands, and its text.
type Written = (FileId, &'static [u8], &'static [u8]);

const OF_A_PERIOD: [Written; 6] = [
    (
        FileId::EventsP,
        b"",
        b"# event-id; type; stop-id; line-id; direction; repetition\n\
        1; departure; 1; 1; >; 1\n2; arrival; 2; 1; <; 3\n",
    ),
    (
        FileId::EventsP,
        b"",
        b"# event-id; type; stop-id; line-id; direction; repetition\n\
        1; departure; 1; 7; >; 1\n2; arrival; 2; 7; >; 1\n3; departure; 2; 7; <; 2\n",
    ),
    (
        FileId::ActivitiesP,
        TWO_EVENTS,
        b"# activity-id; type; from-event; to-event; lower-bound; upper-bound\n\
        1; drive; 1; 2; 4; 5\n2; wait; 2; 1; 0; 3\n3; change; 2; 1; 2; 62\n\
        4; sync; 1; 1; 0; 100000\n",
    ),
    (
        FileId::ActivitiesP,
        EVENTS,
        b"# activity-id; type; from-event; to-event; lower-bound; upper-bound\n\
        1; drive; 1; 2; 4; 5\n2; sync; 3; 1; 0; 0\n3; change; 2; 3; 2; 62\n",
    ),
    (
        FileId::TimesP,
        TWO_EVENTS,
        b"# event-id; time\n1; 0\n2; 19\n",
    ),
    (
        FileId::TimesP,
        EVENTS,
        b"# event-id; time\n1; 0\n2; 4\n3; 19\n",
    ),
];

const OF_A_DAY: [Written; 5] = [
    (
        FileId::EventsX,
        b"",
        b"# event-id; periodic-id; type; time; stop-id\n\
        1; 1; departure; 5; 1\n2; 9; arrival; 9; 2\n",
    ),
    (
        FileId::ActivitiesX,
        TWO_OF_DAY,
        b"# activity-id; periodic-id; type; from-event; to-event; lower-bound; upper-bound\n\
        1; 7; drive; 1; 2; 4; 5\n",
    ),
    (
        FileId::ActivitiesX,
        DAY,
        b"# activity-id; periodic-id; type; from-event; to-event; lower-bound; upper-bound\n\
        1; 1; drive; 1; 2; 4; 5\n2; 1; wait; 2; 3; 0; 3\n3; 9; change; 7; 5; 0; 62\n",
    ),
    (
        FileId::Disposed,
        TWO_OF_DAY,
        b"# event-id; time\n1; 5\n2; 1000000000000000000\n",
    ),
    (
        FileId::Trips,
        b"",
        b"# start-id; periodic-start-id; start-stop; start-time; end-id; periodic-end-id; \
        end-stop; end-time; line\n1; 1; 1; 5; 2; 2; 2; 9; 8\n",
    ),
];

const SCHEDULE: [Written; 1] = [(
    FileId::Schedule,
    DAY,
    b"# circulation; vehicle; number; type; start-id; periodic-start-id; start-stop; start-time; \
    end-id; periodic-end-id; end-stop; end-time; line\n\
    1; 1; 1; TRIP; 1; 1; 1; 5; 2; 2; 2; 9; 8\n1; 1; 2; EMPTY; 2; 2; 2; 9; 3; 3; 2; 9; 0\n",
)];

#[test]
fn files_of_a_period_are_written(rt: HostRuntime) -> Result<(), Fail> {
    stand_as_read(&rt, &OF_A_PERIOD)
}

#[test]
fn files_of_a_day_are_written(rt: HostRuntime) -> Result<(), Fail> {
    stand_as_read(&rt, &OF_A_DAY)
}

#[test]
fn schedules_are_written(rt: HostRuntime) -> Result<(), Fail> {
    stand_as_read(&rt, &SCHEDULE)
}

// Texts are written again as they stood.
fn stand_as_read(rt: &(impl AllocGlobal + Abort), cases: &[Written]) -> Result<(), Fail> {
    for (file, events, text) in cases {
        let written = written(rt.alloc(), *file, events, text)?;
        assert_eq!(rt; written.as_bytes(), *text);
    }
    Ok(())
}

// What is written of what is read of a text.
fn written(alloc: Global, file: FileId, events: &[u8], text: &[u8]) -> Result<Text, Fail> {
    match file {
        FileId::EventsP => periodic_events_again(alloc, text),
        FileId::ActivitiesP => periodic_activities_again(alloc, events, text),
        FileId::TimesP => periodic_times_again(alloc, events, text),
        FileId::EventsX => expanded_events_again(alloc, text),
        FileId::ActivitiesX => expanded_activities_again(alloc, events, text),
        FileId::Disposed => disposed_times_again(alloc, events, text),
        FileId::Trips => trips_again(alloc, text),
        _ => schedule_again(alloc, events, text),
    }
}

fn periodic_events_again(alloc: Global, text: &[u8]) -> Result<Text, Fail> {
    let rows = periodic_events(alloc, text)?;
    Ok(periodic_events_text(alloc, &rows)?)
}

fn periodic_activities_again(alloc: Global, events: &[u8], text: &[u8]) -> Result<Text, Fail> {
    let events = periodic_events(alloc, events)?;
    let rows = periodic_activities(alloc, &events, text)?;
    Ok(periodic_activities_text(alloc, &rows)?)
}

// In a period of 20.
fn periodic_times_again(alloc: Global, events: &[u8], text: &[u8]) -> Result<Text, Fail> {
    let events = periodic_events(alloc, events)?;
    let rows = periodic_times(alloc, FileId::TimesP, 20, &events, text)?;
    Ok(periodic_times_text(alloc, &rows)?)
}

fn expanded_events_again(alloc: Global, text: &[u8]) -> Result<Text, Fail> {
    let rows = expanded_events(alloc, text)?;
    Ok(expanded_events_text(alloc, &rows)?)
}

fn expanded_activities_again(alloc: Global, events: &[u8], text: &[u8]) -> Result<Text, Fail> {
    let events = expanded_events(alloc, events)?;
    let rows = expanded_activities(alloc, &events, text)?;
    Ok(expanded_activities_text(alloc, &rows)?)
}

fn disposed_times_again(alloc: Global, events: &[u8], text: &[u8]) -> Result<Text, Fail> {
    let events = expanded_events(alloc, events)?;
    let rows = disposed_times(alloc, &events, text)?;
    Ok(disposed_times_text(alloc, &rows)?)
}

fn trips_again(alloc: Global, text: &[u8]) -> Result<Text, Fail> {
    let rows = trips(alloc, None, text)?;
    Ok(trips_text(alloc, &rows)?)
}

fn schedule_again(alloc: Global, events: &[u8], text: &[u8]) -> Result<Text, Fail> {
    let events = expanded_events(alloc, events)?;
    let rows = schedule_rows(alloc, &events, text)?;
    Ok(schedule_text(alloc, &rows)?)
}
