// Why texts of files are refused, behind texts that are not.
use event_tables::{
    activity_delays, disposed_times, event_delays, expanded_activities, expanded_events,
    periodic_activities, periodic_events, periodic_times, schedule_rows, trips,
};
use giv_files::{FileId, Refusal, RowWhy, StageFault};
use line_pool::{LineCosts, Pool};
use ptn_network::{Loads, Network};
use std::alloc::Global;
use std::process::Abort;
use std::test::Fail;

/// Three stops in a row, with an edge from each to the next.
pub(crate) const STOPS: &[u8] = b"# stops\n1; A; A; 0; 0\n2; B; B; 0; 0\n3; C; C; 0; 0\n";

pub(crate) const EDGES: &[u8] = b"# edges\n1; 1; 2; 2; 4; 5\n2; 2; 3; 3; 6; 6\n";

/// Two equal ways round from stop 1 to stop 4, two edges from stop 1 to stop 2, and a stop alone.
pub(crate) const ROUND_STOPS: &[u8] =
    b"1; ; ; ; 0\n2; ; ; ; 0\n3; ; ; ; 0\n4; ; ; ; 0\n5; ; ; ; 0\n";

pub(crate) const ROUND_EDGES: &[u8] =
    b"1; 2; 4; 3; 3; 3\n2; 1; 2; 1; 2; 2\n3; 1; 3; 3; 3; 3\n4; 4; 3; 1; 2; 2\n5; 2; 1; 1; 1; 1\n";

/// Three stops in a row and two others, with two edges between the same stops.
pub(crate) const POOL_STOPS: &[u8] =
    b"1; A; A; 0; 0\n2; B; B; 0; 0\n3; C; C; 0; 0\n4; D; D; 0; 0\n5; E; E; 0; 0\n";

pub(crate) const POOL_EDGES: &[u8] =
    b"1; 1; 2; 2; 4; 5\n2; 2; 3; 3; 6; 6\n3; 4; 5; 1; 1; 1\n7; 3; 2; 1; 1; 1\n";

/// A line there and the beginning of its way back.
pub(crate) const EVENTS: &[u8] =
    b"# events\n1; departure; 1; 7; >; 1\n2; arrival; 2; 7; >; 1\n3; departure; 2; 7; <; 2\n";

/// The events of a day with a departure and an arrival at one time.
pub(crate) const DAY: &[u8] =
    b"# events\n1; 1; departure; 5; 1\n2; 2; arrival; 9; 2\n3; 3; departure; 9; 2\n\
    4; 4; arrival; 14; 3\n5; 5; departure; 14; 3\n6; 6; departure; 14; 3\n7; 7; arrival; 14; 3\n";

/// The first two of them.
pub(crate) const TWO_OF_DAY: &[u8] = b"1; 1; departure; 5; 1\n2; 2; arrival; 9; 2\n";

/// A text, and the row and the reason of its refusal.
pub(crate) type Refused = (&'static [u8], u64, RowWhy);

/// The refusal of a row.
pub(crate) fn bad_row(file: FileId, row: u64, why: RowWhy) -> StageFault {
    StageFault::Refused(Refusal::BadRow { file, row, why })
}

/// Texts of a file are refused by these rows.
pub(crate) fn refuses(
    rt: &(impl AllocGlobal + Abort),
    file: FileId,
    cases: &[Refused],
) -> Result<(), Fail> {
    for (text, row, why) in cases {
        let told = fault_of(rt.alloc(), file, text)?;
        assert_eq!(rt; told, Some(bad_row(file, *row, *why)));
    }
    Ok(())
}

// Why a text of a file is refused, if it is.
fn fault_of(alloc: Global, file: FileId, text: &[u8]) -> Result<Option<StageFault>, StageFault> {
    match file {
        FileId::Stop => Ok(Network::from_texts(alloc, text, EDGES).err()),
        FileId::Edge => Ok(Network::from_texts(alloc, STOPS, text).err()),
        FileId::LoadGiven | FileId::Load => load_fault(alloc, file, text),
        FileId::Pool | FileId::Concept => pool_fault(alloc, file, text),
        FileId::PoolCost => cost_fault(alloc, text),
        FileId::EventsP => Ok(periodic_events(alloc, text).err()),
        FileId::ActivitiesP => period_fault(alloc, text),
        FileId::TimesP => time_fault(alloc, text),
        FileId::EventsX => Ok(expanded_events(alloc, text).err()),
        FileId::Trips => Ok(trips(alloc, Some(&[1, 2, 3]), text).err()),
        FileId::ActivityDelays => activity_fault(alloc, text),
        FileId::Disposed => disposed_fault(alloc, text),
        _ => day_fault(alloc, file, text),
    }
}

fn load_fault(alloc: Global, file: FileId, text: &[u8]) -> Result<Option<StageFault>, StageFault> {
    let network = Network::from_texts(alloc, ROUND_STOPS, ROUND_EDGES)?;
    Ok(Loads::from_text(alloc, &network, file, text).err())
}

fn pool_fault(alloc: Global, file: FileId, text: &[u8]) -> Result<Option<StageFault>, StageFault> {
    let network = Network::from_texts(alloc, POOL_STOPS, POOL_EDGES)?;
    Ok(match file {
        FileId::Pool => Pool::from_text(alloc, &network, text).err(),
        _ => Pool::from_concept(alloc, &network, text).err(),
    })
}

/// Lines 3 and 7 over two edges.
pub(crate) fn costed_pool(alloc: Global) -> Result<Pool, StageFault> {
    let network = Network::from_texts(alloc, STOPS, EDGES)?;
    Pool::from_text(alloc, &network, b"7; 1; 1\n3; 1; 1\n3; 2; 2\n")
}

fn cost_fault(alloc: Global, text: &[u8]) -> Result<Option<StageFault>, StageFault> {
    let pool = costed_pool(alloc)?;
    Ok(LineCosts::from_text(alloc, &pool, text).err())
}

fn period_fault(alloc: Global, text: &[u8]) -> Result<Option<StageFault>, StageFault> {
    let events = periodic_events(alloc, EVENTS)?;
    Ok(periodic_activities(alloc, &events, text).err())
}

// In a period of 20.
fn time_fault(alloc: Global, text: &[u8]) -> Result<Option<StageFault>, StageFault> {
    let events = periodic_events(alloc, EVENTS)?;
    Ok(periodic_times(alloc, FileId::TimesP, 20, &events, text).err())
}

fn day_fault(alloc: Global, file: FileId, text: &[u8]) -> Result<Option<StageFault>, StageFault> {
    let events = expanded_events(alloc, DAY)?;
    Ok(match file {
        FileId::ActivitiesX => expanded_activities(alloc, &events, text).err(),
        FileId::EventDelays => event_delays(alloc, &events, text).err(),
        FileId::Schedule => schedule_rows(alloc, &events, text).err(),
        _ => None,
    })
}

fn activity_fault(alloc: Global, text: &[u8]) -> Result<Option<StageFault>, StageFault> {
    let events = expanded_events(alloc, DAY)?;
    let activities = expanded_activities(alloc, &events, b"1; 1; drive; 1; 2; 4; 5\n")?;
    Ok(activity_delays(alloc, &activities, text).err())
}

fn disposed_fault(alloc: Global, text: &[u8]) -> Result<Option<StageFault>, StageFault> {
    let events = expanded_events(alloc, TWO_OF_DAY)?;
    Ok(disposed_times(alloc, &events, text).err())
}
