// Many rows, by words that say what they are:
//
//     rows FIRST LAST ROW      a row for each of these numbers, which stands in the place of each <k>
//     events LENGTH            the events of a run, each at a stop of its own or at that of the next one
//     activities LENGTH        the drives and waits between them, each of a minute
//     trips COUNT              in each ten minutes ten trips that overlap, to one stop and back in turn
use crate::script::with_number;
use crate::trouble::Trouble;
use std::alloc::{AllocError, Global};

/// Puts the rows that some words say.
pub fn push_rows(alloc: Global, text: &mut String, words: &str) -> Result<(), Trouble> {
    let (kind, rest) = words.split_once(' ').unwrap_or((words, ""));
    if kind == "rows" {
        return push_equal_rows(alloc, text, rest);
    }
    for place in 0..rest.parse::<u32>().unwrap_or(0) {
        let row = match kind {
            "events" => event_row(alloc, place)?,
            "activities" => activity_row(alloc, place)?,
            "trips" => trip_row(alloc, place)?,
            _ => return Err(Trouble),
        };
        text.push_str(&row)?;
    }
    Ok(())
}

// The same row for each of some numbers.
fn push_equal_rows(alloc: Global, text: &mut String, words: &str) -> Result<(), Trouble> {
    let (first, rest) = words.split_once(' ').unwrap_or((words, ""));
    let (last, row) = rest.split_once(' ').unwrap_or((rest, ""));
    let first = first.parse::<u32>().unwrap_or(0);
    for number in first..=last.parse::<u32>().unwrap_or(0) {
        text.push_str(&with_number(alloc, row, "<k>", number)?)?;
        text.push_str("\n")?;
    }
    Ok(())
}

// The event at a place of a run.
fn event_row(alloc: Global, place: u32) -> Result<String, AllocError> {
    let kind = if place % 2 == 0 {
        "departure"
    } else {
        "arrival"
    };
    let stop = u64::from(place.div_ceil(2)) + 1;
    let id = u64::from(place) + 1;
    format!(in alloc; "{id}; {kind}; {stop}; 1; >; 1\n")
}

// The activity into the event at a place of a run; none into the first one.
fn activity_row(alloc: Global, place: u32) -> Result<String, AllocError> {
    let kind = match place {
        0 => return Ok(String::new(alloc)),
        place if place % 2 == 0 => "wait",
        _ => "drive",
    };
    let next = u64::from(place) + 1;
    format!(in alloc; "{place}; {kind}; {place}; {next}; 1; 1\n")
}

// A trip by its number.
fn trip_row(alloc: Global, trip: u32) -> Result<String, AllocError> {
    let (start, end) = (2 * u64::from(trip) + 1, 2 * u64::from(trip) + 2);
    let (ten, lane) = (trip / 10, trip % 10);
    let (from, to) = if ten % 2 == 0 { (1, 2) } else { (2, 1) };
    let time = u64::from(ten) * 10 + u64::from(lane % 3);
    let later = time + 5;
    format!(in alloc; "{start}; {start}; {from}; {time}; {end}; {end}; {to}; {later}; 1\n")
}
