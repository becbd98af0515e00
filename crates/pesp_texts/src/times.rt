// Reading the times of events.
ghost use Rattle.std.specs.Prelude.{◌≡◌, ◌<◌, [], pos, true, Some, All, IfOk, length, replicate, slice_get, slice_set};
ghost use Rattle.pesp_texts.specs.Texts.{AreTimed, GivesTime, SaysTimes};
ghost use Rattle.pesp_texts.specs.declared.times.TheConstants.{NONE};

use crate::cells::{number_at, rows_of};
use crate::fault::{RowForm, TextRule, TextStop};
use crate::instance::Instance;
use std::alloc::Global;
use text_fields::{TextRow, TextRows};

// No event has this time, so it stands for none.
const NONE: u32 = u32::MAX;

/// Reads rows `event; time`, one for each event of a problem.
pub fn read_times(alloc: Global, text: &[u8], instance: &Instance) -> Result<Vec<u32>, TextStop>
    ensures { IfOk result (λ times. SaysTimes text.now instance.now.weighted.period
        instance.now.names.keys times.items) }
{
    let mut times = vec![in alloc; NONE; instance.names.len()]?;
    fill(alloc, text, instance, &mut times)?;
    Ok(times)
}

// Gives each event the time that a row has for it.
fn fill(alloc: Global, text: &[u8], instance: &Instance, times: &mut [u32]) -> Result<(), TextStop>
    requires { times.old ≡ replicate (length instance.now.names.keys) NONE }
    ensures { IfOk result (λ _. SaysTimes text.now instance.now.weighted.period
        instance.now.names.keys times.new) }
{
    let mut rows = rows_of(alloc, text)?;
    take_rows(alloc, &mut rows, instance, times)?;
    if are_all_there(times) {
        Ok(())
    } else {
        Err(TextStop::whole(TextRule::NoTime))
    }
}

// Whether each event has a time.
fn are_all_there(times: &[u32]) -> bool
    ensures { result ≡ true → All (λ time. ¬ (time ≡ NONE)) times.now }
{
    times.iter().all(|time| *time != NONE)
}

// Takes the times of all rows that are left.
fn take_rows<'a>(
    alloc: Global,
    rows: &mut TextRows<'a>,
    instance: &Instance,
    times: &mut [u32],
) -> Result<(), TextStop>
    requires { times.old ≡ replicate (length times.old) NONE }
    ensures { IfOk result (λ _. AreTimed instance.now.names.keys instance.now.weighted.period
        NONE rows.old [] times.new) }
{
    let mut row = TextRow::new(alloc);
    'rows: while rows.next_row(&mut row)? {
        if let Err(rule) = take_row(&row, instance, times) {
            return Err(TextStop::at(row.number(), rule));
        }
    }
    Ok(())
}

// Takes the time of a row.
fn take_row(row: &TextRow<'_>, instance: &Instance, times: &mut [u32]) -> Result<(), TextRule>
    ensures { IfOk result (λ _. GivesTime instance.now.names.keys instance.now.weighted.period
        row.now times.old times.new) }
{
    if row.len() != 2 {
        return Err(TextRule::Form(RowForm::Time));
    }
    let event = number_at(row, 0)?;
    let time = time_of(number_at(row, 1)?, instance.weighted.period())?;
    let place = place_of(instance, event)?;
    set_time(times, place, time)?;
    Ok(())
}

// The place of an event by its name.
fn place_of(instance: &Instance, name: i64) -> Result<usize, TextRule>
    ensures { IfOk result (λ place. slice_get instance.now.names.keys place ≡ Some name) }
{
    match instance.names.get_index_of(&name) {
        None => Err(TextRule::UnknownEvent),
        Some(place) => Ok(place),
    }
}

// A time, where it is one of the period.
fn time_of(number: i64, period: u32) -> Result<u32, TextRule>
    ensures number { IfOk result (λ time. number ≡ pos time) }
    ensures small { IfOk result (λ time. time < period) }
{
    match u32::try_from(number) {
        Ok(time) if time < period => Ok(time),
        _ => Err(TextRule::Outside),
    }
}

// Gives an event its time, where it has none.
fn set_time(times: &mut [u32], place: usize, time: u32) -> Result<(), TextRule>
    ensures within { IfOk result (λ _. place < length times.old) }
    ensures set { IfOk result (λ _. times.new ≡ slice_set times.old place time) }
{
    if place >= times.len() {
        return Err(TextRule::UnknownEvent);
    }
    if times[place] != NONE {
        return Err(TextRule::Twice);
    }
    times[place] = time;
    Ok(())
}
