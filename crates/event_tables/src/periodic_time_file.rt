// Reading periodic times.
ghost use Rattle.std.specs.Prelude.{◌≡◌, length, ⊤, IfOk};
ghost use Rattle.std.specs.List.{range_with_len};
ghost use Rattle.tables.specs.RowsOfTables.{ReadsFile};
ghost use Rattle.event_tables.specs.PeriodicFiles.{periodic_time_input, periodic_time_rules, periodic_event_ids};
ghost use Rattle.event_tables.specs.PeriodicFiles.{ArePeriodicTimes};
ghost use Rattle.event_tables.specs.Places.{AreNumbered};

use crate::periodic_event::PeriodicEvent;
use crate::periodic_time::PeriodicTime;
use crate::place::{is_next_place, is_unknown};
use crate::times::all_there;
use plan_num::NoMemory;
use std::alloc::Global;
use tables::{FileId, RowTests, RowWhy, StageFault, columns, read_file};

/// The times of periodic events in a period of so many minutes, by a text of a file, or its first
/// fault.
pub fn periodic_times(
    alloc: Global,
    file: FileId,
    period: u32,
    events: &[PeriodicEvent],
    text: &[u8],
) -> Result<Vec<PeriodicTime>, StageFault>
    requires { AreNumbered (λ event. event.id) events.now }
    ensures read { ReadsFile (periodic_time_input file period (periodic_event_ids events.now)) text.now result }
    ensures sound { IfOk result (λ times. ArePeriodicTimes period (length events.now) times.items) }
{
    let tests = TimeTests {
        period,
        events: events.len(),
    };
    let rows = read_file(alloc, file, text, &columns!(TimesP), None, tests)?;
    all_there(rows, file, events.len())
}

// The rules of times of so many events in a period.
#[derive(Drop)]
struct TimeTests {
    period: u32,
    events: usize,
}

impl RowTests<PeriodicTime> for TimeTests {
    ghost rules = { λ tests. periodic_time_rules tests.period (range_with_len 1 tests.events) };

    ghost Knows = { λ _ _. ⊤ };

    fn test(
        &mut self,
        before: &[PeriodicTime],
        row: &PeriodicTime,
    ) -> Result<Option<RowWhy>, NoMemory> {
        if !is_next_place(row.event, before.len()) {
            return Ok(Some(RowWhy::OrderGap));
        }
        if is_unknown(row.event, self.events) {
            return Ok(Some(RowWhy::UnknownEvent));
        }
        Ok(row.is_outside(self.period).then_some(RowWhy::OutOfPeriod))
    }
}
