// Reading disposed times.
ghost use Rattle.std.specs.Prelude.{◌≡◌, length, ⊤, IfOk};
ghost use Rattle.std.specs.List.{range_with_len};
ghost use Rattle.tables.specs.RowsOfTables.{ReadsFile};
ghost use Rattle.event_tables.specs.DisposedTimes.{disposed_time_input, disposed_time_rules, AreDisposedTimes};
ghost use Rattle.event_tables.specs.ExpandedFiles.{expanded_event_ids};
ghost use Rattle.event_tables.specs.Places.{AreNumbered};

use crate::disposed_time::DisposedTime;
use crate::expanded_event::ExpandedEvent;
use crate::place::{is_next_place, is_unknown};
use crate::times::all_there;
use plan_num::NoMemory;
use std::alloc::Global;
use tables::{FileId, RowTests, RowWhy, StageFault, columns, read_file};

/// The disposed times of the events of a day by a text, or its first fault.
pub fn disposed_times(
    alloc: Global,
    events: &[ExpandedEvent],
    text: &[u8],
) -> Result<Vec<DisposedTime>, StageFault>
    requires { AreNumbered (λ event. event.id) events.now }
    ensures read { ReadsFile (disposed_time_input (expanded_event_ids events.now)) text.now result }
    ensures sound { IfOk result (λ times. AreDisposedTimes (length events.now) times.items) }
{
    let tests = TimeTests {
        events: events.len(),
    };
    let rows = read_file(
        alloc,
        FileId::Disposed,
        text,
        &columns!(Disposed),
        None,
        tests,
    )?;
    all_there(rows, FileId::Disposed, events.len())
}

// The rules of disposed times of so many events.
#[derive(Drop)]
struct TimeTests {
    events: usize,
}

impl RowTests<DisposedTime> for TimeTests {
    ghost rules = { λ tests. disposed_time_rules (range_with_len 1 tests.events) };

    ghost Knows = { λ _ _. ⊤ };

    fn test(
        &mut self,
        before: &[DisposedTime],
        row: &DisposedTime,
    ) -> Result<Option<RowWhy>, NoMemory> {
        if !is_next_place(row.event, before.len()) {
            return Ok(Some(RowWhy::OrderGap));
        }
        Ok(is_unknown(row.event, self.events).then_some(RowWhy::UnknownEvent))
    }
}
