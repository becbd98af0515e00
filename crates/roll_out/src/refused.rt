// Refusals by the rules of runs, and of lists that would be too long.
ghost use Rattle.std.specs.Prelude.{◌≡◌, ◌<◌, ◌^◌, [], length, Some, All};
ghost use Rattle.tables.specs.declared.counted.Counted.{Counted};
ghost use Rattle.tables.specs.declared.refusal.Refusal.TheVariants as refusals;
ghost use Rattle.tables.specs.declared.refusal.StageFault.TheVariants as faults;
ghost use Rattle.tables.specs.Inputs.{Refuses, UnlessFault, cell_faults, input_faults};
ghost use Rattle.tables.specs.Reading.{table_of};
ghost use Rattle.tables.specs.Columns.{activities_p_columns, events_p_columns};
ghost use Rattle.tables.specs.declared.file_id.FileId.TheVariants as files;
ghost use Rattle.event_tables.specs.PeriodicFiles.{periodic_activity_input, periodic_event_ids, periodic_event_input};
ghost use Rattle.event_tables.specs.Places.{IsOneOf};
ghost use Rattle.pesp_model.specs.PespTexts.{activities_of, events_of};
ghost use Rattle.roll_out.specs.RolloutStage.{faults_at};

use event_tables::PeriodicEvent;
use std::alloc::Global;
use tables::{ColumnKind, Counted, FileId, Refusal, RowWhy, StageFault, columns, read_input};

/// Refuses the row of the first of some periodic events by their ids, if there is one.
pub(crate) fn no_event_at(
    alloc: Global,
    text: &[u8],
    why: RowWhy,
    ids: &[u32],
) -> Result<(), StageFault>
    requires read { input_faults periodic_event_input text.now ≡ [] }
    requires there { All (IsOneOf (length (events_of text.now))) ids.now }
    ensures { UnlessFault (faults_at files.EventsP events_p_columns text.now why ids.now)
        (λ _. ids.now ≡ []) result }
{
    none_at(alloc, FileId::EventsP, text, &columns!(EventsP), why, ids)
}

/// The same of periodic activities between some events.
pub(crate) fn no_activity_at(
    alloc: Global,
    text: &[u8],
    why: RowWhy,
    ids: &[u32],
    events: &[PeriodicEvent],
) -> Result<(), StageFault>
    requires read { input_faults (periodic_activity_input (periodic_event_ids events.now)) text.now
        ≡ [] }
    requires there { All (IsOneOf (length (activities_of events.now text.now))) ids.now }
    ensures { UnlessFault (faults_at files.ActivitiesP activities_p_columns text.now why ids.now)
        (λ _. ids.now ≡ []) result }
{
    none_at(
        alloc,
        FileId::ActivitiesP,
        text,
        &columns!(ActivitiesP),
        why,
        ids,
    )
}

// Refuses the row of the first of some ids, which are places of rows, from 1.
fn none_at<const C: usize>(
    alloc: Global,
    file: FileId,
    text: &[u8],
    kinds: &[ColumnKind; C],
    why: RowWhy,
    ids: &[u32],
) -> Result<(), StageFault>
    requires narrow { C < 2 ^ 32 }
    requires read { cell_faults file kinds.now text.now ≡ [] }
    requires there { All (IsOneOf (length (table_of kinds.now text.now))) ids.now }
    ensures { UnlessFault (faults_at file kinds.now text.now why ids.now)
        (λ _. ids.now ≡ []) result }
{
    match ids.first() {
        None => Ok(()),
        Some(id) => {
            let table = read_input(alloc, file, text, kinds)?;
            Err(StageFault::Refused(Refusal::BadRow {
                file,
                row: table.number(*id as usize - 1),
                why,
            }))
        }
    }
}

/// The refusal of a list that would be too long.
pub(crate) fn too_many(what: Counted, count: usize) -> StageFault
    ensures { result ≡ faults.Refused (refusals.TooMany what count) }
{
    StageFault::Refused(Refusal::TooMany {
        what,
        count: count as u64,
    })
}
