// The files of periodic events and activities.
ghost use Rattle.std.specs.Prelude.{◌≡◌, All, IfOk};
ghost use Rattle.tables.specs.Columns.{events_p_columns, activities_p_columns};
ghost use Rattle.tables.specs.Writing.{InColumns};
ghost use Rattle.event_tables.specs.Cells.{periodic_event_cells, periodic_activity_cells};
ghost use Rattle.event_activity.specs.EanStage.{ean_made, rows_of};

use crate::run_event::RunEvent;
use event_tables::{
    PeriodicActivity, PeriodicEvent, periodic_activities_text, periodic_events_text,
};
use giv_files::{Made, MadeFile, MadeList, Stage, count_text, report_line};
use plan_num::NoMemory;
use std::alloc::Global;
use tables::FileId;

/// What is made of events and activities: their files, and the line of the report.
pub(crate) fn ean_made(
    alloc: Global,
    events: &[PeriodicEvent],
    activities: &[PeriodicActivity],
) -> Result<Made, NoMemory>
    requires events { All (λ row. InColumns events_p_columns (periodic_event_cells row)) events.now }
    requires activities { All (λ row. InColumns activities_p_columns
        (periodic_activity_cells row)) activities.now }
    ensures { IfOk result (λ made. made ≡ ean_made events.now activities.now) }
{
    let mut files = MadeList::new(alloc);
    files.push(MadeFile {
        file: FileId::EventsP,
        text: periodic_events_text(alloc, events)?,
    })?;
    files.push(MadeFile {
        file: FileId::ActivitiesP,
        text: periodic_activities_text(alloc, activities)?,
    })?;
    Ok(Made {
        files,
        report: report_line(
            alloc,
            Stage::Ean,
            &[
                count_text(alloc, events.len(), "events")?,
                count_text(alloc, activities.len(), "activities")?,
            ],
        )?,
    })
}

/// The rows of events.
pub(crate) fn rows_of(alloc: Global, events: &[RunEvent]) -> Result<Vec<PeriodicEvent>, NoMemory>
    ensures { IfOk result (λ rows. rows.items ≡ rows_of events.now) }
{
    let mut rows = Vec::new(alloc);
    for event in events {
        rows.push(event.row)?;
    }
    Ok(rows)
}
