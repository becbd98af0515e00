// The files of a day.
ghost use Rattle.std.specs.Prelude.{◌≡◌, All, IfOk};
ghost use Rattle.tables.specs.Columns.{events_x_columns, activities_x_columns, trips_columns};
ghost use Rattle.tables.specs.Writing.{InColumns};
ghost use Rattle.event_tables.specs.Cells.{expanded_event_cells, expanded_activity_cells, trip_cells};
ghost use Rattle.roll_out.specs.RolloutStage.{rollout_made};

use event_tables::{
    ExpandedActivity, ExpandedEvent, Trip, expanded_activities_text, expanded_events_text,
    trips_text,
};
use giv_files::{Made, MadeFile, MadeList, Stage, count_text, report_line};
use plan_num::NoMemory;
use std::alloc::Global;
use tables::FileId;

/// What is made of the events of a day, of the activities between them and of the trips: their
/// files, and the line of the report.
pub(crate) fn rollout_made(
    alloc: Global,
    events: &[ExpandedEvent],
    activities: &[ExpandedActivity],
    trips: &[Trip],
) -> Result<Made, NoMemory>
    requires events { All
        (λ row. InColumns events_x_columns (expanded_event_cells row)) events.now }
    requires activities { All (λ row. InColumns activities_x_columns
        (expanded_activity_cells row)) activities.now }
    requires trips { All (λ row. InColumns trips_columns (trip_cells row)) trips.now }
    ensures { IfOk result (λ made. made ≡ rollout_made events.now activities.now trips.now) }
{
    let mut files = MadeList::new(alloc);
    files.push(MadeFile {
        file: FileId::EventsX,
        text: expanded_events_text(alloc, events)?,
    })?;
    files.push(MadeFile {
        file: FileId::ActivitiesX,
        text: expanded_activities_text(alloc, activities)?,
    })?;
    files.push(MadeFile {
        file: FileId::Trips,
        text: trips_text(alloc, trips)?,
    })?;
    Ok(Made {
        files,
        report: report_line(
            alloc,
            Stage::Rollout,
            &[
                count_text(alloc, trips.len(), "trips")?,
                count_text(alloc, events.len(), "events")?,
                count_text(alloc, activities.len(), "activities")?,
            ],
        )?,
    })
}
