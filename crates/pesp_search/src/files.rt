// The file of a timetable.
ghost use Rattle.std.specs.Prelude.{◌≡◌, ◌≤◌, [], ◌∷◌, length, All, IfOk};
ghost use Rattle.tables.specs.Columns.{times_p_columns};
ghost use Rattle.tables.specs.Writing.{InColumns};
ghost use Rattle.event_tables.specs.Cells.{periodic_time_cells};
ghost use Rattle.tables.specs.declared.file_id.FileId.TheVariants as file;
ghost use Rattle.pesp_search.specs.PinnedTimetables.{times_kept};
ghost use Rattle.pesp_search.specs.TimetableStage.{time_rows, times_made, times_text};

use event_tables::{PeriodicTime, periodic_times_text};
use giv_files::{Made, MadeFile, MadeList, Stage, count_text, report_line};
use pesp::FoundTimes;
use plan_num::{NoMemory, Text};
use std::alloc::Global;
use tables::FileId;

/// What is made of times that were found: their file, and the line of the report.
pub(crate) fn times_made(alloc: Global, found: &FoundTimes) -> Result<Made, NoMemory>
    requires few { length found.now.times.items ≤ 4000 }
    requires fit { All (λ row. InColumns times_p_columns (periodic_time_cells row))
        (time_rows found.now.times.items) }
    ensures { IfOk result (λ made. made
        ≡ times_made (record { times = found.now.times.items; entries = found.now.entries })) }
{
    Ok(Made {
        files: time_file(alloc, &found.times)?,
        report: report_line(
            alloc,
            Stage::Timetable,
            &[
                count_text(alloc, found.times.len(), "events")?,
                count_text(alloc, found.entries as usize, "entries")?,
            ],
        )?,
    })
}

/// What is made of times that a person gives: the same file, and a line that says so.
pub(crate) fn times_kept(alloc: Global, times: &[u32]) -> Result<Made, NoMemory>
    requires few { length times.now ≤ 4000 }
    requires fit { All (λ row. InColumns times_p_columns (periodic_time_cells row))
        (time_rows times.now) }
    ensures { IfOk result (λ made. made ≡ times_kept times.now) }
{
    Ok(Made {
        files: time_file(alloc, times)?,
        report: report_line(
            alloc,
            Stage::Timetable,
            &[
                count_text(alloc, times.len(), "events")?,
                Text::copy(alloc, b"pinned")?,
            ],
        )?,
    })
}

// The file of times, which is the one that is made.
fn time_file(alloc: Global, times: &[u32]) -> Result<MadeList, NoMemory>
    requires few { length times.now ≤ 4000 }
    requires fit { All (λ row. InColumns times_p_columns (periodic_time_cells row))
        (time_rows times.now) }
    ensures { IfOk result (λ files. files
        ≡ record { file = file.TimesP; text = times_text times.now } ∷ []) }
{
    let rows = time_rows(alloc, times)?;
    let mut files = MadeList::new(alloc);
    files.push(MadeFile {
        file: FileId::TimesP,
        text: periodic_times_text(alloc, &rows)?,
    })?;
    Ok(files)
}

// The rows of times: the events are numbered from 1.
fn time_rows(alloc: Global, times: &[u32]) -> Result<Vec<PeriodicTime>, NoMemory>
    requires { length times.now ≤ 4000 }
    ensures { IfOk result (λ rows. rows.items ≡ time_rows times.now) }
{
    let mut rows = Vec::new(alloc);
    for index in 0..times.len() {
        rows.push(PeriodicTime {
            event: index as u32 + 1,
            time: times[index],
        })?;
    }
    Ok(rows)
}
