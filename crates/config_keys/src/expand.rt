// Reading config files with their includes.
ghost use Rattle.std.specs.Prelude.{◌≡◌, ◌++◌, false, IfOk, IfSome, OnOk};
ghost use Rattle.plan_files.specs.Reads.{OnlyReads};
ghost use Rattle.config_keys.specs.Ends.{is_broken};
ghost use Rattle.config_keys.specs.Items.{look_in, config_items, below};
ghost use Rattle.config_keys.specs.ReadSoFar.{ReadOn, ReadGives, said_items};
ghost use Rattle.config_keys.specs.PartsOfReading.{IncludeGives, KeepGives};
ghost use Rattle.config_keys.specs.SettingsFiles.{kept_item, fault_by, fault_items, follow_items, file_items};

use crate::config_end::ConfigEnd;
use crate::config_fault::ConfigFault;
use crate::kept_files::KeptFiles;
use crate::reading::Reading;
use crate::said::Said;
use crate::settings_file::{BadRow, FaultRow, IncludeRow, MOST_INCLUDES, SettingsFile};
use plan_files::Files;
use plan_num::{NoMemory, Text};
use std::alloc::Global;

const CONFIG_NAME: &str = "basis/Config.cnf";

const MOST_LEVELS: u8 = 8;

// Where a row stands: in the file of a name, below which includes may be so many levels deep.
#[derive(Clone, Copy)]
struct Place<'a> {
    name: &'a str,
    left: u8,
}

/// Reads a dataset's config file, and what it includes.
pub(crate) fn read_all<F: Files>(
    alloc: Global,
    files: &mut F,
    reading: &mut Reading,
) -> Result<(), ConfigEnd>
    ensures read { IfSome (F.contents files.old)
        (λ folder. ReadGives (config_items (look_in folder)) reading.old reading.new result) }
    ensures only_reads { OnlyReads F.contents F.writes F.faults files.old files.new
        (is_broken result) }
{
    let mut kept = KeptFiles::new(alloc);
    match kept.file(alloc, files, CONFIG_NAME, true)? {
        None => Ok(()),
        Some(file) => {
            let place = Place {
                name: CONFIG_NAME,
                left: MOST_LEVELS,
            };
            read_file(alloc, files, &mut kept, reading, place, file.as_ref())
        }
    }
}

// Reads what a file says.
#[cycle(expand)]
fn read_file<F: Files>(
    alloc: Global,
    files: &mut F,
    kept: &mut KeptFiles,
    reading: &mut Reading,
    place: Place<'_>,
    file: &SettingsFile,
) -> Result<(), ConfigEnd>
    ensures read { IfSome (F.contents files.old) (λ folder. KeepGives (look_in folder)
        (file_items (look_in folder) (below (look_in folder) place.entry.left) place.entry.left
        place.entry.name.now file.now)
        kept.old kept.new reading.old reading.new result) }
    ensures only_reads { OnlyReads F.contents F.writes F.faults files.old files.new
        (is_broken result) }
{
    for section in &file.told.sections {
        read_said(alloc, reading, &section.said)?;
        read_include(alloc, files, kept, reading, place, &section.include)?;
    }
    read_end(alloc, reading, place.name, file)
}

// Reads an include row, and what its file says.
#[cycle(expand)]
fn read_include<F: Files>(
    alloc: Global,
    files: &mut F,
    kept: &mut KeptFiles,
    reading: &mut Reading,
    place: Place<'_>,
    include: &IncludeRow,
) -> Result<(), ConfigEnd>
    ensures read { IfSome (F.contents files.old) (λ folder. KeepGives (look_in folder)
        (follow_items (look_in folder) (below (look_in folder) place.entry.left) place.entry.left
        place.entry.name.now (kept_item place.entry.left place.entry.name.now include.now))
        kept.old kept.new reading.old reading.new result) }
    ensures only_reads { OnlyReads F.contents F.writes F.faults files.old files.new
        (is_broken result) }
{
    take_include(alloc, reading, place, include)?;
    let path = include.path.as_str();
    match kept.file(alloc, files, path, include.optional)? {
        None => Ok(()),
        Some(file) => {
            let below = Place {
                name: path,
                left: place.left - 1,
            };
            read_file(alloc, files, kept, reading, below, file.as_ref())
        }
    }
}

// Takes an include row.
fn take_include(
    alloc: Global,
    reading: &mut Reading,
    place: Place<'_>,
    include: &IncludeRow,
) -> Result<(), ConfigEnd>
    ensures { IncludeGives place.entry.left (kept_item place.entry.left place.entry.name.now include.now)
        reading.old reading.new result }
{
    let row = include.row;
    if place.left == 0 {
        return Err(ConfigEnd::Refused(ConfigFault::TooDeep {
            name: Text::copy(alloc, place.name.as_bytes())?,
            row,
        }));
    }
    if reading.includes >= MOST_INCLUDES {
        return Err(ConfigEnd::Refused(ConfigFault::TooManyIncludes {
            name: Text::copy(alloc, place.name.as_bytes())?,
            row,
        }));
    }
    reading.includes += 1;
    Ok(())
}

// Reads what is said of keys.
fn read_said(alloc: Global, reading: &mut Reading, said: &Said) -> Result<(), NoMemory>
    ensures { OnOk result (ReadOn (said_items said.now) reading.old reading.new) }
{
    reading.said.add(alloc, said)
}

// Reads what a file says after its last include row, and refuses its row that is refused in any
// file.
fn read_end(
    alloc: Global,
    reading: &mut Reading,
    name: &str,
    file: &SettingsFile,
) -> Result<(), ConfigEnd>
    ensures read { ReadGives (said_items file.now.told.rest ++ fault_items name.now file.now.fault)
        reading.old reading.new result }
    ensures faultless { is_broken result ≡ false }
{
    read_said(alloc, reading, &file.told.rest)?;
    match file.fault {
        None => Ok(()),
        Some(fault) => Err(ConfigEnd::Refused(fault_of(alloc, name, fault)?)),
    }
}

// Why a row is refused that is refused in any file.
fn fault_of(alloc: Global, name: &str, fault: FaultRow) -> Result<ConfigFault, NoMemory>
    ensures { IfOk result (λ reason. reason ≡ fault_by name.now fault.row fault.why) }
{
    let name = Text::copy(alloc, name.as_bytes())?;
    let row = fault.row;
    match fault.why {
        BadRow::Form(why) => Ok(ConfigFault::BadRow { name, row, why }),
        BadRow::Outside => Ok(ConfigFault::IncludeOutside { name, row }),
    }
}
