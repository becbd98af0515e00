// What a settings file says, once it is read.
ghost use Rattle.std.specs.Prelude.{◌≡◌, ◌∷◌, ◌++◌, [], IfOk, OnOk, string_bytes};
ghost use Rattle.config_keys.specs.Includes.{path_of};
ghost use Rattle.config_keys.specs.Items.{include_word};
ghost use Rattle.config_keys.specs.ReadSoFar.{text_of};
ghost use Rattle.config_keys.specs.SettingsFiles.{RowGives, IncludeTold, RowsTold, TextTold, Says};

use crate::include::{inside, path_of};
use crate::said::Said;
use crate::word::is_word;
use giv_files::Key;
use plan_num::NoMemory;
use std::alloc::Global;
use std::mem::replace;
use tables::{RowWhy, TextRow, TextRows, rows_of};

/// The most include rows that are read.
pub(crate) const MOST_INCLUDES: u64 = 1_000;

/// An include row: its number, the path of its file, and whether that is passed over where it is
/// not there.
#[derive(Drop)]
pub(crate) struct IncludeRow {
    pub row: u64,
    pub path: String,
    pub optional: bool,
}

/// An include row, with what the rows between it and the include row before it say last.
pub(crate) struct Section {
    pub said: Said,
    pub include: IncludeRow,
}

impl Drop for Section {
    fn drop(self) {
        let Section {
            said: _,
            include: _,
        } = self;
    }
}

/// Sections, and what the rows after them say last.
pub(crate) struct Sections {
    pub sections: Vec<Section>,
    pub rest: Said,
}

impl Drop for Sections {
    fn drop(self) {
        let Sections {
            sections: _,
            rest: _,
        } = self;
    }
}

/// Why a row is refused in any file: it has another form, or it includes a file of another folder.
#[derive(Clone, Copy)]
pub(crate) enum BadRow {
    Form(RowWhy),
    Outside,
}

/// A row that is refused in any file.
#[derive(Clone, Copy)]
pub(crate) struct FaultRow {
    pub row: u64,
    pub why: BadRow,
}

/// What a settings file says, up to its first row that is refused in any file, or its first include
/// row that is one too many. Of several rows with one key between two include rows it has the last.
#[derive(Drop)]
pub(crate) struct SettingsFile {
    pub told: Sections,
    pub fault: Option<FaultRow>,
}

// What comes after a row: the next row, or nothing that could be read, or nothing since the row is
// refused.
#[derive(Clone, Copy)]
enum Turn {
    Next,
    Enough,
    Fault(FaultRow),
}

impl Sections {
    // Ends a section by an include row.
    fn push(&mut self, alloc: Global, include: IncludeRow) -> Result<(), NoMemory>
        ensures sections { OnOk result (self.new.sections.items
            ≡ self.old.sections.items ++ (record { said = self.old.rest; include = include }) ∷ []) }
        ensures rest { OnOk result ((key : Key) → text_of self.new.rest key ≡ None) }
    {
        let said = replace(&mut self.rest, Said::new(alloc));
        self.sections.push(Section { said, include })?;
        Ok(())
    }

    // Takes an include row with the name of a file.
    fn take_include(
        &mut self,
        alloc: Global,
        row: u64,
        optional: bool,
        name: &[u8],
    ) -> Result<Turn, NoMemory>
        ensures { IfOk result (IncludeTold row optional name.now self.old self.new) }
    {
        let name = match inside(name) {
            None => {
                return Ok(Turn::Fault(FaultRow {
                    row,
                    why: BadRow::Outside,
                }));
            }
            Some(name) => name,
        };
        self.push(alloc, include_row(alloc, row, optional, name)?)?;
        if self.sections.len() as u64 > MOST_INCLUDES {
            Ok(Turn::Enough)
        } else {
            Ok(Turn::Next)
        }
    }

    // Takes a row.
    fn take_row(&mut self, alloc: Global, row: &TextRow) -> Result<Turn, NoMemory>
        ensures { IfOk result (RowGives row.now self.old self.new) }
    {
        if row.len() != 2 {
            return Ok(Turn::Fault(FaultRow {
                row: row.number(),
                why: BadRow::Form(RowWhy::FieldCount {
                    found: row.len() as u64,
                }),
            }));
        }
        let (key, value) = (row.field(0), row.field(1));
        match include_word(key) {
            None => {
                self.rest.take(alloc, key, value)?;
                Ok(Turn::Next)
            }
            Some(optional) => self.take_include(alloc, row.number(), optional, value),
        }
    }

    // Takes all rows, and gives the row that is refused in any file, where there is one.
    fn take_rows(
        &mut self,
        alloc: Global,
        rows: &mut TextRows<'_>,
    ) -> Result<Option<FaultRow>, NoMemory>
        ensures { IfOk result (RowsTold rows.old self.old self.new) }
    {
        let mut row = TextRow::new(alloc);
        'rows: while rows.next_row(&mut row)? {
            match self.take_row(alloc, &row)? {
                Turn::Next => {}
                Turn::Enough => return Ok(None),
                Turn::Fault(fault) => return Ok(Some(fault)),
            }
        }
        Ok(None)
    }
}

// An include row with the name of a file.
fn include_row(alloc: Global, row: u64, optional: bool, name: &str) -> Result<IncludeRow, NoMemory>
    ensures { IfOk result (λ include. (include.row ≡ row) × (include.optional ≡ optional)
        × (string_bytes include.path ≡ path_of name.now)) }
{
    let path = path_of(alloc, name)?;
    Ok(IncludeRow {
        row,
        path,
        optional,
    })
}

// Whether the key is a word of include rows, and then whether the file may be passed over.
#[tactic(auto, unfolding(crate::specs::Items::include_word))]
fn include_word(key: &[u8]) -> Option<bool>
    ensures { result ≡ include_word key.now }
{
    if is_word(key, "include") {
        Some(false)
    } else if is_word(key, "include_if_exists") {
        Some(true)
    } else {
        None
    }
}

// Takes all rows of a text, and gives the row that is refused in any file, where there is one.
fn take_text(alloc: Global, told: &mut Sections, text: &[u8]) -> Result<Option<FaultRow>, NoMemory>
    ensures { IfOk result (TextTold text.now told.old told.new) }
{
    match rows_of(alloc, text) {
        Ok(rows) => {
            let mut rows = rows;
            told.take_rows(alloc, &mut rows)
        }
        Err(fault) => Ok(Some(FaultRow {
            row: fault.row,
            why: BadRow::Form(fault.why),
        })),
    }
}

impl SettingsFile {
    /// What a text says.
    pub(crate) fn from_text(alloc: Global, text: &[u8]) -> Result<SettingsFile, NoMemory>
        ensures { IfOk result (Says text.now) }
    {
        let mut told = Sections {
            sections: Vec::new(alloc),
            rest: Said::new(alloc),
        };
        let fault = take_text(alloc, &mut told, text)?;
        Ok(SettingsFile { told, fault })
    }
}
