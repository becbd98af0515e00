// Made files that stand in a folder.
ghost use Rattle.std.specs.Prelude.{◌≡◌, Some, None, IfSome, IfOk, OnOk, option_map};
ghost use Rattle.std.specs.Prelude.{◌++◌, if◌then◌else◌};
ghost use Rattle.std.specs.FinMap as map;
ghost use Rattle.plan_files.specs.Folder.{has_failed};
ghost use Rattle.plan_files.specs.Reads.{OnlyReads};
ghost use Rattle.tables.specs.FileNames.{file_name};
ghost use Rattle.stage_chain.specs.Checks.{found_one, is_certificate, is_lacking};
ghost use Rattle.stage_chain.specs.Checks.{lacks_file, standing};
ghost use Rattle.stage_chain.specs.Ends.{has_failed as has_broken};

use crate::outcome::ChainFault;
use giv_files::{MadeFile, Stage};
use plan_files::{FileFault, Files, Got};
use plan_num::{NoMemory, Text};
use std::alloc::Global;
use tables::FileId;

/// The text of a file, however long, where it is there.
pub(crate) fn text_at<F: Files>(
    alloc: Global,
    files: &mut F,
    file: FileId,
) -> Result<Option<Text>, FileFault>
    ensures text { IfSome (F.contents files.old) (λ folder.
        IfOk result (λ text. text ≡ map.get folder (file_name file))) }
    ensures only_reads { OnlyReads F.contents F.writes F.faults files.old files.new
        (has_failed result) }
{
    match files.get(alloc, file.name(), u64::MAX)? {
        Got::Bytes(text) => Ok(Some(text)),
        Got::Absent | Got::TooLong => Ok(None),
    }
}

/// The files of a stage that are there; none where one of them lacks that is no certificate.
pub(crate) fn standing<F: Files>(
    alloc: Global,
    files: &mut F,
    stage: Stage,
) -> Result<Option<Vec<MadeFile>>, ChainFault>
    ensures files { IfSome (F.contents files.old) (λ folder.
        IfOk result (λ there. option_map (λ list. list.items) there
        ≡ (if lacks_file folder stage then None else Some (standing folder stage)))) }
    ensures only_reads { OnlyReads F.contents F.writes F.faults files.old files.new
        (has_broken result) }
{
    let mut there = Vec::new(alloc);
    for file in stage.makes() {
        let text = text_at(alloc, files, *file)?;
        if is_lacking(*file, &text) {
            return Ok(None);
        }
        push_found(&mut there, *file, text)?;
    }
    Ok(Some(there))
}

// Whether a file is not there that has to be, by what was found of it.
fn is_lacking(file: FileId, text: &Option<Text>) -> bool
    ensures { result ≡ is_lacking file text.now }
{
    text.is_none() && !is_certificate(file)
}

// One file more, where it is there.
fn push_found(there: &mut Vec<MadeFile>, file: FileId, text: Option<Text>) -> Result<(), NoMemory>
    ensures { OnOk result (there.new.items ≡ there.old.items ++ found_one file text) }
{
    if let Some(text) = text {
        there.push(MadeFile { file, text })?;
    }
    Ok(())
}

// Whether a file is a certificate, which may be left out.
fn is_certificate(file: FileId) -> bool
    ensures { result ≡ is_certificate file }
{
    matches!(file, FileId::Tree | FileId::Potential | FileId::Reasons)
}
