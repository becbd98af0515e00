// The lines that stand round the texts of an entry.
ghost use Rattle.std.specs.Prelude.{◌≡◌, IfOk};
ghost use Rattle.stage_keep.specs.Entries.{first_line, made_head};
ghost use Rattle.stage_keep.specs.EntryReading.{heads, last_heads};

use giv_files::Stage;
use plan_num::{NoMemory, Text};
use std::alloc::Global;
use tables::FileId;

/// The line with which an entry of a stage begins.
pub(crate) fn first_line(alloc: Global, stage: Stage) -> Result<Text, NoMemory>
    ensures { IfOk result (λ line. line ≡ first_line stage) }
{
    let mut line = Vec::new(alloc);
    line.extend_from_slice(b"lintim keep 1 ")?;
    line.extend_from_slice(stage.name().as_bytes())?;
    line.push(b'\n')?;
    Ok(Text::from_vec(line))
}

/// The heads of the blocks of an entry of a stage that has these made files.
pub(crate) fn heads(alloc: Global, stage: Stage, files: &[FileId]) -> Result<Vec<Text>, NoMemory>
    ensures { IfOk result (λ found. found.items ≡ heads stage files.now) }
{
    let mut heads = Vec::new(alloc);
    heads.push(Text::copy(alloc, b"settings")?)?;
    for _input in stage.inputs() {
        heads.push(Text::copy(alloc, b"input")?)?;
    }
    for file in files {
        heads.push(made_head(alloc, *file)?)?;
    }
    heads.push(Text::copy(alloc, b"report")?)?;
    Ok(heads)
}

/// The heads of the last blocks of an entry, those of its made files and of its line of the report.
pub(crate) fn last_heads(alloc: Global, files: &[FileId]) -> Result<Vec<Text>, NoMemory>
    ensures { IfOk result (λ found. found.items ≡ last_heads files.now) }
{
    let mut heads = Vec::new(alloc);
    for file in files {
        heads.push(made_head(alloc, *file)?)?;
    }
    heads.push(Text::copy(alloc, b"report")?)?;
    Ok(heads)
}

/// The head of the block of a made file.
pub(crate) fn made_head(alloc: Global, file: FileId) -> Result<Text, NoMemory>
    ensures { IfOk result (λ head. head ≡ made_head file) }
{
    let mut head = Vec::new(alloc);
    head.extend_from_slice(b"made ")?;
    head.extend_from_slice(file.name().as_bytes())?;
    Ok(Text::from_vec(head))
}
