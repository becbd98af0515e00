// What a folder keeps of the stages.
ghost use Rattle.std.specs.Prelude.{◌≡◌, IfOk, IfSome, None, Some, false, option_map};
ghost use Rattle.std.specs.FinMap as map;
ghost use Rattle.plan_files.specs.declared.write.Write.TheVariants.{Put};
ghost use Rattle.plan_files.specs.Folder.{has_failed};
ghost use Rattle.plan_files.specs.Reads.{FoundBehind, OnlyReads};
ghost use Rattle.giv_files.specs.MadeLists.{MakesAs, ids_of};
ghost use Rattle.giv_files.specs.Settings.{Fits};
ghost use Rattle.stage_keep.specs.Entries.{IsEntryOf, entry_bytes, entry_for, given_front, keep_name};
ghost use Rattle.stage_chain.specs.Kept.{kept_in};

use giv_files::{Bundle, Made, Stage};
use plan_files::{FileFault, Files, Name, Write};
use plan_num::NoMemory;
use stage_keep::{Given, entry_front, front_lines, front_pieces, last_line, read_made, write_keep};
use std::alloc::Global;

/// The name of the file in which the entry of a stage is kept.
pub(crate) fn keep_name(stage: Stage) -> &'static str
    ensures { result.now ≡ keep_name stage }
{
    stage.row().kept
}

/// What is kept of what a stage is given.
pub(crate) fn kept<F: Files>(
    alloc: Global,
    files: &mut F,
    given: &Given<'_>,
) -> Result<Option<Made>, FileFault>
    requires { Fits given.now }
    ensures kept { IfSome (F.contents files.old) (λ folder.
        IfOk result (λ made. made ≡ kept_in folder given.now)) }
    ensures makes { IfOk result (λ made. IfSome made (λ made.
        MakesAs given.now.stage (ids_of made.files))) }
    ensures only_reads { OnlyReads F.contents F.writes F.faults files.old files.new
        (has_failed result) }
{
    if !may_keep(alloc, files, given)? {
        return Ok(None);
    }
    match last_part(alloc, files, given)? {
        Some(part) => Ok(read_made(alloc, given.stage(), part)?),
        None => Ok(None),
    }
}

// Whether something may be kept of what a stage is given, by the two ends of the keep file: one
// that no run wrote may be longer than memory.
fn may_keep<F: Files>(alloc: Global, files: &mut F, given: &Given<'_>) -> Result<bool, FileFault>
    requires { Fits given.now }
    ensures unkept { IfSome (F.contents files.old) (λ folder. IfOk result (λ may. may ≡ false
        → kept_in folder given.now ≡ None)) }
    ensures only_reads { OnlyReads F.contents F.writes F.faults files.old files.new
        (has_failed result) }
{
    let front = entry_front(alloc, given)?;
    files.may_have_ends(keep_name(given.stage()), front.as_bytes(), last_line())
}

// What stands in the keep file behind what a stage is given. Of what it is given nothing is copied.
fn last_part<F: Files>(
    alloc: Global,
    files: &mut F,
    given: &Given<'_>,
) -> Result<Option<Vec<u8>>, FileFault>
    requires { Fits given.now }
    ensures behind { IfSome (F.contents files.old) (λ folder. IfOk result (λ part. FoundBehind
        (given_front given.now) (map.get folder (keep_name given.now.stage))
        (option_map (λ part. part.items) part))) }
    ensures only_reads { OnlyReads F.contents F.writes F.faults files.old files.new
        (has_failed result) }
{
    let lines = front_lines(alloc, given)?;
    let front = front_pieces(alloc, lines.as_slice(), given)?;
    files.get_behind(alloc, keep_name(given.stage()), front.as_slice())
}

/// The put of the entry of a stage that was made.
pub(crate) fn new_entry(alloc: Global, bundle: &Bundle, made: &Made) -> Result<Write, NoMemory>
    requires fits { Fits bundle.now }
    requires made { MakesAs bundle.now.stage (ids_of made.now.files) }
    ensures put { IfOk result (λ write. write ≡ Put (keep_name bundle.now.stage)
        (entry_bytes bundle.now.stage (entry_for bundle.now made.now))) }
    ensures entry { IfOk result (λ _.
        IsEntryOf bundle.now.stage (entry_for bundle.now made.now)) }
{
    let text = write_keep(alloc, bundle, made)?;
    let name = Name::copy(alloc, keep_name(bundle.stage()))?;
    Ok(Write::Put(name, text))
}
