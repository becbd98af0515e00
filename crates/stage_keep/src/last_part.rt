// Reading what was made from the last part of an entry.
ghost use Rattle.std.specs.Prelude.{◌≡◌, ◌+◌, ◌++◌, ◌∷◌, [], All, IfOk, OnOk, IfSome, drop, length, map, zip};
ghost use Rattle.std.specs.Option.{option_to_list};
ghost use Rattle.giv_files.specs.MadeLists.{MakesAs, ids_of, made_lists};
ghost use Rattle.stage_keep.specs.EntryReading.{made_file, made_of, read_made};
ghost use Rattle.stage_keep.specs.Places.{IsWithin, part_of};

use crate::heads::last_heads;
use crate::place::{Place, longest_of, places_at};
use giv_files::{Made, MadeFile, MadeList, Stage};
use plan_num::{NoMemory, Text};
use std::alloc::Global;
use tables::FileId;

/// What was made, where the bytes are the last part of an entry of a stage: all that stands behind
/// its inputs. The longest text is not copied.
pub fn read_made(alloc: Global, stage: Stage, bytes: Vec<u8>) -> Result<Option<Made>, NoMemory>
    ensures made { IfOk result (λ made. made ≡ read_made stage bytes.items) }
    ensures makes { IfOk result (λ made. IfSome made (λ made. MakesAs stage (ids_of made.files))) }
{
    let files = stage.makes();
    let heads = last_heads(alloc, files)?;
    if let Some(places) = places_at(alloc, heads.as_slice(), bytes.as_slice())? {
        return Ok(Some(made_of(alloc, files, bytes, places.as_slice())?));
    }
    let Some(file) = shorter_list(stage) else {
        return Ok(None);
    };
    let heads = last_heads(alloc, &[file])?;
    match places_at(alloc, heads.as_slice(), bytes.as_slice())? {
        Some(places) => Ok(Some(made_of(alloc, &[file], bytes, places.as_slice())?)),
        None => Ok(None),
    }
}

/// The one file that a stage makes where another one is left out that may be.
pub(crate) fn shorter_list(stage: Stage) -> Option<FileId>
    ensures { drop 1 (made_lists stage) ≡ map (λ file. file ∷ []) (option_to_list result) }
{
    stage.row().alone
}

// What was made, by the places of its texts.
fn made_of(
    alloc: Global,
    files: &[FileId],
    bytes: Vec<u8>,
    places: &[Place],
) -> Result<Made, NoMemory>
    requires each { length places.now ≡ length files.now + 1 }
    requires within { All (IsWithin bytes.items) places.now }
    ensures { IfOk result (λ made. made
        ≡ made_of files.now (map (part_of bytes.items) places.now)) }
{
    let report = Text::copy(alloc, places[files.len()].part_of(bytes.as_slice()))?;
    let files = made_files(alloc, files, bytes, &places[..files.len()])?;
    Ok(Made { files, report })
}

// The made files, of which the one with the longest text takes the memory of the bytes.
fn made_files(
    alloc: Global,
    files: &[FileId],
    bytes: Vec<u8>,
    places: &[Place],
) -> Result<MadeList, NoMemory>
    requires each { length places.now ≡ length files.now }
    requires within { All (IsWithin bytes.items) places.now }
    ensures { IfOk result (λ made. made
        ≡ map made_file (zip files.now (map (part_of bytes.items) places.now))) }
{
    let mut made = MadeList::new(alloc);
    if places.is_empty() {
        return Ok(made);
    }
    let longest = longest_of(places);
    let next = longest + 1;
    add_copies(
        alloc,
        &mut made,
        &files[..longest],
        bytes.as_slice(),
        &places[..longest],
    )?;
    let mut later = MadeList::new(alloc);
    add_copies(
        alloc,
        &mut later,
        &files[next..],
        bytes.as_slice(),
        &places[next..],
    )?;
    made.push(MadeFile {
        file: files[longest],
        text: places[longest].cut_out(bytes),
    })?;
    for file in later.into_vec() {
        made.push(file)?;
    }
    Ok(made)
}

// Files more, with copies of the texts at their places.
fn add_copies(
    alloc: Global,
    made: &mut MadeList,
    files: &[FileId],
    bytes: &[u8],
    places: &[Place],
) -> Result<(), NoMemory>
    requires each { length places.now ≡ length files.now }
    requires within { All (IsWithin bytes.now) places.now }
    ensures { OnOk result (made.new ≡ made.old
        ++ map made_file (zip files.now (map (part_of bytes.now) places.now))) }
{
    for (index, file) in files.iter().enumerate() {
        let text = Text::copy(alloc, places[index].part_of(bytes))?;
        made.push(MadeFile { file: *file, text })?;
    }
    Ok(())
}
