// Reading an entry of the keep.
ghost use Rattle.std.specs.Prelude.{◌≡◌, ◌≢◌, ◌≤◌, ◌+◌, ◌++◌, ℕ, List, [], IfOk, IfSome, None};
ghost use Rattle.std.specs.Prelude.{Some, drop};
ghost use Rattle.std.specs.Prelude.{if◌then◌else◌, length, map, option_map, slice_get, zip};
ghost use Rattle.std.specs.List.{filter_map};
ghost use Rattle.std.specs.Str.{bytes_eq};
ghost use Rattle.giv_files.specs.MadeLists.{made_lists};
ghost use Rattle.stage_keep.specs.Entries.{EntryParts, IsEntryOf, entry_bytes, last_line};
ghost use Rattle.giv_files.specs.Stages.{stage_inputs};
ghost use Rattle.stage_keep.specs.EntryReading.{ReadsEntry, entry_of, entry_with, heads, made_file};
ghost use Rattle.stage_keep.specs.EntryReading.{read_entry, texts_at};

use crate::block::{behind, block_at};
use crate::entry::Entry;
use crate::heads::{first_line, heads};
use crate::last_part::shorter_list;
use giv_files::{Made, MadeFile, MadeList, Stage};
use plan_num::{NoMemory, Text};
use std::alloc::Global;
use tables::FileId;

/// The entry of a stage that the bytes are, whose settings and inputs stand there, and None exactly
/// where they are none: where they are a front part of one, or one with more bytes behind it, too.
pub fn read_keep(alloc: Global, stage: Stage, bytes: &[u8]) -> Result<Option<Entry<'_>>, NoMemory>
    ensures read { IfOk result (λ found. found ≡ read_entry stage bytes.now) }
    ensures exact { IfOk result (ReadsEntry stage bytes.now) }
    ensures front { IfOk result (λ found. (entry : EntryParts) (more : List ℕ)
        → IsEntryOf stage entry → entry_bytes stage entry ≡ bytes.now ++ more → more ≢ []
        → found ≡ None) }
{
    read_entry(alloc, stage, bytes)
}

// The entry of a stage that the bytes are, where they are one.
fn read_entry(alloc: Global, stage: Stage, bytes: &[u8]) -> Result<Option<Entry<'_>>, NoMemory>
    ensures { IfOk result (λ found. found ≡ read_entry stage bytes.now) }
{
    match entry_with(alloc, stage, stage.makes(), bytes)? {
        Some(entry) => Ok(Some(entry)),
        None => shorter_entry(alloc, stage, bytes),
    }
}

// The entry that the bytes are, where a file is left out that may be.
fn shorter_entry(alloc: Global, stage: Stage, bytes: &[u8]) -> Result<Option<Entry<'_>>, NoMemory>
    ensures { IfOk result (λ found. found
        ≡ slice_get (filter_map (entry_with stage bytes.now) (drop 1 (made_lists stage))) 0) }
{
    match shorter_list(stage) {
        Some(file) => entry_with(alloc, stage, &[file], bytes),
        None => Ok(None),
    }
}

// The entry that the bytes are, where its made files are these.
fn entry_with<'a>(
    alloc: Global,
    stage: Stage,
    files: &[FileId],
    bytes: &'a [u8],
) -> Result<Option<Entry<'a>>, NoMemory>
    ensures { IfOk result (λ found. found ≡ entry_with stage bytes.now files.now) }
{
    let line = first_line(alloc, stage)?;
    let Some(blocks) = behind(line.as_bytes(), bytes) else {
        return Ok(None);
    };
    let heads = heads(alloc, stage, files)?;
    match texts_at(alloc, heads.as_slice(), blocks)? {
        None => Ok(None),
        Some(texts) => Ok(Some(entry_of(alloc, stage, files, texts.as_slice())?)),
    }
}

// The texts of the blocks with these heads, where they are the bytes with the last line behind.
fn texts_at<'a>(
    alloc: Global,
    heads: &[Text],
    bytes: &'a [u8],
) -> Result<Option<Vec<&'a [u8]>>, NoMemory>
    ensures texts { IfOk result (λ found. option_map (λ texts. map (λ text. text.now) texts.items) found
        ≡ texts_at heads.now bytes.now) }
    ensures each { IfOk result (λ found. IfSome found (λ texts. length texts.items ≡ length heads.now)) }
{
    let mut texts = Vec::new(alloc);
    let mut rest = bytes;
    for head in heads {
        let Some((text, more)) = block_at(alloc, head.as_bytes(), rest)? else {
            return Ok(None);
        };
        texts.push(text)?;
        rest = more;
    }
    Ok(if_ended(texts, rest))
}

// The texts, where the rest is the last line alone.
fn if_ended<'a>(texts: Vec<&'a [u8]>, rest: &[u8]) -> Option<Vec<&'a [u8]>>
    ensures { result ≡ (if bytes_eq rest.now last_line then Some texts.entry else None) }
{
    if rest == b"end\n".as_slice() {
        Some(texts)
    } else {
        None
    }
}

// The entry of these texts.
fn entry_of<'a>(
    alloc: Global,
    stage: Stage,
    files: &[FileId],
    texts: &[&'a [u8]],
) -> Result<Entry<'a>, NoMemory>
    requires { length texts.now ≡ 2 + length (stage_inputs stage) + length files.now }
    ensures { IfOk result (λ entry. entry
        ≡ entry_of stage files.now (map (λ text. text.now) texts.now)) }
{
    let (given, behind) = texts[1..].split_at(stage.inputs().len());
    let report = Text::copy(alloc, behind[files.len()])?;
    let inputs = Vec::from_slice(alloc, given)?;
    let files = made_files(alloc, files, behind)?;
    Ok(Entry::new(texts[0], inputs, Made { files, report }))
}

// Files with the texts that stand first among these.
fn made_files(alloc: Global, files: &[FileId], texts: &[&[u8]]) -> Result<MadeList, NoMemory>
    requires { length files.now ≤ length texts.now }
    ensures { IfOk result (λ made. made
        ≡ map made_file (zip files.now (map (λ text. text.now) texts.now))) }
{
    let mut made = MadeList::new(alloc);
    for (index, file) in files.iter().enumerate() {
        let text = Text::copy(alloc, texts[index])?;
        made.push(MadeFile { file: *file, text })?;
    }
    Ok(made)
}
