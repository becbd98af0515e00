// Writing an entry of the keep.
ghost use Rattle.std.specs.Prelude.{◌≡◌, ◌++◌, IfOk, OnOk, Some, flat_map, map};
ghost use Rattle.giv_files.specs.MadeLists.{MakesAs, ids_of};
ghost use Rattle.giv_files.specs.Settings.{Fits};
ghost use Rattle.stage_keep.specs.Entries.{block_bytes, entry_blocks, entry_bytes, entry_for};
ghost use Rattle.stage_keep.specs.Entries.{IsEntryOf, input_block, made_block};
ghost use Rattle.stage_keep.specs.EntryReading.{read_entry};

use crate::block::push_block;
use crate::heads::{first_line, made_head};
use giv_files::{Bundle, Made, MadeList};
use plan_num::{NoMemory, Text};
use std::alloc::Global;

/// The entry of a bundle and what its stage made of it, as bytes.
#[tactic(auto, unfolding(crate::specs::Entries::entry_bytes))]
pub fn write_keep(alloc: Global, bundle: &Bundle, made: &Made) -> Result<Text, NoMemory>
    requires fits { Fits bundle.now }
    requires made { MakesAs bundle.now.stage (ids_of made.now.files) }
    ensures text { IfOk result (λ text. text
        ≡ entry_bytes bundle.now.stage (entry_for bundle.now made.now)) }
    ensures read_back { IfOk result (λ text. read_entry bundle.now.stage text
        ≡ Some (entry_for bundle.now made.now)) }
    ensures entry { IfOk result (λ _.
        IsEntryOf bundle.now.stage (entry_for bundle.now made.now)) }
{
    let mut bytes = Vec::new(alloc);
    bytes.extend_from_slice(first_line(alloc, bundle.stage())?.as_bytes())?;
    push_blocks(alloc, &mut bytes, bundle, made)?;
    bytes.extend_from_slice(b"end\n")?;
    Ok(Text::from_vec(bytes))
}

// Appends the blocks of the entry.
fn push_blocks(
    alloc: Global,
    bytes: &mut Vec<u8>,
    bundle: &Bundle,
    made: &Made,
) -> Result<(), NoMemory>
    requires { Fits bundle.now }
    ensures { OnOk result (bytes.new.items
        ≡ bytes.old.items ++ flat_map block_bytes (entry_blocks (entry_for bundle.now made.now))) }
{
    let settings = bundle.settings().text(alloc)?;
    push_block(bytes, b"settings", settings.as_bytes())?;
    push_inputs(bytes, bundle)?;
    push_made(alloc, bytes, &made.files)?;
    push_block(bytes, b"report", made.report.as_bytes())
}

// Appends the blocks of the inputs.
fn push_inputs(bytes: &mut Vec<u8>, bundle: &Bundle) -> Result<(), NoMemory>
    ensures { OnOk result (bytes.new.items
        ≡ bytes.old.items ++ flat_map block_bytes (map input_block bundle.now.inputs)) }
{
    for index in 0..bundle.inputs() {
        push_block(bytes, b"input", bundle.input(index))?;
    }
    Ok(())
}

// Appends the blocks of the made files.
fn push_made(alloc: Global, bytes: &mut Vec<u8>, files: &MadeList) -> Result<(), NoMemory>
    ensures { OnOk result (bytes.new.items
        ≡ bytes.old.items ++ flat_map block_bytes (map made_block files.now)) }
{
    for index in 0..files.len() {
        let made = files.get(index);
        let head = made_head(alloc, made.file)?;
        push_block(bytes, head.as_bytes(), made.text.as_bytes())?;
    }
    Ok(())
}
