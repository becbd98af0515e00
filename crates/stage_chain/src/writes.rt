// The writes that bring a folder to what a chain made.
ghost use Rattle.std.specs.Prelude.{◌≡◌, ◌++◌, map, IfOk, OnOk};
ghost use Rattle.tables.specs.FileNames.{file_name};
ghost use Rattle.giv_files.specs.Stages.{stage_makes};
ghost use Rattle.plan_files.specs.declared.write.Write.TheVariants.{Removal};
ghost use Rattle.stage_chain.specs.Hand.{is_among, names_made_by};
ghost use Rattle.stage_chain.specs.Runs.{name_of, put_of, names_besides, writes_for};

use crate::stages::Stages;
use giv_files::{MadeFile, Stage};
use plan_files::{Name, Write};
use plan_num::NoMemory;
use std::alloc::Global;
use tables::FileId;

/// A put of each file that was made, and a removal of each other one that the built stages make.
#[tactic(auto, unfolding(crate::specs::Runs::writes_for))]
pub(crate) fn writes_for<S: Stages>(
    alloc: Global,
    made: Vec<MadeFile>,
) -> Result<Vec<Write>, NoMemory>
    ensures { IfOk result (λ writes. writes.items ≡ writes_for S.parts made.items) }
{
    let mut removals = removals::<S>(alloc, &made)?;
    let mut writes = puts(alloc, made)?;
    writes.append(&mut removals)?;
    Ok(writes)
}

// A put of each file.
fn puts(alloc: Global, made: Vec<MadeFile>) -> Result<Vec<Write>, NoMemory>
    ensures { IfOk result (λ writes. writes.items ≡ map put_of made.items) }
{
    let mut writes = Vec::new(alloc);
    for file in made {
        let name = Name::copy(alloc, file.file.name())?;
        writes.push(Write::Put(name, file.text))?;
    }
    Ok(writes)
}

// A removal of each file that the built stages make and that is not among those that were made.
fn removals<S: Stages>(alloc: Global, made: &[MadeFile]) -> Result<Vec<Write>, NoMemory>
    ensures { IfOk result (λ writes.
        writes.items ≡ map Removal (names_besides made.now (names_made_by S.parts.places))) }
{
    let mut writes = Vec::new(alloc);
    for place in S::places() {
        add_removals(alloc, &mut writes, *place, made)?;
    }
    Ok(writes)
}

// The same for the files of one stage.
fn add_removals(
    alloc: Global,
    writes: &mut Vec<Write>,
    stage: Stage,
    made: &[MadeFile],
) -> Result<(), NoMemory>
    ensures { OnOk result (writes.new.items ≡ writes.old.items
        ++ map Removal (names_besides made.now (map file_name (stage_makes stage)))) }
{
    for file in stage.makes() {
        if !is_among(*file, made) {
            writes.push(Write::Removal(Name::copy(alloc, file.name())?))?;
        }
    }
    Ok(())
}

// Whether a file of this name was made.
fn is_among(file: FileId, made: &[MadeFile]) -> bool
    ensures { result ≡ is_among (file_name file) (map name_of made.now) }
{
    for other in made {
        if file.name() == other.file.name() {
            return true;
        }
    }
    false
}
