// The demo dataset of a number.
ghost use Rattle.std.specs.Prelude.{◌≡◌, ◌≤◌, ◌++◌, ◌∷◌, [], IfOk, OnOk};
ghost use Rattle.plan_files.specs.declared.write.Write.TheVariants.{Put};
ghost use Rattle.plan_files.specs.Changes.{folder_of};
ghost use Rattle.demo_dataset.specs.Demo.{demo_folder, demo_writes};
ghost use Rattle.demo_dataset.specs.Square.{IsNumbered};

use crate::edge::all_edges;
use crate::line::all_lines;
use crate::rows::{demand_text, edge_text, pool_text, stop_text};
use plan_files::{Files, SteadyFiles};
use plan_num::NoMemory;
use std::alloc::Global;

/// The demo dataset of a number: the hand files of a square with so many rows and columns of
/// stops. Each file is put once, and there are no other writes.
pub fn demo_files(alloc: Global, n: u8) -> Result<SteadyFiles, NoMemory>
    requires some { 1 ≤ n }
    requires few { n ≤ 8 }
    ensures contents { IfOk result (λ files. folder_of files ≡ demo_folder n) }
    ensures writes { IfOk result (λ files. files ≡ demo_writes n) }
    ensures numbered { IsNumbered n }
{
    all_files(alloc, u32::from(n))
}

// The files of a square of this size.
fn all_files(alloc: Global, size: u32) -> Result<SteadyFiles, NoMemory>
    requires some { 1 ≤ size }
    requires few { size ≤ 8 }
    ensures { IfOk result (λ files. files ≡ demo_writes size) }
{
    let edges = all_edges(alloc, size)?;
    let lines = all_lines(alloc, size)?;
    let mut files = SteadyFiles::new(alloc);
    put(&mut files, "basis/Config.cnf", b"")?;
    put(&mut files, "basis/Stop.giv", &stop_text(alloc, size)?)?;
    put(&mut files, "basis/Edge.giv", &edge_text(alloc, &edges)?)?;
    put(&mut files, "basis/Pool.giv", &pool_text(alloc, &lines)?)?;
    put(&mut files, "basis/OD.giv", &demand_text(alloc, &edges)?)?;
    Ok(files)
}

// Puts a text under a name. These files want memory, and nothing else.
fn put(files: &mut SteadyFiles, name: &str, text: &[u8]) -> Result<(), NoMemory>
    ensures { OnOk result (files.new ≡ files.old ++ Put name.now text.now ∷ []) }
{
    files.put(name, text).map_err(|_refused| NoMemory)
}
