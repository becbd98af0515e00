// The table of loads.
ghost use Rattle.std.specs.Prelude.{◌≡◌, ◌++◌, ◌≤ℤ◌, pos, length, [], ◌∷◌, All, IfOk, OnOk};
ghost use Rattle.ptn_network.specs.Loads.{IsBounded};
ghost use Rattle.demand_load.specs.LoadTables.{load_row, load_rows, loads_made, HasId};

use giv_files::{Made, MadeFile, MadeList, Stage, count_text, report_line};
use plan_num::NoMemory;
use ptn_network::{Edge, EdgeLoad, Network};
use std::alloc::Global;
use tables::{FileId, Table, columns, write_table};

/// What is made of the loads of the edges of a network: their table, and the line of the report.
pub(crate) fn loads_made(
    alloc: Global,
    network: &Network,
    loads: &[EdgeLoad],
) -> Result<Made, NoMemory>
    requires size { length loads.now ≡ length network.now.edges }
    requires ids { All HasId network.now.edges }
    requires bounded { All IsBounded loads.now }
    requires rare { All (λ load. load.most ≤ℤ pos 1000) loads.now }
    ensures { IfOk result (λ made. made ≡ loads_made network.now.edges loads.now) }
{
    let table = load_table(alloc, network, loads)?;
    let text = write_table(
        alloc,
        b"# edge-id; load; minimal-frequency; maximal-frequency",
        &table,
        &columns!(Load),
    )?;
    let mut files = MadeList::new(alloc);
    files.push(MadeFile {
        file: FileId::Load,
        text,
    })?;
    Ok(Made {
        files,
        report: report_line(
            alloc,
            Stage::Load,
            &[count_text(alloc, network.edge_count(), "edges")?],
        )?,
    })
}

// The rows of the loads.
fn load_table(alloc: Global, network: &Network, loads: &[EdgeLoad]) -> Result<Table<4>, NoMemory>
    requires { length loads.now ≡ length network.now.edges }
    ensures { IfOk result (λ table. table ≡ load_rows network.now.edges loads.now) }
{
    let mut table = Table::new(alloc);
    for (index, load) in loads.iter().enumerate() {
        push_row(&mut table, &network.edge(index), load)?;
    }
    Ok(table)
}

// Appends the row of an edge.
fn push_row(table: &mut Table<4>, edge: &Edge, load: &EdgeLoad) -> Result<(), NoMemory>
    ensures { OnOk result (table.new ≡ table.old ++ load_row edge.now load.now ∷ []) }
{
    table.push(0, &[edge.id, load.load, load.least, load.most])
}
