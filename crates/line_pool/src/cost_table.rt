// The table of the costs of lines.
ghost use Rattle.std.specs.Prelude.{◌≡◌, ◌+◌, ◌*◌, ◌/◌, ◌<◌, ◌≤◌, length, map, sum, All, IfOk};
ghost use Rattle.giv_files.specs.declared.key.Key.TheVariants as key;
ghost use Rattle.giv_files.specs.Settings.{amount};
ghost use Rattle.line_pool.specs.CostStage.{cost_row, costs_made};
ghost use Rattle.line_walks.specs.LineLengths.{length_at, IsModest};
ghost use Rattle.line_pool.specs.LineCosts.{AreModest};

use giv_files::{Key, Made, MadeFile, MadeList, Settings, Stage, count_text, report_line};
use line_walks::Pool;
use plan_num::NoMemory;
use ptn_network::Network;
use std::alloc::Global;
use tables::{FileId, Table, columns, write_table};

/// What is made of the lines of a pool: the table of their costs, and the line of the report.
pub(crate) fn costs_of_pool(
    alloc: Global,
    settings: &Settings,
    network: &Network,
    pool: &Pool,
) -> Result<Made, NoMemory>
    requires settings { AreModest settings.now }
    requires lines { All (IsModest network.now.edges) pool.now }
    ensures { IfOk result (λ made. made ≡ costs_made settings.now network.now.edges pool.now) }
{
    let table = cost_table(alloc, settings, network, pool)?;
    let text = write_table(
        alloc,
        b"# line-id; length; cost",
        &table,
        &columns!(PoolCost),
    )?;
    let mut files = MadeList::new(alloc);
    files.push(MadeFile {
        file: FileId::PoolCost,
        text,
    })?;
    Ok(Made {
        files,
        report: report_line(
            alloc,
            Stage::Cost,
            &[count_text(alloc, pool.line_count(), "lines")?],
        )?,
    })
}

// The rows of the costs.
fn cost_table(
    alloc: Global,
    settings: &Settings,
    network: &Network,
    pool: &Pool,
) -> Result<Table<3>, NoMemory>
    requires settings { AreModest settings.now }
    requires lines { All (IsModest network.now.edges) pool.now }
    ensures { IfOk result (λ table. table ≡ map (cost_row settings.now network.now.edges) pool.now) }
{
    let mut table = Table::new(alloc);
    for line in 0..pool.line_count() {
        let edges = pool.edges(line);
        let length = length_of(network, edges);
        let cost = cost_of(settings, length, edges.len());
        table.push(0, &[pool.line_id(line), length as i64, cost as i64])?;
    }
    Ok(table)
}

// The sum of the lengths of edges.
fn length_of(network: &Network, edges: &[usize]) -> u128
    requires { All (λ index. index < length network.now.edges) edges.now }
    ensures { result ≡ sum (map (length_at network.now.edges) edges.now) }
{
    let mut sum: u128 = 0;
    for index in edges {
        sum += u128::from(network.edge(*index).length.unsigned_abs());
    }
    sum
}

// The cost of a line of a length and of some edges.
fn cost_of(settings: &Settings, length: u128, edges: usize) -> u128
    requires settings { AreModest settings.now }
    requires short { length ≤ 10000000000000 }
    requires few { edges ≤ 1000 }
    ensures { result ≡ amount settings.now key.LpoolCostsFixed + amount settings.now key.LpoolCostsLength * length / 1000000
        + amount settings.now key.LpoolCostsEdges * edges }
{
    let fixed = u128::from(settings.amount(Key::LpoolCostsFixed));
    let by_length = u128::from(settings.amount(Key::LpoolCostsLength)) * length / 1_000_000;
    let by_edge = u128::from(settings.amount(Key::LpoolCostsEdges)) * edges as u128;
    fixed + by_length + by_edge
}
