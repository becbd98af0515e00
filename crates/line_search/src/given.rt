// The line problem of the inputs of the search.
ghost use Rattle.std.specs.Prelude.{◌≡◌, ◌≤◌, ◌≤ℤ◌, pos, [], length, map, zip, unsigned_abs};
ghost use Rattle.std.specs.Prelude.{All, IfOk};
ghost use Rattle.tables.specs.Inputs.{UnlessFault};
ghost use Rattle.line_cost_model.specs.Problems.{IsId};
ghost use Rattle.line_walks.specs.Pools.{AreLines};
ghost use Rattle.line_search.specs.GivenProblems.{bounded_by, problem_over};
ghost use Rattle.line_search.specs.GivenProblems.{problem_faults, problem_of};

use giv_files::Bundle;
use line_cost_model::LineProblem;
use line_walks::{LineCosts, Pool};
use plan_num::NoMemory;
use ptn_network::{Loads, Network};
use std::alloc::Global;
use tables::{FileId, StageFault};

/// The line problem of the inputs of the search, or their first fault.
pub(crate) fn read_problem(alloc: Global, bundle: &Bundle) -> Result<LineProblem, StageFault>
    requires { 5 ≤ length bundle.now.inputs }
    ensures { UnlessFault (problem_faults bundle.now)
        (λ problem. problem ≡ problem_of bundle.now) result }
{
    let network = Network::from_texts(alloc, bundle.input(0), bundle.input(1))?;
    let pool = Pool::from_text(alloc, &network, bundle.input(2))?;
    let loads = Loads::from_text(alloc, &network, FileId::Load, bundle.input(3))?;
    let costs = LineCosts::from_text(alloc, &pool, bundle.input(4))?;
    Ok(whole_problem(alloc, &network, &loads, &pool, &costs)?)
}

// The line problem of edges with their loads, and of lines with their costs.
fn whole_problem(
    alloc: Global,
    network: &Network,
    loads: &Loads,
    pool: &Pool,
    costs: &LineCosts,
) -> Result<LineProblem, NoMemory>
    requires ids { All (λ edge. IsId edge.id) network.now.edges }
    requires loads { length loads.now ≡ length network.now.edges }
    requires lines { AreLines network.now.edges pool.now }
    requires costs { length costs.now ≡ length pool.now }
    ensures { IfOk result (λ problem. problem
        ≡ problem_over network.now.edges loads.now pool.now costs.now) }
{
    let mut problem = problem_of_edges(alloc, network, loads)?;
    for line in 0..pool.line_count() {
        problem.push_line(pool.line_id(line), costs.get(line), pool.edges(line))?;
    }
    Ok(problem)
}

// The line problem of edges with their loads, and of no lines.
fn problem_of_edges(
    alloc: Global,
    network: &Network,
    loads: &Loads,
) -> Result<LineProblem, NoMemory>
    requires ids { All (λ edge. IsId edge.id) network.now.edges }
    requires loads { length loads.now ≡ length network.now.edges }
    ensures { IfOk result (λ problem. problem ≡ record {
      edges = map (λ at. bounded_by at.0 at.1) (zip network.now.edges loads.now);
      lines = [];
    }) }
{
    let mut problem = LineProblem::new(alloc);
    for index in 0..network.edge_count() {
        let load = loads.get(index);
        problem.push_edge(
            network.edge(index).id,
            frequency(load.least),
            frequency(load.most),
        )?;
    }
    Ok(problem)
}

// A bound of a frequency, which is not too great.
fn frequency(bound: i64) -> u32
    requires low { pos 0 ≤ℤ bound }
    requires high { bound ≤ℤ pos 1000 }
    ensures { result ≡ unsigned_abs bound }
{
    bound as u32
}
