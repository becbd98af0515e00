// Small line problems.
ghost use Rattle.std.specs.Prelude.{◌≡◌, ◌≤◌, length, IfOk};

use line_cost_model::LineProblem;
use plan_num::NoMemory;
use std::alloc::Global;

/// Two edges in a row, from 2 and from `least` to `most` drives. Line 1 goes over both and costs 15,
/// line 2 goes over the first and costs 12.
pub fn two_edges(alloc: Global, least: u32, most: u32) -> Result<LineProblem, NoMemory>
    requires in_order { least ≤ most }
    requires several { 2 ≤ most }
    requires few { most ≤ 1000 }
    ensures { IfOk result (λ problem. length problem.lines ≡ 2) }
{
    let mut problem = LineProblem::new(alloc);
    problem.push_edge(1, 2, most)?;
    problem.push_edge(2, least, most)?;
    problem.push_line(1, 15_000_000, &[0, 1])?;
    problem.push_line(2, 12_000_000, &[0])?;
    Ok(problem)
}

/// The same with the edges 4 and 7, from 2 and from 0 to 3 drives, and the lines 3 and 9.
pub fn other_ids(alloc: Global) -> Result<LineProblem, NoMemory>
    ensures lines { IfOk result (λ problem. length problem.lines ≡ 2) }
    ensures edges { IfOk result (λ problem. length problem.edges ≡ 2) }
{
    let mut problem = LineProblem::new(alloc);
    problem.push_edge(4, 2, 3)?;
    problem.push_edge(7, 0, 3)?;
    problem.push_line(3, 15_000_000, &[0, 1])?;
    problem.push_line(9, 12_000_000, &[0])?;
    Ok(problem)
}

/// One edge and so many lines over it, each with up to 1000 drives.
pub fn one_edge(alloc: Global, lines: u32) -> Result<LineProblem, NoMemory>
    requires { lines ≤ 1000 }
{
    let mut problem = LineProblem::new(alloc);
    problem.push_edge(1, 0, 1000)?;
    for id in 0..lines {
        problem.push_line(i64::from(id + 1), 1_000_000, &[0])?;
    }
    Ok(problem)
}

/// An edge that is to be driven once at least, and no line.
pub fn no_line(alloc: Global) -> Result<LineProblem, NoMemory> {
    let mut problem = LineProblem::new(alloc);
    problem.push_edge(1, 1, 3)?;
    Ok(problem)
}
