// Edges with bounds of frequency.
ghost use Rattle.std.specs.Prelude.{◌≡◌, ◌++◌, ◌∷◌, [], IfOk};

use plan_num::NoMemory;
use std::alloc::Global;
use std::marker::Model;

/// An edge with its minimal and its maximal frequency, in drives a period.
#[derive(Clone, Copy, Debug)]
pub(crate) struct BoundedEdge {
    pub(crate) id: i64,
    pub(crate) least: u32,
    pub(crate) most: u32,
}

/// An edge with its bounds, and the indexes of the lines over it, rising. Contracts see it as
/// these.
#[derive(Debug, Drop)]
pub(crate) struct CrossedEdge {
    bounds: BoundedEdge,
    lines: Vec<usize>,
}

impl Model for CrossedEdge {
    ghost use Rattle.line_cost_model.specs.Crossings.{CrossedEdge};

    ghost Value = { CrossedEdge };

    ghost view = { λ edge. record { bounds = edge.bounds; lines = edge.lines.items } };
}

impl CrossedEdge {
    /// An edge before there are lines.
    pub(crate) fn new(alloc: Global, bounds: BoundedEdge) -> CrossedEdge
        ensures { result ≡ record { bounds = bounds; lines = [] } }
    {
        CrossedEdge {
            bounds,
            lines: Vec::new(alloc),
        }
    }

    pub(crate) fn bounds(&self) -> BoundedEdge
        ensures { result ≡ self.now.bounds }
    {
        self.bounds
    }

    pub(crate) fn lines(&self) -> &[usize]
        ensures { result.now ≡ self.now.lines }
    {
        &self.lines
    }

    /// The lines over it, and one more.
    pub(crate) fn lines_and(&self, alloc: Global, line: usize) -> Result<Vec<usize>, NoMemory>
        ensures { IfOk result (λ lines. lines.items ≡ self.now.lines ++ line ∷ []) }
    {
        let mut lines = Vec::from_slice(alloc, &self.lines)?;
        lines.push(line)?;
        Ok(lines)
    }

    /// Other lines are over it.
    pub(crate) fn set_lines(&mut self, lines: Vec<usize>)
        ensures { self.new ≡ record self.old { lines = lines.items } }
    {
        self.lines = lines;
    }
}
