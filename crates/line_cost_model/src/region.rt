// Regions of concepts.
ghost use Rattle.std.specs.Prelude.{◌≡◌, ◌<◌, ◌≤◌, length, IfOk, All};
ghost use Rattle.line_cost_model.specs.Regions.{IsRange, IsInside, HasEachFeasible, root_of};
ghost use Rattle.line_cost_model.specs.Regions.{range_of, with_range};

use crate::problem::LineProblem;
use crate::range::LineRange;
use crate::running::root_ranges;
use plan_num::NoMemory;
use std::alloc::Global;
use std::marker::Model;

/// A range of frequencies for each line. Contracts see it as the list of these ranges.
#[derive(Debug, Drop)]
pub struct Region {
    ranges: Vec<LineRange>,
}

impl Model for Region {
    ghost use Rattle.std.specs.Prelude.{List, All};
    ghost use Rattle.line_cost_model.specs.declared.range.LineRange.{LineRange};
    ghost use Rattle.line_cost_model.specs.Regions.{IsRange};

    ghost Value = { List LineRange };

    ghost view = { λ region. region.ranges.items };

    ghost invariant = { λ region. All IsRange region.ranges.items };
}

impl Region {
    /// The region with all feasible concepts: each line has a frequency from 0 to the least of the
    /// maximal frequencies of its edges.
    pub fn root(alloc: Global, problem: &LineProblem) -> Result<Region, NoMemory>
        ensures root { IfOk result (λ region. region ≡ root_of problem.now) }
        ensures each { IfOk result (λ region. HasEachFeasible problem.now region) }
    {
        let ranges = root_ranges(alloc, problem)?;
        Ok(Region { ranges })
    }

    /// The least and the greatest frequency of the line at an index.
    pub fn ends(&self, line: usize) -> (u32, u32)
        requires { line < length self.now }
        ensures ends { result ≡ ((range_of self.now line).lo, (range_of self.now line).hi) }
        ensures sound { All IsRange self.now }
    {
        let range = self.ranges[line];
        (range.lo, range.hi)
    }

    /// The range of the line at an index becomes one inside it.
    pub fn narrow(&mut self, line: usize, lo: u32, hi: u32)
        requires there { line < length self.old }
        requires in_order { lo ≤ hi }
        requires inside { IsInside (record { lo = lo; hi = hi }) (range_of self.old line) }
        ensures { self.new ≡ with_range self.old line lo hi }
    {
        self.ranges[line] = LineRange { lo, hi };
    }

    /// The range of the line at an index becomes one that it lies inside.
    pub fn restore(&mut self, line: usize, lo: u32, hi: u32)
        requires there { line < length self.old }
        requires inside { IsInside (range_of self.old line) (record { lo = lo; hi = hi }) }
        requires few { hi ≤ 1000 }
        ensures { self.new ≡ with_range self.old line lo hi }
    {
        let range = LineRange { lo, hi };
        self.ranges[line] = range;
    }

    /// A region with the same ranges.
    pub fn copy(&self, alloc: Global) -> Result<Region, NoMemory>
        ensures { IfOk result (λ region. region ≡ self.now) }
    {
        let ranges = Vec::from_slice(alloc, &self.ranges)?;
        Ok(Region { ranges })
    }

    /// The ranges.
    pub(crate) fn ranges(&self) -> &[LineRange]
        ensures ranges { result.now ≡ self.now }
        ensures sound { All IsRange self.now }
    {
        &self.ranges
    }
}
