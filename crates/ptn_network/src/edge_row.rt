// Rows of a file of edges: how they are read, and the rules that each meets by itself.
ghost use Rattle.std.specs.Prelude.{◌≡◌, ◌<◌, [], length, slice_get, slice_index_or};
ghost use Rattle.tables.specs.Inputs.{broken_whys};
ghost use Rattle.tables.specs.Tables.{no_row};
ghost use Rattle.ptn_network.specs.Inputs.{edge_row, own_rules, two_ends, some_length, bounds_in_order};
ghost use Rattle.ptn_network.specs.Networks.{edge_between};

use tables::{RowWhy, Table};
use walks::Edge;

/// An edge between the stops of two ids.
#[derive(Clone, Copy)]
pub(crate) struct EdgeRow {
    pub(crate) id: i64,
    pub(crate) left: i64,
    pub(crate) right: i64,
    pub(crate) length: i64,
    pub(crate) lower: i64,
    pub(crate) upper: i64,
}

impl EdgeRow {
    /// What the row at an index of a table stands for.
    pub(crate) fn read(table: &Table<6>, index: usize) -> EdgeRow
        requires { index < length table.now }
        ensures { result ≡ edge_row (slice_index_or table.now index no_row).cells }
    {
        EdgeRow {
            id: table.cell(index, 0),
            left: table.cell(index, 1),
            right: table.cell(index, 2),
            length: table.cell(index, 3),
            lower: table.cell(index, 4),
            upper: table.cell(index, 5),
        }
    }

    /// The first rule that the row breaks by itself.
    pub(crate) fn broken_rule(&self) -> Option<RowWhy>
        ensures { result ≡ slice_get (broken_whys own_rules [] self.now) 0 }
    {
        if self.is_loop() {
            return Some(RowWhy::LoopEdge);
        }
        if self.has_zero_bound() {
            return Some(RowWhy::ZeroBound);
        }
        self.has_crossed_bounds().then_some(RowWhy::BoundsCrossed)
    }

    /// The edge of the row between the stops of two indexes.
    pub(crate) fn between(&self, left: usize, right: usize) -> Edge
        ensures { result ≡ edge_between left right self.now }
    {
        Edge {
            id: self.id,
            left,
            right,
            length: self.length,
            lower: self.lower,
            upper: self.upper,
        }
    }

    // Both ends are one stop.
    fn is_loop(&self) -> bool
        ensures { result ≡ two_ends.is_broken [] self.now }
    {
        self.left == self.right
    }

    // There is no length, or a drive takes no time.
    fn has_zero_bound(&self) -> bool
        ensures { result ≡ some_length.is_broken [] self.now }
    {
        self.length == 0 || self.lower == 0
    }

    // The greatest time of a drive is below the least one.
    fn has_crossed_bounds(&self) -> bool
        ensures { result ≡ bounds_in_order.is_broken [] self.now }
    {
        self.upper < self.lower
    }
}
