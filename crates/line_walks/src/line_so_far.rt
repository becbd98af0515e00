// A line while the rows of a pool are read.
ghost use Rattle.std.specs.Prelude.{◌≡◌, length, IfOk, OnOk};
ghost use Rattle.line_walks.specs.Pools.{differs};
ghost use Rattle.line_walks.specs.LinesSoFar.{next_ends, no_line, with_edge, whole_line};

use crate::ends::Ends;
use crate::pool::Line;
use crate::walk::line_stops;
use plan_num::NoMemory;
use ptn_network::Edge;
use std::alloc::Global;
use std::marker::Model;

/// A line with its edges so far, by index and as they are, where its walks end, and the frequency
/// of its first row. Contracts see it as these five.
#[derive(Drop)]
pub(crate) struct LineSoFar {
    id: i64,
    indexes: Vec<usize>,
    edges: Vec<Edge>,
    ends: Ends,
    frequency: Option<i64>,
}

impl Model for LineSoFar {
    ghost use Rattle.line_walks.specs.LinesSoFar.{LineEdges};

    ghost Value = { LineEdges };

    ghost view = { λ line. record { id = line.id; indexes = line.indexes.items; edges = line.edges.items; ends = line.ends; frequency = line.frequency } };
}

impl LineSoFar {
    /// A line without rows.
    pub(crate) fn new(alloc: Global, id: i64) -> LineSoFar
        ensures { result ≡ no_line id }
    {
        LineSoFar {
            id,
            indexes: Vec::new(alloc),
            edges: Vec::new(alloc),
            ends: Ends {
                left: None,
                right: None,
            },
            frequency: None,
        }
    }

    /// How many edges it has.
    pub(crate) fn len(&self) -> usize
        ensures { result ≡ length self.now.indexes }
    {
        self.indexes.len()
    }

    /// Where its walks end after one edge more.
    pub(crate) fn ends_after(&self, edge: &Edge) -> Ends
        ensures { result ≡ next_ends self.now.edges self.now.ends edge.now }
    {
        if self.edges.is_empty() {
            Ends::of_edge(edge)
        } else {
            self.ends.after(edge)
        }
    }

    /// Whether a frequency is another one than that of its first row.
    pub(crate) fn differs(&self, frequency: i64) -> bool
        ensures { result ≡ differs frequency self.now.frequency }
    {
        match self.frequency {
            None => false,
            Some(first) => frequency != first,
        }
    }

    /// One edge more, by a row that has a frequency.
    pub(crate) fn add(&mut self, index: usize, edge: Edge, frequency: i64) -> Result<(), NoMemory>
        ensures { OnOk result (self.new ≡ with_edge self.old index edge frequency) }
    {
        let ends = self.ends_after(&edge);
        self.indexes.push(index)?;
        self.edges.push(edge)?;
        self.ends = ends;
        if self.frequency.is_none() {
            self.frequency = Some(frequency);
        }
        Ok(())
    }

    /// The whole line.
    pub(crate) fn into_line(self, alloc: Global) -> Result<Line, NoMemory>
        ensures { IfOk result (λ line. line ≡ whole_line self) }
    {
        let LineSoFar {
            id,
            indexes,
            edges,
            frequency,
            ..
        } = self;
        let stops = line_stops(alloc, &edges)?;
        let served = frequency.unwrap_or(0).unsigned_abs();
        Ok(Line::new(id, indexes, stops, served))
    }
}
