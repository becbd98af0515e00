// The edges at each stop.
ghost use Rattle.std.specs.Prelude.{◌≡◌, ◌<◌, length, map, slice_get, slice_set, slice_index_or, vec_len, All, Some, [], ◌∷◌, ◌++◌, IfOk, OnOk};
ghost use Rattle.std.specs.Map.{values_of};
ghost use Rattle.walks.specs.Networks.{IsEdge};
ghost use Rattle.walks.specs.StopEdges.{AreStopEdges, NotesAt};

use crate::edge::Edge;
use indexmap::IndexMap;
use plan_num::NoMemory;
use std::alloc::Global;
use std::marker::Model;

/// Of each stop the indexes of the edges that can be driven from it. Contracts see it as a list for
/// each stop.
#[derive(Drop)]
pub(crate) struct StopEdges {
    rows: Vec<Vec<usize>>,
}

impl Model for StopEdges {
    ghost use Rattle.std.specs.Prelude.{List, ℕ, map};

    ghost Value = { List (List ℕ) };

    ghost view = { λ at. map (λ row. row.items) at.rows.items };
}

impl StopEdges {
    /// The edges at so many stops.
    pub(crate) fn new(
        alloc: Global,
        stops: usize,
        edges: &IndexMap<i64, Edge>,
    ) -> Result<StopEdges, NoMemory>
        requires { All (IsEdge stops) (values_of edges.now.entries) }
        ensures { IfOk result (AreStopEdges stops (values_of edges.now.entries)) }
    {
        let mut rows = Vec::with_capacity(alloc, stops)?;
        for _stop in 0..stops {
            rows.push(Vec::new(alloc))?;
        }
        for index in 0..edges.len() {
            let edge = edges[index];
            note_edge(&mut rows, edge.left, index)?;
            note_edge(&mut rows, edge.right, index)?;
        }
        Ok(StopEdges { rows })
    }

    /// The indexes of the edges that can be driven from a stop.
    pub(crate) fn at(&self, stop: usize) -> &[usize]
        requires { stop < length self.now }
        ensures { slice_get self.now stop ≡ Some result.now }
    {
        self.rows[stop].as_slice()
    }
}

// An edge can be driven from a stop.
fn note_edge(rows: &mut Vec<Vec<usize>>, stop: usize, index: usize) -> Result<(), NoMemory>
    requires { stop < vec_len rows.old }
    ensures size { vec_len rows.new ≡ vec_len rows.old }
    ensures noted { OnOk result (NotesAt stop index (map (λ row. row.items) rows.old.items)
        (map (λ row. row.items) rows.new.items)) }
{
    rows[stop].push(index)?;
    Ok(())
}
