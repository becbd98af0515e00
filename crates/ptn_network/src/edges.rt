// Reading edges.
ghost use Rattle.std.specs.Prelude.{◌≡◌, ⊤, [], List, map, is_some, MatchResult, slice_get, Some};
ghost use Rattle.std.specs.List.{list_any};
ghost use Rattle.std.specs.Ordering.{int_eq};
ghost use Rattle.tables.specs.Inputs.{input_faults, records_of, broken_whys, UnlessFault};
ghost use Rattle.indexmap.specs.IndexMap.{get};
ghost use Rattle.ptn_network.specs.declared.edge_row.EdgeRow.{EdgeRow};
ghost use Rattle.ptn_network.specs.Inputs.{edge_input, edge_row, edge_rules};
ghost use Rattle.ptn_network.specs.Networks.{edge_entry, edge_of};
ghost use Rattle.walks.specs.RisingIds.{by_id};

use crate::edge_row::EdgeRow;
use indexmap::{IndexMap, IndexSet};
use plan_num::NoMemory;
use std::alloc::Global;
use tables::{Counted, FileId, RowFold, RowLimit, RowWhy, StageFault, Table, columns, fold_file};
use walks::Edge;

const LIMIT: RowLimit = RowLimit {
    what: Counted::Edges,
    most: 1_000,
};

/// The edges of a text by id rising, between stops whose ids rise, or the first fault of the text.
pub(crate) fn read_edges(
    alloc: Global,
    stops: &IndexSet<i64>,
    text: &[u8],
) -> Result<IndexMap<i64, Edge>, StageFault>
    ensures { UnlessFault (input_faults (edge_input stops.now.keys) text.now)
        (λ edges. edges.entries ≡ by_id (map (edge_entry stops.now.keys)
        (records_of (edge_input stops.now.keys) text.now))) result }
{
    let fold = EachEdge { stops };
    let none = IndexMap::new(alloc);
    let limit = Some(LIMIT);
    let mut edges = fold_file(
        alloc,
        FileId::Edge,
        text,
        &columns!(Edge),
        limit,
        &fold,
        none,
    )?;
    edges.sort_keys()?;
    Ok(edges)
}

// The fold that keeps each edge between stops by its id.
#[derive(Drop)]
struct EachEdge<'a> {
    stops: &'a IndexSet<i64>,
}

impl<'a> RowFold<6, EdgeRow, IndexMap<i64, Edge>> for EachEdge<'a> {
    ghost of_cells = { edge_row };

    ghost rules = { λ fold _. edge_rules fold.stops.now.keys };

    ghost Fits = { λ _ _. ⊤ };

    ghost Knows = { λ fold edges rows. edges.entries ≡ map (edge_entry fold.stops.now.keys) rows };

    fn take_row(
        &self,
        made: &mut IndexMap<i64, Edge>,
        table: &Table<6>,
        index: usize,
    ) -> Result<Option<RowWhy>, NoMemory> {
        let row = EdgeRow::read(table, index);
        match new_edge(self.stops, made, &row) {
            Ok(edge) => {
                made.insert(row.id, edge)?;
                Ok(None)
            }
            Err(why) => Ok(Some(why)),
        }
    }
}

// The edge of a row after other edges, or why the row is refused.
fn new_edge(
    stops: &IndexSet<i64>,
    edges: &IndexMap<i64, Edge>,
    row: &EdgeRow,
) -> Result<Edge, RowWhy>
    ensures { (before : List EdgeRow)
        → is_some (get int_eq edges.now row.now.id)
        ≡ list_any (λ other. int_eq row.now.id other.id) before
        → MatchResult result
        (λ edge. (broken_whys (edge_rules stops.now.keys) before row.now ≡ [])
        × (edge ≡ edge_of stops.now.keys row.now))
        (λ why. slice_get (broken_whys (edge_rules stops.now.keys) before row.now) 0 ≡ Some why) }
{
    if edges.contains_key(&row.id) {
        return Err(RowWhy::RepeatedId);
    }
    let Some(left) = stops.get_index_of(&row.left) else {
        return Err(RowWhy::UnknownStop);
    };
    let Some(right) = stops.get_index_of(&row.right) else {
        return Err(RowWhy::UnknownStop);
    };
    match row.broken_rule() {
        Some(why) => Err(why),
        None => Ok(row.between(left, right)),
    }
}
