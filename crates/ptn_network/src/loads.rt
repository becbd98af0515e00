// Loads that a file has.
ghost use Rattle.std.specs.Prelude.{◌≡◌, ◌<◌, ⊤, [], List, length, map, slice_get, slice_index_or, not, is_some, option_map, unwrap_or, if◌then◌else◌, None, Some, IfOk, MatchResult};
ghost use Rattle.std.specs.List.{list_any, All};
ghost use Rattle.tables.specs.Inputs.{input_faults, broken_whys, UnlessFault};
ghost use Rattle.walks.specs.Networks.{IsNetwork};
ghost use Rattle.ptn_network.specs.declared.load_row.LoadRow.{LoadRow};
ghost use Rattle.ptn_network.specs.Ids.{StandsAt};
ghost use Rattle.ptn_network.specs.Loads.{load_input, load_row_of, load_rules, given_for, loads_of, no_load, IsLoad};

use crate::edge_load::EdgeLoad;
use crate::load_row::LoadRow;
use crate::network::Network;
use plan_num::NoMemory;
use std::alloc::Global;
use std::marker::Model;
use tables::{FileId, Refusal, RowFold, RowWhy, StageFault, Table, columns, fold_file};

/// The loads of the edges of a network with their bounds of frequency, by the indexes of the edges.
/// Contracts see it as the list of them.
#[derive(Debug, Drop)]
pub struct Loads {
    loads: Vec<EdgeLoad>,
}

impl Model for Loads {
    ghost use Rattle.std.specs.Prelude.{List};
    ghost use Rattle.std.specs.List.{All};
    ghost use Rattle.ptn_network.specs.declared.edge_load.EdgeLoad.{EdgeLoad};
    ghost use Rattle.ptn_network.specs.Loads.{IsLoad};

    ghost Value = { List EdgeLoad };

    ghost view = { λ loads. loads.loads.items };

    ghost invariant = { λ loads. All IsLoad loads.loads.items };
}

impl Loads {
    /// The loads of the edges by a text of one of the two files of loads, or the first fault of the
    /// text.
    pub fn from_text(
        alloc: Global,
        network: &Network,
        file: FileId,
        text: &[u8],
    ) -> Result<Loads, StageFault>
        ensures { UnlessFault (input_faults (load_input file network.now.edges) text.now)
            (λ loads. loads ≡ loads_of file network.now.edges text.now) result }
    {
        let fold = EachLoad { network };
        let none = none_given(alloc, network)?;
        let given = fold_file(alloc, file, text, &columns!(Load), None, &fold, none)?;
        match all_given(alloc, &given)? {
            Some(loads) => Ok(Loads { loads }),
            None => Err(StageFault::Refused(Refusal::BadRow {
                file,
                row: 0,
                why: RowWhy::MissingEdge,
            })),
        }
    }

    /// How many loads there are: one for each edge.
    pub fn len(&self) -> usize
        ensures count { result ≡ length self.now }
        ensures sound { All IsLoad self.now }
    {
        self.loads.len()
    }

    /// The load of the edge at an index.
    pub fn get(&self, edge: usize) -> EdgeLoad
        requires { edge < length self.now }
        ensures place { slice_get self.now edge ≡ Some result }
        ensures sound { IsLoad result }
    {
        self.loads[edge]
    }

    /// The loads themselves. It takes no memory.
    pub fn into_vec(self) -> Vec<EdgeLoad>
        ensures { result.items ≡ self }
    {
        self.loads
    }
}

// The fold that keeps each load at the index of its edge.
#[derive(Drop)]
struct EachLoad<'a> {
    network: &'a Network,
}

impl<'a> RowFold<4, LoadRow, Vec<Option<EdgeLoad>>> for EachLoad<'a> {
    ghost of_cells = { load_row_of };

    ghost rules = { λ fold _. load_rules fold.network.now.edges };

    ghost Fits = { λ _ _. ⊤ };

    ghost Knows = { λ fold given rows. IsNetwork fold.network.now
        × (given.items ≡ map (given_for rows) fold.network.now.edges) };

    fn take_row(
        &self,
        made: &mut Vec<Option<EdgeLoad>>,
        table: &Table<4>,
        index: usize,
    ) -> Result<Option<RowWhy>, NoMemory> {
        let row = LoadRow::read(table, index);
        match new_place(self.network, made, &row) {
            Ok(place) => {
                made[place] = Some(row.load);
                Ok(None)
            }
            Err(why) => Ok(Some(why)),
        }
    }
}

// Before the first row no load is given.
fn none_given(alloc: Global, network: &Network) -> Result<Vec<Option<EdgeLoad>>, NoMemory>
    ensures given { IfOk result (λ given. given.items ≡ map (given_for []) network.now.edges) }
    ensures network { IsNetwork network.now }
{
    let mut given = Vec::new(alloc);
    for _edge in 0..network.edge_count() {
        given.push(None)?;
    }
    Ok(given)
}

// The index of the edge of a row after other rows, or why the row is refused.
fn new_place(network: &Network, given: &[Option<EdgeLoad>], row: &LoadRow) -> Result<usize, RowWhy>
    requires { length given.now ≡ length network.now.edges }
    ensures { (before : List LoadRow) → given.now ≡ map (given_for before) network.now.edges
        → MatchResult result
        (λ index. (broken_whys (load_rules network.now.edges) before row.now ≡ [])
        × StandsAt network.now.edges row.now.edge index)
        (λ why. slice_get (broken_whys (load_rules network.now.edges) before row.now) 0
        ≡ Some why) }
{
    let Some(index) = network.edge_index(row.edge) else {
        return Err(RowWhy::UnknownEdge);
    };
    if is_given(given, index) {
        return Err(RowWhy::RepeatedId);
    }
    if row.has_crossed_bounds() {
        return Err(RowWhy::BoundsCrossed);
    }
    Ok(index)
}

// Whether the load at an index is given.
fn is_given(given: &[Option<EdgeLoad>], index: usize) -> bool
    requires { index < length given.now }
    ensures { result ≡ is_some (slice_index_or given.now index None) }
{
    given[index].is_some()
}

// All loads, where each is given.
fn all_given(alloc: Global, given: &[Option<EdgeLoad>]) -> Result<Option<Vec<EdgeLoad>>, NoMemory>
    ensures { IfOk result (λ all. option_map (λ loads. loads.items) all
        ≡ (if list_any (λ load. not (is_some load)) given.now then None
        else Some (map (λ load. unwrap_or load no_load) given.now))) }
{
    let mut loads = Vec::new(alloc);
    for load in given {
        match load {
            None => return Ok(None),
            Some(load) => loads.push(*load)?,
        }
    }
    Ok(Some(loads))
}
