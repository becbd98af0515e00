// The pool of lines.
ghost use Rattle.std.specs.Prelude.{◌≡◌, ◌<◌, ◌≤◌, ◌^◌, length, slice_get, Some, option_map, IfOk};
ghost use Rattle.tables.specs.Inputs.{records, table_faults, UnlessFault};
ghost use Rattle.walks.specs.Networks.{IsNetwork};
ghost use Rattle.line_walks.specs.Pools.{line_input, line_faults, lines_of, lines_over, columns_of, pool_of, pool_faults, concept_of, concept_faults, AreLines};

use crate::line_file::LineFile;
use crate::line_rows::{line_ids, lines_of_rows, whole_lines};
use ptn_network::Network;
use std::alloc::Global;
use std::marker::Model;
use tables::{ColumnKind, Counted, Refusal, StageFault, Table, columns, read_input};

const MOST_LINES: usize = 200;

/// A line. Contracts see it as its id, the indexes of its edges, the stops of its walk and its
/// frequency.
#[derive(Drop)]
pub(crate) struct Line {
    id: i64,
    edges: Vec<usize>,
    stops: Vec<usize>,
    frequency: u64,
}

impl Model for Line {
    ghost use Rattle.line_walks.specs.Pools.{LineParts};

    ghost Value = { LineParts };

    ghost view = { λ line. record { id = line.id; edges = line.edges.items; stops = line.stops.items; frequency = line.frequency } };
}

impl Line {
    pub(crate) fn new(id: i64, edges: Vec<usize>, stops: Vec<usize>, frequency: u64) -> Line
        ensures { result ≡ record { id = id; edges = edges.items; stops = stops.items; frequency = frequency } }
    {
        Line {
            id,
            edges,
            stops,
            frequency,
        }
    }

    fn id(&self) -> i64
        ensures { result ≡ self.now.id }
    {
        self.id
    }

    fn edges(&self) -> &[usize]
        ensures { result.now ≡ self.now.edges }
    {
        &self.edges
    }

    fn stops(&self) -> &[usize]
        ensures { result.now ≡ self.now.stops }
    {
        &self.stops
    }

    fn frequency(&self) -> u64
        ensures { result ≡ self.now.frequency }
    {
        self.frequency
    }
}

/// Lines by id rising, each a walk over the edges of a network. Contracts see it as the list of its
/// lines.
#[derive(Drop)]
pub struct Pool {
    lines: Vec<Line>,
}

impl Model for Pool {
    ghost use Rattle.std.specs.Prelude.{List, ◌≤◌};
    ghost use Rattle.std.specs.List.{All};
    ghost use Rattle.line_walks.specs.Pools.{LineParts};

    ghost Value = { List LineParts };

    ghost view = { λ pool. pool.lines.items };

    ghost invariant = { λ pool. All (λ line. line.frequency ≤ 1000) pool.lines.items };
}

impl Pool {
    /// The lines of a text of the pool over a network, or the first fault of the text. Their
    /// frequencies are 0.
    pub fn from_text(alloc: Global, network: &Network, pool: &[u8]) -> Result<Pool, StageFault>
        ensures made { UnlessFault (pool_faults network.now pool.now) (λ made. made ≡ pool_of network.now pool.now) result }
        ensures sound { IfOk result (AreLines network.now.edges) }
    {
        read_lines(alloc, network, LineFile::Pool, pool, &columns!(Pool))
    }

    /// The lines of a text of a line concept over a network, or the first fault of the text.
    pub fn from_concept(
        alloc: Global,
        network: &Network,
        concept: &[u8],
    ) -> Result<Pool, StageFault>
        ensures made { UnlessFault (concept_faults network.now concept.now) (λ made. made ≡ concept_of network.now concept.now) result }
        ensures sound { IfOk result (AreLines network.now.edges) }
    {
        read_lines(
            alloc,
            network,
            LineFile::Concept,
            concept,
            &columns!(Concept),
        )
    }

    /// How many lines there are.
    pub fn line_count(&self) -> usize
        ensures { result ≡ length self.now }
    {
        self.lines.len()
    }

    /// The id of the line at a place.
    pub fn line_id(&self, line: usize) -> i64
        requires { line < length self.now }
        ensures { option_map (λ at. at.id) (slice_get self.now line) ≡ Some result }
    {
        self.lines[line].id()
    }

    /// The indexes of the edges of the line at a place, in their order.
    pub fn edges(&self, line: usize) -> &[usize]
        requires { line < length self.now }
        ensures { option_map (λ at. at.edges) (slice_get self.now line) ≡ Some result.now }
    {
        self.lines[line].edges()
    }

    /// The indexes of the stops of the walk of the line at a place.
    pub fn stops(&self, line: usize) -> &[usize]
        requires { line < length self.now }
        ensures { option_map (λ at. at.stops) (slice_get self.now line) ≡ Some result.now }
    {
        self.lines[line].stops()
    }

    /// How often the line at a place is driven in a period, each way.
    pub fn frequency(&self, line: usize) -> u32
        requires { line < length self.now }
        ensures { option_map (λ at. at.frequency) (slice_get self.now line) ≡ Some result }
    {
        self.lines[line].frequency() as u32
    }
}

// The lines of a text of a file, or the first fault of the text.
fn read_lines<const C: usize>(
    alloc: Global,
    network: &Network,
    kind: LineFile,
    text: &[u8],
    columns: &[ColumnKind; C],
) -> Result<Pool, StageFault>
    requires wide { 3 ≤ C }
    requires narrow { C < 2 ^ 32 }
    requires columns { columns.now ≡ columns_of kind }
    ensures made { UnlessFault (line_faults kind network.now text.now)
        (λ made. made ≡ lines_of kind network.now text.now) result }
    ensures sound { IfOk result (AreLines network.now.edges) }
{
    let table = read_input(alloc, kind.id(), text, columns)?;
    let lines = lines_of_table(alloc, network, kind, &table)?;
    Ok(Pool { lines })
}

// The lines of a table, or its first fault.
fn lines_of_table<const C: usize>(
    alloc: Global,
    network: &Network,
    kind: LineFile,
    table: &Table<C>,
) -> Result<Vec<Line>, StageFault>
    requires { 3 ≤ C }
    ensures network { IsNetwork network.now }
    ensures lines { UnlessFault (table_faults (line_input kind network.now.edges) table.now)
        (λ lines. lines.items ≡ lines_over network.now.edges (records (line_input kind network.now.edges) table.now)) result }
{
    // The count tells that the network is one.
    let _edges = network.edge_count();
    let ids = line_ids(alloc, table)?;
    if ids.len() > MOST_LINES {
        return Err(StageFault::Refused(Refusal::TooMany {
            what: Counted::Lines,
            count: ids.len() as u64,
        }));
    }
    let lines = lines_of_rows(alloc, network, kind, &ids, table)?;
    Ok(whole_lines(alloc, lines)?)
}
