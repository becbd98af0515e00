// Reading stops.
ghost use Rattle.std.specs.Prelude.{◌≡◌, ⊤};
ghost use Rattle.tables.specs.Inputs.{input_faults, UnlessFault};
ghost use Rattle.ptn_network.specs.Inputs.{stop_input, stop_row};
ghost use Rattle.ptn_network.specs.Networks.{stops_of};

use indexmap::IndexSet;
use plan_num::NoMemory;
use std::alloc::Global;
use tables::{Counted, FileId, RowFold, RowLimit, RowWhy, StageFault, Table, columns, fold_file};

const LIMIT: RowLimit = RowLimit {
    what: Counted::Stops,
    most: 1_000,
};

/// The ids of the stops of a text, rising, or the first fault of the text.
pub(crate) fn read_stops(alloc: Global, text: &[u8]) -> Result<IndexSet<i64>, StageFault>
    ensures { UnlessFault (input_faults stop_input text.now)
        (λ stops. stops.keys ≡ stops_of text.now) result }
{
    let none = IndexSet::new(alloc);
    let limit = Some(LIMIT);
    let mut stops = fold_file(
        alloc,
        FileId::Stop,
        text,
        &columns!(Stop),
        limit,
        &EachStop,
        none,
    )?;
    stops.sort()?;
    Ok(stops)
}

// The fold that keeps the id of each stop.
struct EachStop;

impl RowFold<5, i64, IndexSet<i64>> for EachStop {
    ghost of_cells = { stop_row };

    ghost rules = { λ _ _. stop_input.row_rules };

    ghost Fits = { λ _ _. ⊤ };

    ghost Knows = { λ _ stops ids. stops.keys ≡ ids };

    fn take_row(
        &self,
        made: &mut IndexSet<i64>,
        table: &Table<5>,
        index: usize,
    ) -> Result<Option<RowWhy>, NoMemory> {
        let is_new = made.insert(table.cell(index, 0))?;
        Ok((!is_new).then_some(RowWhy::RepeatedId))
    }
}
