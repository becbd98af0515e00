// Writing potentials.
ghost use Rattle.std.specs.Prelude.{◌≡◌, ◌+◌, ◌≤◌, ◌<◌, pos, [], ◌∷◌, length, IfOk};
ghost use Rattle.link_plans.specs.Potentials.{at, ArePotentials};
ghost use Rattle.flow_potentials.specs.PotentialTables.{potential_rows, potentials_text};
ghost use Rattle.flow_potentials.specs.PotentialTables.{IsReadBack};

use assignment::Potentials;
use plan_num::{NoMemory, Text};
use std::alloc::Global;
use tables::{Table, columns, write_table};

/// The text of potentials as a table: a row for each trip, counted from 1. It is read back to them.
pub fn write_potentials(alloc: Global, potentials: &Potentials) -> Result<Text, NoMemory>
    requires { length potentials.now.u ≤ 1000000000 }
    ensures text { IfOk result (λ text. text ≡ potentials_text potentials.now) }
    ensures back { IfOk result (IsReadBack potentials.now) }
{
    let table = table_of(alloc, potentials)?;
    write_table(alloc, b"# trip; u; v", &table, &columns!(Potential))
}

// The table of potentials.
fn table_of(alloc: Global, potentials: &Potentials) -> Result<Table<3>, NoMemory>
    requires { length potentials.now.u ≤ 1000000000 }
    ensures rows { IfOk result (λ table. table ≡ potential_rows potentials.now) }
    ensures are { ArePotentials potentials.now }
{
    let mut table = Table::new(alloc);
    for trip in 0..potentials.len() {
        table.push(0, &cells_of(potentials, trip))?;
    }
    Ok(table)
}

// The cells of the row of a trip.
fn cells_of(potentials: &Potentials, trip: usize) -> [i64; 3]
    requires few { length potentials.now.u ≤ 1000000000 }
    requires trip { trip < length potentials.now.u }
    requires each { length potentials.now.v ≡ length potentials.now.u }
    ensures { result ≡ pos (trip + 1) ∷ pos (at potentials.now.u trip)
        ∷ pos (at potentials.now.v trip) ∷ [] }
{
    [trip as i64 + 1, potentials.u(trip), potentials.v(trip)]
}
