// What the macros unfold to.
ghost use Rattle.std.specs.Prelude.{◌≡◌};
ghost use Rattle.tables.specs.Columns.{stop_columns, edge_columns, load_columns, od_columns};
ghost use Rattle.tables.specs.Columns.{pool_columns, pool_cost_columns, concept_columns};
ghost use Rattle.tables.specs.Columns.{tree_columns, events_p_columns, activities_p_columns};
ghost use Rattle.tables.specs.Columns.{times_p_columns, events_x_columns, activities_x_columns};
ghost use Rattle.tables.specs.Columns.{trips_columns, schedule_columns, potential_columns};
ghost use Rattle.tables.specs.Columns.{disposed_columns, reasons_columns, delays_columns};

use giv_files::{ColumnKind, cells, columns};
use std::test::Fail;

fn stop() -> [ColumnKind; 5]
    ensures { result ≡ stop_columns }
{
    columns!(Stop)
}

fn edge() -> [ColumnKind; 6]
    ensures { result ≡ edge_columns }
{
    columns!(Edge)
}

fn load() -> [ColumnKind; 4]
    ensures { result ≡ load_columns }
{
    columns!(Load)
}

fn od() -> [ColumnKind; 3]
    ensures { result ≡ od_columns }
{
    columns!(Od)
}

fn pool() -> [ColumnKind; 3]
    ensures { result ≡ pool_columns }
{
    columns!(Pool)
}

fn pool_cost() -> [ColumnKind; 3]
    ensures { result ≡ pool_cost_columns }
{
    columns!(PoolCost)
}

fn concept() -> [ColumnKind; 4]
    ensures { result ≡ concept_columns }
{
    columns!(Concept)
}

fn tree() -> [ColumnKind; 4]
    ensures { result ≡ tree_columns }
{
    columns!(Tree)
}

fn events_p() -> [ColumnKind; 6]
    ensures { result ≡ events_p_columns }
{
    columns!(EventsP)
}

fn activities_p() -> [ColumnKind; 6]
    ensures { result ≡ activities_p_columns }
{
    columns!(ActivitiesP)
}

fn times_p() -> [ColumnKind; 2]
    ensures { result ≡ times_p_columns }
{
    columns!(TimesP)
}

fn events_x() -> [ColumnKind; 5]
    ensures { result ≡ events_x_columns }
{
    columns!(EventsX)
}

fn activities_x() -> [ColumnKind; 7]
    ensures { result ≡ activities_x_columns }
{
    columns!(ActivitiesX)
}

fn trips() -> [ColumnKind; 9]
    ensures { result ≡ trips_columns }
{
    columns!(Trips)
}

fn schedule() -> [ColumnKind; 13]
    ensures { result ≡ schedule_columns }
{
    columns!(Schedule)
}

fn potential() -> [ColumnKind; 3]
    ensures { result ≡ potential_columns }
{
    columns!(Potential)
}

fn disposed() -> [ColumnKind; 2]
    ensures { result ≡ disposed_columns }
{
    columns!(Disposed)
}

fn reasons() -> [ColumnKind; 3]
    ensures { result ≡ reasons_columns }
{
    columns!(Reasons)
}

fn delays() -> [ColumnKind; 2]
    ensures { result ≡ delays_columns }
{
    columns!(Delays)
}

#[test]
fn columns_of_each_kind(rt: HostRuntime) -> Result<(), Fail> {
    let counts = [
        stop().len(),
        edge().len(),
        load().len(),
        od().len(),
        pool().len(),
        pool_cost().len(),
        concept().len(),
        tree().len(),
        events_p().len(),
        activities_p().len(),
        times_p().len(),
        events_x().len(),
        activities_x().len(),
        trips().len(),
        schedule().len(),
        potential().len(),
        disposed().len(),
        reasons().len(),
        delays().len(),
    ];
    assert_eq!(rt;
        counts,
        [5, 6, 4, 3, 3, 3, 4, 4, 6, 6, 2, 5, 7, 9, 13, 3, 2, 3, 2]
    );
    assert_eq!(rt;
        cells!(id, skip),
        [
            ColumnKind::Whole {
                min: 1,
                max: 1_000_000_000
            },
            ColumnKind::Skip
        ]
    );
    Ok(())
}
