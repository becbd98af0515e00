// The columns of the kinds of tables.

/// The kinds of columns, by words: `id`, `ref`, `time` and `bound` are whole numbers, `whole(MAX)` and
/// `fixed(MAX)` are numbers from 0 on, the latter with a limit in units, `word(TABLE)` is a word of a table,
/// and `skip` is anything.
#[macro_export]
macro_rules! cells {
    (@id) => { $crate::cells!(@between(1, 1_000_000_000)) };
    (@ref) => { $crate::cells!(@whole(1_000_000_000)) };
    (@time) => { $crate::cells!(@whole(1_000_000_000)) };
    (@bound) => { $crate::cells!(@whole(100_000)) };
    (@skip) => { $crate::ColumnKind::Skip };
    (@between($min:literal, $max:literal)) => { $crate::ColumnKind::Whole { min: $min, max: $max } };
    (@whole($max:literal)) => { $crate::cells!(@between(0, $max)) };
    (@fixed($max:literal)) => { $crate::ColumnKind::Fixed { min: 0, max: $max * 1_000_000 } };
    (@word($table:ident)) => { $crate::ColumnKind::Word { words: $crate::WordTable::$table } };
    ($($word:ident $(($($of:tt)*))?),+ $(,)?) => { [$($crate::cells!(@$word $(($($of)*))?)),+] };
}

/// The columns of a kind of table.
#[macro_export]
macro_rules! columns {
    (Stop) => { $crate::cells!(id, skip, skip, skip, skip) };
    (Edge) => { $crate::cells!(id, id, id, fixed(10_000), whole(10_000), whole(10_000)) };
    (Load) => { $crate::cells!(id, fixed(1_000_000_000_000), whole(1_000), whole(1_000)) };
    (Od) => { $crate::cells!(id, id, fixed(1_000_000)) };
    (Pool) => { $crate::cells!(id, id, id) };
    (PoolCost) => { $crate::cells!(id, fixed(1_000_000_000_000), fixed(1_000_000_000_000)) };
    (Concept) => { $crate::cells!(id, id, id, whole(1_000)) };
    (Tree) => { $crate::cells!(word(NodeKind), ref, whole(1_000_000_000), fixed(1_000_000_000_000)) };
    (EventsP) => { $crate::cells!(id, word(EventKind), id, id, word(Direction), id) };
    (ActivitiesP) => { $crate::cells!(id, word(PeriodicKind), id, id, bound, bound) };
    (TimesP) => { $crate::cells!(id, time) };
    (EventsX) => { $crate::cells!(id, id, word(EventKind), time, id) };
    (ActivitiesX) => { $crate::cells!(id, id, word(ActivityKind), id, id, bound, bound) };
    (Trips) => { $crate::cells!(id, id, id, time, id, id, id, time, id) };
    (Schedule) => {
        $crate::cells!(id, id, id, word(ScheduleKind), id, id, id, time, id, id, id, time, ref)
    };
    (Potential) => { $crate::cells!(id, fixed(1_000_000_000_000), fixed(1_000_000_000_000)) };
    (Disposed) => { $crate::cells!(id, whole(1_000_000_000_000_000_000)) };
    (Reasons) => { $crate::cells!(id, word(ReasonKind), ref) };
    (Delays) => { $crate::cells!(id, whole(1_000_000)) };
}
