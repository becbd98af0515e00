// Files that have a row for each event.
ghost use Rattle.std.specs.Prelude.{◌≡◌, ◌<◌, ◌≤◌, length, MatchResult};
ghost use Rattle.tables.specs.declared.row_why.RowWhy.TheVariants as whys;
ghost use Rattle.tables.specs.declared.refusal.Refusal.TheVariants as refusals;
ghost use Rattle.tables.specs.declared.refusal.StageFault.TheVariants as faults;

use tables::{FileId, Refusal, RowWhy, StageFault};

/// The rows of a file, where there is one for each of so many events; else the refusal of the whole
/// file.
pub(crate) fn all_there<X: Drop>(
    rows: Vec<X>,
    file: FileId,
    events: usize,
) -> Result<Vec<X>, StageFault>
    ensures { MatchResult result
        (λ all. (all ≡ rows) × (events ≤ length rows.items))
        (λ fault. (fault
        ≡ faults.Refused (refusals.BadRow file 0 whys.MissingEvent)) × (length rows.items < events)) }
{
    if rows.len() < events {
        return Err(StageFault::Refused(Refusal::BadRow {
            file,
            row: 0,
            why: RowWhy::MissingEvent,
        }));
    }
    Ok(rows)
}
