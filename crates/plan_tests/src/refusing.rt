// Why a row is refused.
use giv_files::{FileId, Refusal, RowWhy, StageFault};

/// The refusal of a row.
pub(crate) fn bad_row(file: FileId, row: u64, why: RowWhy) -> StageFault {
    StageFault::Refused(Refusal::BadRow { file, row, why })
}
