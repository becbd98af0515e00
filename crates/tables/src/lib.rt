//! Tables: the kinds of files and their columns, how a table is read from a text and written as one,
//! and why a row, a file or a list is refused.
#![tactic(auto)]

mod cells;
mod column;
mod columns;
mod counted;
mod digits;
mod file_id;
mod folds;
mod input;
mod input_cells;
mod plain_cell;
mod read;
mod read_fault;
mod record;
mod records;
mod refusal;
mod row_cells;
mod row_fold;
mod row_limit;
mod row_tests;
mod row_why;
mod table;
mod words;
mod write;

pub use cells::{is_same, place_among};
pub use column::ColumnKind;
pub use counted::Counted;
pub use file_id::FileId;
pub use folds::{fold_file, fold_rows};
pub use input::read_input;
pub use input_cells::read_cells;
pub use read::{read_table, rows_of};
pub use read_fault::{ReadFault, RowFault};
pub use record::Record;
pub use records::{read_file, read_records};
pub use refusal::{Refusal, StageFault};
pub use row_fold::RowFold;
pub use row_limit::{RowLimit, too_many};
pub use row_tests::RowTests;
pub use row_why::RowWhy;
pub use table::Table;
pub use text_fields::{TextRow, TextRows};
pub use words::WordTable;
pub use write::{push_line, write_table};
