//! Stages and keys: which stages there are, the settings of a dataset, what a stage is given, makes
//! and refuses. What is said of tables is given on.
#![tactic(auto)]

mod bundle;
mod cross_rule;
mod key;
mod key_kind;
mod key_row;
mod key_words;
mod made;
mod report;
mod setting;
mod settings;
mod settings_fit;
mod settings_text;
mod stage;
mod stage_row;

pub use bundle::Bundle;
pub use cross_rule::{Bound, CrossRule};
pub use key::Key;
pub use key_kind::KeyKind;
pub use key_words::KeyWords;
pub use made::{Made, MadeFile, MadeList};
pub use report::{count_text, report_line};
pub use setting::Setting;
pub use settings::Settings;
pub use stage::Stage;
pub use stage_row::StageRow;
pub use tables::{
    ColumnKind, Counted, FileId, ReadFault, Record, Refusal, RowFault, RowFold, RowLimit, RowTests,
    RowWhy, StageFault, Table, TextRow, TextRows, WordTable, cells, columns, fold_file, fold_rows,
    push_line, read_cells, read_file, read_input, read_records, read_table, rows_of, too_many,
    write_table,
};
