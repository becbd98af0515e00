//! Rows of fields: the lines of a text, cut at semicolons, without comments, blanks and quotes.
#![tactic(auto)]

mod find;
mod handed;
mod line;
mod line_pieces;
mod line_reader;
mod pieces;
mod text_lines;
mod text_row;
mod text_rows;

pub use line::behind_space;
pub use text_row::TextRow;
pub use text_rows::TextRows;
