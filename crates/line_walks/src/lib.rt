//! Lines as walks over a network, from a pool or a line concept, and their costs by a file.
#![tactic(auto)]

mod cost_row;
mod ends;
mod given_costs;
mod line_file;
mod line_row;
mod line_rows;
mod line_so_far;
mod pool;
mod walk;

pub use cost_row::CostRow;
pub use given_costs::LineCosts;
pub use line_file::LineFile;
pub use pool::Pool;
