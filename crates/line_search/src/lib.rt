//! The stage of line concepts: the search of one of least cost over the files of a network, the
//! test of one from any hand and of the tree that may certify what it costs, and the taking of a
//! planner's own.
#![tactic(auto)]

mod check;
mod concept_table;
mod fault;
mod first_frequencies;
mod found;
mod frequencies;
mod given;
mod judge;
mod pinned;
mod pool_rows;
mod stage;

pub use check::check_concept;
pub use fault::ConceptFault;
pub use pinned::take_concept;
pub use stage::make_concept;
