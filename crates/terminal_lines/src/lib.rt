//! Lines along shortest walks: the shortest paths between some stops of a network, of which those
//! whose edges are all among those of another one are left out.
#![tactic(auto)]

mod lines;
mod path;
mod paths;
mod terminal;

pub use lines::keep_lines;
pub use path::Path;
pub use paths::paths_between;
pub use terminal::Terminal;
