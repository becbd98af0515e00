//! Files of scripts, as the programs that play them read them.
//!
//! The words of the command line name the files. A script begins with `== ` and its name. After it
//! there may be lines of these kinds; then comes what a player reads:
//!
//! ```text
//! times FIRST LAST STEP    plays the script for each of these numbers, by a step of 1 where none is
//!                          told; the number stands in the place of each <n>
//! finds TEXT               the script must not hold, and what is told of it begins with this text
//! ```
#![tactic(auto)]

mod files;
mod large;
mod many_rows;
mod script;
mod spy;
mod texts;
mod trouble;
mod turns;

pub use files::{Play, play_files};
pub use large::{TOO_LONG, many, splits};
pub use script::{Script, text_named, with_number};
pub use spy::{SpyFiles, SpySink};
pub use texts::{is_piece, piece_of, text_of};
pub use trouble::Trouble;
