// How large tables of links, gains and potentials may be.

use plan_num::NUMBER_LIMIT;

/// The most trips of a table.
pub const MOST_TRIPS: usize = 2_000;

/// The greatest gain of a link, in millionths.
pub const MOST_GAIN: u64 = 1_000_000_000_000;

/// The greatest potential, in millionths.
pub const MOST_POTENTIAL: u64 = NUMBER_LIMIT;

/// The greatest sum of two potentials, and so the greatest slack, in millionths.
pub const MOST_SLACK: u64 = 2_000_000_000_000_000_000;
