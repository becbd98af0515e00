//! Tests of what is read and refused of texts: networks, pools, rows of events, and their limits.
#![tactic(auto)]

#[cfg(test)]
mod day_rows;
#[cfg(test)]
mod least_walks;
#[cfg(test)]
mod networks;
#[cfg(test)]
mod period_rows;
#[cfg(test)]
mod pools;
#[cfg(test)]
mod refused_texts;
#[cfg(test)]
mod refusing;
#[cfg(test)]
mod row_limits;
#[cfg(test)]
mod trip_rows;
#[cfg(test)]
mod written;
