//! Tests of the calls that answer questions beside the stages: journeys and how they are judged, pools
//! of shortest lines, and waiting decisions; and of how delays go on.
#![tactic(auto)]

#[cfg(test)]
mod journey_check;
#[cfg(test)]
mod journey_days;
#[cfg(test)]
mod journey_large;
#[cfg(test)]
mod journey_refused;
#[cfg(test)]
mod journey_told;
#[cfg(test)]
mod pool_large;
#[cfg(test)]
mod pool_rows;
#[cfg(test)]
mod propagated;
#[cfg(test)]
mod wait_choices;
#[cfg(test)]
mod wait_days;
#[cfg(test)]
mod wait_texts;
