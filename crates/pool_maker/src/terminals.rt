// Terminals: stops between which lines are to run.
ghost use Rattle.std.specs.Prelude.{◌≡◌, ℤ, Bool, map, option_map, position, IfOk, MatchBool};
ghost use Rattle.std.specs.List.{IsDistinct, list_any};
ghost use Rattle.std.specs.Ordering.{int_eq};
ghost use Rattle.tables.specs.Inputs.{UnlessFault};
ghost use Rattle.walks.specs.RisingIds.{rising};
ghost use Rattle.pool_maker.specs.PoolTexts.{unknown_terminals};
ghost use Rattle.plan_num.specs.Terminals.{AreTerminals};
ghost use Rattle.terminal_lines.specs.Terminals.{terminal_of};

use plan_num::NoMemory;
use ptn_network::Network;
use std::alloc::Global;
use tables::{FileId, Refusal, RowWhy, StageFault};
use terminal_lines::Terminal;

/// Whether some ids can be terminals: 2 to 20 of them, all different.
pub fn are_terminals(ids: &[i64]) -> bool
    ensures { MatchBool result (AreTerminals ids.now) (AreTerminals ids.now → ⊥) }
{
    ids.len() >= 2 && ids.len() <= 20 && are_different(ids)
}

// Whether all of some ids are different.
fn are_different(ids: &[i64]) -> bool
    ensures { MatchBool result (IsDistinct int_eq ids.now) (IsDistinct int_eq ids.now → ⊥) }
{
    for (place, id) in ids.iter().enumerate() {
        if ids[place + 1..].contains(id) {
            return false;
        }
    }
    true
}

/// The terminals of different ids, by id rising, or the refusal where one of them is no stop.
pub(crate) fn find_terminals(
    alloc: Global,
    network: &Network,
    ids: &[i64],
) -> Result<Vec<Terminal>, StageFault>
    requires { IsDistinct int_eq ids.now }
    ensures { UnlessFault (unknown_terminals network.now.stops ids.now)
        (λ terminals. terminals.items ≡ map (terminal_of network.now.stops) (rising ids.now))
        result }
{
    let sorted = sorted(alloc, ids)?;
    let mut terminals = Vec::new(alloc);
    for id in &sorted {
        match terminal_at(network, id) {
            Some(terminal) => terminals.push(terminal)?,
            None => {
                return Err(StageFault::Refused(Refusal::BadRow {
                    file: FileId::Stop,
                    row: 0,
                    why: RowWhy::UnknownStop,
                }));
            }
        }
    }
    Ok(terminals)
}

// The terminal of an id, where it is a stop.
fn terminal_at(network: &Network, id: &i64) -> Option<Terminal>
    ensures { result ≡ option_map (λ stop. record { id = id.now; stop = stop })
        (position (int_eq id.now) network.now.stops) }
{
    match stop_of(network, id) {
        Some(stop) => Some(Terminal { id: *id, stop }),
        None => None,
    }
}

// The index of the stop of an id.
fn stop_of(network: &Network, id: &i64) -> Option<usize>
    ensures { result ≡ position (int_eq id.now) network.now.stops }
{
    network.stop_index(*id)
}

// Different ids, rising.
fn sorted(alloc: Global, ids: &[i64]) -> Result<Vec<i64>, NoMemory>
    requires { IsDistinct int_eq ids.now }
    ensures rising { IfOk result (λ sorted. sorted.items ≡ rising ids.now) }
    ensures same { IfOk result (λ sorted. (p : ℤ → Bool)
        → list_any p sorted.items ≡ list_any p ids.now) }
{
    let mut sorted = Vec::from_slice(alloc, ids)?;
    sorted.sort()?;
    Ok(sorted)
}
