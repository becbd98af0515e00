// Pools of shortest lines.
ghost use Rattle.std.specs.Prelude.{◌≡◌, IfOk};
ghost use Rattle.tables.specs.Inputs.{UnlessFault};
ghost use Rattle.ptn_network.specs.Networks.{network_of};
ghost use Rattle.pool_maker.specs.PoolTexts.{pool_text, terminal_faults};
ghost use Rattle.plan_num.specs.Terminals.{AreTerminals};
ghost use Rattle.pool_maker.specs.RightPools.{IsRightPool};

use crate::terminals::find_terminals;
use crate::text::text_of_lines;
use plan_num::Text;
use ptn_network::Network;
use std::alloc::Global;
use tables::StageFault;
use terminal_lines::{keep_lines, paths_between};

/// The text of a pool whose lines are shortest paths between terminals, told by the ids of their
/// stops. A path whose edges are all among those of another one is left out. Behind the lines, each
/// edge that no line has is told by a comment.
pub fn make_pool(
    alloc: Global,
    stops: &[u8],
    edges: &[u8],
    terminals: &[i64],
) -> Result<Text, StageFault>
    requires { AreTerminals terminals.now }
    ensures made { UnlessFault (terminal_faults stops.now edges.now terminals.now)
        (λ text. text ≡ pool_text (network_of stops.now edges.now) terminals.now) result }
    ensures right { IfOk result (IsRightPool (network_of stops.now edges.now) terminals.now) }
{
    let network = Network::from_texts(alloc, stops, edges)?;
    let terminals = find_terminals(alloc, &network, terminals)?;
    let paths = paths_between(alloc, network.for_walks(), &terminals)?;
    let lines = keep_lines(alloc, &paths)?;
    Ok(text_of_lines(alloc, &network, &lines)?)
}
