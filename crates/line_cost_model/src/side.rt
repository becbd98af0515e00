// How an edge is missed.
ghost use Rattle.std.specs.Prelude.{◌≡◌, None, Some, nat_lt, if◌then◌else◌};
ghost use Rattle.line_cost_model.specs.declared.side.Side.TheVariants as side;

use crate::edge::BoundedEdge;

/// How the bounds of an edge are missed by all of a region: it is driven too often, or not often
/// enough.
#[derive(Clone, Copy, Debug, PartialEq, Eq)]
pub enum Side {
    Over,
    Under,
}

/// On which side an edge with these bounds is missed, where it is.
pub(crate) fn side_of(bounds: BoundedEdge, least: u64, greatest: u64) -> Option<Side>
    ensures { result ≡ (if nat_lt bounds.most least then Some side.Over
        else (if nat_lt greatest bounds.least then Some side.Under else None)) }
{
    if u64::from(bounds.most) < least {
        Some(Side::Over)
    } else if greatest < u64::from(bounds.least) {
        Some(Side::Under)
    } else {
        None
    }
}
