// What stands behind a front.
ghost use Rattle.std.specs.Prelude.{◌≡◌, ◌≢◌, ◌++◌, List, ℕ, flat_map, option_map, IfSome, IfNone, IfOk};

use plan_num::NoMemory;
use std::alloc::Global;

/// What stands behind some pieces, where bytes begin with them, one after the other.
pub(crate) fn bytes_behind<'a>(front: &[&[u8]], bytes: &'a [u8]) -> Option<&'a [u8]>
    ensures some { IfSome result (λ rest.
        bytes.now ≡ flat_map (λ piece. piece.now) front.now ++ rest.now) }
    ensures none { IfNone result ((rest : List ℕ)
        → bytes.now ≢ flat_map (λ piece. piece.now) front.now ++ rest) }
{
    let mut rest = bytes;
    for piece in front {
        rest = behind(piece, rest)?;
    }
    Some(rest)
}

// What stands behind one piece.
fn behind<'a>(piece: &[u8], bytes: &'a [u8]) -> Option<&'a [u8]>
    ensures some { IfSome result (λ rest. bytes.now ≡ piece.now ++ rest.now) }
    ensures none { IfNone result ((rest : List ℕ) → bytes.now ≢ piece.now ++ rest) }
{
    bytes.strip_prefix(piece)
}

/// The same bytes, in memory of their own.
pub(crate) fn copied(alloc: Global, bytes: &[u8]) -> Result<Vec<u8>, NoMemory>
    ensures { IfOk result (λ copy. copy.items ≡ bytes.now) }
{
    Ok(Vec::from_slice(alloc, bytes)?)
}
