// The paths that are lines.
ghost use Rattle.std.specs.Prelude.{◌≡◌, ◌++◌, ◌∷◌, [], IfOk, OnOk};
ghost use Rattle.terminal_lines.specs.TerminalPaths.{is_contained, lines_among, uncontained};

use crate::path::Path;
use plan_num::NoMemory;
use std::alloc::Global;

/// The paths whose edges are not all among those of another one.
pub fn keep_lines(alloc: Global, paths: &[Path]) -> Result<Vec<Path>, NoMemory>
    ensures { IfOk result (λ lines. lines.items ≡ uncontained paths.now) }
{
    let mut lines = Vec::new(alloc);
    for (place, path) in paths.iter().enumerate() {
        push_line(alloc, &mut lines, paths, place, path)?;
    }
    Ok(lines)
}

// The path at a place is put behind the lines, where it lies in no other one.
fn push_line(
    alloc: Global,
    lines: &mut Vec<Path>,
    paths: &[Path],
    place: usize,
    path: &Path,
) -> Result<(), NoMemory>
    ensures { OnOk result (lines.new.items ≡ lines.old.items
        ++ lines_among paths.now ((place, path.now) ∷ [])) }
{
    if !is_contained(paths, place, path) {
        lines.push(path.copy(alloc)?)?;
    }
    Ok(())
}

// Whether a path lies in one at another place.
fn is_contained(paths: &[Path], place: usize, path: &Path) -> bool
    ensures { result ≡ is_contained paths.now (place, path.now) }
{
    paths
        .iter()
        .enumerate()
        .any(|(at, other)| at != place && path.lies_in(other))
}
