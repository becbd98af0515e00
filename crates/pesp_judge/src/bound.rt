// Certificates of lower bounds, looked through.
ghost use Rattle.std.specs.Prelude.{◌≡◌, ◌≤◌, ◌<◌, ◌≤ℤ◌, ◌*ℤ◌, [], ℕ, ℤ, pos, List, false};
ghost use Rattle.std.specs.Prelude.{true, IfOk, IfSome, length};
ghost use Rattle.pesp_judge.specs.Weighted.{IsBound, IsWeighted, weighted_slack};
ghost use Rattle.pesp_judge.specs.Trees.{AreCycles, AreSplits, LiesIn};

use crate::certificate::{BoundFault, BoundRule, Certificate, CertificateRow, RowWord, Stop};
use crate::cycle::{Cycle, cycle_of, place_of};
use crate::leaf::{Region, leaf_shows};
use crate::region::{Split, go_on};
use crate::weighted::WeightedPesp;
use plan_num::NoMemory;
use std::alloc::Global;

/// Looks through a certificate, whoever made it: where nothing is wrong with it no timetable of the
/// problem has less weighted slack than its claim. A claim above all that slacks can cost so says
/// that there is no timetable.
pub fn check_bound(
    alloc: Global,
    weighted: &WeightedPesp,
    certificate: &Certificate,
) -> Result<Option<BoundFault>, NoMemory>
    ensures { result ≡ Ok None → IsBound weighted.now certificate.now.claim }
{
    let mut cycles = Vec::new(alloc);
    let mut residual = vec![in alloc; 0; weighted.activities().len()]?;
    match look_through(alloc, weighted, certificate, &mut cycles, &mut residual) {
        Ok(()) => Ok(None),
        Err(Stop::Fault(fault)) => Ok(Some(fault)),
        Err(Stop::NoMemory) => Err(NoMemory),
    }
}

// Takes the cycles of a certificate, and looks through its tree.
fn look_through(
    alloc: Global,
    weighted: &WeightedPesp,
    certificate: &Certificate,
    cycles: &mut Vec<Cycle>,
    residual: &mut [i128],
) -> Result<(), Stop>
    requires problem { IsWeighted weighted.now }
    requires none { cycles.old.items ≡ [] }
    requires room { length residual.old ≡ length weighted.now.activities }
    ensures { IfOk result (λ _. IsBound weighted.now certificate.now.claim) }
{
    if certificate.parts == 0 {
        return Err(Stop::Fault(BoundFault {
            row: None,
            rule: BoundRule::NoPart,
        }));
    }
    let begin = take_cycles(alloc, weighted, &certificate.rows, cycles)?;
    let mut path = Vec::new(alloc);
    let tree = Tree {
        weighted,
        cycles,
        claim: certificate.claim,
        parts: certificate.parts,
        rows: &certificate.rows[begin..],
    };
    walk(tree, &mut path, residual)
}

// Takes the cycles at the front of rows, and tells how many rows these are.
fn take_cycles(
    alloc: Global,
    weighted: &WeightedPesp,
    rows: &[CertificateRow],
    cycles: &mut Vec<Cycle>,
) -> Result<usize, Stop>
    requires { cycles.old.items ≡ [] }
    ensures within { IfOk result (λ count. count ≤ length rows.now) }
    ensures cycles { IfOk result (λ _. AreCycles weighted.now cycles.new.items) }
{
    let mut at = 0;
    'cycles: while at < rows.len() && rows[at].word == RowWord::Cycle {
        if usize::try_from(rows[at].first) != Ok(cycles.len() + 1) {
            return Err(Stop::at(&rows[at], BoundRule::CycleNumber));
        }
        let begin = at + 1;
        let count = step_count(&rows[begin..]);
        cycles.push(cycle_of(alloc, weighted, &rows[begin..begin + count])?)?;
        at = begin + count;
    }
    Ok(at)
}

// How many rows at the front have steps.
fn step_count(rows: &[CertificateRow]) -> usize
    ensures { result ≤ length rows.now }
{
    rows.iter()
        .take_while(|row| matches!(row.word, RowWord::Arc | RowWord::Flip))
        .count()
}

// How many rows at the front have multipliers.
fn multiplier_count(rows: &[CertificateRow]) -> usize
    ensures { result ≤ length rows.now }
{
    rows.iter()
        .take_while(|row| matches!(row.word, RowWord::Bound | RowWord::Cut))
        .count()
}

// A tree in preorder, and what it is about.
#[derive(Clone, Copy)]
struct Tree<'a> {
    weighted: &'a WeightedPesp,
    cycles: &'a [Cycle],
    claim: i64,
    parts: u32,
    rows: &'a [CertificateRow],
}

// Walks through a tree: each region is split, or its leaf shows the claim.
fn walk(tree: Tree<'_>, path: &mut Vec<Split>, residual: &mut [i128]) -> Result<(), Stop>
    requires problem { IsWeighted tree.weighted.now }
    requires root { path.old.items ≡ [] }
    requires room { length residual.old ≡ length tree.weighted.now.activities }
    requires cycles { AreCycles tree.weighted.now tree.cycles.now }
    ensures { IfOk result (λ _. IsBound tree.entry.weighted.now tree.entry.claim) }
{
    let mut rest = tree.rows;
    'rows: while let [row, more @ ..] = rest {
        match row.word {
            RowWord::Split => {
                path.push(split_of(row, tree.cycles.len())?)?;
                rest = more;
            }
            RowWord::Leaf => {
                let (own, others) = more.split_at(multiplier_count(more));
                see_leaf(tree, row, own, path, residual)?;
                rest = others;
                match go_on(path) {
                    None => return Err(Stop::at(row, BoundRule::TooLarge)),
                    Some(true) => {}
                    Some(false) => return see_end(others),
                }
            }
            _ => return Err(Stop::at(row, BoundRule::NotHere)),
        }
    }
    Err(Stop::after(tree.rows, BoundRule::NotWhole))
}

// The split of a row.
fn split_of(row: &CertificateRow, cycle_count: usize) -> Result<Split, Stop>
    ensures { IfOk result (λ split. (split.cycle < cycle_count) × (split.least ≡ false)) }
{
    match place_of(row.first, cycle_count) {
        None => Err(Stop::at(row, BoundRule::NoCycle)),
        Some(cycle) => Ok(Split {
            cycle,
            least: false,
            periods: row.second,
        }),
    }
}

// Sees that a leaf shows the claim in the region at the end of a way.
fn see_leaf(
    tree: Tree<'_>,
    row: &CertificateRow,
    rows: &[CertificateRow],
    path: &[Split],
    residual: &mut [i128],
) -> Result<(), Stop>
    requires room { length residual.old ≡ length tree.weighted.now.activities }
    requires cycles { AreCycles tree.weighted.now tree.cycles.now }
    requires path { AreSplits (length tree.cycles.now) path.now }
    ensures { IfOk result (λ _. (times : List ℕ) →
        LiesIn tree.entry.weighted.now tree.entry.cycles.now path.now times →
        tree.entry.claim ≤ℤ weighted_slack tree.entry.weighted.now times) }
{
    let region = Region {
        weighted: tree.weighted,
        cycles: tree.cycles,
        path,
    };
    let shown = leaf_shows(region, tree.parts, rows, residual)?;
    match is_enough(tree.claim, tree.parts, shown) {
        None => Err(Stop::at(row, BoundRule::TooLarge)),
        Some(true) => Ok(()),
        Some(false) => Err(Stop::at(row, BoundRule::ShowsLess)),
    }
}

// Whether what costs so many parts at least costs as much as a claim, since both are whole.
fn is_enough(claim: i64, parts: u32, shown: i128) -> Option<bool>
    ensures { IfSome result (λ enough. enough ≡ true → (cost : ℤ) →
        shown ≤ℤ (pos parts *ℤ cost) → claim ≤ℤ cost) }
{
    let before = i128::from(claim).checked_sub(1)?;
    let less = before.checked_mul(i128::from(parts))?;
    Some(less < shown)
}

// Sees that no row is left.
fn see_end(rows: &[CertificateRow]) -> Result<(), Stop> {
    match rows.first() {
        None => Ok(()),
        Some(row) => Err(Stop::at(row, BoundRule::NotHere)),
    }
}
