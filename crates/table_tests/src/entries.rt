// Entries of the keep.
ghost use Rattle.std.specs.Prelude.{◌≡◌, ◌∷◌, [], IfOk};
ghost use Rattle.tables.specs.declared.file_id.FileId.TheVariants as file;
ghost use Rattle.giv_files.specs.declared.stage.Stage.TheVariants as stage;
ghost use Rattle.giv_files.specs.MadeLists.{ids_of};

use crate::script::{cases, cut, number, same};
use giv_files::{Bundle, FileId, Key, Made, MadeFile, MadeList, Settings, Stage};
use plan_num::{NoMemory, Text};
use stage_keep::{read_keep, write_keep};
use std::alloc::Global;
use std::process::Abort;
use std::test::Fail;

const COSTS: &str = "lintim keep 1 cost\n\
    settings 70\n\
    lpool_costs_fixed; 10.5\nlpool_costs_length; 1\nlpool_costs_edges; 0.25\n\
    input 5\n# a\n1input 0\n\
    input 2\n\r\n\
    made basis/Pool-Cost.giv 9\n1; 2; 12\n\
    report 13\ncost: 2 linesend\n";

// The settings of costs that the entry has.
fn cost_settings(alloc: Global, edges: i64) -> Result<Settings, NoMemory> {
    let mut settings = Settings::new(alloc);
    settings.push(Key::LpoolCostsFixed, 10_500_000)?;
    settings.push(Key::LpoolCostsLength, 1_000_000)?;
    settings.push(Key::LpoolCostsEdges, edges)?;
    Ok(settings)
}

// A bundle of the stage of costs.
fn cost_bundle(alloc: Global, edges: i64, inputs: [&str; 3]) -> Result<Bundle, NoMemory>
    ensures { IfOk result (λ bundle. bundle.stage ≡ stage.Cost) }
{
    let mut bundle = Bundle::new(alloc, Stage::Cost, cost_settings(alloc, edges)?);
    let [stops, lines, pool] = inputs;
    bundle.push_input(stops.as_bytes())?;
    bundle.push_input(lines.as_bytes())?;
    bundle.push_input(pool.as_bytes())?;
    Ok(bundle)
}

// What the stage of costs makes.
fn cost_made(alloc: Global) -> Result<Made, NoMemory>
    ensures { IfOk result (λ made. ids_of made.files ≡ file.PoolCost ∷ []) }
{
    let text = Text::copy(alloc, b"1; 2; 12\n")?;
    let mut files = MadeList::new(alloc);
    files.push(MadeFile {
        file: FileId::PoolCost,
        text,
    })?;
    let report = Text::copy(alloc, b"cost: 2 lines")?;
    Ok(Made { files, report })
}

// Whether the entry is one of the bundle, in a word; `none` where it is no entry.
fn is_of(alloc: Global, entry: &str, bundle: &Bundle) -> Result<&'static str, NoMemory> {
    let Some(entry) = read_keep(alloc, bundle.stage(), entry.as_bytes())? else {
        return Ok("none");
    };
    if !bundle.fits() {
        return Ok("unfit");
    }
    Ok(if entry.matches(alloc, bundle)? {
        "same"
    } else {
        "other"
    })
}

// The costs of an edge, three inputs, and whether the entry is of a bundle with them.
const BUNDLES: &str = "same|250000|# a\n1||\r\n~\
    other|250001|# a\n1||\r\n~\
    other|250000|# a\n2||\r\n~\
    other|250000|# a\n1|\n|\r\n~\
    other|250000|# a\n1||\r\n\n~";

// Looks at one of them.
fn is_as_told(rt: &(impl AllocGlobal + Abort), case: &str) -> Result<(), Fail> {
    let (wanted, rest) = cut(case, '|');
    let (edges, rest) = cut(rest, '|');
    let (stops, rest) = cut(rest, '|');
    let (lines, pool) = cut(rest, '|');
    let bundle = cost_bundle(rt.alloc(), number(edges)?, [stops, lines, pool])?;
    same(rt, is_of(rt.alloc(), COSTS, &bundle)?, wanted, case);
    Ok(())
}

#[test]
fn entries_are_of_their_bundle(rt: HostRuntime) -> Result<(), Fail> {
    let bundles = cases(rt.alloc(), BUNDLES, '~')?;
    for case in &bundles {
        is_as_told(&rt, *case)?;
    }
    assert_eq!(rt; bundles.len(), 5);
    Ok(())
}

// How many files an entry has, or `none` where it is no entry.
fn files_told(alloc: Global, stage: Stage, entry: &[u8]) -> Result<&'static str, NoMemory> {
    let Some(entry) = read_keep(alloc, stage, entry)? else {
        return Ok("none");
    };
    Ok(match entry.into_made().files.len() {
        1 => "1",
        2 => "2",
        _ => "more",
    })
}

// Each front part of the entry is none.
#[test]
fn fronts_are_none(rt: HostRuntime) -> Result<(), Fail> {
    let bytes = COSTS.as_bytes();
    for size in 0..bytes.len() {
        let told = files_told(rt.alloc(), Stage::Cost, &bytes[..size])?;
        assert_eq!(rt; told, "none", "{size}");
    }
    Ok(())
}

#[test]
fn longer_bytes_and_other_stages_are_none(rt: HostRuntime) -> Result<(), Fail> {
    let longer = format!(in rt.alloc(); "{COSTS}\n")?;
    let told = files_told(rt.alloc(), Stage::Cost, longer.as_bytes())?;
    same(&rt, told, "none", "longer");
    let told = files_told(rt.alloc(), Stage::Load, COSTS.as_bytes())?;
    same(&rt, told, "none", "load");
    let told = files_told(rt.alloc(), Stage::Cost, COSTS.as_bytes())?;
    same(&rt, told, "1", "whole");
    Ok(())
}

// Entries of the stage of loads up to their made files.
const BROKEN_FRONTS: &str = "settings 00\ninput 0\ninput 0\ninput 0\n~\
    settings +0\ninput 0\ninput 0\ninput 0\n~\
    settings 1\ninput 0\ninput 0\ninput 0\n~\
    settings \ninput 0\ninput 0\ninput 0\n~\
    settings 0\r\ninput 0\ninput 0\ninput 0\n~\
    settings 0\ninput 0\ninput 0\n~\
    settings 0\ninput 0\ninput 0\ninput 0\ninput 0\n~\
    settings 1111111111222222222233333333334444444444\ninput 0\ninput 0\ninput 0\n~";

// How many files an entry of loads has that has this front and one file of this name.
fn load_told(alloc: Global, front: &str, name: &str) -> Result<&'static str, Fail> {
    let entry = format!(in alloc; "lintim keep 1 load\n{front}made {name} 0\nreport 0\nend\n")?;
    Ok(files_told(alloc, Stage::Load, entry.as_bytes())?)
}

#[test]
fn broken_entries_are_none(rt: HostRuntime) -> Result<(), Fail> {
    let fronts = cases(rt.alloc(), BROKEN_FRONTS, '~')?;
    for front in &fronts {
        let told = load_told(rt.alloc(), *front, "line-planning/Load.giv")?;
        same(&rt, told, "none", *front);
    }
    assert_eq!(rt; fronts.len(), 8);
    Ok(())
}

#[test]
fn a_made_file_has_its_name(rt: HostRuntime) -> Result<(), Fail> {
    for (name, wanted) in [
        ("line-planning/Load.giv", "1"),
        ("basis/Load.giv", "none"),
        ("basis/Pool-Cost.giv", "none"),
    ] {
        let told = load_told(rt.alloc(), "settings 0\ninput 0\ninput 0\ninput 0\n", name)?;
        same(&rt, told, wanted, name);
    }
    Ok(())
}

// How many files an entry of a concept has, and its made files.
const CONCEPTS: &str = "2|made line-planning/Line-Concept.lin 1\nx\
    made line-planning/Line-Concept.cert 2\nyz~\
    1|made line-planning/Line-Concept.lin 1\nx~\
    none|made line-planning/Line-Concept.cert 2\nyz~\
    none|made line-planning/Line-Concept.cert 2\nyz\
    made line-planning/Line-Concept.lin 1\nx~\
    none|~";

// How many files an entry of a concept has that has these made files.
fn concept_told(alloc: Global, made: &str) -> Result<&'static str, Fail> {
    let entry = format!(in alloc;
        "lintim keep 1 concept\nsettings 0\ninput 0\ninput 0\ninput 0\ninput 0\ninput 0\n\
        {made}report 0\nend\n"
    )?;
    Ok(files_told(alloc, Stage::Concept, entry.as_bytes())?)
}

#[test]
fn concepts_with_and_without_a_tree(rt: HostRuntime) -> Result<(), Fail> {
    let concepts = cases(rt.alloc(), CONCEPTS, '~')?;
    for case in &concepts {
        let (wanted, made) = cut(*case, '|');
        same(&rt, concept_told(rt.alloc(), made)?, wanted, *case);
    }
    assert_eq!(rt; concepts.len(), 5);
    Ok(())
}

#[test]
#[tactic(auto, using(crate::proofs::CostsMade::costs_are_made))]
fn an_entry_is_written(rt: HostRuntime) -> Result<(), Fail> {
    let bundle = cost_bundle(rt.alloc(), 250_000, ["# a\n1", "", "\r\n"])?;
    let made = cost_made(rt.alloc())?;
    if bundle.fits() {
        let text = write_keep(rt.alloc(), &bundle, &made)?;
        assert!(rt; text.as_bytes() == COSTS.as_bytes());
    }
    assert!(rt; bundle.fits());
    Ok(())
}
