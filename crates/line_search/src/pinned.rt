// The stage that takes a planner's line concept.
ghost use Rattle.std.specs.Prelude.{◌≡◌, ◌≤◌, [], length, option_map, All, IfOk};
ghost use Rattle.tables.specs.declared.file_id.FileId.TheVariants as file;
ghost use Rattle.tables.specs.declared.refusal.Refusal.TheVariants as refusal;
ghost use Rattle.giv_files.specs.declared.stage.Stage.TheVariants as stages;
ghost use Rattle.tables.specs.Columns.{concept_columns};
ghost use Rattle.tables.specs.Inputs.{input_faults, table_faults, UnlessFault};
ghost use Rattle.giv_files.specs.Settings.{Fits};
ghost use Rattle.giv_files.specs.StageCalls.{StageGives, TakesSteps};
ghost use Rattle.tables.specs.Writing.{InColumns};
ghost use Rattle.line_cost_model.specs.Concepts.{cost_of};
ghost use Rattle.line_search.specs.ConceptTables.{frequencies_in};
ghost use Rattle.line_search.specs.Judged.{frequencies_of};
ghost use Rattle.line_search.specs.PinnedConcepts.{marking_tree, pinned_concept_stage};
ghost use Rattle.branch_certificate.specs.TreeTexts.{tree_text};
ghost use Rattle.line_search.specs.PinnedConcepts.{pinned_input, pinned_made, pinned_report};
ghost use Rattle.line_search.specs.RightPinned.{ConceptIsRight};
ghost use Rattle.line_concepts.specs.Searches.{IsPriced};

use crate::concept_table::has_row_count;
use crate::first_frequencies::test_frequencies;
use crate::found::{concept_files, cost_text, mark_word};
use crate::frequencies::line_frequencies;
use crate::given::read_problem;
use crate::judge::tree_fault;
use crate::pool_rows::are_of_pool;
use branch_certificate::copy_tree;
use giv_files::{Bundle, Made, Stage, report_line};
use line_concepts::BestConcept;
use line_cost_model::LineProblem;
use plan_num::{Ledger, NoMemory, Steps, Text};
use std::alloc::Global;
use tables::{FileId, ReadFault, Refusal, RowWhy, StageFault, Table, columns, read_input};

/// Takes a planner's line concept over the inputs of the search: its rows are those of the pool,
/// with one frequency for each line, and these are feasible. It is marked exactly where the
/// planner's tree certifies what it costs. Both are written anew.
pub fn take_concept<L: Ledger>(
    alloc: Global,
    bundle: &Bundle,
    steps: &mut Steps<L>,
) -> Result<Made, StageFault>
    requires stage { bundle.now.stage ≡ stages.PinnedConcept }
    requires fits { Fits bundle.now }
    ensures made { StageGives (pinned_concept_stage bundle.now) result }
    ensures right { IfOk result (λ made. ConceptIsRight bundle.now made.files) }
    ensures steps { TakesSteps 1 steps.old steps.new result }
{
    steps.tick();
    taken_concept(alloc, bundle)
}

// What the stage gives.
fn taken_concept(alloc: Global, bundle: &Bundle) -> Result<Made, StageFault>
    requires inputs { 7 ≤ length bundle.now.inputs }
    ensures { StageGives (pinned_concept_stage bundle.now) result }
{
    let problem = read_problem(alloc, bundle)?;
    let frequencies = given_frequencies(alloc, &problem, bundle.input(5))?;
    Ok(concept_made(alloc, &problem, frequencies, bundle.input(6))?)
}

// The frequencies that the text of a planner's concept gives the lines, or its first fault.
fn given_frequencies(
    alloc: Global,
    problem: &LineProblem,
    concept: &[u8],
) -> Result<Vec<u32>, StageFault>
    ensures read { UnlessFault (input_faults (pinned_input problem.now) concept.now)
        (λ all. all.items ≡ frequencies_of problem.now concept.now) result }
    ensures few { IfOk result (λ all. All (λ frequency. frequency ≤ 1000) all.items) }
{
    let table = read_input(alloc, FileId::PinnedConcept, concept, &columns!(Concept))?;
    table_frequencies(alloc, problem, &table)
}

// Those of a table, or its first fault.
fn table_frequencies(
    alloc: Global,
    problem: &LineProblem,
    table: &Table<4>,
) -> Result<Vec<u32>, StageFault>
    requires { All (λ row. InColumns concept_columns row.cells) table.now }
    ensures read { UnlessFault (table_faults (pinned_input problem.now) table.now)
        (λ all. all.items ≡ frequencies_in problem.now table.now) result }
    ensures few { IfOk result (λ all. All (λ frequency. frequency ≤ 1000) all.items) }
{
    test_frequencies(alloc, table)?;
    if !has_row_count(problem, table.len()) {
        return Err(StageFault::Refused(whole_file(RowWhy::PoolDiffers)));
    }
    let frequencies = line_frequencies(alloc, problem, table)?;
    if !are_of_pool(alloc, problem, &frequencies, table)? {
        return Err(StageFault::Refused(whole_file(RowWhy::PoolDiffers)));
    }
    if !problem.is_feasible(&frequencies) {
        return Err(StageFault::Refused(whole_file(RowWhy::NotFeasible)));
    }
    Ok(frequencies)
}

// A refusal of the whole file.
fn whole_file(why: RowWhy) -> Refusal
    ensures { result ≡ refusal.BadRow file.PinnedConcept 0 why }
{
    Refusal::BadRow {
        file: FileId::PinnedConcept,
        row: 0,
        why,
    }
}

// What is made of frequencies and of the text of a tree.
fn concept_made(
    alloc: Global,
    problem: &LineProblem,
    frequencies: Vec<u32>,
    tree: &[u8],
) -> Result<Made, NoMemory>
    requires each { length frequencies.items ≡ length problem.now.lines }
    requires few { All (λ frequency. frequency ≤ 1000) frequencies.items }
    ensures { IfOk result (λ made. made ≡ pinned_made problem.now frequencies.items
        (marking_tree problem.now (cost_of problem.now frequencies.items) tree.now)) }
{
    let mark = marking_text(alloc, problem, &frequencies, tree)?;
    let concept = BestConcept::priced(problem, frequencies);
    let report = concept_report(alloc, problem, &concept, mark.is_some())?;
    let files = concept_files(alloc, problem, &concept, mark)?;
    Ok(Made { files, report })
}

// The text of a tree written anew, where it certifies what a concept costs. The tree is gone before
// the text is made, which may be large.
fn marking_text(
    alloc: Global,
    problem: &LineProblem,
    frequencies: &[u32],
    tree: &[u8],
) -> Result<Option<Text>, NoMemory>
    requires each { length frequencies.now ≡ length problem.now.lines }
    requires few { All (λ frequency. frequency ≤ 1000) frequencies.now }
    ensures { IfOk result (λ text. text ≡ option_map (tree_text problem.now)
        (marking_tree problem.now (cost_of problem.now frequencies.now) tree.now)) }
{
    if tree_fault(alloc, problem, frequencies, tree)?.is_some() {
        return Ok(None);
    }
    match copy_tree(alloc, tree) {
        Ok(text) => Ok(Some(text)),
        Err(ReadFault::Row(_)) => Ok(None),
        Err(ReadFault::NoMemory) => Err(NoMemory),
    }
}

// The line of the report.
fn concept_report(
    alloc: Global,
    problem: &LineProblem,
    concept: &BestConcept,
    is_marked: bool,
) -> Result<Text, NoMemory>
    requires { IsPriced problem.now concept.now }
    ensures { IfOk result (λ text. text ≡ pinned_report problem.now
        concept.now.frequencies.items is_marked) }
{
    report_line(
        alloc,
        Stage::Concept,
        &[
            cost_text(alloc, problem, concept)?,
            Text::copy(alloc, mark_word(is_marked))?,
            Text::copy(alloc, b"pinned")?,
        ],
    )
}
