// What is made of the concept that a search found.
ghost use Rattle.std.specs.Prelude.{◌≡◌, ◌++◌, ◌∷◌, pos, codes, option_map, IfOk, IfSome};
ghost use Rattle.plan_num.specs.Print.{fixed_text};
ghost use Rattle.tables.specs.declared.file_id.FileId.TheVariants as file;
ghost use Rattle.giv_files.specs.StageCalls.{StageGives};
ghost use Rattle.line_cost_model.specs.Concepts.{cost_of};
ghost use Rattle.branch_certificate.specs.TreeTexts.{tree_text};
ghost use Rattle.line_search.specs.ConceptStage.{concept_made, mark_files, mark_word, search_made};
ghost use Rattle.line_search.specs.ConceptTables.{concept_text};
ghost use Rattle.line_concepts.specs.Searches.{ArePriced, AreSound, IsPriced};
ghost use Rattle.line_search.specs.ConceptResults.{concept_of, result_of, why_none};

use crate::concept_table::rows_of_concept;
use branch_certificate::{Tree, write_tree};
use giv_files::{Made, MadeFile, MadeList, Stage, count_text, report_line};
use line_concepts::{BestConcept, Searched};
use line_cost_model::LineProblem;
use plan_num::{NoMemory, Text, print_fixed};
use std::alloc::Global;
use tables::{FileId, Refusal, StageFault, columns, write_table};

/// What is made of the concept that a search within a budget found, or why it found none.
pub(crate) fn search_made(
    alloc: Global,
    problem: &LineProblem,
    found: Searched,
) -> Result<Made, StageFault>
    requires priced { ArePriced problem.now found.best }
    requires written { IfSome found.tree (AreSound problem.now) }
    ensures { StageGives (search_made problem.now (result_of found)) result }
{
    let Searched {
        best,
        tree,
        entries,
    } = found;
    match best {
        Some(best) => Ok(concept_made(alloc, problem, &best, &tree, entries)?),
        None => Err(StageFault::Refused(nothing_found(&tree, entries))),
    }
}

// Why nothing was found.
fn nothing_found(tree: &Option<Tree>, entries: u64) -> Refusal
    ensures { result ≡ why_none tree.now entries }
{
    match tree {
        Some(_) => Refusal::NoSolution,
        None => Refusal::Spent { entries },
    }
}

// The files of a concept, and the line of the report.
fn concept_made(
    alloc: Global,
    problem: &LineProblem,
    best: &BestConcept,
    tree: &Option<Tree>,
    entries: u64,
) -> Result<Made, NoMemory>
    requires priced { IsPriced problem.now best.now }
    requires written { IfSome tree.now (AreSound problem.now) }
    ensures { IfOk result
        (λ made. made ≡ concept_made problem.now (concept_of best.now tree.now entries)) }
{
    let files = concept_files(alloc, problem, best, written_tree(alloc, problem, tree)?)?;
    let report = concept_report(alloc, problem, best, tree, entries)?;
    Ok(Made { files, report })
}

/// The files of a concept: its table, and the text that marks it, where there is one.
pub(crate) fn concept_files(
    alloc: Global,
    problem: &LineProblem,
    concept: &BestConcept,
    mark: Option<Text>,
) -> Result<MadeList, NoMemory>
    requires { IsPriced problem.now concept.now }
    ensures { IfOk result (λ files. files
        ≡ record {
          file = file.Concept;
          text = concept_text problem.now concept.now.frequencies.items;
        } ∷ mark_files mark) }
{
    let mut files = MadeList::new(alloc);
    files.push(MadeFile {
        file: FileId::Concept,
        text: concept_text(alloc, problem, concept)?,
    })?;
    if let Some(text) = mark {
        files.push(MadeFile {
            file: FileId::Tree,
            text,
        })?;
    }
    Ok(files)
}

// The text of a concept.
fn concept_text(alloc: Global, problem: &LineProblem, best: &BestConcept) -> Result<Text, NoMemory>
    requires { IsPriced problem.now best.now }
    ensures { IfOk result
        (λ text. text ≡ concept_text problem.now best.now.frequencies.items) }
{
    // A count tells what always holds of a problem.
    let _ = problem.line_count();
    let table = rows_of_concept(alloc, problem, &best.frequencies)?;
    write_table(
        alloc,
        b"# line-id; edge-order; edge-id; frequency",
        &table,
        &columns!(Concept),
    )
}

// The text of the tree that marks a concept, where there is one.
fn written_tree(
    alloc: Global,
    problem: &LineProblem,
    tree: &Option<Tree>,
) -> Result<Option<Text>, NoMemory>
    requires { IfSome tree.now (AreSound problem.now) }
    ensures { IfOk result (λ text. text ≡ option_map (tree_text problem.now) tree.now) }
{
    match tree {
        Some(tree) => Ok(Some(write_tree(alloc, problem, tree)?)),
        None => Ok(None),
    }
}

// The line of the report.
fn concept_report(
    alloc: Global,
    problem: &LineProblem,
    best: &BestConcept,
    tree: &Option<Tree>,
    entries: u64,
) -> Result<Text, NoMemory>
    requires { IsPriced problem.now best.now }
    ensures { IfOk result (λ text. text
        ≡ (concept_made problem.now (concept_of best.now tree.now entries)).report) }
{
    report_line(
        alloc,
        Stage::Concept,
        &[
            cost_text(alloc, problem, best)?,
            Text::copy(alloc, mark_word(tree.is_some()))?,
            count_text(alloc, entries as usize, "entries")?,
        ],
    )
}

/// What a concept costs.
pub(crate) fn cost_text(
    alloc: Global,
    problem: &LineProblem,
    best: &BestConcept,
) -> Result<Text, NoMemory>
    requires { IsPriced problem.now best.now }
    ensures { IfOk result (λ text. text ≡ codes "cost "
        ++ fixed_text (pos (cost_of problem.now best.now.frequencies.items))) }
{
    // A count tells what always holds of a problem.
    let _ = problem.line_count();
    let mut text = Vec::from_slice(alloc, b"cost ")?;
    text.extend_from_slice(print_fixed(alloc, best.cost)?.as_bytes())?;
    Ok(Text::from_vec(text))
}

/// How the report tells of a mark.
pub(crate) fn mark_word(is_marked: bool) -> &'static [u8]
    ensures { result.now ≡ mark_word is_marked }
{
    if is_marked {
        b"optimal"
    } else {
        b"not proved optimal"
    }
}
