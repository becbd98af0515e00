// The words that ask for something.
ghost use Rattle.std.specs.Prelude.{◌≡◌, ◌≤◌, IfSome, length, map, string_bytes};
ghost use Rattle.command_line.specs.FormWords.{IsInRange, are_apart, check_form, five_words, form_of, ids_in};
ghost use Rattle.command_line.specs.FormWords.{is_disposed, journey_form, pool_form, pool_of_ids};
ghost use Rattle.command_line.specs.FormWords.{sized_form, three_words, two_words, waits_form};

use crate::form::Form;
use crate::terminals::Terminals;
use crate::words::{amount_in, id_in, number_in};

/// The question that words ask, if they ask one of these.
pub fn form_of(words: &[String]) -> Option<Form>
    ensures form { result ≡ form_of (map string_bytes words.now) }
    ensures in_range { IfSome result IsInRange }
{
    match words {
        [] => None,
        [first, more @ ..] if first.as_str() == "pool" => pool_form(more),
        [first, more @ ..] => sized_form(first.as_str(), more),
    }
}

// The question of a first word and of one, two or four after it.
fn sized_form(first: &str, words: &[String]) -> Option<Form>
    ensures form { result ≡ sized_form first.now (map string_bytes words.now) }
    ensures in_range { IfSome result IsInRange }
{
    match words {
        [penalty] => two_words(first, penalty.as_str()),
        [penalty, budget] => three_words(first, penalty.as_str(), budget.as_str()),
        [from, to, start, times] => five_words(
            first,
            from.as_str(),
            to.as_str(),
            start.as_str(),
            times.as_str(),
        ),
        [] => None,
        [_, _, _] => None,
        [_, _, _, _, _, ..] => None,
    }
}

fn two_words(first: &str, penalty: &str) -> Option<Form>
    ensures form { result ≡ two_words first.now penalty.now }
    ensures in_range { IfSome result IsInRange }
{
    if first == "check-waits" {
        check_form(penalty)
    } else {
        None
    }
}

fn three_words(first: &str, penalty: &str, budget: &str) -> Option<Form>
    ensures form { result ≡ three_words first.now penalty.now budget.now }
    ensures in_range { IfSome result IsInRange }
{
    if first == "waits" {
        waits_form(penalty, budget)
    } else {
        None
    }
}

fn five_words(first: &str, from: &str, to: &str, start: &str, times: &str) -> Option<Form>
    ensures form { result ≡ five_words first.now from.now to.now start.now times.now }
    ensures in_range { IfSome result IsInRange }
{
    if first == "journey" {
        journey_form(from, to, start, times)
    } else {
        None
    }
}

// A test of a waiting decision, at a penalty of 0 to 1,000,000 minutes.
fn check_form(penalty: &str) -> Option<Form>
    ensures form { result ≡ check_form penalty.now }
    ensures in_range { IfSome result IsInRange }
{
    let penalty = amount_in(0, 1_000_000, penalty)?;
    Some(Form::CheckWaits { penalty })
}

// A waiting decision, at such a penalty and within a budget of 1 to 20,000 entries.
fn waits_form(penalty: &str, budget: &str) -> Option<Form>
    ensures form { result ≡ waits_form penalty.now budget.now }
    ensures in_range { IfSome result IsInRange }
{
    let penalty = amount_in(0, 1_000_000, penalty)?;
    let budget = amount_in(1, 20_000, budget)?;
    Some(Form::Waits { penalty, budget })
}

// A journey between two different stops.
fn journey_form(from: &str, to: &str, start: &str, times: &str) -> Option<Form>
    ensures form { result ≡ journey_form from.now to.now start.now times.now }
    ensures in_range { IfSome result IsInRange }
{
    let from = id_in(from)?;
    let to = id_in(to)?;
    let start = number_in(0, 1_000_000_000, start)?;
    let disposed = is_disposed(times)?;
    if from == to {
        None
    } else {
        Some(Form::Journey {
            from,
            to,
            start,
            disposed,
        })
    }
}

// Whether times are disposed, by a word.
fn is_disposed(word: &str) -> Option<bool>
    ensures { result ≡ is_disposed word.now }
{
    match word {
        "planned" => Some(false),
        "disposed" => Some(true),
        _ => None,
    }
}

// A pool of 2 to 20 different stops.
#[tactic(auto, using(crate::proofs::WordFacts::no_pool))]
fn pool_form(words: &[String]) -> Option<Form>
    ensures form { result ≡ pool_form (map string_bytes words.now) }
    ensures in_range { IfSome result IsInRange }
{
    if words.len() < 2 || words.len() > 20 {
        return None;
    }
    pool_of_ids(ids_in(words)?)
}

#[tactic(auto, using(crate::proofs::WordFacts::apart_terminals))]
fn pool_of_ids(ids: Terminals) -> Option<Form>
    ensures form { result ≡ pool_of_ids ids }
    ensures in_range { IfSome result IsInRange }
{
    let count = ids.as_slice().len();
    if 2 <= count && count <= 20 && are_apart(ids.as_slice()) {
        Some(Form::Pool(ids))
    } else {
        None
    }
}

// The ids of some words, where each is one.
fn ids_in(words: &[String]) -> Option<Terminals>
    requires { length words.now ≤ 20 }
    ensures { result ≡ ids_in (map string_bytes words.now) }
{
    let mut ids = Terminals::new();
    for word in words {
        ids.push(id_in(word.as_str())?);
    }
    Some(ids)
}

// Whether ids differ from one another.
fn are_apart(ids: &[i64]) -> bool
    ensures { result ≡ are_apart ids.now }
{
    match ids {
        [] => true,
        [id, more @ ..] => !more.contains(id) && are_apart(more),
    }
}
