// Reading the activities of a problem.
ghost use Rattle.std.specs.Prelude.{◌≡◌, [], pos, length, slice_get, Some, IfOk};
ghost use Rattle.pesp_texts.specs.Texts.{AreActivityRows, Extends, IsActivityRow, Says, number_in};

use crate::cells::{number_at, rows_of};
use crate::fault::{RowForm, TextRule, TextStop};
use indexmap::IndexSet;
use pesp::PespActivity;
use pesp_judge::{WeightedActivity, WeightedPesp};
use std::alloc::Global;
use text_fields::{TextRow, TextRows};

// The most events and activities, and the longest bound.
const MOST_EVENTS: usize = 20_000;

const MOST_ACTIVITIES: usize = 100_000;

/// A problem as a text says it: its activities in the order of their rows, and the names of its
/// events, in the order in which they come.
pub struct Instance {
    pub weighted: WeightedPesp,
    pub names: IndexSet<i64>,
}

impl Drop for Instance {
    fn drop(self) {
        let Instance {
            weighted: _,
            names: _,
        } = self;
    }
}

/// Reads rows `index; from; to; lower; upper; weight`, each of which has an activity. Events have
/// any whole numbers for names.
pub fn read_instance(alloc: Global, text: &[u8], period: u32) -> Result<Instance, TextStop>
    ensures { IfOk result (λ instance.
        Says text.now period instance.names.keys instance.weighted) }
{
    let mut names = IndexSet::new(alloc);
    let mut activities = Vec::new(alloc);
    let mut rows = rows_of(alloc, text)?;
    take_rows(alloc, &mut rows, &mut names, &mut activities)?;
    match WeightedPesp::checked(period, names.as_slice().len(), activities) {
        Some(weighted) => Ok(Instance { weighted, names }),
        None => Err(TextStop::whole(TextRule::TooManyEvents)),
    }
}

// Takes the activities of all rows that are left.
fn take_rows<'a>(
    alloc: Global,
    rows: &mut TextRows<'a>,
    names: &mut IndexSet<i64>,
    activities: &mut Vec<WeightedActivity>,
) -> Result<(), TextStop>
    requires names { names.old.keys ≡ [] }
    requires activities { activities.old.items ≡ [] }
    ensures { IfOk result (λ _.
        AreActivityRows names.new.keys activities.new.items rows.old) }
{
    let mut row = TextRow::new(alloc);
    'rows: while rows.next_row(&mut row)? {
        if activities.len() >= MOST_ACTIVITIES {
            return Err(TextStop::at(row.number(), TextRule::TooManyActivities));
        }
        activities.push(activity_of(&row, names)?)?;
    }
    Ok(())
}

// The activity of a row.
fn activity_of(row: &TextRow<'_>, names: &mut IndexSet<i64>) -> Result<WeightedActivity, TextStop>
    ensures row { IfOk result (λ it. IsActivityRow names.new.keys it row.now) }
    ensures extends { IfOk result (λ _. Extends names.old.keys names.new.keys) }
{
    match numbers_of(row) {
        Err(rule) => Err(TextStop::at(row.number(), rule)),
        Ok(numbers) => {
            let from = place_of(row, names, numbers.from)?;
            let to = place_of(row, names, numbers.to)?;
            Ok(WeightedActivity {
                activity: PespActivity {
                    from,
                    to,
                    lower: numbers.lower,
                    upper: numbers.upper,
                },
                weight: numbers.weight,
            })
        }
    }
}

// The place of an event among all, which is the last one where it is new.
fn place_of(row: &TextRow<'_>, names: &mut IndexSet<i64>, name: i64) -> Result<usize, TextStop>
    ensures named { IfOk result (λ place. slice_get names.new.keys place ≡ Some name) }
    ensures extends { IfOk result (λ _. Extends names.old.keys names.new.keys) }
{
    let place = names.insert_full(name)?.0;
    if place < MOST_EVENTS {
        Ok(place)
    } else {
        Err(TextStop::at(row.number(), TextRule::TooManyEvents))
    }
}

// What a row says: the names of two events, bounds and a weight.
#[derive(Clone, Copy)]
struct Numbers {
    from: i64,
    to: i64,
    lower: i64,
    upper: i64,
    weight: u32,
}

// The numbers of a row, where they are such of an activity.
fn numbers_of(row: &TextRow<'_>) -> Result<Numbers, TextRule>
    ensures six { IfOk result (λ _. length row.now.fields ≡ 6) }
    ensures from { IfOk result (λ numbers. number_in row.now 1 ≡ Some numbers.from) }
    ensures to { IfOk result (λ numbers. number_in row.now 2 ≡ Some numbers.to) }
    ensures lower { IfOk result (λ numbers. number_in row.now 3 ≡ Some numbers.lower) }
    ensures upper { IfOk result (λ numbers. number_in row.now 4 ≡ Some numbers.upper) }
    ensures weight { IfOk result (λ numbers. number_in row.now 5 ≡ Some (pos numbers.weight)) }
{
    if row.len() != 6 {
        return Err(TextRule::Form(RowForm::Activity));
    }
    number_at(row, 0)?;
    let numbers = Numbers {
        from: number_at(row, 1)?,
        to: number_at(row, 2)?,
        lower: number_at(row, 3)?,
        upper: number_at(row, 4)?,
        weight: weight_of(number_at(row, 5)?)?,
    };
    if 0 <= numbers.lower && numbers.lower <= numbers.upper && numbers.upper <= 100_000 {
        Ok(numbers)
    } else {
        Err(TextRule::Bounds)
    }
}

// A weight, where it is one.
fn weight_of(number: i64) -> Result<u32, TextRule>
    ensures { IfOk result (λ weight. number ≡ pos weight) }
{
    match u32::try_from(number) {
        Ok(weight) if weight <= 1_000_000_000 => Ok(weight),
        _ => Err(TextRule::Weight),
    }
}
