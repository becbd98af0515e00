// The changes between trips.
ghost use Rattle.std.specs.Prelude.{◌≡◌, ◌≤◌, ◌<◌, ◌++◌, length, map, All, OnOk};
ghost use Rattle.std.specs.Option.{option_to_list};
ghost use Rattle.std.specs.List.{flat_map};
ghost use Rattle.roll_out.specs.DayActivities.{change_copy, is_change};
ghost use Rattle.roll_out.specs.Plans.{AreFew, IsBetween, changes_by, changes_if};

use crate::copies::Copies;
use crate::network::TimedNetwork;
use crate::ways::copy_of;
use event_tables::{ActivityKind, ExpandedActivity, PeriodicActivity, PeriodicKind};
use plan_num::NoMemory;

/// How many changes between trips there are.
pub(crate) fn change_count(network: &TimedNetwork, copies: &[Copies]) -> usize
    requires each { length copies.now ≡ length network.now.events }
    requires few { All AreFew copies.now }
    ensures count { result
        ≡ length (flat_map (changes_if network.now copies.now) network.now.activities) }
    ensures few { result ≤ 400000000 }
{
    let mut count = 0;
    for activity in network.activities() {
        if is_change(activity) {
            count += count_copies(network, copies, activity);
        }
    }
    count
}

// How many copies of a change there are.
fn count_copies(network: &TimedNetwork, copies: &[Copies], activity: &PeriodicActivity) -> usize
    requires each { length copies.now ≡ length network.now.events }
    requires few { All AreFew copies.now }
    requires between { IsBetween network.now activity.now }
    ensures count { result ≡ length (changes_by network.now copies.now activity.now) }
    ensures few { result ≤ 2000 }
{
    let tail = copies[activity.from as usize - 1];
    let head = copies[activity.to as usize - 1];
    let minutes = network.minutes_of(activity);
    let period = network.period();
    let mut count = 0;
    for earlier in 0..tail.count {
        count += count_of(head.id_at(period, tail.time(period, earlier) + minutes));
    }
    count
}

/// The changes between trips are added.
pub(crate) fn add_changes(
    network: &TimedNetwork,
    copies: &[Copies],
    activities: &mut Vec<ExpandedActivity>,
) -> Result<(), NoMemory>
    requires each { length copies.now ≡ length network.now.events }
    requires few { All AreFew copies.now }
    ensures { OnOk result (activities.new.items ≡ activities.old.items
        ++ flat_map (changes_if network.now copies.now) network.now.activities) }
{
    for activity in network.activities() {
        if is_change(activity) {
            add_copies(network, copies, activity, activities)?;
        }
    }
    Ok(())
}

// The copies of a change are added.
fn add_copies(
    network: &TimedNetwork,
    copies: &[Copies],
    activity: &PeriodicActivity,
    activities: &mut Vec<ExpandedActivity>,
) -> Result<(), NoMemory>
    requires each { length copies.now ≡ length network.now.events }
    requires few { All AreFew copies.now }
    requires between { IsBetween network.now activity.now }
    ensures { OnOk result (activities.new.items ≡ activities.old.items
        ++ changes_by network.now copies.now activity.now) }
{
    let tail = copies[activity.from as usize - 1];
    let head = copies[activity.to as usize - 1];
    let minutes = network.minutes_of(activity);
    let period = network.period();
    for earlier in 0..tail.count {
        let to = head.id_at(period, tail.time(period, earlier) + minutes);
        add_copy(activity, tail.id(earlier), to, activities)?;
    }
    Ok(())
}

// The copy of an activity between two events is added, if the second one is there.
fn add_copy(
    activity: &PeriodicActivity,
    from: u32,
    to: Option<u32>,
    activities: &mut Vec<ExpandedActivity>,
) -> Result<(), NoMemory>
    ensures { OnOk result (activities.new.items
        ≡ activities.old.items ++ map (change_copy activity.now from) (option_to_list to)) }
{
    if let Some(to) = to {
        activities.push(copy_of(ActivityKind::Change, activity, from, to))?;
    }
    Ok(())
}

// How many ids there are: one, or none.
fn count_of(id: Option<u32>) -> usize
    ensures count { result ≡ length (option_to_list id) }
    ensures few { result ≤ 1 }
{
    match id {
        None => 0,
        Some(_) => 1,
    }
}

// Whether an activity is a change.
fn is_change(activity: &PeriodicActivity) -> bool
    ensures { result ≡ is_change activity.now }
{
    matches!(activity.kind, PeriodicKind::Change)
}
