// Lists of links from any hand.
ghost use Rattle.std.specs.Prelude.{◌≡◌, length, map, is_some, IfSome};
ghost use Rattle.std.specs.List.{list_all};
ghost use Rattle.link_plans.specs.CheckedLists.{are_lists, is_list, is_next_link};

use crate::limits::{MOST_GAIN, MOST_TRIPS};
use crate::link_table::{Link, LinkTable};

impl LinkTable {
    /// The links of the lists of all trips, where these are such: there are at most 2,000 trips,
    /// and each list has its links by the trips that they lead to, of which each is there and none
    /// comes twice, and none gains more than 10^12. None else.
    pub fn checked(rows: Vec<Vec<Link>>) -> Option<LinkTable>
        ensures table { IfSome result (λ table. table ≡ map (λ row. row.items) rows.items) }
        ensures exactly { is_some result ≡ are_lists (map (λ row. row.items) rows.items) }
    {
        if are_lists(&rows) {
            Some(LinkTable::of_rows(rows))
        } else {
            None
        }
    }
}

// Whether lists are those of the links of all trips.
fn are_lists(rows: &[Vec<Link>]) -> bool
    ensures { result ≡ are_lists (map (λ row. row.items) rows.now) }
{
    rows.len() <= MOST_TRIPS && all_lists(rows.len(), rows)
}

// Whether each is that of the links of a trip.
fn all_lists(count: usize, rows: &[Vec<Link>]) -> bool
    ensures { result ≡ list_all (is_list count 0) (map (λ row. row.items) rows.now) }
{
    for row in rows {
        if !is_list(count, row) {
            return false;
        }
    }
    true
}

// Whether a list is that of the links of a trip, out of so many trips.
fn is_list(count: usize, row: &[Link]) -> bool
    ensures { result ≡ is_list count 0 row.now }
{
    let mut from = 0;
    for link in row {
        if !is_next_link(count, from, *link) {
            return false;
        }
        from = link.to + 1;
    }
    true
}

// Whether a link may come next in a list.
fn is_next_link(count: usize, from: usize, link: Link) -> bool
    ensures { result ≡ is_next_link count from link }
{
    from <= link.to && (link.to < count && link.gain <= MOST_GAIN)
}
