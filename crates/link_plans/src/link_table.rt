// The links of each trip that gain no less than nothing, and what they gain.
ghost use Rattle.std.specs.Prelude.{◌≡◌, ◌<◌, ◌==◌, if◌then◌else◌, [], pos, length, map, get_or};
ghost use Rattle.std.specs.Prelude.{option_map, Some, None};
ghost use Rattle.link_plans.specs.Links.{gain_in, links_in, AreLinks};
ghost use Rattle.link_plans.specs.LinkRows.{AreBefore, AreFrom, AreLinkRows, IsRising, IsRow};

use std::marker::Model;

/// A link from a trip to another one.
#[derive(Clone, Copy)]
pub struct Link {
    /// The other trip.
    pub to: usize,
    /// What the link gains, in millionths.
    pub gain: u64,
}

/// For each trip its links that gain no less than nothing, by the trips that they lead to.
/// Contracts see it as these lists. One that gains less is in no plan that gains the most, so it is
/// left out.
#[derive(Drop)]
pub struct LinkTable {
    rows: Vec<Vec<Link>>,
}

impl Model for LinkTable {
    ghost use Rattle.std.specs.Prelude.{List, map};
    ghost use Rattle.link_plans.specs.declared.link_table.Link.{Link};

    ghost Value = { List (List Link) };

    ghost use Rattle.link_plans.specs.LinkRows.{AreLinkRows};

    ghost view = { λ table. map (λ row. row.items) table.rows.items };

    ghost invariant = { λ table. AreLinkRows (map (λ row. row.items) table.rows.items) };
}

impl LinkTable {
    /// The links of the lists of all trips: there are at most 2,000, and each list has its links by
    /// the trips that they lead to, of which none comes twice and none gains more than 10^12.
    pub fn of_rows(rows: Vec<Vec<Link>>) -> LinkTable
        requires { AreLinkRows (map (λ row. row.items) rows.items) }
        ensures { result ≡ map (λ row. row.items) rows.items }
    {
        LinkTable { rows }
    }

    /// How many trips there are.
    pub fn len(&self) -> usize
        ensures count { result ≡ length self.now }
        ensures links { AreLinks (links_in self.now) }
    {
        self.rows.len()
    }

    /// The links of a trip.
    pub fn row(&self, trip: usize) -> &[Link]
        requires { trip < length self.now }
        ensures row { IsRow (links_in self.now) trip (length self.now) result.now }
        ensures links { AreLinks (links_in self.now) }
    {
        &self.rows[trip]
    }

    /// What the link from a trip to another one gains, if there is one.
    pub fn gain(&self, from: usize, to: usize) -> Option<u64>
        requires { from < length self.now }
        ensures { (links_in self.now).gain from to ≡ option_map pos result }
    {
        gain_in(self.list(from), to)
    }

    // The list of a trip.
    fn list(&self, trip: usize) -> &[Link]
        requires { trip < length self.now }
        ensures list { result.now ≡ get_or self.now trip [] }
        ensures rising { IsRising result.now }
    {
        &self.rows[trip]
    }
}

// What the link to a trip gains, if there is one in a list.
fn gain_in(row: &[Link], to: usize) -> Option<u64>
    requires { IsRising row.now }
    ensures { result ≡ gain_in row.now to }
{
    let place = first_from(row, to);
    if place < row.len() {
        gain_to(row[place], to)
    } else {
        None
    }
}

// What a link gains, if it leads to a trip.
fn gain_to(link: Link, to: usize) -> Option<u64>
    ensures { result ≡ (if link.to == to then Some link.gain else None) }
{
    if link.to == to { Some(link.gain) } else { None }
}

// The place of the first link of a list that leads to a trip from one on; by halves.
fn first_from(row: &[Link], to: usize) -> usize
    requires { IsRising row.now }
    ensures before { AreBefore row.now to result }
    ensures after { AreFrom row.now to result }
{
    let mut low = 0;
    let mut high = row.len();
    while low < high {
        let middle = low + (high - low) / 2;
        if row[middle].to < to {
            low = middle + 1;
        } else {
            high = middle;
        }
    }
    low
}
