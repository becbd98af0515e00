// A count of steps, which no code keeps.
ghost use Rattle.std.specs.Prelude.{◌≡◌, ◌+◌, min};

use std::marker::Model;
use std::snapshot::Snapshot;

/// Takes note of steps as they are made.
pub trait Ledger {
    fn note(&mut self);
}

/// Keeps nothing.
#[derive(Drop)]
pub struct Silent;

impl Ledger for Silent {
    fn note(&mut self) {}
}

/// Counts the notes, up to the last value of a counter. Contracts see it as that number.
#[derive(Drop)]
pub struct Tally {
    noted: u64,
}

impl Model for Tally {
    ghost use Rattle.std.specs.Prelude.{ℕ};

    ghost Value = { ℕ };

    ghost view = { λ t. t.noted };
}

impl Tally {
    /// No note yet.
    pub fn new() -> Tally
        ensures { result ≡ 0 }
    {
        Tally { noted: 0 }
    }

    /// How many notes were taken.
    pub fn seen(&self) -> u64
        ensures { result ≡ self.now }
    {
        self.noted
    }
}

impl Ledger for Tally {
    fn note(&mut self)
        ensures { self.new ≡ min (self.old + 1) 18446744073709551615 }
    {
        self.noted = self.noted.saturating_add(1);
    }
}

/// How many steps were made, as clauses see it. It takes no bytes beside its ledger.
#[derive(Drop)]
pub struct Steps<L: Ledger> {
    ledger: L,
    count: Snapshot<u64>,
}

impl<L: Ledger> Model for Steps<L> {
    ghost use Rattle.std.specs.Prelude.{ℕ};

    ghost Value = { ℕ };

    ghost view = { λ s. s.count.value };
}

// One more. No code runs.
fn advance(count: &mut Snapshot<u64>)
    ensures { count.new.value ≡ count.old.value + 1 }
{}

impl<L: Ledger> Steps<L> {
    /// No step yet.
    pub fn new(ledger: L) -> Steps<L>
        ensures { result ≡ 0 }
    {
        Steps {
            ledger,
            count: Snapshot::of(&0),
        }
    }

    /// One step more, of which the ledger is told.
    pub fn tick(&mut self)
        ensures { self.new ≡ self.old + 1 }
    {
        advance(&mut self.count);
        self.ledger.note();
    }

    pub fn ledger(&self) -> &L {
        &self.ledger
    }
}
