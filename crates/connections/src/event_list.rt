// Lists of events.
ghost use Rattle.std.specs.Prelude.{◌≡◌, ◌<◌, ◌++◌, ◌∷◌, [], length, slice_get, Some, OnOk, OnErr};

use plan_num::NoMemory;
use std::alloc::Global;
use std::marker::Model;

/// Events, told by their indexes. Contracts see it as the list of these.
#[derive(Debug, Drop)]
pub struct EventList {
    events: Vec<usize>,
}

impl Model for EventList {
    ghost use Rattle.std.specs.Prelude.{ℕ, List};

    ghost Value = { List ℕ };

    ghost view = { λ list. list.events.items };
}

impl EventList {
    /// No event yet.
    pub fn new(alloc: Global) -> EventList
        ensures { result ≡ [] }
    {
        EventList {
            events: Vec::new(alloc),
        }
    }

    /// Appends an event.
    pub fn push(&mut self, event: usize) -> Result<(), NoMemory>
        ensures ok { OnOk result (self.new ≡ self.old ++ event ∷ []) }
        ensures err { OnErr result (self.new ≡ self.old) }
    {
        self.events.push(event)?;
        Ok(())
    }

    /// How many events there are.
    pub fn len(&self) -> usize
        ensures { result ≡ length self.now }
    {
        self.events.len()
    }

    /// The event at an index.
    pub fn at(&self, index: usize) -> usize
        requires { index < length self.now }
        ensures { slice_get self.now index ≡ Some result }
    {
        self.events[index]
    }

    /// All of them.
    pub fn as_slice(&self) -> &[usize]
        ensures { result.now ≡ self.now }
    {
        self.events.as_slice()
    }

    /// The events of a vector. It takes no memory.
    pub fn from_vec(events: Vec<usize>) -> EventList
        ensures { result ≡ events.items }
    {
        EventList { events }
    }
}
