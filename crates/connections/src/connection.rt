// Connections between events.

/// A connection that can be used, from one event to another, told by their indexes.
#[derive(Clone, Copy, Debug)]
pub struct Connection {
    pub from: u32,
    pub to: u32,
}
