// Whether a run is to use what earlier runs kept.

/// Whether a run may take what earlier runs kept, or has to make all of it afresh.
#[derive(Clone, Copy, Debug, PartialEq, Eq)]
pub enum Mode {
    /// A stage that was given the same before is taken from what is kept.
    Make,
    /// What is kept is removed first.
    Fresh,
}
