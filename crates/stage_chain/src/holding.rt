// What is held of a stage.
ghost use Rattle.std.specs.Prelude.{◌≡◌};
ghost use Rattle.stage_chain.specs.States.{held};

use giv_files::Made;

/// What is held of a stage, over what is held of those before it.
#[derive(Drop)]
pub(crate) enum Holding {
    /// The stage comes after the last one that is to run.
    Off,
    /// It takes a file of a stage of which nothing is held.
    Unknown,
    /// Nothing is kept of what it is given, or an input is not there.
    Stale,
    /// What it made of what it is given.
    Held(Made),
}

impl Holding {
    /// What is held, by what is kept of what a stage is given.
    pub(crate) fn of(kept: Option<Made>) -> Holding
        ensures { result ≡ held kept }
    {
        match kept {
            None => Holding::Stale,
            Some(made) => Holding::Held(made),
        }
    }
}
