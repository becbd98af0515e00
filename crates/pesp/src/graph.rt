// What is known of the activities of a problem before its times are searched.
ghost use Rattle.std.specs.Prelude.{◌≡◌, IfOk};
ghost use Rattle.pesp.specs.Cycles.{IsGraph};

use crate::cycles::cycle_shifts;
use crate::links::Links;
use crate::problem::Pesp;
use plan_num::NoMemory;
use std::alloc::Global;

/// The activities at each event, and by how many minutes its set of times goes over into itself.
#[derive(Drop)]
pub(crate) struct ConstraintGraph {
    pub(crate) links: Links,
    pub(crate) shifts: Vec<usize>,
}

impl ConstraintGraph {
    /// That of a problem of a period.
    pub(crate) fn new(
        alloc: Global,
        pesp: &Pesp,
        period: usize,
    ) -> Result<ConstraintGraph, NoMemory>
        requires { pesp.now.period ≡ period }
        ensures { IfOk result (IsGraph pesp.now) }
    {
        let links = Links::new(alloc, pesp, period)?;
        let shifts = cycle_shifts(alloc, pesp, &links, period)?;
        Ok(ConstraintGraph { links, shifts })
    }
}
