// Ranges of frequencies.
ghost use Rattle.std.specs.Prelude.{◌≡◌};
ghost use Rattle.line_cost_model.specs.Regions.{has_several};

/// The frequencies that a line may have: from a least to a greatest one.
#[derive(Clone, Copy, Debug)]
pub(crate) struct LineRange {
    pub(crate) lo: u32,
    pub(crate) hi: u32,
}

impl LineRange {
    /// Whether there are several.
    pub(crate) fn has_several(self) -> bool
        ensures { result ≡ has_several self }
    {
        self.lo < self.hi
    }
}
