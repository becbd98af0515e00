// What a stage is given, of which texts may be lent.
ghost use Rattle.std.specs.Prelude.{◌≡◌, ◌<◌, ◌∷◌, ◌++◌, [], length, slice_index_or, IfOk, OnOk, OnErr};

use crate::lent::LentText;
use giv_files::{Bundle, Settings, Stage};
use plan_num::NoMemory;
use std::alloc::Global;
use std::marker::Model;

/// A stage with its settings and its input texts, of which some may be lent. Contracts see it as
/// these three, as a bundle.
pub struct Given<'a> {
    stage: Stage,
    settings: Settings,
    inputs: Vec<LentText<'a>>,
}

impl Drop for Given<'_> {
    fn drop(self) {
        let Given {
            stage: _,
            settings: _,
            inputs: _,
        } = self;
    }
}

impl<'a> Model for Given<'a> {
    ghost use Rattle.giv_files.specs.Settings.{BundleParts};

    ghost Value = { BundleParts };

    ghost view = { λ g. record { stage = g.stage; settings = g.settings; inputs = g.inputs.items } };
}

impl<'a> Given<'a> {
    /// A stage with its settings, and no input yet.
    pub fn new(alloc: Global, stage: Stage, settings: Settings) -> Given<'a>
        ensures { result ≡ record { stage = stage; settings = settings; inputs = [] } }
    {
        Given {
            stage,
            settings,
            inputs: Vec::new(alloc),
        }
    }

    /// One input more.
    pub fn push_text(&mut self, text: LentText<'a>) -> Result<(), NoMemory>
        ensures ok { OnOk result (self.new ≡ record self.old { inputs = self.old.inputs ++ text.entry ∷ [] }) }
        ensures err { OnErr result (self.new ≡ self.old) }
    {
        self.inputs.push(text)?;
        Ok(())
    }

    pub fn stage(&self) -> Stage
        ensures { result ≡ self.now.stage }
    {
        self.stage
    }

    pub fn settings(&self) -> &Settings
        ensures { result.now ≡ self.now.settings }
    {
        &self.settings
    }

    /// How many inputs there are.
    pub fn inputs(&self) -> usize
        ensures { result ≡ length self.now.inputs }
    {
        self.inputs.len()
    }

    /// The input text at a place.
    pub fn input(&self, index: usize) -> &[u8]
        requires { index < length self.now.inputs }
        ensures { result.now ≡ slice_index_or self.now.inputs index [] }
    {
        self.inputs[index].as_bytes()
    }

    /// The bundle of a stage, for which texts that are lent are copied.
    pub fn into_bundle(self, alloc: Global) -> Result<Bundle, NoMemory>
        ensures { IfOk result (λ bundle. bundle ≡ self.entry) }
    {
        let Given {
            stage,
            settings,
            inputs,
        } = self;
        let mut bundle = Bundle::new(alloc, stage, settings);
        for text in inputs {
            bundle.push_text(text.into_text(alloc)?)?;
        }
        Ok(bundle)
    }
}
