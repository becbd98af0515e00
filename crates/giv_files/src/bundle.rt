// What a stage is given.
ghost use Rattle.std.specs.Prelude.{◌≡◌, ◌<◌, ◌∷◌, ◌++◌, ◌↔◌, [], length, map, slice_index_or, IsTrue, OnOk, OnErr};
ghost use Rattle.giv_files.specs.Settings.{Fits};

use crate::settings::Settings;
use crate::settings_fit::settings_fit;
use crate::stage::Stage;
use plan_num::{NoMemory, Text};
use std::alloc::Global;
use std::marker::Model;

/// A stage with its settings and its input texts. Contracts see it as these three.
#[derive(Debug)]
pub struct Bundle {
    alloc: Global,
    stage: Stage,
    settings: Settings,
    inputs: Vec<Text>,
}

impl Drop for Bundle {
    fn drop(self) {
        let Bundle {
            alloc: _,
            stage: _,
            settings: _,
            inputs: _,
        } = self;
    }
}

impl Model for Bundle {
    ghost use Rattle.giv_files.specs.Settings.{BundleParts};

    ghost Value = { BundleParts };

    ghost view = { λ b. record { stage = b.stage; settings = b.settings; inputs = b.inputs.items } };
}

impl Bundle {
    /// A stage with its settings, and no input yet.
    pub fn new(alloc: Global, stage: Stage, settings: Settings) -> Bundle
        ensures { result ≡ record { stage = stage; settings = settings; inputs = [] } }
    {
        Bundle {
            alloc,
            stage,
            settings,
            inputs: Vec::new(alloc),
        }
    }

    /// One input more.
    pub fn push_input(&mut self, text: &[u8]) -> Result<(), NoMemory>
        ensures ok { OnOk result (self.new ≡ record self.old { inputs = self.old.inputs ++ text.now ∷ [] }) }
        ensures err { OnErr result (self.new ≡ self.old) }
    {
        let copy = Text::copy(self.alloc, text)?;
        self.push_text(copy)
    }

    /// One input more, which is not copied.
    pub fn push_text(&mut self, text: Text) -> Result<(), NoMemory>
        ensures ok { OnOk result (self.new ≡ record self.old { inputs = self.old.inputs ++ text ∷ [] }) }
        ensures err { OnErr result (self.new ≡ self.old) }
    {
        self.inputs.push(text)?;
        Ok(())
    }

    pub fn stage(&self) -> Stage
        ensures { result ≡ self.now.stage }
    {
        self.stage
    }

    pub fn settings(&self) -> &Settings
        ensures { result.now ≡ self.now.settings }
    {
        &self.settings
    }

    /// How many inputs there are.
    pub fn inputs(&self) -> usize
        ensures { result ≡ length self.now.inputs }
    {
        self.inputs.len()
    }

    /// The input text at a place.
    pub fn input(&self, index: usize) -> &[u8]
        requires { index < length self.now.inputs }
        ensures { result.now ≡ slice_index_or self.now.inputs index [] }
    {
        self.inputs[index].as_bytes()
    }

    /// Whether the settings are exactly those of the stage, each with a value that it may have, and there are
    /// as many inputs as the stage takes.
    pub fn fits(&self) -> bool
        ensures { IsTrue result ↔ Fits self.now }
    {
        settings_fit(self.stage, &self.settings) && self.inputs.len() == self.stage.inputs().len()
    }
}
