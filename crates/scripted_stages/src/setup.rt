// What a stage is called with, as a script says it.
use crate::judges::judged;
use giv_files::{Bundle, FileId, Key, Settings, Stage};
use plan_num::NoMemory;
use script_files::{Trouble, text_of};
use std::alloc::Global;

// How many inputs a stage takes at most.
const MOST_INPUTS: usize = 10;

// How many keys there are.
const KEYS: usize = 24;

/// A stage with its settings and texts. A text is told by the script that begins with it.
#[derive(Drop)]
pub(crate) struct Setup<'a> {
    stage: Stage,
    values: [i64; KEYS],
    inputs: [&'a str; MOST_INPUTS],
    first: &'a str,
    second: Option<&'a str>,
}

impl<'a> Setup<'a> {
    /// A stage with the settings that no file changes, and with empty texts.
    pub(crate) fn new(stage: Stage) -> Setup<'a> {
        let mut setup = Setup {
            stage,
            values: [0; KEYS],
            inputs: [""; MOST_INPUTS],
            first: "",
            second: None,
        };
        for key in Key::all() {
            let _is_there = setup.put_value(key.place(), key.default_value());
        }
        setup
    }

    /// The same once more.
    pub(crate) fn again(&self) -> Setup<'a> {
        Setup {
            stage: self.stage,
            values: self.values,
            inputs: self.inputs,
            first: self.first,
            second: self.second,
        }
    }

    /// Takes what a line says, and tells whether it says something; after it stands a script.
    pub(crate) fn takes(&mut self, word: &str, what: &'a str, script: &'a str) -> bool {
        match word {
            "set" => self.set(what),
            "input" => self.put_input(what, script),
            "given" => self.put_given(what, script),
            _ => false,
        }
    }

    // A key and its value, as in a config file.
    fn set(&mut self, setting: &str) -> bool {
        let Some((name, spelled)) = setting.split_once(' ') else {
            return false;
        };
        match self.key_of(name) {
            Some(key) => match key.kind().spelled_as(spelled.as_bytes()) {
                Some(value) => self.put_value(key.place(), value),
                None => false,
            },
            None => false,
        }
    }

    // The key of the stage with a name.
    fn key_of(&self, name: &str) -> Option<Key> {
        for key in Key::all() {
            if key.name() == name && self.stage.has_key(*key) {
                return Some(*key);
            }
        }
        None
    }

    fn put_value(&mut self, place: usize, value: i64) -> bool {
        let is_there = place < KEYS;
        if is_there {
            self.values[place] = value;
        }
        is_there
    }

    // A text of an input.
    fn put_input(&mut self, name: &str, script: &'a str) -> bool {
        match self.input_place(name) {
            Some(place) if place < MOST_INPUTS => {
                self.inputs[place] = script;
                true
            }
            _ => false,
        }
    }

    // The place of an input. Loads that are given stand in the place of demand.
    fn input_place(&self, name: &str) -> Option<usize> {
        let known = if name == FileId::LoadGiven.name() {
            FileId::Od.name()
        } else {
            name
        };
        self.stage
            .inputs()
            .iter()
            .position(|file| file.name() == known)
    }

    // A text that is to be judged, in the place of what the stage makes.
    fn put_given(&mut self, name: &str, script: &'a str) -> bool {
        match self.made_place(name) {
            Some(0) => self.first = script,
            Some(1) => self.second = Some(script),
            _ => return false,
        }
        true
    }

    // The place of a file that the stage makes.
    fn made_place(&self, name: &str) -> Option<usize> {
        self.stage
            .makes()
            .iter()
            .position(|file| file.name() == name)
    }

    // The settings of the stage.
    fn settings(&self, alloc: Global) -> Result<Settings, NoMemory> {
        let mut settings = Settings::new(alloc);
        for key in Key::all() {
            if self.stage.has_key(*key) {
                settings.push(*key, self.value(*key))?;
            }
        }
        Ok(settings)
    }

    fn value(&self, key: Key) -> i64 {
        self.values.get(key.place()).copied().unwrap_or(0)
    }

    /// What the stage is given.
    pub(crate) fn bundle(&self, alloc: Global, named: &str) -> Result<Bundle, Trouble> {
        let mut bundle = Bundle::new(alloc, self.stage, self.settings(alloc)?);
        for script in self.inputs.iter().take(self.stage.inputs().len()) {
            let text = text_of(alloc, named, script)?;
            bundle.push_input(text.as_bytes())?;
        }
        Ok(bundle)
    }

    /// What is told of the texts that are to be judged.
    pub(crate) fn verdict(&self, alloc: Global, named: &str) -> Result<String, Trouble> {
        let bundle = self.bundle(alloc, named)?;
        let first = text_of(alloc, named, self.first)?;
        match self.second {
            Some(script) => {
                let second = text_of(alloc, named, script)?;
                judged(alloc, &bundle, first.as_bytes(), Some(second.as_bytes()))
            }
            None => judged(alloc, &bundle, first.as_bytes(), None),
        }
    }
}
