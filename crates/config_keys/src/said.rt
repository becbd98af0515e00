// What is said of keys.
ghost use Rattle.std.specs.Prelude.{◌≡◌, ◌∷◌, [], OnOk};
ghost use Rattle.std.specs.Option.{option_copied};
ghost use Rattle.giv_files.specs.Keys.{key_name};
ghost use Rattle.config_keys.specs.Items.{Setting};
ghost use Rattle.config_keys.specs.ReadSoFar.{text_of, is_named, key_named, said_item, said_items, SaysOn};

use giv_files::Key;
use indexmap::IndexMap;
use plan_num::{NoMemory, Text};
use std::alloc::Global;

/// What is said last of each key, by the places of keys.
#[derive(Drop)]
pub(crate) struct Said {
    texts: IndexMap<usize, Text>,
}

impl Said {
    /// Nothing is said.
    pub(crate) fn new(alloc: Global) -> Said
        ensures { (key : Key) → text_of result key ≡ None }
    {
        Said {
            texts: IndexMap::new(alloc),
        }
    }

    /// What is said last of a key.
    pub(crate) fn of(&self, key: Key) -> Option<&Text>
        ensures { option_copied result ≡ text_of self.now key }
    {
        self.texts.get(&key.place())
    }

    /// Takes a row with a key and its value. A key that is not known is passed over.
    pub(crate) fn take(&mut self, alloc: Global, name: &[u8], value: &[u8]) -> Result<(), NoMemory>
        ensures { OnOk result (SaysOn (Setting name.now value.now ∷ []) self.old self.new) }
    {
        match key_named(name) {
            None => Ok(()),
            Some(key) => self.put(alloc, key, value),
        }
    }

    // Says the value of a key.
    fn put(&mut self, alloc: Global, key: Key, value: &[u8]) -> Result<(), NoMemory>
        ensures { OnOk result (SaysOn (Setting (key_name key) value.now ∷ []) self.old self.new) }
    {
        self.texts.insert(key.place(), Text::copy(alloc, value)?)?;
        Ok(())
    }

    // Says of a key what is said of it later, if anything is.
    fn add_key(&mut self, alloc: Global, later: &Said, key: Key) -> Result<(), NoMemory>
        ensures { OnOk result (SaysOn (said_item later.now key) self.old self.new) }
    {
        match later.of(key) {
            None => Ok(()),
            Some(text) => self.put(alloc, key, text.as_bytes()),
        }
    }

    /// Says all that is said later.
    pub(crate) fn add(&mut self, alloc: Global, later: &Said) -> Result<(), NoMemory>
        ensures { OnOk result (SaysOn (said_items later.now) self.old self.new) }
    {
        for key in Key::all() {
            self.add_key(alloc, later, *key)?;
        }
        Ok(())
    }
}

// The key of a name.
fn key_named(name: &[u8]) -> Option<Key>
    ensures { result ≡ key_named name.now }
{
    Key::all().iter().copied().find(|key| is_named(*key, name))
}

// Whether the key has the name.
fn is_named(key: Key, name: &[u8]) -> bool
    ensures { result ≡ is_named name.now key }
{
    name == key.name().as_bytes()
}
