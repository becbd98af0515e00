// Writes to files.
ghost use Rattle.std.specs.Prelude.{◌≡◌, is_some};
ghost use Rattle.std.specs.Option.{option_copied};
ghost use Rattle.plan_files.specs.Changes.{write_name, left_by};

use crate::name::Name;
use plan_num::Text;

/// A write that was made.
#[derive(Debug)]
pub enum Write {
    /// The name has these bytes from then on.
    Put(Name, Text),
    /// The name is absent from then on.
    Removal(Name),
}

impl Drop for Write {
    fn drop(self) {
        match self {
            Write::Put(_, _) | Write::Removal(_) => {}
        }
    }
}

impl Write {
    /// The name that it changes.
    pub fn name(&self) -> &str
        ensures { result.now ≡ write_name self.now }
    {
        match self {
            Write::Put(name, _) | Write::Removal(name) => name.as_str(),
        }
    }

    /// What it leaves under its name.
    pub fn left(&self) -> Option<&Text>
        ensures { option_copied result ≡ left_by self.now }
    {
        match self {
            Write::Put(_, text) => Some(text),
            Write::Removal(_) => None,
        }
    }

    /// Whether it puts bytes.
    pub fn is_put(&self) -> bool
        ensures { result ≡ is_some (left_by self.now) }
    {
        self.left().is_some()
    }
}
