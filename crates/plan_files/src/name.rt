// Names of files.
ghost use Rattle.std.specs.Prelude.{◌≡◌, IfOk};

use plan_num::NoMemory;
use std::alloc::Global;
use std::marker::Model;

/// The name of a file, as a path below the dataset's folder. Contracts see it as the list of its
/// bytes.
#[derive(Debug, Drop)]
pub struct Name {
    text: String,
}

impl Model for Name {
    ghost use Rattle.std.specs.Prelude.{List, ℕ, string_bytes};

    ghost Value = { List ℕ };

    ghost view = { λ n. string_bytes n.text };
}

impl Name {
    /// A name with the same bytes.
    pub fn copy(alloc: Global, name: &str) -> Result<Name, NoMemory>
        ensures { IfOk result (λ made. made ≡ name.now) }
    {
        Ok(Name {
            text: String::from_str(alloc, name)?,
        })
    }

    /// The name as text.
    pub fn as_str(&self) -> &str
        ensures { result.now ≡ self.now }
    {
        self.text.as_str()
    }
}
