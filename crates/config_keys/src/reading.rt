// What has been read of a config.
ghost use Rattle.std.specs.Prelude.{◌≡◌};
ghost use Rattle.std.specs.Option.{option_copied};
ghost use Rattle.config_keys.specs.ReadSoFar.{said_of};

use crate::said::Said;
use giv_files::Key;
use plan_num::Text;
use std::alloc::Global;

/// How many include rows were read, and what was said last of each key.
pub(crate) struct Reading {
    pub includes: u64,
    pub said: Said,
}

impl Drop for Reading {
    fn drop(self) {
        let Reading {
            includes: _,
            said: _,
        } = self;
    }
}

impl Reading {
    /// Nothing was read.
    pub(crate) fn new(alloc: Global) -> Reading
        ensures includes { result.includes ≡ 0 }
        ensures said { (key : Key) → said_of result key ≡ None }
    {
        Reading {
            includes: 0,
            said: Said::new(alloc),
        }
    }

    /// What was said last of a key.
    pub(crate) fn said(&self, key: Key) -> Option<&Text>
        ensures { option_copied result ≡ said_of self.now key }
    {
        self.said.of(key)
    }
}
