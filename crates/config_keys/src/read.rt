// Reading the settings of a dataset.
ghost use Rattle.std.specs.Prelude.{IfSome};
ghost use Rattle.plan_files.specs.Reads.{OnlyReads};
ghost use Rattle.config_keys.specs.Ends.{is_broken};
ghost use Rattle.config_keys.specs.Items.{look_in};
ghost use Rattle.config_keys.specs.Values.{effective};
ghost use Rattle.config_keys.specs.Effective.{ConfigGives};

use crate::config::Config;
use crate::config_end::ConfigEnd;
use crate::expand::read_all;
use crate::reading::Reading;
use plan_files::Files;
use std::alloc::Global;

/// Reads the settings of a dataset from `basis/Config.cnf` and the files that it includes. They are refused for
/// the first fault in reading order, or else for the first bad value in the order of keys. No file is changed.
pub fn read_config<F: Files>(alloc: Global, files: &mut F) -> Result<Config, ConfigEnd>
    ensures config { IfSome (F.contents files.old) (λ folder. ConfigGives (effective (look_in folder)) result) }
    ensures only_reads { OnlyReads F.contents F.writes F.faults files.old files.new
        (is_broken result) }
{
    let mut reading = Reading::new(alloc);
    read_all(alloc, files, &mut reading)?;
    Config::settle(alloc, &reading)
}
