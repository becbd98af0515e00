// The words of the command line.
ghost use Rattle.std.specs.Prelude.{◌≡◌, IfErr, IfOk, IsErr, drop};
ghost use Rattle.std.specs.IoError.{error_kind};
ghost use Rattle.std.specs.declared.io.ErrorKind.TheVariants.{OutOfMemory};
ghost use Rattle.std.specs.Vec.Iter.{into_iter_items};
ghost use Rattle.lintim_cli.specs.CommandLine.{words_after_name};

use plan_num::NoMemory;
use std::alloc::Global;
use std::env::Args;
use std::io;
use std::io::ErrorKind;

// The words of the command line after the program's name. Where they cannot be read there are none,
// and the answer is the usage line.
pub(crate) fn words_of(alloc: Global, line: io::Result<Args>) -> Result<Vec<String>, NoMemory>
    ensures words { IfOk result (λ words. words.items ≡ words_after_name line) }
    ensures refused { IfErr line (λ error. error_kind error ≡ OutOfMemory → IsErr result) }
{
    match line {
        Ok(line) => after_name(alloc, line),
        Err(error) if error.kind() == ErrorKind::OutOfMemory => Err(NoMemory),
        Err(_) => Ok(Vec::new(alloc)),
    }
}

// All words after the first one, in their order.
fn after_name(alloc: Global, line: Args) -> Result<Vec<String>, NoMemory>
    ensures { IfOk result (λ words. words.items ≡ drop 1 (into_iter_items line)) }
{
    Ok(line.skip(1).collect(alloc)?)
}
