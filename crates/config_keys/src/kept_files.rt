// The settings files that were read.
ghost use Rattle.std.specs.Prelude.{◌≡◌, List, ℕ, IfOk, IfSome, OnOk, Some, None};
ghost use Rattle.std.specs.Prelude.{if◌then◌else◌};
ghost use Rattle.std.specs.Option.{option_map};
ghost use Rattle.std.specs.Rc.{rc_value};
ghost use Rattle.std.specs.Str.{bytes_eq};
ghost use Rattle.plan_files.specs.Reads.{OnlyReads};
ghost use Rattle.config_keys.specs.Ends.{is_broken};
ghost use Rattle.config_keys.specs.Items.{look_in};
ghost use Rattle.config_keys.specs.PartsOfReading.{FetchGives, FileGives};
ghost use Rattle.config_keys.specs.SettingsFiles.{Says, AllKept, kept_at};

use crate::config_end::ConfigEnd;
use crate::config_fault::ConfigFault;
use crate::settings_file::SettingsFile;
use indexmap::IndexMap;
use plan_files::{Files, Got};
use plan_num::{NoMemory, Text};
use std::alloc::Global;
use std::rc::Rc;

/// The most bytes of a file that people write: 64 MiB.
pub const FILE_LIMIT: u64 = 64 << 20;

/// What the settings files say that were read, by their paths.
pub(crate) struct KeptFiles {
    files: IndexMap<String, Rc<SettingsFile>>,
}

impl Drop for KeptFiles {
    fn drop(self) {
        let KeptFiles { files: _ } = self;
    }
}

impl KeptFiles {
    /// No file was read.
    pub(crate) fn new(alloc: Global) -> KeptFiles
        ensures { (path : List ℕ) → kept_at result path ≡ None }
    {
        KeptFiles {
            files: IndexMap::new(alloc),
        }
    }

    // What a file says that was read.
    fn kept(&self, path: &str) -> Result<Option<Rc<SettingsFile>>, NoMemory>
        ensures { IfOk result (λ kept. option_map rc_value kept ≡ kept_at self.now path.now) }
    {
        match self.files.get(path) {
            None => Ok(None),
            Some(file) => Ok(Some(file.clone()?)),
        }
    }

    // Keeps what a file says.
    fn keep(&mut self, alloc: Global, path: &str, file: &Rc<SettingsFile>) -> Result<(), NoMemory>
        ensures { OnOk result ((at : List ℕ) → kept_at self.new at
            ≡ (if bytes_eq path.now at then Some file.now.value else kept_at self.old at)) }
    {
        let file = file.clone()?;
        let path = String::from_str(alloc, path)?;
        self.files.insert(path, file)?;
        Ok(())
    }

    // Reads the text of a file, and keeps what it says.
    fn read(&mut self, alloc: Global, path: &str, text: &[u8]) -> Result<Rc<SettingsFile>, NoMemory>
        ensures says { IfOk result (λ file. Says text.now file.value) }
        ensures keeps { IfOk result (λ file. (at : List ℕ) → kept_at self.new at
            ≡ (if bytes_eq path.now at then Some file.value else kept_at self.old at)) }
    {
        let file = Rc::new(alloc, SettingsFile::from_text(alloc, text)?)?;
        self.keep(alloc, path, &file)?;
        Ok(file)
    }

    /// What the file under a path says; none where it is not there and may be passed over. A file
    /// is read once.
    #[inline(never)]
    pub(crate) fn file<F: Files>(
        &mut self,
        alloc: Global,
        files: &mut F,
        path: &str,
        optional: bool,
    ) -> Result<Option<Rc<SettingsFile>>, ConfigEnd>
        ensures gives { IfSome (F.contents files.old) (λ folder. AllKept (look_in folder) self.old
            → FileGives rc_value optional path.now (look_in folder path.now) result) }
        ensures kept { IfSome (F.contents files.old) (λ folder. AllKept (look_in folder) self.old
            → IfOk result (λ _. AllKept (look_in folder) self.new)) }
        ensures only_reads { OnlyReads F.contents F.writes F.faults files.old files.new
            (is_broken result) }
    {
        match self.kept(path)? {
            Some(file) => return Ok(Some(file)),
            None => {}
        }
        match fetch(alloc, files, path, optional)? {
            None => Ok(None),
            Some(text) => Ok(Some(self.read(alloc, path, text.as_bytes())?)),
        }
    }
}

// The text under a path; none where it is not there and may be passed over.
fn fetch<F: Files>(
    alloc: Global,
    files: &mut F,
    path: &str,
    optional: bool,
) -> Result<Option<Text>, ConfigEnd>
    ensures found { IfSome (F.contents files.old)
        (λ folder. FetchGives optional path.now (look_in folder path.now) result) }
    ensures only_reads { OnlyReads F.contents F.writes F.faults files.old files.new
        (is_broken result) }
{
    match files.get(alloc, path, FILE_LIMIT)? {
        Got::Bytes(text) => Ok(Some(text)),
        Got::Absent if optional => Ok(None),
        Got::Absent => Err(ConfigEnd::Refused(ConfigFault::MissingInclude {
            name: Text::copy(alloc, path.as_bytes())?,
        })),
        Got::TooLong => Err(ConfigEnd::Refused(ConfigFault::TooLong {
            name: Text::copy(alloc, path.as_bytes())?,
        })),
    }
}
