// Why a chain ends before its last stage.
use config_keys::ConfigFault;
use giv_files::Stage;
use tables::{FileId, Refusal};

/// Why a chain ends before its last stage.
#[derive(Debug, Drop)]
pub enum Cause {
    /// The settings are refused.
    BadConfig(ConfigFault),
    /// A file is not there.
    Missing(FileId),
    /// A file has too many bytes.
    TooLong(FileId),
    /// A stage refuses what it is given.
    Refused(Stage, Refusal),
}
