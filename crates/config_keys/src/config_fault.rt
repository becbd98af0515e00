// Why settings are refused.
use giv_files::Key;
use plan_num::Text;
use tables::RowWhy;

/// Why settings are refused. The name is that of the file in which the fault stands, as a path below the
/// dataset's folder. A missing or too long file is named itself.
#[derive(Debug)]
pub enum ConfigFault {
    /// A row has not two fields, or the file begins with a byte order mark.
    BadRow { name: Text, row: u64, why: RowWhy },
    /// A file is included that is not there.
    MissingInclude { name: Text },
    /// The name of an included file is none of a config file in the same folder.
    IncludeOutside { name: Text, row: u64 },
    /// An include stands in a file of the greatest depth.
    TooDeep { name: Text, row: u64 },
    /// An include comes after as many as are allowed.
    TooManyIncludes { name: Text, row: u64 },
    /// A file has too many bytes.
    TooLong { name: Text },
    /// The value of a key is not allowed.
    BadValue { key: Key },
}

impl Drop for ConfigFault {
    fn drop(self) {
        match self {
            ConfigFault::BadRow {
                name: _,
                row: _,
                why: _,
            } => {}
            ConfigFault::MissingInclude { name: _ } | ConfigFault::TooLong { name: _ } => {}
            ConfigFault::IncludeOutside { name: _, row: _ }
            | ConfigFault::TooDeep { name: _, row: _ }
            | ConfigFault::TooManyIncludes { name: _, row: _ } => {}
            ConfigFault::BadValue { key: _ } => {}
        }
    }
}
