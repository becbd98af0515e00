//! The settings of a dataset, from its config file and the files that it includes.
#![tactic(auto)]

mod config;
mod config_end;
mod config_fault;
mod expand;
mod include;
mod kept_files;
mod read;
mod reading;
mod said;
mod settings_file;
mod value;
mod word;

pub use config::Config;
pub use config_end::ConfigEnd;
pub use config_fault::ConfigFault;
pub use kept_files::FILE_LIMIT;
pub use read::read_config;
