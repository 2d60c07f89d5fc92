//! Scripts of commands over an encrypted file, conversions and logs: what their texts say, and how they are read.
#![tactic(auto)]

mod conversion;
mod laws;
mod lines;
mod log_lines;
mod log_script;
mod script;
mod settings;
mod values;
mod words;

pub use conversion::{Conversion, parse_conversion};
pub use laws::one_reading;
pub use log_lines::parse_log;
pub use log_script::{LogCommands, LogScript};
pub use script::{Commands, Medium, Randomness, Script, ScriptError, Start};
pub use settings::parse;
pub use values::number_of;
