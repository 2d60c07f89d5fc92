//! An append log over an encrypted file.
#![tactic(auto)]

mod command;
mod error;
mod laws;
mod log;
mod opening;
mod serving;
mod walk;

pub use command::{LogCommand, LogReplies, LogReply};
pub use error::{LogError, LogErrorKind};
pub use laws::{log_complete, one_list};
pub use log::{Log, LogOpenError};
pub use serving::{LogSessionEnd, log_session};
pub use walk::ENTRY_BYTES;
