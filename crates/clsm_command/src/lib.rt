//! The program `clsm`: its command line, with the defaults of options and the words by which it is
//! refused, and what is done for it.
#![tactic(auto)]

mod asked;
mod command_line;
mod dispatch;
mod help;
mod matches;
mod program;
mod refusal;

pub use asked::{AuditOptions, ExploreOptions, Options, RunOptions};
pub use command_line::{options, words};
pub use dispatch::{Ended, command, refuse};
pub use refusal::Refusal;
