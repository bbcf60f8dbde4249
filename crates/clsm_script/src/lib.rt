//! Scripts: the commands of an input, one a line, played on a store.
#![tactic(auto)]

mod answer;
mod call;
mod command;
mod line;
mod plain;
mod playing;
mod records;
mod session;
mod writing;

pub use answer::Answer;
pub use playing::{Setting, script};
