//! A workload drawn by chance over real threads on one store, which ends in the audit.
#![tactic(auto)]

mod answer;
mod auditing;
mod board;
mod crew;
mod exchange;
mod gathering;
mod job;
mod kind;
mod load;
mod merger;
mod opening;
mod player;
mod progress;
mod ran;
mod stats;
mod taking;
mod task;
mod turn;
mod unwritten;
mod waiting;
mod watch;
mod worker;
mod workload;

pub use board::Board;
pub use crew::{Crew, run_on, work_merging};
pub use gathering::{Gathered, gather};
pub use kind::Kind;
pub use load::{AskedRun, Load, Shows};
pub use merger::Merged;
pub use opening::{run, run_printed};
pub use player::Player;
pub use ran::{Calling, Ran};
pub use task::Task;
pub use turn::{MANY, Outcome, Turn};
pub use unwritten::Unwritten;
pub use waiting::run_waiting;
pub use watch::Note;
pub use worker::{Made, Worked};
pub use workload::Workload;
