//! Sorted runs in the words: their entries are looked at, found by their keys, searched run by run,
//! and merged.
#![tactic(auto)]

mod counting;
mod entry;
mod finding;
mod merging;
mod output;
mod passing;
mod rows;
mod searching;
mod side;
mod sources;
mod writing;

pub use counting::entries_at;
pub use entry::HeldRun;
pub use finding::Wanted;
pub use merging::{RunFull, merge};
pub use passing::{Passage, Passed, Sought};
