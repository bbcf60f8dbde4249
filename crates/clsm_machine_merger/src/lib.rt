//! The steps of the merger, as they are made: whether a step is open, its word, what it makes of
//! the word, what the merger's view and the slots are after it.
#![tactic(auto)]

mod beginning;
mod changes;
mod deciding;
mod entries;
mod facts;
mod notes;
mod opens;
mod phases;
mod readers;
mod rounds;
mod settling;
mod sources;
mod words;

pub use beginning::opening;
pub use changes::{changed_by_merger, word_of_merger};
pub use notes::note_merger;
pub use opens::is_open_to_merger;
pub use settling::settle_merger;
pub use words::word_at;
