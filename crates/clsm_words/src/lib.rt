//! The machine's words as threads share them, under the machine's one law: one function for each
//! kind of step.
#![tactic(auto)]

mod divisor;
mod ending;
mod known;
mod load;
mod operation;
mod pace;
mod rule;
mod words;

pub use ending::Ending;
pub use known::{Known, Spot};
pub use load::{Load, load_into, load_value, load_word};
pub use pace::{Free, Kind, Pace};
pub use words::{Guide, Message, RawMerger, RawSeat, WordTable, Words};
