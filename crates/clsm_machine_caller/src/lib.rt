//! The steps of a caller's seat, as they are made: whether a step is open, its word, what it makes
//! of the word, what the view, the slots and the answer are after it.
#![tactic(auto)]

mod answers;
mod batches;
mod drawn;
mod ends;
mod looks;
mod notes;
mod open;
mod opening;
mod pages;
mod ranges;
mod reaches;
mod reads;
mod rights;
mod settling;
mod visits;
mod words;
mod writes;

pub use answers::answer;
pub use batches::{batch_by, list};
pub use notes::note;
pub use open::is_open;
pub use opening::idle;
pub use settling::{Settling, settle, settling_by};
pub use words::{changed, word_of};
