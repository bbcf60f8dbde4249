//! Sorted runs and the levels they stand in: what a merge keeps, and which places hold the runs,
//! over plain data.
#![tactic(auto)]

mod cursor;
mod entry;
mod epoch;
mod merge;
mod place;
mod table;

pub use cursor::{Cursor, least};
pub use entry::{Entry, Version};
pub use epoch::entries_of;
pub use merge::{judge, wanted};
pub use place::Place;
pub use table::{is_to_level_one, level_one_run, level_zero_runs, places, target};
