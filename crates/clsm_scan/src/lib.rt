//! Scans: walks along the epochs and the runs of a held component, merged by rising key in one flat
//! list.
#![tactic(auto)]

mod any_walk;
mod collecting;
mod collector;
mod cursor;
mod downwards;
mod epoch_cursor;
mod merged;
mod row;
mod run_cursor;
mod scanning;
mod sink;
mod source;
mod visiting;
mod walk;

pub use any_walk::AnyWalk;
pub use collecting::{Bounds, collect};
pub use collector::{Collector, Filling, Listed};
pub use cursor::Cursor;
pub use downwards::scan_down;
pub use epoch_cursor::EpochCursor;
pub use merged::{Merged, Stream};
pub use row::Row;
pub use run_cursor::RunCursor;
pub use scanning::{ReadPoint, scan, visit};
pub use sink::Sink;
pub use source::Source;
pub use visiting::{Calling, KeyCount, Passing, Visitor, visit_keys};
pub use walk::Walk;
