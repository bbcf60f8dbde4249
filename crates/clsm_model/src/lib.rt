//! Slots, records and the plain map: what a history of writes means, with no thread and no shared
//! word.
#![tactic(auto)]

mod batch;
mod changes;
mod config;
mod deal;
mod members;
mod page_range;
mod plain_map;
mod record;
mod rows;
mod slot;
mod value;

pub use batch::Batch;
pub use changes::{added, put_if_absent};
pub use config::{Config, OpenError};
pub use deal::Deal;
pub use members::{Members, are_writes};
pub use page_range::PageRange;
pub use plain_map::{Memory, PlainMap};
pub use record::{CallRecord, Deed};
pub use rows::Rows;
pub use slot::{Change, Slot};
pub use value::{Length, Value};

/// A timestamp. Each write has one of its own; a read at a time sees the writes below it.
pub type Time = u64;

/// A key of the map: any 64-bit number.
pub type Key = u64;
