//! The store: its opening, its seats and their calls.
#![tactic(auto)]

mod binding;
mod caller;
mod calls;
mod changes;
mod conditional;
mod downwards;
mod ends;
mod freezing;
mod gets;
mod many;
mod meet;
pub mod merger;
mod messages;
mod opening;
mod pages;
mod phase;
mod play;
mod seat;
mod settling;
mod store;
mod sweeping;
mod telling;

pub use binding::Bound;
pub use caller::Caller;
pub use changes::replaced;
pub use clsm_law::{Part, Word};
pub use clsm_model::{
    CallRecord, Change, Config, Deal, Deed, Length, Members, Memory, OpenError, PageRange, Rows,
    Time, Value, added, put_if_absent,
};
pub use clsm_runs::RunFull;
pub use clsm_scan::{Row, Sink};
pub use clsm_store_calls::{
    BatchError, BatchIfError, Condition, Counted, Filled, Full, Got, Keyed, Open, Page, Pinned,
    Rmw, Scan, TryBatchError, TryBatchIfError, TryPutError, ValuePlace, Worn,
};
pub use clsm_words::{Free, Kind, Pace};
pub use ends::FoundRow;
pub use freezing::TryFroze;
pub use merger::{Clean, Frozen, Merger, Retired};
pub use messages::Message;
pub use opening::{Opened, open, open_paced};
pub use pages::Pages;
pub use phase::{FreezeError, MergeError, NotFrozen, Phase, ReclaimError, TryFreezeError};
pub use play::{Answer, Call};
pub use seat::Seat;
pub use store::Store;
pub use sweeping::{Stopped, Swept, TrySwept};
