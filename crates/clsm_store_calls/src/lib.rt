//! The calls at the words: what a seat or the merger does between two rests. The store binds them
//! to its seats and tokens; nobody else calls them.
#![tactic(auto)]

mod agreeing;
mod batching;
mod changing;
mod conditional;
mod conditions;
mod downwards;
mod flooring;
mod freezing;
mod got;
mod loading;
mod looking;
mod many;
mod meeting;
mod merger_seat;
mod merging;
mod places;
mod reading;
mod reclaiming;
mod refusal;
mod scanning;
mod snapshotting;
mod visiting;
mod writing;

pub use agreeing::agree_at;
pub use batching::{batch, try_batch};
pub use changing::{Modification, change, pin_after, try_change};
pub use conditional::{
    ConditionalBatch, batch_if, pin_after_batch_if, pin_after_try_batch_if, try_batch_if,
};
pub use conditions::Condition;
pub use downwards::{PageDown, PagedDown, page_down_at, page_down_under};
pub use freezing::{freeze, try_freeze};
pub use got::{Collected, Counted, Filled, Got, Page, Rmw, Scan};
pub use looking::{drawn_at, entries_at, room_at};
pub use many::{read_many, read_many_under};
pub use meeting::{confirm_at, meet_at};
pub use merger_seat::MergerSeat;
pub use merging::merge;
pub use places::{Keyed, ValuePlace};
pub use reading::read;
pub use reclaiming::reclaim;
pub use refusal::{
    BatchError, BatchIfError, Full, Open, Pinned, TryBatchError, TryBatchIfError, TryPutError, Worn,
};
pub use scanning::{scan_at, scan_now, scan_under};
pub use snapshotting::{OpenSnapshot, open_at, read_under};
pub use visiting::{Visit, visit_at, visit_under};
pub use writing::{try_write, write};
