//! The lock: many callers hold it shared, or one caller or the merger has it alone. A write is made
//! in a shared hold, a batch and a freeze in a hold alone.
#![tactic(auto)]

mod excluding;
mod sharing;

pub use excluding::{
    lock_as_merger, lock_exclusive, try_lock_as_merger, try_lock_exclusive, unlock_as_merger,
    unlock_exclusive,
};
pub use sharing::{Busy, lock_shared, try_lock_shared, unlock_shared};
