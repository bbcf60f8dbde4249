//! Batches, by their times.
use crate::Time;

/// The times of a batch: `size` of them, from `first` on.
#[derive(Clone, Copy, PartialEq, Eq, Hash, Debug)]
pub struct Batch {
    pub first: Time,
    pub size: u64,
}
