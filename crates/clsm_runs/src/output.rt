//! The run that a merge writes.
use clsm_model::Time;

/// A run that is written entry by entry, and what is kept of the entries that come by rising key.
#[derive(Clone, Copy)]
pub(crate) struct Output {
    pub(crate) place: u64,
    /// How many entries the place has room for.
    pub(crate) room: u64,
    /// How many are written.
    pub(crate) count: u64,
    pub(crate) floor: Time,
    pub(crate) to_level_one: bool,
    /// The key of the last entry below the floor.
    pub(crate) settled: Option<u64>,
}
