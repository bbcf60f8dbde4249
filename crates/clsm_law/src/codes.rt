//! The numbers that stand for something else in a word.
use clsm_model::Time;

/// LOCK while one holds it alone; a number of shared holders is below it.
pub const EXCLUSIVE_HOLD: u64 = 1 << 32;

/// The greatest limit: each time is below it.
pub const LAST_LIMIT: Time = 1 << 62;

/// The state of a cell whose time is not decided.
pub const UNDECIDED_CELL: u64 = 0;

/// The state of a cell whose time was cancelled.
pub const CANCELLED_CELL: u64 = 1;

/// The state of a cell whose time wrote a value.
pub const VALUE_CELL: u64 = 2;

/// The state of a cell whose time wrote a removal.
pub const REMOVAL_CELL: u64 = 3;
