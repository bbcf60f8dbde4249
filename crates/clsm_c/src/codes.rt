//! The codes of all calls. `capi/core/clsm_core.h` has them by the same names. Some are answered
//! only by what stands on these calls, and stand here so that each number is said once.

/// What a call answers: that it was done, or why it was not.
pub type Code = u32;

/// It was done.
pub const OK: Code = 0;

// ---- answers

/// The key has no value.
pub const NOT_FOUND: Code = 1;

/// The old value was kept.
pub const KEPT: Code = 2;

/// There is nothing more.
pub const DONE: Code = 3;

/// There was too little to do, and nothing was done.
pub const IDLE: Code = 4;

// ---- nothing was done: it may be, if it is called again

/// The epoch has no timestamp left: the merger is to freeze it.
pub const FULL: Code = 8;

/// The lock was not free to enter.
pub const BUSY: Code = 9;

/// Another caller was faster.
pub const RACED: Code = 10;

/// A reader cancelled the write's timestamp.
pub const OVERTAKEN: Code = 11;

/// A caller may still read what is retired.
pub const PINNED: Code = 12;

// ---- refused

/// Memory ran out.
pub const MEMORY: Code = 16;

/// Each seat of the store is taken.
pub const NO_SEAT: Code = 17;

/// The merge would keep more entries than a run has room for.
pub const RUN_FULL: Code = 18;

/// Timestamps end at 2^62.
pub const WORN: Code = 19;

/// A handle is still open, or in another call.
pub const IN_USE: Code = 20;

/// No thread could be started.
pub const NO_THREAD: Code = 21;

/// The handle is empty, or none is left to take.
pub const NO_HANDLE: Code = 22;

/// The caller has a snapshot open.
pub const OPEN: Code = 23;

/// The caller has no snapshot open.
pub const NO_SNAPSHOT: Code = 24;

// ---- what was passed is out of its range

/// The keys, or the entries of a run.
pub const BAD_KEYS: Code = 32;

/// The cells of an epoch.
pub const BAD_EPOCH: Code = 33;

/// The patience.
pub const BAD_PATIENCE: Code = 34;

/// The value has no word, or more than eight.
pub const BAD_VALUE: Code = 35;

/// The batch has no member, or more than an epoch has cells.
pub const BAD_BATCH: Code = 36;

/// A pointer is null.
pub const BAD_POINTER: Code = 37;

/// The header and the library are not of one build.
pub const BAD_BUILD: Code = 38;

/// The seats.
pub const BAD_SEATS: Code = 39;

/// The shards.
pub const BAD_SHARDS: Code = 40;

/// Who merges.
pub const BAD_MERGE: Code = 41;

/// The batch has no row.
pub const EMPTY_BATCH: Code = 42;
