//! What a worker does in a turn.
use clsm_model::{Deal, Key};

/// How many keys a read of several keys has.
pub const MANY: usize = 4;

/// What a worker does in a turn: one call, or calls of several keys.
#[derive(Clone, Copy, PartialEq, Eq, Debug)]
pub enum Turn {
    /// The call.
    Call(Deal),
    /// A read of all these keys at one time.
    Many { keys: [u64; MANY] },
    /// A read of both keys at one time, and then a batch that exchanges what they have, if both
    /// still have what was read.
    Swap { one: Key, other: Key },
}

/// How a turn ended.
#[derive(Clone, Copy, PartialEq, Eq, Debug)]
pub enum Outcome {
    /// All that it asked for was done.
    Done,
    /// A call was refused.
    Refused,
    /// A key no longer had what was read, and nothing was written.
    Unmet,
}
