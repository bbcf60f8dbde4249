//! Why calls are refused.
use clsm_model::Time;
use thiserror::Error;

/// The refusal of a write: while the seat held the lock, the clock stood at its limit, which is
/// this time. There is no time for a write before the next freeze.
#[derive(Clone, Copy, PartialEq, Eq, Debug, Error)]
#[error("full @{time}")]
pub struct Full {
    pub time: Time,
}

/// The refusal of a snapshot: the seat has one open, at this time. It stays open.
#[derive(Clone, Copy, PartialEq, Eq, Debug, Error)]
#[error("open @{time}")]
pub struct Open {
    pub time: Time,
}

/// The refusal of a freeze: the next limit would pass 2^62. No run reaches it.
#[derive(Clone, Copy, PartialEq, Eq, Debug, Error)]
#[error("worn")]
pub struct Worn;

/// The refusal of a reclaim: the pin word of the seat with this number was found to keep the
/// retired component.
#[derive(Clone, Copy, PartialEq, Eq, Debug, Error)]
#[error("pinned {0}")]
pub struct Pinned(pub u32);

/// The refusals of `try_put`. After each the seat is as before, but for its count of such refusals.
#[derive(Clone, Copy, PartialEq, Eq, Debug, Error)]
pub enum TryPutError {
    /// As `Full`.
    #[error("full @{time}")]
    Full { time: Time },
    /// The lock was held exclusively, or another seat entered or left it between the look and the
    /// exchange.
    #[error("busy")]
    Busy,
    /// Another seat drew the time first, or linked a cell in the same chain, or inserted one at the
    /// same place of the ordered list, between the look and the exchange.
    #[error("raced")]
    Raced,
    /// A reader cancelled the drawn time.
    #[error("overtaken")]
    Overtaken,
}

/// The refusals of a batch, tested in the order `Empty`, `TooLong`, `Keep`, `Full`. Nothing is
/// written. The first three come before the lock is taken.
#[derive(Clone, Copy, PartialEq, Eq, Debug, Error)]
pub enum BatchError {
    /// While the seat held the lock alone, fewer times were left below the limit than the batch has
    /// members; the clock stood at this time. After the next freeze there is room for a batch of
    /// any length again.
    #[error("full @{time}")]
    Full { time: Time },
    /// It has more members than an epoch has cells.
    #[error("too long")]
    TooLong,
    /// It has no member.
    #[error("empty")]
    Empty,
    /// One of its members keeps its key, so that it is no write.
    #[error("keep")]
    Keep,
}

/// The refusals of `try_batch`, tested in the order of a batch's, but `Busy` before `Full`. Nothing
/// is written.
#[derive(Clone, Copy, PartialEq, Eq, Debug, Error)]
pub enum TryBatchError {
    /// Somebody held the lock.
    #[error("busy")]
    Busy,
    /// As a batch is refused that waits for the lock.
    #[error("{0}")]
    Refused(BatchError),
}

/// The refusals of a batch with conditions, tested in the order `TooLong`, `Keep`, `Unmet`, `Full`.
/// Nothing is written. The first two come before the lock is taken.
#[derive(Clone, Copy, PartialEq, Eq, Debug, Error)]
pub enum BatchIfError {
    /// As a batch's.
    #[error("too long")]
    TooLong,
    /// As a batch's.
    #[error("keep")]
    Keep,
    /// While the seat held the lock alone, the condition at this place did not hold, and all before
    /// it did; the clock stood at this time, which is the seat's new due.
    #[error("unmet {index} @{time}")]
    Unmet { index: usize, time: Time },
    /// All conditions held, but fewer times were left below the limit than the batch has members;
    /// else as a batch's.
    #[error("full @{time}")]
    Full { time: Time },
}

/// The refusals of `try_batch_if`, tested in the order of `batch_if`'s, but `Busy` before `Unmet`.
/// Nothing is written.
#[derive(Clone, Copy, PartialEq, Eq, Debug, Error)]
pub enum TryBatchIfError {
    /// Somebody held the lock.
    #[error("busy")]
    Busy,
    /// As a batch with conditions is refused that waits for the lock.
    #[error("{0}")]
    Refused(BatchIfError),
}
