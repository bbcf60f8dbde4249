//! Why a session, and why a call of it, is refused.
ghost use Rattle.std.specs.Prelude.{◌≡◌};

use clsm_model::{OpenError, Time};
use thiserror::Error;

/// Why a write of a session is refused: the epoch was full, and the merger, called for this write,
/// could not make the next one. Nothing was written.
#[derive(Clone, Copy, PartialEq, Eq, Debug, Error)]
pub enum Refused {
    /// The merge would keep more entries than a run has room for: the store is too small for what
    /// it is to hold. A snapshot that is closed may help: the merger tries again for the next write
    /// that finds the epoch full.
    #[error("run full")]
    RunFull,
    /// The next epoch would end past 2^62, where times end. No real run gets there.
    #[error("worn")]
    Worn,
}

/// Why a batch of a session is refused, or a call that is played. Nothing was written.
#[derive(Clone, Copy, PartialEq, Eq, Debug, Error)]
pub enum BatchRefused {
    /// It has no member.
    #[error("empty")]
    Empty,
    /// It has more members than an epoch has cells.
    #[error("too long")]
    TooLong,
    /// One of its members keeps its key, so that it is no write.
    #[error("keep")]
    Keep,
    /// As a write.
    #[error(transparent)]
    NoRoom(Refused),
}

impl From<Refused> for BatchRefused {
    ghost use Rattle.clsm_session.specs.declared.refusal.BatchRefused.TheVariants.{NoRoom};

    ghost from_gives = { λ refused refusal. refusal ≡ NoRoom refused };

    fn from(refused: Refused) -> BatchRefused {
        BatchRefused::NoRoom(refused)
    }
}

/// Why a batch with conditions of a session is refused. Nothing was written.
#[derive(Clone, Copy, PartialEq, Eq, Debug, Error)]
pub enum BatchIfRefused {
    /// It has more members than an epoch has cells.
    #[error("too long")]
    TooLong,
    /// One of its members keeps its key, so that it is no write.
    #[error("keep")]
    Keep,
    /// The condition at this place did not hold at this time, and all before it did.
    #[error("unmet {index} @{time}")]
    Unmet { index: usize, time: Time },
    /// All conditions held; and as a write.
    #[error(transparent)]
    NoRoom(Refused),
}

/// Why a session hands nothing back.
#[derive(Clone, Copy, PartialEq, Eq, Debug, Error)]
pub enum SessionError {
    /// The store was not opened; no caller was called.
    #[error(transparent)]
    Open(OpenError),
    /// No thread could be made for the merger; no caller was called.
    #[error("no thread for the merger")]
    NoThread,
    /// Memory ran out; callers may have been called.
    #[error("memory")]
    Memory,
}
