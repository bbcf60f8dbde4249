//! Why a row is not played to its end.
use clsm_words::Kind;
use std::alloc::{AllocError, AllocFailed};

/// Why a row is not played to its end.
#[derive(Clone, Copy, Debug)]
pub(crate) enum Wrong {
    /// Memory was wanted.
    Memory,
    /// The row says nothing that is played.
    Unread,
    /// The machine refuses this step.
    Refused(Kind),
    /// The planner tells no next step of a call that is not over.
    Stuck,
    /// A call of the state, or the call of the row, does not end.
    Endless,
}

impl From<AllocError> for Wrong {
    fn from(_: AllocError) -> Wrong {
        Wrong::Memory
    }
}

impl<T: Drop> From<AllocFailed<T>> for Wrong {
    fn from(_: AllocFailed<T>) -> Wrong {
        Wrong::Memory
    }
}
