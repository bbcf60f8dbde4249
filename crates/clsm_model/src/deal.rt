//! Calls with their arguments and no answer yet.
use crate::Key;
use crate::slot::Change;
use crate::value::Value;

/// A call that a workload or an exploration hands to a seat.
#[derive(Clone, Copy, PartialEq, Eq, Debug)]
pub enum Deal {
    Put { key: Key, value: Value },
    Remove { key: Key },
    Get { key: Key },
    Add { key: Key, by: u64 },
    Claim { key: Key, value: Value },
    Snap,
    Close,
    GetAt { key: Key },
    Scan { lo: Key, hi: Key },
    /// Two writes at once: keys, with what is done there.
    Batch { members: [(u64, Change); 2] },
}
