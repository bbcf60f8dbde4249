//! Records: answered calls, with their times.
ghost use Rattle.std.specs.Prelude.{◌≡◌};

use crate::members::Members;
use crate::page_range::PageRange;
use crate::rows::Rows;
use crate::slot::Change;
use crate::value::Value;
use crate::{Key, Time};
use std::alloc::AllocError;

/// What a call did, with its arguments and its answer.
#[derive(Clone, PartialEq, Eq, Hash, Drop, Debug)]
pub enum Deed {
    Put {
        key: Key,
        value: Value,
    },
    Remove {
        key: Key,
    },
    /// A read of `old` and then the change: with `Keep` it is a read alone.
    Rmw {
        key: Key,
        old: Option<Value>,
        change: Change,
    },
    Get {
        key: Key,
        reply: Option<Value>,
    },
    /// The opening of a snapshot, and its close.
    Snapshot,
    Close,
    /// A read at the open snapshot.
    GetAt {
        key: Key,
        reply: Option<Value>,
    },
    /// All pairs with `lo <= key <= hi`, by rising key.
    Scan {
        lo: Key,
        hi: Key,
        rows: Rows,
    },
    /// The pairs of the range, and the key of the next pair, if there is one.
    Page {
        range: PageRange,
        rows: Rows,
        more: Option<u64>,
    },
    /// Writes at the record's time and at those behind it, one for each member. No read stands
    /// between them.
    Batch {
        members: Members,
    },
}

/// An answered call: the number of its seat, its time, and its deed.
#[derive(PartialEq, Eq, Hash, Drop, Debug)]
pub struct CallRecord {
    pub seat: u32,
    pub time: Time,
    pub deed: Deed,
}

impl Clone for CallRecord {
    ghost is_clone = { λ original copy. copy ≡ original };

    /// The same record. Refused if memory runs out.
    fn clone(&self) -> Result<CallRecord, AllocError> {
        Ok(CallRecord {
            deed: self.deed.clone()?,
            ..*self
        })
    }
}
