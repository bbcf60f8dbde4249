//! What an explanation says of a record that has a fault.
use crate::wanted::FoundWrite;
use clsm_model::{Key, Time, Value};

/// What makes a record `Unknown`.
#[derive(Clone, Copy)]
pub enum Rule {
    /// The seat is not below the number of seats.
    Seat,
    /// A batch has more members than a region has cells.
    Size,
    /// The times do not end at or below 2^62.
    Time,
    /// A batch has no member, or one that keeps its key.
    Members,
    /// The call does not suit the snapshot that its seat has open at this time, or that it has none
    /// open.
    Snapshot { opened: Option<Time> },
}

/// Why a record has its fault. An index is that of another record.
#[derive(Clone, Copy)]
pub enum Explanation {
    /// It is `Unknown` by this rule.
    Unknown {
        rule: Rule,
    },
    /// The record writes at this time, and so does the one at the lower index `other`.
    TwoAtOneTime {
        other: usize,
        time: Time,
    },
    /// An earlier record of its seat reads at this time, or writes up to it, and the record stands
    /// below.
    TimeRanBack {
        earlier: usize,
        due: Time,
    },
    /// Its time is strictly inside this batch.
    InsideBatch {
        batch: usize,
    },
    /// It read `answered` at the key, where the map has `right`. The newest write of the key below
    /// its time is `newest`, and `seen` is a write that left what it read.
    WrongValue {
        key: Key,
        answered: Option<Value>,
        right: Option<Value>,
        newest: Option<FoundWrite>,
        seen: Option<FoundWrite>,
    },
    /// The row with this number, counted from 0, is the first that differs from the map's. Either
    /// may be missing. `key` is the lower of the two rows' keys, and both writes are of that key.
    WrongRow {
        number: usize,
        answered: Option<(u64, Value)>,
        right: Option<(u64, Value)>,
        key: Key,
        newest: Option<FoundWrite>,
        seen: Option<FoundWrite>,
    },
    /// All rows of a page are right, and the next key is not.
    WrongNext {
        answered: Option<u64>,
        right: Option<u64>,
    },
}
