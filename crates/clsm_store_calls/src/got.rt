//! What a read answers.
use clsm_model::{Change, Rows, Time, Value};

/// The answer of a read: its time, and the value of the key below it.
#[derive(Clone, Copy, PartialEq, Eq, Debug)]
pub struct Got {
    pub time: Time,
    pub value: Option<Value>,
}

impl Got {
    ghost use Rattle.std.specs.Prelude.{◌≡◌};

    /// This read as a read-modify-write with the change.
    pub(crate) fn with(&self, change: Change) -> Rmw
        ensures { result ≡ record { time = self.now.time; old = self.now.value; change = change } }
    {
        Rmw {
            time: self.time,
            old: self.value,
            change,
        }
    }
}

/// The answer of a read-modify-write: the value of the key below its time, and what was made of it.
/// With `Keep` its time is that of a read, else that of its write.
#[derive(Clone, Copy, PartialEq, Eq, Debug)]
pub struct Rmw {
    pub time: Time,
    pub old: Option<Value>,
    pub change: Change,
}

impl Rmw {
    ghost use Rattle.std.specs.Prelude.{◌≡◌};

    /// The same at this time.
    pub(crate) fn at(&self, time: Time) -> Rmw
        ensures { result ≡ record { time = time; old = self.now.old; change = self.now.change } }
    {
        Rmw {
            time,
            old: self.old,
            change: self.change,
        }
    }
}

/// The answer of a scan: its time, and all pairs of the map of the writes below it whose keys are
/// in the range, by rising key.
#[derive(PartialEq, Eq, Debug, Drop)]
pub struct Scan {
    pub time: Time,
    pub rows: Rows,
}

/// The answer of a page: its time, the first pairs of the range by rising key, and the key of the
/// first pair that was left out, if one was. The next page begins there.
#[derive(PartialEq, Eq, Debug, Drop)]
pub struct Page {
    pub time: Time,
    pub rows: Rows,
    pub more: Option<u64>,
}

/// The answer of a count: its time, how many keys of the range have a value in the map of the
/// writes below it, and the first of these keys.
#[derive(Clone, Copy, PartialEq, Eq, Debug)]
pub struct Counted {
    pub time: Time,
    pub keys: u64,
    pub first: Option<u64>,
}

/// The answer of a read that collected rows, beside these: its time, and the key of the first row
/// that was left out, if one was.
#[derive(Clone, Copy, PartialEq, Eq, Debug)]
pub struct Collected {
    pub time: Time,
    pub more: Option<u64>,
}

/// The answer of a page that filled rows of the caller's: its time, how many rows are filled, and
/// the key of the first pair that was left out, if one was. The next page begins there.
#[derive(Clone, Copy, PartialEq, Eq, Debug)]
pub struct Filled {
    pub time: Time,
    pub rows: usize,
    pub more: Option<u64>,
}
