//! Calls by chance: each depends on what was drawn, and on whether a snapshot is open.
use super::act::Act;
use clsm_store::{Change, Value};

/// What kinds of calls are drawn.
#[derive(Clone, Copy)]
pub(super) enum Mix {
    Puts,
    /// Calls of all kinds but read-modify-writes.
    Unchanging,
    /// Read-modify-writes too. They may use up the times, as they overtake one another: some calls
    /// are refused then.
    Changing,
}

/// A worker's calls: of these kinds, at keys below this number and at one key of its own, until so
/// many are answered.
#[derive(Clone, Copy)]
pub(super) struct Load {
    pub(super) mix: Mix,
    pub(super) keys: u64,
    pub(super) answers: usize,
}

/// The next number of Knuth's linear congruential sequence.
pub(super) fn after(word: u64) -> u64 {
    word.wrapping_mul(6_364_136_223_846_793_005)
        .wrapping_add(1_442_695_040_888_963_407)
}

/// The call that the number says, of a worker with a snapshot or without. Three in sixteen are of
/// its own key.
pub(super) fn draw(load: &Load, word: u64, own: u64, reads_snapshot: bool) -> Act {
    let key = if load.keys > 0 {
        (word >> 24) % load.keys
    } else {
        0
    };
    let value = word >> 40;
    match word >> 60 {
        _ if matches!(load.mix, Mix::Puts) => Act::Put(key, word),
        0 => Act::Scan(key),
        1 => Act::Page(key, 3),
        2 if reads_snapshot => Act::Close,
        2 => Act::Snapshot,
        3 => Act::Put(own, value),
        4 => Act::Remove(own),
        5 => Act::Get(own),
        6..=9 => Act::Put(key, value),
        10 => Act::Remove(key),
        11 | 12 if matches!(load.mix, Mix::Changing) => Act::Change(key),
        13 if reads_snapshot && value % 2 == 0 => Act::GetManyAt(key, 4),
        13 if reads_snapshot => Act::GetAt(key),
        14 => Act::BatchTwo(key, value),
        15 => Act::GetMany(key, 4),
        _ => Act::Get(key),
    }
}

/// What a read-modify-write makes of a value: one more than its word. A value that is even is
/// removed, and one that can be divided by five stays.
pub(super) fn next(old: Option<Value>) -> Change {
    let word = match &old {
        Some(value) => value.words()[0],
        None => 1,
    };
    match Value::new(&[word.wrapping_add(1)]) {
        _ if word % 5 == 0 => Change::Keep,
        _ if word % 2 == 0 => Change::Remove,
        Ok(value) => Change::Set(value),
        Err(_) => Change::Keep,
    }
}
