//! Transactions of four callers beside the merger of their session: each reads at one time, and
//! writes if what it read still stands.
use clsm_session::{
    BatchIfRefused, Caller, Change, Condition, Config, Ended, Job, Place, Rows, Scan,
    SessionCaller, TryBatchIfError, Value, with_store,
};
use clsm_store::BatchIfError;
use std::alloc::Global;
use std::process::Abort;
use std::sync::Wait;
use std::test::*;
use std::thread::Threads;

mod bounds;
mod moves;

/// Four callers, an epoch that is full soon, and room for what snapshots keep.
const SIZES: Config = Config {
    cells: 64,
    seats: 4,
    shards: 2,
    run: 8_192,
    patience: 16,
};

/// How often a transaction is tried. A try fails only where another caller's went through between
/// its read and its write, and all callers together make fewer transactions.
const TRIES: u64 = 2_000;

/// What a caller found.
#[derive(Clone, Copy, PartialEq, Eq, Debug)]
enum Wrong {
    /// A key has no value.
    Missing,
    /// The values, or how many there are, can't be of one time.
    Sum,
    /// A write was refused for another reason than a condition.
    Refused,
    /// A snapshot is open where none should be, or the other way round.
    Snapshot,
    Memory,
    /// No try went through.
    Tries,
}

/// What each of the callers does.
#[derive(Clone, Copy)]
enum Work {
    Moves,
    Skew,
    Phantoms,
}

impl Job for Work {
    type Answer = Result<(), Wrong>;

    fn run<R: Wait, P: Place>(&self, caller: &mut SessionCaller<'_, R, P>) -> Result<(), Wrong> {
        match *self {
            Work::Moves => moves::run(caller),
            Work::Skew => bounds::withdraw_all(caller),
            Work::Phantoms => bounds::insert_all(caller),
        }
    }
}

/// Refuses what is not right.
fn right(is_right: bool, wrong: Wrong) -> Result<(), Wrong> {
    if is_right { Ok(()) } else { Err(wrong) }
}

/// The word is put.
fn set(word: u64) -> Change {
    Change::Set(Value::from(word))
}

/// Writes the members if the conditions hold, and answers whether they did. It tries the lock once
/// without waiting for anybody.
fn write_if<R: Wait, P: Place>(
    caller: &mut SessionCaller<'_, R, P>,
    conditions: &[Condition],
    members: &[(u64, Change)],
) -> Result<bool, Wrong> {
    let tried = caller.try_batch_if(conditions, members);
    match tried {
        Ok(_) => Ok(true),
        Err(TryBatchIfError::Refused(BatchIfError::Unmet { .. })) => Ok(false),
        Err(_) => wait_to_write_if(caller, conditions, members),
    }
}

/// The same, but waits for the lock and for room.
fn wait_to_write_if<R: Wait, P: Place>(
    caller: &mut SessionCaller<'_, R, P>,
    conditions: &[Condition],
    members: &[(u64, Change)],
) -> Result<bool, Wrong> {
    let written = caller.batch_if(conditions, members);
    match written {
        Ok(_) => Ok(true),
        Err(BatchIfRefused::Unmet { .. }) => Ok(false),
        Err(_) => Err(Wrong::Refused),
    }
}

/// The first words' sum. Refused where there is no value.
fn sum_of(values: &[Option<Value>]) -> Result<u64, Wrong> {
    let mut sum = 0_u64;
    for value in values {
        let Some(value) = value else {
            return Err(Wrong::Missing);
        };
        sum = sum.wrapping_add(value.first());
    }
    Ok(sum)
}

/// What a store has once four callers have done the work, none of whom found anything wrong.
fn rows_after<R: Abort + Threads + Wait + Sync>(rt: &R, alloc: Global, work: Work) -> Rows {
    let ended = with_store(rt, alloc, SIZES, &work).expect(rt, "memory and threads");
    let Ended {
        store,
        mut seats,
        answers,
    } = ended;
    for answer in &answers {
        assert_eq!(rt; *answer, Ok(()));
    }
    let seat = seats.pop().expect(rt, "a seat");
    let mut caller = Caller::new(&store, seat);
    let Scan { rows, .. } = caller.scan(alloc, 0, u64::MAX).expect(rt, "memory");
    rows
}

/// The rows have these first words, at keys from 0 on.
fn check_rows(rt: &impl Abort, rows: &Rows, words: &[u64]) {
    let rows = rows.as_slice();
    assert_eq!(rt; rows.len(), words.len());
    for place in 0..words.len() {
        let (key, value) = rows[place];
        assert_eq!(rt; key, place as u64);
        assert_eq!(rt; value.first(), words[place]);
    }
}

#[test]
fn transfers_keep_the_sum(rt: HostRuntime) {
    let rows = rows_after(&rt, rt.alloc(), Work::Moves);
    check_rows(&rt, &rows, &moves::LAST);
}

/// Callers withdraw as long as the sum of both keys stays at its bound or above, and each of both
/// keys is written by two of them. The sum ends at its bound.
#[test]
fn no_write_skew(rt: HostRuntime) {
    let rows = rows_after(&rt, rt.alloc(), Work::Skew);
    let mut sum = 0_u64;
    for row in rows.as_slice() {
        sum = sum.wrapping_add(row.1.first());
    }
    assert_eq!(rt; sum, bounds::BOUND);
}

/// Callers insert keys of their own as long as a range has fewer than so many. It ends with these.
#[test]
fn no_phantoms(rt: HostRuntime) {
    let rows = rows_after(&rt, rt.alloc(), Work::Phantoms);
    assert_eq!(rt; rows.as_slice().len(), bounds::MOST_KEYS);
}
