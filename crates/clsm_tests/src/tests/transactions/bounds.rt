//! Transactions that keep a bound of what several keys have together, though each writes one alone.
use super::{TRIES, Wrong, right, set, sum_of, write_if};
use clsm_session::{Condition, Place, SessionCaller};
use std::sync::Wait;

/// Each of both keys has so much at first.
const FIRST: u64 = 100;

/// Their sum stays at this or above. So each of them stays above zero.
pub(super) const BOUND: u64 = 140;

const KEYS: [u64; 2] = [0, 1];

/// The range that is counted, and how many keys it has at most.
const LOWEST: u64 = 1_000;

const HIGHEST: u64 = 1_999;

pub(super) const MOST_KEYS: usize = 50;

/// Withdraws from one of both keys as long as their sum allows it.
pub(super) fn withdraw_all<R: Wait, P: Place>(
    caller: &mut SessionCaller<'_, R, P>,
) -> Result<(), Wrong> {
    let none = [Condition::Has(0, None), Condition::Has(1, None)];
    let members = [(0, set(FIRST)), (1, set(FIRST))];
    write_if(caller, &none, &members)?;
    let key = u64::from(caller.number()) % 2;
    for _ in 0..TRIES {
        if withdraw(caller, key)? {
            return Ok(());
        }
    }
    Err(Wrong::Tries)
}

/// Reads both keys at one time, and takes one from this one, if both still have what was read.
/// Answers whether their sum is at its bound.
fn withdraw<R: Wait, P: Place>(
    caller: &mut SessionCaller<'_, R, P>,
    key: u64,
) -> Result<bool, Wrong> {
    let mut values = [None; 2];
    caller.get_many(&KEYS, &mut values);
    let sum = sum_of(&values)?;
    right(sum >= BOUND, Wrong::Sum)?;
    if sum == BOUND {
        return Ok(true);
    }
    let own = if key == 0 { values[0] } else { values[1] };
    let Some(value) = own else {
        return Err(Wrong::Missing);
    };
    let conditions = [Condition::Has(0, values[0]), Condition::Has(1, values[1])];
    let less = set(value.first().wrapping_sub(1));
    write_if(caller, &conditions, &[(key, less)])?;
    Ok(false)
}

/// Inserts keys of the range as long as it has fewer than it may have.
pub(super) fn insert_all<R: Wait, P: Place>(
    caller: &mut SessionCaller<'_, R, P>,
) -> Result<(), Wrong> {
    let mut key = LOWEST.wrapping_add(u64::from(caller.number()));
    for _ in 0..TRIES {
        let counted = caller.count(LOWEST, HIGHEST).keys;
        right(counted <= MOST_KEYS as u64, Wrong::Sum)?;
        if counted == MOST_KEYS as u64 {
            return Ok(());
        }
        if insert(caller, key, counted)? {
            key = key.wrapping_add(4);
        }
    }
    Err(Wrong::Tries)
}

/// Inserts the key if the range still has so many.
fn insert<R: Wait, P: Place>(
    caller: &mut SessionCaller<'_, R, P>,
    key: u64,
    keys: u64,
) -> Result<bool, Wrong> {
    let same = Condition::Counts {
        lo: LOWEST,
        hi: HIGHEST,
        keys,
    };
    write_if(caller, &[same], &[(key, set(key))])
}
