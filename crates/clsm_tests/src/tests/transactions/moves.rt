//! Transfers between accounts, under snapshots that read the sum again later.
use super::{TRIES, Wrong, right, set, sum_of, write_if};
use clsm_session::{Condition, Place, SessionCaller, Value};
use std::sync::Wait;

const ACCOUNTS: usize = 4;

const KEYS: [u64; ACCOUNTS] = [0, 1, 2, 3];

/// What each account has at first.
const FIRST: u64 = 1_000;

const SUM: u64 = 4 * FIRST;

/// A caller makes so many transfers under each of its snapshots.
const SNAPSHOTS: u64 = 10;

const MOVES: u64 = 10;

/// What the accounts have at last: caller 0 moves 1 from account 0 to account 1, caller 1 moves 2
/// from account 1 to account 2, and so on, each as often as the others.
pub(super) const LAST: [u64; ACCOUNTS] = [
    FIRST + 3 * SNAPSHOTS * MOVES,
    FIRST - SNAPSHOTS * MOVES,
    FIRST - SNAPSHOTS * MOVES,
    FIRST - SNAPSHOTS * MOVES,
];

/// From whom to whom how much is moved.
#[derive(Clone, Copy)]
struct Transfer {
    from: u64,
    to: u64,
    amount: u64,
}

/// All transfers of the caller, behind the opening of the accounts.
pub(super) fn run<R: Wait, P: Place>(caller: &mut SessionCaller<'_, R, P>) -> Result<(), Wrong> {
    open_accounts(caller)?;
    let from = u64::from(caller.number());
    let amount = from.wrapping_add(1);
    let to = amount % ACCOUNTS as u64;
    let transfer = Transfer { from, to, amount };
    for _ in 0..SNAPSHOTS {
        move_under_snapshot(caller, transfer)?;
    }
    Ok(())
}

/// One caller opens all accounts, as none has a value.
fn open_accounts<R: Wait, P: Place>(caller: &mut SessionCaller<'_, R, P>) -> Result<(), Wrong> {
    let none = Condition::Counts {
        lo: KEYS[0],
        hi: KEYS[ACCOUNTS - 1],
        keys: 0,
    };
    let members = [
        (0, set(FIRST)),
        (1, set(FIRST)),
        (2, set(FIRST)),
        (3, set(FIRST)),
    ];
    write_if(caller, &[none], &members)?;
    Ok(())
}

/// The snapshot has the same sum before so many transfers as behind them.
fn move_under_snapshot<R: Wait, P: Place>(
    caller: &mut SessionCaller<'_, R, P>,
    transfer: Transfer,
) -> Result<(), Wrong> {
    right(caller.snapshot().is_ok(), Wrong::Snapshot)?;
    let before = read_snapshot(caller)?;
    for _ in 0..MOVES {
        make(caller, transfer)?;
    }
    let after = read_snapshot(caller)?;
    right(caller.close_snapshot().is_some(), Wrong::Snapshot)?;
    right(before == after, Wrong::Sum)
}

/// What the accounts have under the snapshot: by a read of many keys, by a scan, and by falling key.
fn read_snapshot<R: Wait, P: Place>(
    caller: &mut SessionCaller<'_, R, P>,
) -> Result<[Option<Value>; ACCOUNTS], Wrong> {
    let mut values = [None; ACCOUNTS];
    let read = caller.get_many_at(&KEYS, &mut values);
    right(read.is_some(), Wrong::Snapshot)?;
    right(sum_of(&values)? == SUM, Wrong::Sum)?;
    let Ok(scan) = caller.scan(0, u64::MAX) else {
        return Err(Wrong::Memory);
    };
    right(sum_of_rows(scan.rows.as_slice()) == SUM, Wrong::Sum)?;
    read_down(caller)?;
    Ok(values)
}

/// A page downwards has all accounts, from the last to the first.
fn read_down<R: Wait, P: Place>(caller: &mut SessionCaller<'_, R, P>) -> Result<(), Wrong> {
    let mut page = [(0, Value::from(0)); ACCOUNTS];
    let filled = caller.page_down_into(0, u64::MAX, &mut page);
    right(filled.rows == ACCOUNTS, Wrong::Missing)?;
    right(sum_of_rows(&page) == SUM, Wrong::Sum)?;
    let first = caller.first(0, u64::MAX);
    right(first.row == Some(page[ACCOUNTS - 1]), Wrong::Sum)?;
    let last = caller.last(0, u64::MAX);
    right(last.row == Some(page[0]), Wrong::Sum)
}

/// The first words' sum.
fn sum_of_rows(rows: &[(u64, Value)]) -> u64 {
    let mut sum = 0_u64;
    for row in rows {
        sum = sum.wrapping_add(row.1.first());
    }
    sum
}

/// Makes the transfer, if need be by several tries.
fn make<R: Wait, P: Place>(
    caller: &mut SessionCaller<'_, R, P>,
    transfer: Transfer,
) -> Result<(), Wrong> {
    for _ in 0..TRIES {
        if try_to_make(caller, transfer)? {
            return Ok(());
        }
    }
    Err(Wrong::Tries)
}

/// Reads all accounts at one time, and writes two of them if both still have what was read.
fn try_to_make<R: Wait, P: Place>(
    caller: &mut SessionCaller<'_, R, P>,
    transfer: Transfer,
) -> Result<bool, Wrong> {
    let Transfer { from, to, amount } = transfer;
    let mut values = [None; ACCOUNTS];
    caller.get_many(&KEYS, &mut values);
    right(sum_of(&values)? == SUM, Wrong::Sum)?;
    let (giver, taker) = (caller.get(from).value, caller.get(to).value);
    let (Some(rich), Some(poor)) = (giver, taker) else {
        return Err(Wrong::Missing);
    };
    let conditions = [Condition::Has(from, giver), Condition::Has(to, taker)];
    let members = [
        (from, set(rich.first().wrapping_sub(amount))),
        (to, set(poor.first().wrapping_add(amount))),
    ];
    write_if(caller, &conditions, &members)
}
