//! Audits of drawn lists of records beside a second check.
use crate::tests::model::{Wrong, same};
use clsm_audit::{AuditError, FaultKind, audit};
use clsm_model::{CallRecord, Config, Time};
use std::alloc::Global;

mod drawn;
mod order;
mod plain;

pub(super) use order::drawn_orders;

const END: Time = 1 << 62;

/// The keys of drawn lists are below it.
const KEYS: u64 = 4;

/// The most members of a batch.
const CELLS: usize = 4;

/// How many lists are drawn.
const LISTS: u64 = 10_000;

/// The sizes of a store of so many seats.
fn sizes(seats: usize) -> Config {
    Config {
        cells: CELLS,
        seats,
        shards: 1,
        run: 4,
        patience: 0,
    }
}

/// The first fault of the records, or None.
fn audited(
    alloc: Global,
    seats: usize,
    records: &[CallRecord],
) -> Result<Option<(FaultKind, usize)>, Wrong> {
    match audit(alloc, &sizes(seats), records) {
        Ok(()) => Ok(None),
        Err(AuditError::Fault { kind, index }) => Ok(Some((kind, index))),
        Err(AuditError::Memory) => Err(Wrong::Memory),
    }
}

const NAMES: &[(FaultKind, &str)] = &[
    (FaultKind::Unknown, "1 Unknown at 7, memory"),
    (FaultKind::TwoAtOneTime, "2 TwoAtOneTime at 7, memory"),
    (FaultKind::TimeRanBack, "3 TimeRanBack at 7, memory"),
    (FaultKind::WrongReply, "4 WrongReply at 7, memory"),
];

/// Faults by their numbers, and as they are printed beside running out of memory.
pub(super) fn names(alloc: Global) -> Result<(), Wrong> {
    for row in 0..NAMES.len() {
        let (kind, shown) = NAMES[row];
        let (number, index) = (kind.number(), 7);
        let fault = AuditError::Fault { kind, index };
        let memory = AuditError::Memory;
        let Ok(text) = format!(in alloc; "{number} {fault}, {memory}") else {
            return Err(Wrong::Memory);
        };
        same(text.as_str() == shown, Wrong::Faults(row))?;
    }
    Ok(())
}

/// Drawn lists are answered as by a second check. How often the audit gives each answer is counted:
/// none, and then a fault of each kind.
pub(super) fn drawn_lists(alloc: Global) -> Result<(), Wrong> {
    let mut counts = [0u32; 5];
    for number in 0..LISTS {
        let Ok(records) = drawn::draw(alloc, number) else {
            return Err(Wrong::Memory);
        };
        let fault = audited(alloc, 3, &records)?;
        let is_lawful = number % 2 == 1 || fault.is_none();
        let is_same = fault == plain::second_check(3, &records);
        same(is_same && is_lawful, Wrong::DrawnLists(number as usize))?;
        let place = match fault {
            Some((kind, _)) => kind.number() as usize % 5,
            None => 0,
        };
        counts[place] = counts[place].wrapping_add(1);
    }
    let [lawful, unknown, two, back, wrong] = counts;
    let is_varied = lawful > 5_000 && unknown.min(two).min(back).min(wrong) > 100;
    same(is_varied, Wrong::Counts)
}
