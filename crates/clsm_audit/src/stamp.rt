//! Records in the order of time: at each time the reads come before the write.
ghost use Rattle.std.specs.Prelude.{◌≡◌, IfOk};
ghost use Rattle.std.specs.Ordering.{is_lt};
ghost use Rattle.clsm_audit.specs.Order.{IsInTimeOrder, comes_before, stamp_of, stamps_of};

use crate::write::is_write;
use clsm_model::{CallRecord, Memory, Time};
use std::alloc::{AllocError, Global};
use std::cmp::Ordering;

/// The place of a record in time, a batch's at its first one: at each time the reads come before
/// the write.
#[derive(Clone, Copy)]
pub struct Stamp {
    pub time: Time,
    pub is_write: bool,
    pub index: usize,
}

/// The order of time.
fn compare(x: &Stamp, y: &Stamp) -> Ordering
    ensures { is_lt result ≡ comes_before x.now y.now }
{
    x.time.cmp(&y.time).then(x.is_write.cmp(&y.is_write))
}

/// The stamp of the record at this index.
fn stamp_at(index: usize, call: &CallRecord) -> Stamp
    ensures { result ≡ stamp_of index call.now }
{
    Stamp {
        time: call.time,
        is_write: is_write(&call.deed),
        index,
    }
}

/// The stamps of all records. Refused if memory runs out.
fn stamp_all(alloc: Global, records: &[CallRecord]) -> Result<Vec<Stamp>, AllocError>
    ensures { IfOk result (λ stamps. stamps.items ≡ stamps_of records.now) }
{
    records
        .iter()
        .enumerate()
        .map(|(index, call)| stamp_at(index, call))
        .collect(alloc)
}

/// The stamps of all records, in the order of time. Refused if memory runs out.
pub fn in_time_order(alloc: Global, records: &[CallRecord]) -> Result<Vec<Stamp>, Memory>
    ensures { IfOk result (λ stamps. IsInTimeOrder records.now stamps.items) }
{
    let mut stamps = stamp_all(alloc, records)?;
    stamps.sort_unstable_by(compare);
    Ok(stamps)
}
