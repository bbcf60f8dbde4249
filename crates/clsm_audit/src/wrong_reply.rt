//! Why a reading is wrong: it stands inside a batch, or it is not what the map gives.
ghost use Rattle.std.specs.Prelude.{◌≡◌, ◌↔◌, IfOk, IsSomeAnd, IsTrue, MatchOption, slice_get};
ghost use Rattle.clsm_model.specs.declared.config.Config.{Config};
ghost use Rattle.clsm_model.specs.History.{IsUncut};
ghost use Rattle.clsm_audit.specs.Explained.{IsAround, IsExplanation, IsNewest, IsSeen, SaysValue, kind_of, value_left};
ghost use Rattle.clsm_audit.specs.declared.fault.FaultKind.TheVariants.{WrongReply};
ghost use Rattle.clsm_audit.specs.Faults.{HasNone, IsOnlyWrong, IsSecondAt};
ghost use Rattle.clsm_audit.specs.Lawful.{HaveTimes};
ghost use Rattle.clsm_audit.specs.Written.{batches_of};

use crate::explanation::Explanation;
use crate::rows::explain_rows;
use crate::wanted::{FoundWrite, Wanted, last_write};
use clsm_model::{CallRecord, Deed, Key, Memory, Slot, Time, Value};
use std::alloc::Global;

/// The end of time: no write stands there or above.
const TIME_END: Time = 1 << 62;

/// Explains why the reading of the record is wrong. Refused if memory runs out.
pub fn explain_wrong(
    alloc: Global,
    records: &[CallRecord],
    index: usize,
) -> Result<Explanation, Memory>
    requires { IsOnlyWrong records.now index }
    ensures kind { IfOk result (λ explanation. kind_of explanation ≡ WrongReply) }
    ensures explains { IfOk result (λ explanation. (config : Config) → IsExplanation config records.now index explanation) }
{
    let call = &records[index];
    if let Some(batch) = batch_around(records, call.time) {
        return Ok(Explanation::InsideBatch { batch });
    }
    match &call.deed {
        Deed::Rmw { key, old, .. } => Ok(explain_value(records, call.time, *key, *old)),
        Deed::Get { key, reply } | Deed::GetAt { key, reply } => {
            Ok(explain_value(records, call.time, *key, *reply))
        }
        Deed::Scan { .. } | Deed::Page { .. } => explain_rows(alloc, records, index),
        Deed::Put { .. } | Deed::Remove { .. } | Deed::Batch { .. } => unreachable!(),
        Deed::Snapshot | Deed::Close => unreachable!(),
    }
}

/// The index of the batch that the time is strictly inside, if there is one.
fn batch_around(records: &[CallRecord], time: Time) -> Option<usize>
    ensures { MatchOption result (IsUncut (batches_of records.now) time)
        (λ batch. IsSomeAnd (slice_get records.now batch) (IsAround time)) }
{
    for (batch, call) in records.iter().enumerate() {
        if is_around(call, time) {
            return Some(batch);
        }
    }
    None
}

/// Whether the call is a batch, and the time strictly inside it.
fn is_around(call: &CallRecord, time: Time) -> bool
    ensures { IsTrue result ↔ IsAround time call.now }
{
    match &call.deed {
        Deed::Batch { members } => {
            call.time < time && time - call.time < members.as_slice().len() as u64
        }
        _ => false,
    }
}

/// Explains a wrong value of the key, read at the time.
fn explain_value(
    records: &[CallRecord],
    time: Time,
    key: Key,
    answered: Option<Value>,
) -> Explanation
    requires times { HaveTimes records.now }
    requires alone { HasNone (IsSecondAt records.now) }
    ensures { SaysValue records.now time key answered result }
{
    let newest = newest_write(records, key, time);
    let right = value_left(&newest);
    let seen = seen_write(records, key, &answered, time);
    Explanation::WrongValue {
        key,
        answered,
        right,
        newest,
        seen,
    }
}

/// The newest write of the key below the time, if there is one.
pub fn newest_write(records: &[CallRecord], key: Key, time: Time) -> Option<FoundWrite>
    requires times { HaveTimes records.now }
    requires alone { HasNone (IsSecondAt records.now) }
    ensures { IsNewest records.now key time result }
{
    last_write(records, &Wanted::OfKey { key }, time)
}

/// What the write, if there is one, leaves at its key.
fn value_left(found: &Option<FoundWrite>) -> Option<Value>
    ensures { result ≡ value_left found.now }
{
    match found {
        Some(
            FoundWrite {
                slot: Slot::Wrote { value, .. },
                ..
            },
        ) => *value,
        _ => None,
    }
}

/// The last write that leaves this at the key: below the time, or above it if none is there.
pub fn seen_write(
    records: &[CallRecord],
    key: Key,
    value: &Option<Value>,
    time: Time,
) -> Option<FoundWrite>
    requires { HaveTimes records.now }
    ensures { IsSeen records.now key value.now result }
{
    let wanted = Wanted::Leaves { key, value: *value };
    if let Some(found) = last_write(records, &wanted, time) {
        return Some(found);
    }
    last_write(records, &wanted, TIME_END)
}
