//! The audit: four passes over the records, each for one kind of fault.
ghost use Rattle.std.specs.Prelude.{◌≡◌, ◌↔◌, ◌⊎◌, ℕ, AllPairs, IfErr, IfOk, IsTrue, MatchOption, OnOk, Ok, false, min};
ghost use Rattle.std.specs.BTreeSet.{contains};
ghost use Rattle.std.specs.Ordering.{nat_cmp};
ghost use Rattle.clsm_audit.specs.Faults.{HasNone, IsFirstFault, IsFirstNot, IsFirstOf, IsLawful, IsOneHistory, IsRefusal, IsSecondAt, Passes};
ghost use Rattle.clsm_audit.specs.Lawful.{HasTimes, HaveTimes, IsFromDueAt, IsKnownAt, IsRightAt};
ghost use Rattle.clsm_audit.specs.Order.{IsInTimeOrder};
ghost use Rattle.clsm_audit.specs.Whole.{HasHistory};
ghost use Rattle.clsm_audit.specs.Written.{AreApart, WritesAt, batches_of};

use crate::fault::{AuditError, FaultKind};
use crate::replay::Replay;
use crate::seat::{advance, new_states};
use crate::stamp::{Stamp, in_time_order};
use crate::write::{is_write, span_of};
use clsm_model::{CallRecord, Config, Memory, Time};
use std::alloc::{AllocError, Global};
use std::collections::BTreeSet;

/// The lowest index of a record that is not known. Refused if memory runs out.
fn first_unknown(
    alloc: Global,
    config: &Config,
    records: &[CallRecord],
) -> Result<Option<usize>, Memory>
    ensures { IfOk result (IsFirstNot (IsKnownAt config.now records.now)) }
{
    let mut states = new_states(alloc, config.seats)?;
    for (index, record) in records.iter().enumerate() {
        let seat = record.seat as usize;
        if seat >= states.len() || !states[seat].is_known(config, record) {
            return Ok(Some(index));
        }
        advance(&mut states, record);
    }
    Ok(None)
}

/// Whether the call writes at one of these times. If it does not, the times at which it writes are
/// taken in. Refused if memory runs out.
fn is_second(times: &mut BTreeSet<Time>, call: &CallRecord) -> Result<bool, Memory>
    requires { HasTimes call.now }
    ensures second { IfOk result (λ second. IsTrue second ↔
        ((t : ℕ) × WritesAt t call.now × IsTrue (contains nat_cmp times.old t))) }
    ensures times { result ≡ Ok false → (t : ℕ) →
        IsTrue (contains nat_cmp times.new t) ↔ (IsTrue (contains nat_cmp times.old t) ⊎ WritesAt t call.now) }
{
    if !is_write(&call.deed) {
        return Ok(false);
    }
    for time in call.time..call.time + span_of(&call.deed) {
        let is_new = times.insert(time).map_err(AllocError::from)?;
        if !is_new {
            return Ok(true);
        }
    }
    Ok(false)
}

/// The lowest index of a write at a time at which an earlier record writes. Refused if memory
/// runs out.
fn first_second(alloc: Global, records: &[CallRecord]) -> Result<Option<usize>, Memory>
    requires { HaveTimes records.now }
    ensures { IfOk result (IsFirstOf (IsSecondAt records.now)) }
{
    let mut times = BTreeSet::new(alloc);
    for (index, record) in records.iter().enumerate() {
        if is_second(&mut times, record)? {
            return Ok(Some(index));
        }
    }
    Ok(None)
}

/// The lowest index of a record below the due of its seat. Refused if memory runs out.
fn first_back(
    alloc: Global,
    config: &Config,
    records: &[CallRecord],
) -> Result<Option<usize>, Memory>
    requires { (i : ℕ) → IsKnownAt config.now records.now i }
    ensures { IfOk result (IsFirstNot (IsFromDueAt records.now)) }
{
    let mut states = new_states(alloc, config.seats)?;
    for (index, record) in records.iter().enumerate() {
        let seat = record.seat as usize;
        if !states[seat].is_from_due(record.time, &record.deed) {
            return Ok(Some(index));
        }
        advance(&mut states, record);
    }
    Ok(None)
}

/// The lower one of the index and what was found before.
fn lowest(found: Option<usize>, index: usize) -> usize
    ensures { MatchOption found (result ≡ index) (λ lowest. result ≡ min lowest index) }
{
    found.map_or(index, |lowest| lowest.min(index))
}

/// The lowest index of a record whose reading is not what the writes below its time give, or stands
/// inside a batch. Refused if memory runs out.
#[tactic(auto, using(crate::proofs::Played::index_in, crate::proofs::Played::past_here))]
fn first_wrong(
    alloc: Global,
    records: &[CallRecord],
    stamps: &[Stamp],
) -> Result<Option<usize>, Memory>
    requires order { IsInTimeOrder records.now stamps.now }
    requires times { HaveTimes records.now }
    requires alone { HasNone (IsSecondAt records.now) }
    ensures { IfOk result (IsFirstNot (IsRightAt records.now)) }
{
    let mut replay = Replay::new(alloc);
    let mut found = None;
    for stamp in stamps {
        if !replay.play(&records[stamp.index])? {
            found = Some(lowest(found, stamp.index));
        }
    }
    Ok(found)
}

/// Audits the records of answered calls: whether they are the calls of one lawful history, in which
/// each write stands at its own time and nothing else does. Records of one seat stand in its own
/// order; between seats any order is right. Any records are accepted. Four passes look for faults,
/// and the answer is the lowest index in the first pass that finds one:
///
/// 1. `Unknown`: the seat is not below `config.seats`; the time is not below 2^62, or for a record
///    that is no write above 2^62; a batch has no member, more than `config.cells`, one that keeps
///    its key, or its last time is not below 2^62; a snapshot is opened where one is open; a close
///    or a read at the snapshot if none is open; one of these, a scan or a page at another time
///    than the open snapshot's.
/// 2. `TwoAtOneTime`: a write at a time at which a record with a lower index writes. A batch writes
///    at its time and those behind it, one for each member.
/// 3. `TimeRanBack`: a record below the due of its seat, which is the time of a read, and one more
///    than the last time of a write. Closes and reads under an open snapshot are not held against
///    it.
/// 4. `WrongReply`: what was read is not what the writes below the record's time give; or the
///    record read, or opened or closed a snapshot, at a time strictly inside a batch.
///
/// Refused with `Memory` if memory runs out, in place of any of these answers. Records whose seats,
/// batches and times are in their ranges, and that are the calls of a history, are refused for
/// nothing else. Beside the reading of ranges it costs as much as a sort of all records and
/// members.
pub fn audit(alloc: Global, config: &Config, records: &[CallRecord]) -> Result<(), AuditError>
    ensures ok { OnOk result (IsLawful config.now records.now) }
    ensures history { OnOk result (IsOneHistory records.now) }
    ensures apart { OnOk result (AllPairs AreApart (batches_of records.now)) }
    ensures has { OnOk result (HasHistory config.now records.now) }
    ensures fault { IfErr result (IsRefusal config.now records.now) }
    ensures whole { HasHistory config.now records.now → IfErr result (λ error. error ≡ AuditError.Memory) }
{
    match first_fault(alloc, config, records) {
        Ok(Some((kind, index))) => Err(AuditError::Fault { kind, index }),
        Ok(None) => Ok(()),
        Err(_) => Err(AuditError::Memory),
    }
}

/// The kind of the first fault and the index of its record, if there is a fault. Refused if memory
/// runs out.
fn first_fault(
    alloc: Global,
    config: &Config,
    records: &[CallRecord],
) -> Result<Option<(FaultKind, usize)>, Memory>
    ensures { IfOk result (λ found. MatchOption found
        (Passes config.now records.now)
        (λ fault. IsFirstFault config.now records.now fault.0 fault.1)) }
{
    if let Some(index) = first_unknown(alloc, config, records)? {
        return Ok(Some((FaultKind::Unknown, index)));
    }
    if let Some(index) = first_second(alloc, records)? {
        return Ok(Some((FaultKind::TwoAtOneTime, index)));
    }
    if let Some(index) = first_back(alloc, config, records)? {
        return Ok(Some((FaultKind::TimeRanBack, index)));
    }
    let stamps = in_time_order(alloc, records)?;
    if let Some(index) = first_wrong(alloc, records, &stamps)? {
        return Ok(Some((FaultKind::WrongReply, index)));
    }
    Ok(None)
}
