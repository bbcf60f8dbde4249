//! Why a record has its fault: `explain`, and of what the first three passes find. What was read
//! wrongly is explained in `wrong_reply.rt`.
ghost use Rattle.std.specs.Prelude.{◌≡◌, ℕ, ◌<◌, ◌^◌, IfOk, MatchOption};
ghost use Rattle.clsm_model.specs.declared.config.Config.{Config};
ghost use Rattle.clsm_audit.specs.Explained.{Breaks, IsExplanation, kind_of, own_due};
ghost use Rattle.clsm_audit.specs.Faults.{IsFirstFault, IsSecondAt, IsUnknownAt, RanBackAt};
ghost use Rattle.clsm_audit.specs.Lawful.{HasTimes, HaveTimes, IsKnown, open_of};
ghost use Rattle.clsm_audit.specs.Written.{WritesAt, time_past};

use crate::explanation::{Explanation, Rule};
use crate::fault::FaultKind;
use crate::range::{fits_region, has_writes, is_time};
use crate::seat::SeatState;
use crate::write::{is_write, span_of};
use crate::wrong_reply::explain_wrong;
use clsm_model::{CallRecord, Config, Memory, Time};
use std::alloc::Global;

/// Explains the fault that an audit of these records found. What it shows as the right answer is
/// what the writes below the record's time give. Refused if memory runs out.
pub fn explain(
    alloc: Global,
    config: &Config,
    records: &[CallRecord],
    kind: FaultKind,
    index: usize,
) -> Result<Explanation, Memory>
    requires { IsFirstFault config.now records.now kind index }
    ensures kind { IfOk result (λ explanation. kind_of explanation ≡ kind) }
    ensures explains { IfOk result (IsExplanation config.now records.now index) }
{
    match kind {
        FaultKind::Unknown => Ok(explain_unknown(config, records, index)),
        FaultKind::TwoAtOneTime => Ok(explain_second(records, index)),
        FaultKind::TimeRanBack => Ok(explain_back(records, index)),
        FaultKind::WrongReply => explain_wrong(alloc, records, index),
    }
}

/// Explains why the record is not known.
fn explain_unknown(config: &Config, records: &[CallRecord], index: usize) -> Explanation
    requires { IsUnknownAt config.now records.now index }
    ensures kind { kind_of result ≡ FaultKind.Unknown }
    ensures explains { IsExplanation config.now records.now index result }
{
    let call = &records[index];
    let opened = open_after(&records[..index], call.seat);
    Explanation::Unknown {
        rule: broken_rule(config, call, opened),
    }
}

/// The snapshot that the seat has open after these calls.
fn open_after(calls: &[CallRecord], seat: u32) -> Option<Time>
    ensures { result ≡ open_of calls.now seat }
{
    let mut state = SeatState::new();
    for call in calls {
        if call.seat == seat {
            state.snapshot = state.open_after(call.time, &call.deed);
        }
    }
    state.snapshot
}

/// The first rule that the call breaks, where its seat has this snapshot open.
fn broken_rule(config: &Config, call: &CallRecord, opened: Option<Time>) -> Rule
    requires { ¬ IsKnown config.now opened call.now }
    ensures { Breaks config.now opened call.now result }
{
    if call.seat as usize >= config.seats {
        return Rule::Seat;
    }
    if !fits_region(config, &call.deed) {
        return Rule::Size;
    }
    if !is_time(call) {
        return Rule::Time;
    }
    if !has_writes(&call.deed) {
        return Rule::Members;
    }
    Rule::Snapshot { opened }
}

/// Explains why the record is a second one at a time.
fn explain_second(records: &[CallRecord], index: usize) -> Explanation
    requires times { HaveTimes records.now }
    requires second { IsSecondAt records.now index }
    ensures kind { kind_of result ≡ FaultKind.TwoAtOneTime }
    ensures explains { (config : Config) → IsExplanation config records.now index result }
{
    let call = &records[index];
    for other in 0..index {
        if let Some(time) = shared_time(&records[other], call) {
            return Explanation::TwoAtOneTime { other, time };
        }
    }
    unreachable!()
}

/// The first time at which both calls write, if there is one.
fn shared_time(first: &CallRecord, second: &CallRecord) -> Option<Time>
    requires first { HasTimes first.now }
    requires second { HasTimes second.now }
    ensures { MatchOption result ((t : ℕ) → WritesAt t first.now → ¬ WritesAt t second.now)
        (λ t. WritesAt t first.now × WritesAt t second.now) }
{
    if !is_write(&first.deed) || !is_write(&second.deed) {
        return None;
    }
    let time = first.time.max(second.time);
    if time < first.time + span_of(&first.deed) && time < second.time + span_of(&second.deed) {
        Some(time)
    } else {
        None
    }
}

/// Explains why the record is below the due of its seat.
fn explain_back(records: &[CallRecord], index: usize) -> Explanation
    requires times { HaveTimes records.now }
    requires back { RanBackAt records.now index }
    ensures kind { kind_of result ≡ FaultKind.TimeRanBack }
    ensures explains { (config : Config) → IsExplanation config records.now index result }
{
    let call = &records[index];
    for earlier in 0..index {
        let due = own_due(&records[earlier]);
        if records[earlier].seat == call.seat && call.time < due {
            return Explanation::TimeRanBack { earlier, due };
        }
    }
    unreachable!()
}

/// The lowest time of a later call of the seat, by this call alone.
pub fn own_due(call: &CallRecord) -> Time
    requires { time_past call.now < 2 ^ 64 }
    ensures { result ≡ own_due call.now }
{
    if is_write(&call.deed) {
        call.time + span_of(&call.deed)
    } else {
        call.time
    }
}
