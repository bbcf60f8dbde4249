//! Why the rows of a scan or a page are wrong: the first row that differs, or the next key.
ghost use Rattle.std.specs.Prelude.{◌≡◌, ◌<◌, IfOk, IfSome, IsSomeAnd, MatchOption, length, slice_get};
ghost use Rattle.clsm_model.specs.declared.config.Config.{Config};
ghost use Rattle.clsm_model.specs.History.{IsUncut};
ghost use Rattle.clsm_model.specs.Map.{IsMap};
ghost use Rattle.clsm_model.specs.Right.{IsPage};
ghost use Rattle.clsm_audit.specs.Explained.{IsDifference, IsExplanation, ReadsRows, SaysRow, kind_of, lower_key, value_in};
ghost use Rattle.clsm_audit.specs.declared.fault.FaultKind.TheVariants.{WrongReply};
ghost use Rattle.clsm_audit.specs.Faults.{HasNone, IsOnlyWrong, IsSecondAt};
ghost use Rattle.clsm_audit.specs.Lawful.{HaveTimes};
ghost use Rattle.clsm_audit.specs.Order.{IsInTimeOrder};
ghost use Rattle.clsm_audit.specs.Written.{batches_of, history_of};

use crate::explanation::Explanation;
use crate::replay::Replay;
use crate::replies::key_of_first;
use crate::stamp::{Stamp, in_time_order};
use crate::wrong_reply::{newest_write, seen_write};
use clsm_model::{CallRecord, Deed, Key, Memory, PlainMap, Time, Value};
use std::alloc::Global;

/// Explains why the rows of a scan or a page, inside no batch, are wrong. Refused if memory
/// runs out.
pub fn explain_rows(
    alloc: Global,
    records: &[CallRecord],
    index: usize,
) -> Result<Explanation, Memory>
    requires reply { IsOnlyWrong records.now index }
    requires rows { IsSomeAnd (slice_get records.now index) (λ r. ReadsRows r.deed) }
    requires uncut { IsSomeAnd (slice_get records.now index) (λ r. IsUncut (batches_of records.now) r.time) }
    ensures kind { IfOk result (λ explanation. kind_of explanation ≡ WrongReply) }
    ensures explains { IfOk result (λ explanation. (config : Config) → IsExplanation config records.now index explanation) }
{
    let call = &records[index];
    let stamps = in_time_order(alloc, records)?;
    let map = map_below(alloc, records, &stamps, index)?;
    match &call.deed {
        Deed::Scan { lo, hi, rows } => {
            let right = map.range(*lo, *hi)?;
            match explain_row(records, call.time, rows.as_slice(), &right) {
                Some(explanation) => Ok(explanation),
                None => unreachable!(),
            }
        }
        Deed::Page { range, rows, more } => {
            let all = map.range(range.from, range.hi)?;
            let (front, next) = page_of(&all, range.max);
            match explain_row(records, call.time, rows.as_slice(), front) {
                Some(explanation) => Ok(explanation),
                None => Ok(Explanation::WrongNext {
                    answered: *more,
                    right: next,
                }),
            }
        }
        _ => unreachable!(),
    }
}

/// The map of the writes below the time of the record, if that is inside no batch. Refused if
/// memory runs out.
#[tactic(auto, using(crate::proofs::Played::index_in, crate::proofs::Played::past_here))]
fn map_below(
    alloc: Global,
    records: &[CallRecord],
    stamps: &[Stamp],
    index: usize,
) -> Result<PlainMap, Memory>
    requires order { IsInTimeOrder records.now stamps.now }
    requires times { HaveTimes records.now }
    requires alone { HasNone (IsSecondAt records.now) }
    requires within { index < length records.now }
    ensures { IfOk result (λ map. IfSome (slice_get records.now index) (λ r.
        IsUncut (batches_of records.now) r.time → IsMap (history_of records.now) r.time map)) }
{
    let mut replay = Replay::new(alloc);
    for stamp in stamps {
        if stamp.index == index {
            return Ok(replay.into_map());
        }
        replay.play(&records[stamp.index])?;
    }
    unreachable!()
}

/// The first `max` of all rows, and the key of the next one.
fn page_of(all: &[(u64, Value)], max: u64) -> (&[(u64, Value)], Option<u64>)
    ensures { IsPage all.now max result.0.now result.1 }
{
    let count = max.min(all.len() as u64) as usize;
    let (front, rest) = all.split_at(count);
    (front, key_of_first(rest))
}

/// Explains the first row that differs from the right ones, read at the time, if one does.
fn explain_row(
    records: &[CallRecord],
    time: Time,
    rows: &[(u64, Value)],
    right_rows: &[(u64, Value)],
) -> Option<Explanation>
    requires times { HaveTimes records.now }
    requires alone { HasNone (IsSecondAt records.now) }
    ensures { MatchOption result (rows.now ≡ right_rows.now) (SaysRow records.now time rows.now right_rows.now) }
{
    let number = first_difference(rows, right_rows)?;
    let answered = row_at(rows, number);
    let right = row_at(right_rows, number);
    let key = lower_key(&answered, &right);
    let newest = newest_write(records, key, time);
    let value = value_in(&answered, key);
    let seen = seen_write(records, key, &value, time);
    Some(Explanation::WrongRow {
        number,
        answered,
        right,
        key,
        newest,
        seen,
    })
}

/// The first number at which the rows differ, if they do.
fn first_difference(rows: &[(u64, Value)], right: &[(u64, Value)]) -> Option<usize>
    ensures { MatchOption result (rows.now ≡ right.now) (IsDifference rows.now right.now) }
{
    for number in 0..rows.len().max(right.len()) {
        if row_at(rows, number) != row_at(right, number) {
            return Some(number);
        }
    }
    None
}

/// The row with this number, if there is one.
fn row_at(rows: &[(u64, Value)], number: usize) -> Option<(u64, Value)>
    ensures { result ≡ slice_get rows.now number }
{
    rows.get(number).copied()
}

/// The lower one of the keys of two rows, of which one may be missing.
fn lower_key(first: &Option<(u64, Value)>, second: &Option<(u64, Value)>) -> u64
    ensures { result ≡ lower_key first.now second.now }
{
    match (first, second) {
        (Some(row), Some(other)) => row.0.min(other.0),
        (Some(row), None) | (None, Some(row)) => row.0,
        (None, None) => 0,
    }
}

/// What the row says of the key.
fn value_in(row: &Option<(u64, Value)>, key: Key) -> Option<Value>
    ensures { result ≡ value_in row.now key }
{
    match row {
        Some((of, value)) if *of == key => Some(*value),
        _ => None,
    }
}
