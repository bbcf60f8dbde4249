//! Audits of the order of drawn calls in real time, beside a quadratic check.
ghost use Rattle.std.specs.Prelude.{◌≡◌, length};
ghost use Rattle.clsm_audit.specs.Faults.{IsLawful};

use super::plain::{is_at_present, is_write, open_before, span};
use super::{LISTS, drawn, sizes};
use crate::tests::model::{Wrong, same};
use clsm_audit::{AuditError, Moments, OrderError, audit, audit_order};
use clsm_model::{CallRecord, Config};
use rand_core::utils::NextWord;
use rand_pcg::Pcg32;
use std::alloc::Global;

/// What an audit of the order answers: the index of the first call that is too early, and that of
/// one behind which it should stand.
type Stale = Option<(usize, usize)>;

/// The moments of calls, which begin more or less in the order of their times.
fn draw_moments(
    alloc: Global,
    draws: &mut Pcg32,
    records: &[CallRecord],
) -> Result<Vec<Moments>, Wrong> {
    let mut moments = Vec::new(alloc);
    for call in records {
        let late = u64::from(draws.next_word() % 8);
        let begin = call.time.wrapping_mul(4).wrapping_add(late);
        let end = begin.saturating_add(u64::from(draws.next_word() % 8));
        let pushed = moments.push(Moments { begin, end });
        if pushed.is_err() {
            return Err(Wrong::Memory);
        }
    }
    Ok(moments)
}

/// The audit of the order of calls that are lawful.
fn audited(
    alloc: Global,
    config: &Config,
    records: &[CallRecord],
    moments: &[Moments],
) -> Result<Stale, Wrong>
    requires lawful { IsLawful config.now records.now }
    requires count { length moments.now ≡ length records.now }
{
    match audit_order(alloc, config, records, moments) {
        Ok(()) => Ok(None),
        Err(OrderError::Stale { index, earlier }) => Ok(Some((index, earlier))),
        Err(OrderError::Memory) => Err(Wrong::Memory),
    }
}

/// Whether the call at `index` is too early for that at `earlier`.
fn is_too_early(records: &[CallRecord], moments: &[Moments], index: usize, earlier: usize) -> bool {
    let (Some(call), Some(other)) = (records.get(index), records.get(earlier)) else {
        return false;
    };
    let (Some(now), Some(before)) = (moments.get(index), moments.get(earlier)) else {
        return false;
    };
    let has_place = is_at_present(call, open_before(records, index, call.seat))
        && is_at_present(other, open_before(records, earlier, other.seat));
    // The newest time that the other one saw or wrote.
    let seen = if is_write(other) {
        other.time.wrapping_add(span(other))
    } else {
        other.time
    };
    has_place && before.end < now.begin && call.time < seen
}

/// The lowest index of a call that is too early for another one.
fn first_stale(records: &[CallRecord], moments: &[Moments]) -> Option<usize> {
    for index in 0..records.len() {
        for earlier in 0..records.len() {
            if is_too_early(records, moments, index, earlier) {
                return Some(index);
            }
        }
    }
    None
}

/// Whether the order of the list is audited as by the quadratic check, and whether a call is too
/// early.
fn one_order(alloc: Global, draws: &mut Pcg32, number: u64) -> Result<(bool, bool), Wrong> {
    let Ok(records) = drawn::draw(alloc, number) else {
        return Err(Wrong::Memory);
    };
    let moments = draw_moments(alloc, draws, &records)?;
    if moments.len() != records.len() {
        return Ok((false, false));
    }
    let config = sizes(3);
    let stale = match audit(alloc, &config, &records) {
        Ok(()) => audited(alloc, &config, &records, &moments)?,
        Err(AuditError::Fault { .. }) => return Ok((false, false)),
        Err(AuditError::Memory) => return Err(Wrong::Memory),
    };
    let first = first_stale(&records, &moments);
    let is_same = match stale {
        Some((index, earlier)) => {
            first == Some(index) && is_too_early(&records, &moments, index, earlier)
        }
        None => first.is_none(),
    };
    Ok((is_same, stale.is_some()))
}

/// The order of drawn lists that are lawful is audited as by a quadratic check. About half of them
/// have a call that is too early.
pub fn drawn_orders(alloc: Global) -> Result<(), Wrong> {
    let mut draws = Pcg32::new(5, 1);
    let mut count = 0u64;
    for number in 0..LISTS / 2 {
        let (is_same, is_stale) = one_order(alloc, &mut draws, number * 2)?;
        same(is_same, Wrong::DrawnOrders(number as usize))?;
        count = count.wrapping_add(u64::from(is_stale));
    }
    same(count > 500 && count < LISTS / 2 - 500, Wrong::Counts)
}
