//! The audit of the order of calls in real time.
ghost use Rattle.std.specs.Prelude.{◌≡◌, IfErr, OnOk, length};
ghost use Rattle.clsm_audit.specs.Faults.{HasNone, IsUnknownAt};
ghost use Rattle.clsm_audit.specs.RealTime.{IsOrderError, KeepsRealTime};

use crate::event::in_moment_order;
use crate::place::Moments;
use crate::sweep::sweep_over;
use clsm_model::{CallRecord, Config};
use std::alloc::Global;
use thiserror::Error;

/// Why an audit does not answer that calls keep the order of real time.
#[derive(Clone, Copy, PartialEq, Eq, Debug, Error)]
pub enum OrderError {
    /// The call at `index` is too early: the one at `earlier` ended before it began, and has a
    /// later place.
    #[error("stale {index} after {earlier}")]
    Stale { index: usize, earlier: usize },
    /// There was no memory for the audit. Nothing is said of the calls.
    #[error("memory")]
    Memory,
}

/// Audits the order of answered calls in real time, with the moments of each at its record's index:
/// whether each call that ended before another one began stands before it in the history. An
/// `audit` comes first, which knows the seats and times of all records. The place of a write is its
/// time, and of a batch all of its times; a read stands before the write at its time. A close, and
/// a read under an open snapshot, has no place: it may be made at any moment. Of two calls, one of
/// which ends at the moment at which the other begins, none ended before the other.
///
/// Refused with `Stale` at the lowest index of a call that is too early, and with `Memory` if
/// memory runs out, in place of any other answer. It costs as much as a sort of two events for each
/// record.
pub fn audit_order(
    alloc: Global,
    config: &Config,
    records: &[CallRecord],
    moments: &[Moments],
) -> Result<(), OrderError>
    requires known { HasNone (IsUnknownAt config.now records.now) }
    requires count { length moments.now ≡ length records.now }
    ensures ok { OnOk result (KeepsRealTime records.now moments.now) }
    ensures stale { IfErr result (IsOrderError records.now moments.now) }
    ensures whole { KeepsRealTime records.now moments.now → IfErr result (λ error. error ≡ OrderError.Memory) }
{
    let Ok(events) = in_moment_order(alloc, config, records, moments) else {
        return Err(OrderError::Memory);
    };
    match sweep_over(&events).found {
        Some(found) => Err(OrderError::Stale {
            index: found.begin.index,
            earlier: found.finish.index,
        }),
        None => Ok(()),
    }
}
