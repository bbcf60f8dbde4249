//! Whether the seat, the batch and the times of a call are in their ranges.
ghost use Rattle.std.specs.Prelude.{◌↔◌, IsTrue};
ghost use Rattle.clsm_audit.specs.Lawful.{FitsRegion, HasTimes, HasWrites, IsInRange, IsTime};

use crate::write::{is_write, span_of};
use clsm_model::{CallRecord, Config, Deed, Time, are_writes};

/// The end of time: writes stand below it, and reads up to it.
const TIME_END: Time = 1 << 62;

/// Whether the seat of the call, its batch and its times are in their ranges.
pub fn is_in_range(config: &Config, call: &CallRecord) -> bool
    ensures { IsTrue result ↔ IsInRange config.now call.now }
{
    (call.seat as usize) < config.seats && fits_region(config, &call.deed) && has_times(call)
}

/// Whether a batch has no more members than a region has cells.
pub fn fits_region(config: &Config, deed: &Deed) -> bool
    ensures { IsTrue result ↔ FitsRegion config.now deed.now }
{
    match deed {
        Deed::Batch { members } => members.as_slice().len() <= config.cells,
        _ => true,
    }
}

/// Whether the call may have its times, and writes at each of them if it is a batch.
fn has_times(call: &CallRecord) -> bool
    ensures { IsTrue result ↔ HasTimes call.now }
{
    is_time(call) && has_writes(&call.deed)
}

/// Whether the times of the call are such that it may have.
pub fn is_time(call: &CallRecord) -> bool
    ensures { IsTrue result ↔ IsTime call.now }
{
    if is_write(&call.deed) {
        call.time <= TIME_END && span_of(&call.deed) <= TIME_END - call.time
    } else {
        call.time <= TIME_END
    }
}

/// Whether a batch has a member, and no member that keeps its key.
pub fn has_writes(deed: &Deed) -> bool
    ensures { IsTrue result ↔ HasWrites deed.now }
{
    match deed {
        Deed::Batch { members } => {
            !members.as_slice().is_empty() && are_writes(members.as_slice())
        }
        _ => true,
    }
}
