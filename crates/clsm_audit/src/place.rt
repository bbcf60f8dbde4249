//! Calls in real time: when they were made, and the places that they have in the history.
ghost use Rattle.std.specs.Prelude.{◌≡◌, ◌<◌, ◌^◌};
ghost use Rattle.clsm_audit.specs.RealTime.{is_of_snapshot, place_of};
ghost use Rattle.clsm_audit.specs.Written.{time_past};

use crate::explaining::own_due;
use clsm_model::{CallRecord, Deed, Time};

/// When a call began and when it ended, by a clock that all callers share.
#[derive(Clone, Copy, PartialEq, Eq, Debug)]
pub struct Moments {
    pub begin: u64,
    pub end: u64,
}

/// The place of a call in the history: it stands behind all writes below `from`, and before all
/// others from `past` on.
#[derive(Clone, Copy)]
pub struct Place {
    pub from: Time,
    pub past: Time,
}

/// The place of a call whose seat has this snapshot open; none for a close, and for a read under
/// the snapshot.
pub fn place_of(snapshot: Option<Time>, call: &CallRecord) -> Option<Place>
    requires { time_past call.now < 2 ^ 64 }
    ensures { result ≡ place_of snapshot call.now }
{
    if is_of_snapshot(snapshot, &call.deed) {
        return None;
    }
    Some(Place {
        from: call.time,
        past: own_due(call),
    })
}

/// Whether the deed is a close, or a read under the snapshot that is open.
fn is_of_snapshot(snapshot: Option<Time>, deed: &Deed) -> bool
    ensures { result ≡ is_of_snapshot snapshot deed.now }
{
    match deed {
        Deed::Close | Deed::GetAt { .. } => true,
        Deed::Scan { .. } | Deed::Page { .. } => snapshot.is_some(),
        _ => false,
    }
}
