//! The time at which a read stands, and the due and the snapshot that it leaves.
ghost use Rattle.std.specs.Prelude.{◌≡◌, ◌∷◌, [], ℕ};
ghost use Rattle.clsm_law.specs.OpenSteps.{is_old, open_time, time_of_read, timed};
ghost use Rattle.clsm_law.specs.Relation.{call_of, ended_calls, ended_due, ended_snapshot};

use crate::words::or_zero;
use clsm_law::{End, SnapshotState, View};
use clsm_model::{Change, Deed, Time};

/// The time of the open snapshot.
pub(crate) fn open_time(snapshot: SnapshotState) -> Option<Time>
    ensures { result ≡ open_time snapshot }
{
    match snapshot {
        SnapshotState::Open { time, .. } => Some(time),
        _ => None,
    }
}

/// The time of the snapshot that this pin noted.
fn timed(snapshot: SnapshotState) -> Option<Time>
    ensures { result ≡ timed snapshot }
{
    match snapshot {
        SnapshotState::Timed { time, .. } => Some(time),
        _ => None,
    }
}

/// The time at which a read with this deed stands: the open snapshot's, or the clock looked at
/// under this pin.
pub(crate) fn time_of_read(view: &View, deed: &Deed) -> Option<Time>
    ensures { result ≡ time_of_read view.now deed.now }
{
    match deed {
        Deed::Get { .. } => view.pin_clock,
        Deed::Rmw {
            change: Change::Keep,
            ..
        } => view.pin_clock,
        Deed::GetAt { .. } => open_time(view.snapshot),
        Deed::Scan { .. } | Deed::Page { .. } => open_time(view.snapshot).or(view.pin_clock),
        _ => None,
    }
}

/// Whether the deed reads under the open snapshot.
pub(crate) fn is_old(view: &View, deed: &Deed) -> bool
    ensures { result ≡ is_old view.now deed.now }
{
    match deed {
        Deed::GetAt { .. } => true,
        Deed::Scan { .. } | Deed::Page { .. } => open_time(view.snapshot).is_some(),
        _ => false,
    }
}

/// The time with which the deed of a read that ends is recorded.
pub(crate) fn ended_time(view: &View, deed: &Deed) -> Time
    ensures { (i : ℕ) → ended_calls i view.now (End.Recorded deed.now) ≡ call_of i result deed.now ∷ [] }
{
    match deed {
        Deed::Snapshot => or_zero(timed(view.snapshot)),
        _ => or_zero(time_of_read(view, deed)),
    }
}

/// The seat's due after a read that ends so.
pub(crate) fn ended_due(view: &View, end: &End) -> Time
    ensures { result ≡ ended_due view.now end.now }
{
    match end {
        End::Neither => view.due,
        End::Meeting => or_zero(view.pin_clock),
        End::Recorded(Deed::Snapshot) => or_zero(timed(view.snapshot)),
        End::Recorded(deed) if is_old(view, deed) => view.due,
        End::Recorded(deed) => or_zero(time_of_read(view, deed)),
    }
}

/// The snapshot after a read that ends: one that this pin timed is open.
pub(crate) fn ended_snapshot(snapshot: SnapshotState) -> SnapshotState
    ensures { result ≡ ended_snapshot snapshot }
{
    match snapshot {
        SnapshotState::Timed { noted, time } => SnapshotState::Open { noted, time },
        _ => snapshot,
    }
}
