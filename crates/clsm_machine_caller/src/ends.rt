//! Whether a read may end in a given way (`Unpin`), and whether a read-modify-write read what it
//! says.
ghost use Rattle.std.specs.Prelude.{◌↔◌, ◌≤◌, IsTrue};
ghost use Rattle.clsm_law.specs.OpenSteps.{IsEndingWith, IsMetAt, IsReadBelow, IsRightAt, time_of_read};
ghost use Rattle.clsm_law.specs.Worlds.{open_past};
ghost use Rattle.clsm_model.specs.Right.{IsRight};

use crate::reads::{is_old, time_of_read};
use crate::rights::is_right;
use clsm_law::{End, SnapshotState, View};
use clsm_model::{Batch, Deed, Slot, Time};

/// Whether a read-modify-write has read what stands below its time.
pub(crate) fn is_read_below(
    slots: &[Option<Slot>],
    batches: &[Batch],
    view: &View,
    time: Time,
    deed: &Deed,
) -> bool
    ensures { IsTrue result ↔ IsReadBelow (open_past slots.now batches.now view.now.past) view.now time deed.now }
{
    match deed {
        Deed::Rmw { .. } => time <= view.past && is_right(slots, batches, view.past, time, deed),
        _ => true,
    }
}

fn is_right_at(
    slots: &[Option<Slot>],
    batches: &[Batch],
    view: &View,
    deed: &Deed,
    time: Option<Time>,
) -> bool
    ensures { IsTrue result ↔ IsRightAt (open_past slots.now batches.now view.now.past) view.now deed.now time }
{
    match time {
        Some(time) => {
            (is_old(view, deed) || view.due <= time)
                && is_right(slots, batches, view.past, time, deed)
        }
        None => false,
    }
}

fn is_met_at(view: &View, time: Option<Time>) -> bool
    ensures { IsTrue result ↔ IsMetAt view.now time }
{
    match time {
        Some(time) => view.due <= time && time <= view.past,
        None => false,
    }
}

/// Whether a read that noted no snapshot may end so.
fn is_ending_read(slots: &[Option<Slot>], batches: &[Batch], view: &View, end: &End) -> bool
    ensures { IsTrue result ↔ IsEndingWith (open_past slots.now batches.now view.now.past) view.now SnapshotState.Absent end.now }
{
    match end {
        End::Neither => true,
        End::Meeting => is_met_at(view, view.pin_clock),
        End::Recorded(deed) => is_right_at(slots, batches, view, deed, time_of_read(view, deed)),
    }
}

/// Whether the snapshot that this pin timed may be opened at its time.
fn is_opening(slots: &[Option<Slot>], batches: &[Batch], view: &View, time: Time) -> bool
    ensures { IsTrue result ↔ ((view.now.due ≤ time) × IsRight (open_past slots.now batches.now view.now.past) time Deed.Snapshot) }
{
    view.due <= time && is_right(slots, batches, view.past, time, &Deed::Snapshot)
}

/// Whether the read of this pin may end so.
pub(crate) fn is_ending(slots: &[Option<Slot>], batches: &[Batch], view: &View, end: &End) -> bool
    ensures { IsTrue result ↔ IsEndingWith (open_past slots.now batches.now view.now.past) view.now view.now.snapshot end.now }
{
    match view.snapshot {
        SnapshotState::Noted(_) => false,
        SnapshotState::Timed { time, .. } => {
            matches!(end, End::Recorded(Deed::Snapshot)) && is_opening(slots, batches, view, time)
        }
        _ => is_ending_read(slots, batches, view, end),
    }
}
