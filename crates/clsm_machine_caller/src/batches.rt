//! Times inside batches, and the batch that a commit lists.
ghost use Rattle.std.specs.Prelude.{◌≡◌, ◌↔◌, ◌<◌, IsTrue, List, vec_len, vec_capacity};
ghost use Rattle.clsm_model.specs.declared.batch.Batch.{Batch};
ghost use Rattle.clsm_model.specs.History.{IsUncut};
ghost use Rattle.clsm_law.specs.SeatBounds.{IsSmallFor};
ghost use Rattle.clsm_law.specs.Relation.{batches_after};
ghost use Rattle.clsm_machine_caller.specs.Settling.{are_outside, is_outside, listed_by};

use crate::words::or_zero;
use clsm_law::{Step, View};
use clsm_model::{Batch, Time};

/// Whether the time does not lie strictly inside the batch.
fn is_outside(time: Time, batch: &Batch) -> bool
    ensures { result ≡ is_outside time batch.now }
{
    time <= batch.first || batch.size <= time - batch.first
}

fn are_outside(batches: &[Batch], time: Time) -> bool
    ensures { result ≡ are_outside batches.now time }
{
    batches.iter().all(|batch| is_outside(time, batch))
}

/// Whether the time lies strictly inside none of these.
pub(crate) fn is_uncut(batches: &[Batch], time: Time) -> bool
    ensures { IsTrue result ↔ IsUncut batches.now time }
{
    are_outside(batches, time)
}

/// Lists the batch behind the others, which need room for one more, if there is one.
pub fn list(batches: &mut Vec<Batch>, batch: Option<Batch>)
    requires { vec_len batches.old < vec_capacity batches.old }
    ensures { batches.new.items ≡ listed_by batches.old.items batch }
{
    if let Some(batch) = batch {
        batches.push_reserved(batch);
    }
}

/// The batch that the step of the seat with this view commits, if it commits one.
pub fn batch_by(view: &View, step: &Step) -> Option<Batch>
    requires { IsSmallFor view.now step.now }
    ensures { (batches : List Batch) → listed_by batches result ≡ batches_after view.now batches step.now }
{
    match step {
        Step::Commit(members) => Some(Batch {
            first: or_zero(view.hold_clock),
            size: members.as_slice().len() as u64,
        }),
        _ => None,
    }
}
