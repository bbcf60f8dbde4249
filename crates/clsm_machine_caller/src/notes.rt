//! The view after a step: `view_after` of clsm_law/specs/Relation.antt.
ghost use Rattle.std.specs.Prelude.{◌≡◌, ℕ, MatchResult};
ghost use Rattle.clsm_law.specs.Relation.{view_after};
ghost use Rattle.clsm_law.specs.SeatBounds.{IsSmall, IsSmallFor};
ghost use Rattle.clsm_law.specs.declared.layout.Layout.{Layout};
ghost use Rattle.clsm_law.specs.declared.step.Step.{Step};

use crate::looks::note_look;
use crate::reads::{ended_due, ended_snapshot, ended_time, open_time};
use crate::words::or_zero;
use crate::writes::{
    note_cancel, note_commit, note_decision, note_draw, note_entry, note_filling, note_insert,
    note_leaving, note_link, note_stage, note_taking,
};
use clsm_law::{End, Layout, SnapshotState, Step, View};
use clsm_model::{CallRecord, Deed};
use std::alloc::AllocError;

fn note_pin(view: &mut View)
    ensures { (z : Layout) (i x : ℕ) → view.new ≡ view_after z i view.old Step.Pin x }
{
    view.pin = view.pin.wrapping_add(1);
    view.pinned = true;
    view.held = None;
    view.pin_clock = None;
    view.waited = None;
}

/// Notes that a read ends so.
fn note_end(seat: u32, view: &mut View, end: End) -> Result<(), AllocError>
    ensures { MatchResult result
        (λ _. (z : Layout) (x : ℕ) → view.new ≡ view_after z seat view.old (Step.Unpin end) x)
        (λ _. view.new ≡ view.old) }
{
    let due = ended_due(view, &end);
    if let End::Recorded(deed) = end {
        let time = ended_time(view, &deed);
        view.calls.push(CallRecord { seat, time, deed })?;
    }
    view.pin = view.pin.wrapping_add(1);
    view.pinned = false;
    view.held = None;
    view.pin_clock = None;
    view.snapshot = ended_snapshot(view.snapshot);
    view.due = due;
    Ok(())
}

fn note_close(seat: u32, view: &mut View) -> Result<(), AllocError>
    ensures { MatchResult result
        (λ _. (z : Layout) (x : ℕ) → view.new ≡ view_after z seat view.old Step.CloseSnapshot x)
        (λ _. view.new ≡ view.old) }
{
    let time = or_zero(open_time(view.snapshot));
    let deed = Deed::Close;
    view.calls.push(CallRecord { seat, time, deed })?;
    view.snapshot = SnapshotState::Absent;
    Ok(())
}

/// Notes the step, which found this word, in the view of the seat that makes it. Refused if memory
/// runs out: the view is as it was.
pub fn note(
    layout: &Layout,
    seat: u32,
    view: &mut View,
    step: Step,
    found: u64,
) -> Result<(), AllocError>
    requires small { IsSmall layout.now step found }
    requires fits { IsSmallFor view.old step }
    ensures { MatchResult result
        (λ _. view.new ≡ view_after layout.now seat view.old step found)
        (λ _. view.new ≡ view.old) }
{
    match step {
        Step::EnterShared(holders) => note_entry(layout, view, holders, found)?,
        Step::LeaveShared => note_leaving(layout, view)?,
        Step::LeaveExclusive => note_leaving(layout, view)?,
        Step::EnterExclusive => note_taking(layout, view, found)?,
        Step::Stage(time, key) => note_stage(view, time, key)?,
        Step::Commit(members) => note_commit(seat, view, members)?,
        Step::Draw(time) => note_draw(view, time, found)?,
        Step::Fill(part, word) => note_filling(view, part, word),
        Step::Link(head) => note_link(layout, view, head, found),
        Step::FillOrder(word) => view.order_next = Some(word),
        Step::Insert(pred, next) => note_insert(view, pred, next, found),
        Step::Decide(time, deed) => {
            note_decision(layout, view, CallRecord { seat, time, deed }, found)?;
        }
        Step::Cancel(time) => note_cancel(layout, view, time, found),
        Step::Pin => note_pin(view),
        Step::Unpin(end) => note_end(seat, view, end)?,
        Step::Look(word) => note_look(layout, view, word, found),
        Step::RaiseFront(time) => view.past = view.past.max(time),
        Step::Note(time) => view.snapshot = SnapshotState::Noted(time),
        Step::CloseSnapshot => note_close(seat, view)?,
        _ => {}
    }
    Ok(())
}
