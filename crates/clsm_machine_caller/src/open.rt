//! Whether a step is open to a caller's seat: `IsOpen` of clsm_law/specs/OpenSteps.antt.
ghost use Rattle.std.specs.Prelude.{◌≡◌, ◌≢◌, ◌↔◌, IsTrue, false, [], ℕ, take, Some};
ghost use Rattle.clsm_model.specs.History.{History};
ghost use Rattle.clsm_law.specs.declared.layout.Layout.{Layout};
ghost use Rattle.clsm_law.specs.declared.step.Step.{Step};
ghost use Rattle.clsm_law.specs.Memory.{link_at};
ghost use Rattle.clsm_law.specs.Views.{is_all_some, or_zero, own_region};
ghost use Rattle.clsm_law.specs.OpenSteps.{IsNextMember, IsOpen};
ghost use Rattle.clsm_law.specs.Worlds.{open_past};

use crate::batches::is_uncut;
use crate::drawn::{fresh_head, is_all_some, says_write};
use crate::ends::{is_ending, is_read_below};
use crate::looks::is_link_at;
use crate::reaches::is_below;
use crate::visits::{holds_from, is_lookable};
use crate::words::{or_zero, own_region, write_by};
use clsm_law::{EXCLUSIVE_HOLD, Layout, Mode, Part, SnapshotState, Step, View, Word};
use clsm_model::{Batch, Deed, Members, Slot, Time};

fn may_enter(view: &View, holders: u64) -> bool
    ensures { (z : Layout) (h : History) → IsTrue result ↔ IsOpen z h view.now (Step.EnterShared holders) }
{
    view.mode == Mode::Free && view.fresh_lock == Some(holders) && holders < EXCLUSIVE_HOLD
}

fn may_draw(view: &View, time: Time) -> bool
    ensures { (z : Layout) (h : History) → IsTrue result ↔ IsOpen z h view.now (Step.Draw time) }
{
    view.mode == Mode::Shared
        && view.drawn.is_none()
        && view.fresh_clock == Some(time)
        && is_below(time, view.hold_limit)
}

/// Whether a cell has the part, and the drawn one is not linked.
fn may_fill(layout: &Layout, view: &View, part: Part) -> bool
    ensures { (h : History) (w : ℕ) → IsTrue result ↔ IsOpen layout.now h view.now (Step.Fill part w) }
{
    view.drawn.is_some() && !view.linked && layout.is_word(Word::Cell { cell: 0, part })
}

/// Whether each part of the drawn cell is filled.
fn is_filled(view: &View) -> bool
    ensures { IsTrue result ↔ ((view.now.key ≢ None) × (view.now.length ≢ None) × IsTrue (is_all_some (take (or_zero view.now.length) view.now.words))) }
{
    let words = view.words.as_slice();
    let count = or_zero(view.length).min(words.len() as u64) as usize;
    view.key.is_some() && view.length.is_some() && is_all_some(&words[..count])
}

fn may_link(layout: &Layout, view: &View, head: u64) -> bool
    ensures { (h : History) → IsTrue result ↔ IsOpen layout.now h view.now (Step.Link head) }
{
    view.drawn.is_some()
        && !view.linked
        && is_filled(view)
        && view.next == Some(head)
        && fresh_head(layout, view) == Some(head)
}

/// Whether the drawn cell is not in the ordered list yet.
fn is_outside(view: &View) -> bool
    ensures { IsTrue result ↔ ((view.now.drawn ≢ None) × (view.now.inserted ≡ false)) }
{
    view.drawn.is_some() && !view.inserted
}

/// Whether the fresh look at a link found this one behind this place of the drawn cell's list.
fn is_fresh(layout: &Layout, view: &View, pred: u64, next: u64) -> bool
    ensures { IsTrue result ↔ (view.now.fresh_link ≡ Some (record { link = link_at (own_region layout.now view.now) pred; next = next })) }
{
    match view.fresh_link {
        Some(fresh) => {
            is_link_at(fresh.link, own_region(layout, view), pred) && fresh.next == next
        }
        None => false,
    }
}

fn may_insert(layout: &Layout, view: &View, pred: u64, next: u64) -> bool
    ensures { (h : History) → IsTrue result ↔ IsOpen layout.now h view.now (Step.Insert pred next) }
{
    is_outside(view)
        && view.linked
        && view.order_next == Some(next)
        && (pred == 0 || pred == view.low)
        && (next == 0 || next == view.high)
        && is_fresh(layout, view, pred, next)
}

fn may_decide(
    slots: &[Option<Slot>],
    batches: &[Batch],
    view: &View,
    time: Time,
    deed: &Deed,
) -> bool
    ensures { (z : Layout) → IsTrue result ↔ IsOpen z (open_past slots.now batches.now view.now.past) view.now (Step.Decide time deed.now) }
{
    view.drawn == Some(time)
        && view.linked
        && says_write(view, write_by(0, deed))
        && is_read_below(slots, batches, view, time, deed)
        && view.inserted
}

fn may_cancel(layout: &Layout, view: &View, time: Time) -> bool
    ensures { (h : History) → IsTrue result ↔ IsOpen layout.now h view.now (Step.Cancel time) }
{
    view.drawn == Some(time) && view.mode == Mode::Shared
        || holds_from(layout, view.held, time) && is_below(time, view.clock)
}

fn may_note(view: &View, time: Time) -> bool
    ensures { (z : Layout) (h : History) → IsTrue result ↔ IsOpen z h view.now (Step.Note time) }
{
    view.snapshot == SnapshotState::Absent && view.pinned && view.pin_clock == Some(time)
}

/// Whether the seat holds the lock exclusively and writes no cell.
fn is_between(view: &View) -> bool
    ensures { IsTrue result ↔ ((view.now.mode ≡ Mode.Exclusive) × (view.now.drawn ≡ None)) }
{
    view.mode == Mode::Exclusive && view.drawn.is_none()
}

/// Whether the time is that of the next member of the seat's batch.
fn is_next_member(view: &View, time: Time) -> bool
    ensures { IsTrue result ↔ IsNextMember view.now view.now.hold_clock time }
{
    match view.hold_clock {
        Some(clock) => { clock <= time && time - clock == view.staged.as_slice().len() as u64 }
        None => false,
    }
}

fn may_stage(view: &View, time: Time) -> bool
    ensures { (z : Layout) (h : History) (key : ℕ) → IsTrue result ↔ IsOpen z h view.now (Step.Stage time key) }
{
    is_between(view)
        && !view.committed
        && is_next_member(view, time)
        && is_below(time, view.hold_limit)
}

fn is_staged(view: &View, members: &Members) -> bool
    ensures { IsTrue result ↔ (view.now.staged ≡ members.now) }
{
    view.staged == *members
}

fn may_commit(view: &View, members: &Members) -> bool
    ensures { (z : Layout) (h : History) → IsTrue result ↔ IsOpen z h view.now (Step.Commit members.now) }
{
    is_between(view)
        && !view.committed
        && view.hold_clock.is_some()
        && is_staged(view, members)
        && !members.as_slice().is_empty()
}

/// Whether the seat with this view may make the step, in a world of these slots and batches.
pub fn is_open(
    layout: &Layout,
    slots: &[Option<Slot>],
    batches: &[Batch],
    view: &View,
    step: &Step,
) -> bool
    ensures { IsTrue result ↔ IsOpen layout.now (open_past slots.now batches.now view.now.past) view.now step.now }
{
    match step {
        Step::EnterShared(holders) => may_enter(view, *holders),
        Step::LeaveShared => view.mode == Mode::Shared && view.drawn.is_none(),
        Step::Draw(time) => may_draw(view, *time),
        Step::Fill(part, _) => may_fill(layout, view, *part),
        Step::Link(head) => may_link(layout, view, *head),
        Step::FillOrder(_) => is_outside(view),
        Step::Insert(pred, next) => may_insert(layout, view, *pred, *next),
        Step::StoreHint { cell, hint, .. } => layout.is_word(Word::Hint {
            cell: *cell,
            hint: *hint,
        }),
        Step::Decide(time, deed) => may_decide(slots, batches, view, *time, deed),
        Step::Cancel(time) => may_cancel(layout, view, *time),
        Step::EnterExclusive => view.mode == Mode::Free,
        Step::LeaveExclusive => is_between(view) && view.staged.as_slice().is_empty(),
        Step::Stage(time, _) => may_stage(view, *time),
        Step::Commit(members) => may_commit(view, members),
        Step::Pin => !view.pinned,
        Step::Unpin(end) => view.pinned && is_ending(slots, batches, view, end),
        Step::Look(word) => layout.is_word(*word) && is_lookable(layout, view, *word),
        Step::RaiseFront(time) => *time <= view.reached && is_uncut(batches, *time),
        Step::Note(time) => may_note(view, *time),
        Step::CloseSnapshot => matches!(view.snapshot, SnapshotState::Open { .. }),
        _ => false,
    }
}
