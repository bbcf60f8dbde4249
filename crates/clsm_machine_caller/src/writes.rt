//! What the steps on the lock and the clock, and those of writes and batches, note in the view.
ghost use Rattle.std.specs.Prelude.{◌≡◌, ◌+◌, ◌<◌, ◌^◌, ◌++◌, ℕ, length, MatchResult, true};
ghost use Rattle.clsm_law.specs.Views.{or_zero};
ghost use Rattle.clsm_machine_caller.specs.Settling.{listed};
ghost use Rattle.clsm_law.specs.Relation.{after_entry, counted_cancel, filled, given_up, is_own, is_waited_for, member_of, taken, view_after};
ghost use Rattle.clsm_law.specs.declared.layout.Layout.{Layout};
ghost use Rattle.clsm_law.specs.declared.step.Step.{Step};

use crate::reaches::reached_after;
use crate::words::{or_zero, own_line};
use clsm_law::{Cell, Layout, Mode, Part, UNDECIDED_CELL, View, Waiting};
use clsm_model::{CallRecord, Change, Deed, Key, Members, Time};
use std::alloc::AllocError;

/// The lock is held in this mode, and no earlier look is fresh or of this hold.
fn enter(layout: &Layout, view: &mut View, mode: Mode) -> Result<(), AllocError>
    ensures { MatchResult result
        (λ _. view.new ≡ after_entry layout.now mode true view.old)
        (λ _. view.new ≡ view.old) }
{
    view.fresh_heads.blank(2 * layout.chains as usize)?;
    view.mode = mode;
    view.fresh_lock = None;
    view.fresh_clock = None;
    view.hold_limit = None;
    view.hold_clock = None;
    view.hold_first = None;
    view.entries = view.entries.wrapping_add(1);
    Ok(())
}

/// The time is drawn, and nothing is known of its cell.
fn take(view: &mut View, time: Time) -> Result<(), AllocError>
    ensures { MatchResult result
        (λ _. view.new ≡ taken view.old time)
        (λ _. view.new ≡ view.old) }
{
    view.words.blank(8)?;
    view.drawn = Some(time);
    view.key = None;
    view.length = None;
    view.next = None;
    view.linked = false;
    view.order_next = None;
    view.inserted = false;
    view.fresh_link = None;
    view.low = 0;
    view.high = 0;
    view.fresh_clock = None;
    Ok(())
}

/// Notes an exchange on LOCK for one holder more than these.
pub(crate) fn note_entry(
    layout: &Layout,
    view: &mut View,
    holders: u64,
    found: u64,
) -> Result<(), AllocError>
    ensures { MatchResult result
        (λ _. (i : ℕ) → view.new ≡ view_after layout.now i view.old (Step.EnterShared holders) found)
        (λ _. view.new ≡ view.old) }
{
    if found == holders {
        return enter(layout, view, Mode::Shared);
    }
    view.busy = view.busy.wrapping_add(1);
    view.fresh_lock = None;
    Ok(())
}

/// Notes that the lock is left.
pub(crate) fn note_leaving(layout: &Layout, view: &mut View) -> Result<(), AllocError>
    ensures { MatchResult result
        (λ _. (i x : ℕ) → view.new ≡ view_after layout.now i view.old Step.LeaveShared x)
        (λ _. view.new ≡ view.old) }
{
    view.fresh_heads.blank(2 * layout.chains as usize)?;
    view.mode = Mode::Free;
    view.fresh_lock = None;
    view.fresh_clock = None;
    view.met = 0;
    view.low = 0;
    view.high = 0;
    Ok(())
}

/// Notes an exchange on CLOCK from this time.
pub(crate) fn note_draw(view: &mut View, time: Time, found: u64) -> Result<(), AllocError>
    ensures { MatchResult result
        (λ _. (z : Layout) (i : ℕ) → view.new ≡ view_after z i view.old (Step.Draw time) found)
        (λ _. view.new ≡ view.old) }
{
    if found == time {
        return take(view, time);
    }
    view.raced = view.raced.wrapping_add(1);
    view.fresh_clock = None;
    Ok(())
}

/// Notes an exchange on LOCK for an exclusive hold.
pub(crate) fn note_taking(layout: &Layout, view: &mut View, found: u64) -> Result<(), AllocError>
    ensures { MatchResult result
        (λ _. (i : ℕ) → view.new ≡ view_after layout.now i view.old Step.EnterExclusive found)
        (λ _. view.new ≡ view.old) }
{
    if found == 0 {
        enter(layout, view, Mode::Exclusive)?;
        view.committed = false;
        return Ok(());
    }
    view.busy = view.busy.wrapping_add(1);
    view.fresh_lock = None;
    Ok(())
}

/// Notes that the next member of a batch takes this time, and its key.
pub(crate) fn note_stage(view: &mut View, time: Time, key: Key) -> Result<(), AllocError>
    ensures { MatchResult result
        (λ _. (z : Layout) (i x : ℕ) → view.new ≡ view_after z i view.old (Step.Stage time key) x)
        (λ _. view.new ≡ view.old) }
{
    take(view, time)?;
    view.key = Some(key);
    Ok(())
}

/// Notes that the batch is committed.
pub(crate) fn note_commit(seat: u32, view: &mut View, members: Members) -> Result<(), AllocError>
    requires { or_zero view.old.hold_clock + length members < 2 ^ 64 }
    ensures { MatchResult result
        (λ _. (z : Layout) (x : ℕ) → view.new ≡ view_after z seat view.old (Step.Commit members) x)
        (λ _. view.new ≡ view.old) }
{
    let time = or_zero(view.hold_clock);
    let due = time + members.as_slice().len() as u64;
    let deed = Deed::Batch { members };
    view.calls.push(CallRecord { seat, time, deed })?;
    view.staged.clear();
    view.committed = true;
    view.fresh_clock = None;
    view.due = due;
    Ok(())
}

/// Notes a part of the drawn cell that is filled.
pub(crate) fn note_filling(view: &mut View, part: Part, word: u64)
    ensures { view.new ≡ filled view.old part word }
{
    match part {
        Part::Key => {
            view.key = Some(word);
            view.low = 0;
            view.high = 0;
        }
        Part::Length => view.length = Some(word),
        Part::Value(place) => view.words.set(place as usize, Some(word)),
        Part::Next => view.next = Some(word),
    }
}

/// Notes an exchange on the head of the drawn cell's chain from this word.
pub(crate) fn note_link(layout: &Layout, view: &mut View, head: u64, found: u64)
    ensures { (i : ℕ) → view.new ≡ view_after layout.now i view.old (Step.Link head) found }
{
    let line = own_line(layout, view);
    view.fresh_heads.set(line, None);
    if found == head {
        view.linked = true;
    } else {
        view.raced = view.raced.wrapping_add(1);
    }
}

/// Notes an exchange on a link of the ordered list from this word to the drawn cell.
pub(crate) fn note_insert(view: &mut View, pred: u64, next: u64, found: u64)
    ensures { (z : Layout) (i : ℕ) → view.new ≡ view_after z i view.old (Step.Insert pred next) found }
{
    view.fresh_link = None;
    if found == next {
        view.inserted = true;
    } else {
        view.raced = view.raced.wrapping_add(1);
    }
}

/// Puts the write that the deed is, if it is one, behind the members of the seat's batch.
fn stage(view: &mut View, deed: &Deed) -> Result<(), AllocError>
    ensures { MatchResult result
        (λ _. view.new ≡ record view.old { staged = view.old.staged ++ member_of deed.now })
        (λ _. view.new ≡ view.old) }
{
    if let Some(member) = member_of(deed) {
        view.staged.push(member)?;
    }
    Ok(())
}

fn member_of(deed: &Deed) -> Option<(u64, Change)>
    ensures { listed result ≡ member_of deed.now }
{
    match deed {
        Deed::Put { key, value } => Some((*key, Change::Set(*value))),
        Deed::Remove { key } => Some((*key, Change::Remove)),
        Deed::Rmw { key, change, .. } => Some((*key, *change)),
        _ => None,
    }
}

/// Notes an exchange on the state of the drawn time, with the record of the write.
pub(crate) fn note_decision(
    layout: &Layout,
    view: &mut View,
    call: CallRecord,
    found: u64,
) -> Result<(), AllocError>
    requires { call.time + 1 < 2 ^ 64 }
    ensures { MatchResult result
        (λ _. view.new ≡ view_after layout.now call.seat view.old (Step.Decide call.time call.deed) found)
        (λ _. view.new ≡ view.old) }
{
    let time = call.time;
    let reached = reached_after(layout, view, time);
    if found != 0 {
        view.overtaken = view.overtaken.wrapping_add(1);
    } else if view.mode == Mode::Exclusive {
        stage(view, &call.deed)?;
    } else {
        view.calls.push(call)?;
        view.due = time + 1;
    }
    view.drawn = None;
    view.reached = reached;
    Ok(())
}

fn given_up(drawn: Option<Time>, time: Time) -> Option<Time>
    ensures { result ≡ given_up drawn time }
{
    match drawn {
        Some(own) if own == time => None,
        _ => drawn,
    }
}

fn is_own(drawn: Option<Time>, time: Time) -> bool
    ensures { result ≡ is_own drawn time }
{
    match drawn {
        Some(own) => own == time,
        None => false,
    }
}

/// Whether the last looks at states found this one undecided as often as the patience asks for.
fn is_waited_for(layout: &Layout, waited: Option<Waiting>, cell: Cell) -> bool
    ensures { result ≡ is_waited_for layout.now waited cell }
{
    match waited {
        Some(waiting) => waiting.cell == cell && layout.patience <= waiting.again,
        None => false,
    }
}

/// Counts a time given up, one of another seat cancelled, or an own one that another had cancelled;
/// and whether that of another seat was cancelled too early.
fn count_cancel(layout: &Layout, view: &mut View, time: Time, found: u64)
    ensures { view.new ≡ counted_cancel layout.now view.old time found }
{
    if is_own(view.drawn, time) {
        if found == UNDECIDED_CELL {
            view.gave_up = view.gave_up.wrapping_add(1);
        } else {
            view.overtaken = view.overtaken.wrapping_add(1);
        }
        return;
    }
    if found == UNDECIDED_CELL {
        view.cancelled = view.cancelled.wrapping_add(1);
        if !is_waited_for(layout, view.waited, layout.cell_of(time)) {
            view.hasty = view.hasty.wrapping_add(1);
        }
    }
    view.waited = None;
}

/// Notes an exchange on the state of the time, to cancel it.
pub(crate) fn note_cancel(layout: &Layout, view: &mut View, time: Time, found: u64)
    ensures { (i : ℕ) → view.new ≡ view_after layout.now i view.old (Step.Cancel time) found }
{
    let reached = reached_after(layout, view, time);
    count_cancel(layout, view, time, found);
    view.drawn = given_up(view.drawn, time);
    view.reached = reached;
}
