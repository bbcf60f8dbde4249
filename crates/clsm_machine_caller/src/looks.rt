//! What a look notes in the view: `looked` of clsm_law/specs/Relation.antt.
ghost use Rattle.std.specs.Prelude.{◌≡◌, ◌==◌, ◌+◌, ◌<◌, ◌^◌};
ghost use Rattle.clsm_law.specs.Memory.{link_at};
ghost use Rattle.clsm_law.specs.declared.layout.Layout.{Layout};
ghost use Rattle.clsm_law.specs.Relation.{again_after, first_of, holds_lock, is_idle, is_listed, looked, once_more, takes_hold, waited_after};
ghost use Rattle.clsm_law.specs.SeatBounds.{IsSmallLook};

use crate::reaches::reached_by_state;
use crate::words::{or_zero, own_place, own_region};
use clsm_law::{
    Cell, EXCLUSIVE_HOLD, FreshLink, Layout, Mode, Part, REMOVAL_CELL, SnapshotState,
    UNDECIDED_CELL, VALUE_CELL, View, Waiting, Word,
};
use clsm_model::Time;

fn holds_lock(view: &View) -> bool
    ensures { result ≡ holds_lock view.now }
{
    view.mode != Mode::Free
}

/// Whether the seat neither holds the lock nor reads.
fn is_idle(view: &View) -> bool
    ensures { result ≡ is_idle view.now }
{
    view.mode == Mode::Free && !view.pinned
}

/// The first of the looks, with this one.
fn first_of(first: Option<Time>, found: Time) -> Option<Time>
    ensures { result ≡ first_of first found }
{
    match first {
        Some(time) => Some(time),
        None => Some(found),
    }
}

/// Whether a look at MERGED gives the component held.
fn takes_hold(view: &View) -> bool
    ensures { result ≡ takes_hold view.now }
{
    view.pinned && view.held.is_none()
}

fn note_lock(view: &mut View, found: u64)
    ensures { (z : Layout) → view.new ≡ looked z view.old Word.Lock found }
{
    if found != EXCLUSIVE_HOLD {
        view.fresh_lock = Some(found);
        return;
    }
    view.fresh_lock = None;
    if view.mode == Mode::Free {
        view.busy = view.busy.wrapping_add(1);
    }
}

fn note_clock(view: &mut View, found: Time)
    ensures { (z : Layout) → view.new ≡ looked z view.old Word.Clock found }
{
    if is_idle(view) {
        view.clock_looks = view.clock_looks.wrapping_add(1);
    }
    view.fresh_clock = Some(found);
    view.clock = Some(found);
    if holds_lock(view) {
        view.hold_clock = Some(found);
        view.hold_first = first_of(view.hold_first, found);
    }
    if view.pinned {
        view.pin_clock = Some(found);
    }
    if let SnapshotState::Noted(noted) = view.snapshot {
        view.snapshot = SnapshotState::Timed { noted, time: found };
    }
}

fn note_limit(view: &mut View, found: Time)
    ensures { (z : Layout) → view.new ≡ looked z view.old Word.Limit found }
{
    if is_idle(view) {
        view.limit_looks = view.limit_looks.wrapping_add(1);
    }
    view.hold_limit = Some(found);
}

fn note_merged(layout: &Layout, view: &mut View, found: u64)
    requires { IsSmallLook layout.now Word.Merged found }
    ensures { view.new ≡ looked layout.now view.old Word.Merged found }
{
    if takes_hold(view) {
        view.held = Some(found);
        view.reached = view.reached.max(found * layout.cells);
    }
}

/// Whether the link is behind this place of the region's list.
pub(crate) fn is_link_at(link: u64, region: u64, place: u64) -> bool
    ensures { result ≡ link == link_at region place }
{
    if place == 0 {
        link == region
    } else {
        place.checked_add(1) == Some(link)
    }
}

/// Whether the link is behind a place that the seat knows in the list of its drawn cell.
fn is_listed(layout: &Layout, view: &View, link: u64) -> bool
    ensures { result ≡ is_listed layout.now view.now link }
{
    let region = own_region(layout, view);
    view.drawn.is_some()
        && (link == region
            || is_link_at(link, region, view.met)
            || is_link_at(link, region, view.low))
}

fn note_order(layout: &Layout, view: &mut View, link: u64, found: u64)
    ensures { view.new ≡ looked layout.now view.old (Word.Order link) found }
{
    if is_listed(layout, view, link) {
        view.met = found;
        view.fresh_link = Some(FreshLink { link, next: found });
    }
}

/// One look again, counted up to the layout's patience.
fn once_more(layout: &Layout, again: u64) -> u64
    ensures { result ≡ once_more layout.now again }
{
    if again < layout.patience {
        again + 1
    } else {
        again
    }
}

/// How often the seat looked again at the cell's state, after one more look that found it
/// undecided.
fn again_after(layout: &Layout, waited: Option<Waiting>, cell: Cell) -> u64
    ensures { result ≡ again_after layout.now waited cell }
{
    match waited {
        Some(waiting) if waiting.cell == cell => once_more(layout, waiting.again),
        _ => 0,
    }
}

/// For which state the seat waits after a look at the cell's.
fn waited_after(layout: &Layout, waited: Option<Waiting>, cell: Cell, found: u64) -> Option<Waiting>
    ensures { result ≡ waited_after layout.now waited cell found }
{
    if found == UNDECIDED_CELL {
        let again = again_after(layout, waited, cell);
        Some(Waiting { cell, again })
    } else {
        None
    }
}

/// Notes a state; a written cell of the drawn one's region stands in its list.
fn note_state(layout: &Layout, view: &mut View, cell: Cell, found: u64)
    requires { cell + 1 < 2 ^ 64 }
    ensures { view.new ≡ looked layout.now view.old (Word.State cell) found }
{
    let reached = reached_by_state(layout, view, cell, found);
    let is_written = found == VALUE_CELL || found == REMOVAL_CELL;
    if view.drawn.is_some() && layout.region_of(cell) == own_region(layout, view) && is_written {
        view.met = cell + 1;
    }
    view.waited = waited_after(layout, view.waited, cell, found);
    view.reached = reached;
}

/// Notes a key: the cell met last is before the drawn one, or behind it.
fn note_key(layout: &Layout, view: &mut View, cell: Cell, found: u64)
    requires { cell + 1 < 2 ^ 64 }
    ensures { view.new ≡ looked layout.now view.old (Word.Cell cell Part.Key) found }
{
    let place = cell + 1;
    if place != view.met {
        return;
    }
    let key = or_zero(view.key);
    if found < key || found == key && place < own_place(layout, view) {
        view.low = place;
    } else {
        view.high = place;
    }
}

/// Notes in the view what a look at the word found.
pub(crate) fn note_look(layout: &Layout, view: &mut View, word: Word, found: u64)
    requires { IsSmallLook layout.now word found }
    ensures { view.new ≡ looked layout.now view.old word found }
{
    match word {
        Word::Lock => note_lock(view, found),
        Word::Clock => note_clock(view, found),
        Word::Limit => note_limit(view, found),
        Word::Front => view.reached = view.reached.max(found),
        Word::Merged => note_merged(layout, view, found),
        Word::Head { region, chain } if holds_lock(view) => {
            let line = (2 * chain + region) as usize;
            view.fresh_heads.set(line, Some(found));
        }
        Word::Order(link) => note_order(layout, view, link, found),
        Word::Cell {
            cell,
            part: Part::Key,
        } => note_key(layout, view, cell, found),
        Word::State(cell) => note_state(layout, view, cell, found),
        _ => {}
    }
}
