//! How far a seat has found each time decided, after a look at a state.
ghost use Rattle.std.specs.Prelude.{◌≡◌, ◌↔◌, ◌+◌, ◌<◌, ◌^◌, IsTrue};
ghost use Rattle.clsm_law.specs.Views.{IsBelow, is_below};
ghost use Rattle.clsm_law.specs.Relation.{is_seen, reached_after, reached_by_state};

use clsm_law::{Cell, Layout, View};
use clsm_model::Time;

/// Whether the bound is there, and the time is below it.
pub(crate) fn is_below(time: Time, bound: Option<Time>) -> bool
    ensures is { result ≡ is_below time bound }
    ensures below { IsTrue result ↔ IsBelow time bound }
    ensures next { IsTrue result → time + 1 < 2 ^ 64 }
{
    match bound {
        Some(bound) => time < bound,
        None => false,
    }
}

/// Whether the time is one of the held component, below a clock that the seat looked at.
fn is_seen(layout: &Layout, view: &View, time: Time) -> bool
    ensures is { result ≡ is_seen layout.now view.now time }
    ensures next { IsTrue result → time + 1 < 2 ^ 64 }
{
    let Some(held) = view.held else {
        return false;
    };
    let Some(first) = held.checked_mul(layout.cells) else {
        return false;
    };
    first <= time && time - first < 2 * layout.cells && is_below(time, view.clock)
}

/// How far the seat reaches where the state of this time was found or made other than 0.
pub(crate) fn reached_after(layout: &Layout, view: &View, time: Time) -> Time
    ensures { result ≡ reached_after layout.now view.now time }
{
    if time == view.reached && is_seen(layout, view, time) {
        time + 1
    } else {
        view.reached
    }
}

/// How far it reaches after a look at the state of this cell.
pub(crate) fn reached_by_state(layout: &Layout, view: &View, cell: Cell, found: u64) -> Time
    ensures { result ≡ reached_by_state layout.now view.now cell found }
{
    if found != 0 && cell == layout.cell_of(view.reached) {
        reached_after(layout, view, view.reached)
    } else {
        view.reached
    }
}
