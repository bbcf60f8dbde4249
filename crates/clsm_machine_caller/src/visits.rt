//! Whether a seat may look at a word: `IsLookable` of clsm_law/specs/OpenSteps.antt.
ghost use Rattle.std.specs.Prelude.{◌≡◌, ◌↔◌, IsTrue};
ghost use Rattle.clsm_law.specs.Memory.{region_of_link};
ghost use Rattle.clsm_law.specs.OpenSteps.{HoldsFrom, IsCurrentRegion, IsLookable, IsNamedBy, MayVisit};

use clsm_law::{Layout, Mode, View, Word, is_named};
use clsm_model::Time;

/// Whether the component held reaches down to the time.
pub(crate) fn holds_from(layout: &Layout, held: Option<u64>, time: Time) -> bool
    ensures { IsTrue result ↔ HoldsFrom layout.now held time }
{
    let Some(held) = held else {
        return false;
    };
    let Some(first) = held.checked_mul(layout.cells) else {
        return false;
    };
    first <= time
}

/// Whether the region is the current epoch's, by the limit looked at.
fn is_current_region(layout: &Layout, limit: Option<Time>, region: u64) -> bool
    ensures { IsTrue result ↔ IsCurrentRegion layout.now limit region }
{
    match limit {
        Some(limit) => layout.region_of(layout.cell_of(limit.saturating_sub(1))) == region,
        None => false,
    }
}

fn may_visit(layout: &Layout, view: &View, region: u64) -> bool
    ensures { IsTrue result ↔ MayVisit layout.now view.now region }
{
    view.held.is_some()
        || view.mode != Mode::Free && is_current_region(layout, view.hold_limit, region)
}

fn is_named_by(held: Option<u64>, place: u64) -> bool
    ensures { IsTrue result ↔ IsNamedBy held place }
{
    match held {
        Some(component) => is_named(component, place),
        None => false,
    }
}

/// The region whose ordered list the link is of.
fn region_of_link(layout: &Layout, link: u64) -> u64
    ensures { result ≡ region_of_link layout.now link }
{
    if link < 2 {
        link
    } else {
        layout.region_of(link - 2)
    }
}

/// Whether the seat may look at the word.
pub(crate) fn is_lookable(layout: &Layout, view: &View, word: Word) -> bool
    ensures { IsTrue result ↔ IsLookable layout.now view.now word }
{
    match word {
        Word::Head { region, .. } => may_visit(layout, view, region),
        Word::Cell { cell, .. } => may_visit(layout, view, layout.region_of(cell)),
        Word::Order(link) => may_visit(layout, view, region_of_link(layout, link)),
        Word::Hint { cell, .. } => may_visit(layout, view, layout.region_of(cell)),
        Word::State(cell) => may_visit(layout, view, layout.region_of(cell)),
        Word::Count(place) => is_named_by(view.held, place),
        Word::Entry { place, .. } => is_named_by(view.held, place),
        _ => true,
    }
}
