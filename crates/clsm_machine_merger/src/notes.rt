//! The merger's view after a step: `merger_after` of clsm_law/specs/Merging.antt.
ghost use Rattle.std.specs.Prelude.{◌≡◌, ◌<◌, ℕ, List, Option, length};
ghost use Rattle.clsm_model.specs.declared.slot.Slot.{Slot};
ghost use Rattle.clsm_law.specs.declared.layout.Layout.{Layout};
ghost use Rattle.clsm_law.specs.Layout.{memory, size_of};
ghost use Rattle.clsm_law.specs.Worlds.{facts_of};
ghost use Rattle.clsm_law.specs.Merging.{Facts, merger_after, merger_looked};
ghost use Rattle.clsm_law.specs.Deciding.{IsMergerSmall, LooksAtWord};

use crate::facts::is_last;
use crate::phases::{is_clean, is_frozen, is_retired};
use crate::readers::{forget, reader_at, reader_by};
use crate::rounds::{floor_by, noted_by, round_by, round_end, rounds_by};
use clsm_law::{Layout, MergerView, Phase, Step, Word};

fn note_snapshot(layout: &Layout, merger: &mut MergerView, seat: u64, found: u64)
    requires small { IsMergerSmall layout.now merger.old }
    requires inside { seat < layout.now.seats }
    ensures { merger.new ≡ merger_looked layout.now merger.old (Word.Snap seat) found }
{
    if is_frozen(merger.phase) {
        let round = round_by(layout, merger.round, seat, found);
        merger.floor = floor_by(layout, merger, round);
        merger.rounds = rounds_by(layout, merger, round);
        merger.noted = noted_by(layout, merger, round);
        merger.round = round_end(layout, round);
    }
}

/// Counts a look at the clock while nothing is frozen, outside a hold of the lock, and notes what it
/// found.
fn note_clock(merger: &mut MergerView, found: u64)
    ensures { (z : Layout) → merger.new ≡ merger_looked z merger.old Word.Clock found }
{
    if !merger.exclusive && is_clean(merger.phase) {
        merger.clock_looks = merger.clock_looks.wrapping_add(1);
        merger.clock_found = found;
    }
}

fn note_pin(layout: &Layout, merger: &mut MergerView, seat: u64, found: u64)
    ensures { merger.new ≡ merger_looked layout.now merger.old (Word.Pin seat) found }
{
    if is_retired(merger.phase) {
        let reader = reader_by(reader_at(&merger.readers, seat), found);
        merger.readers.set(seat as usize, reader);
    }
}

/// The exclusive hold ends; where the limit was moved, an epoch is frozen.
fn leave(layout: &Layout, merger: &mut MergerView)
    ensures { (f : Facts) (x : ℕ) → merger.new ≡ merger_after layout.now f merger.old Step.LeaveExclusive x }
{
    if merger.limit_extended {
        merger.phase = Phase::Frozen;
        merger.round = None;
        merger.noted = None;
    }
    merger.exclusive = false;
    merger.padded = false;
    merger.clock_extended = false;
    merger.limit_extended = false;
}

/// One more merge: the component before it is retired, and no seat is known to have let go of it.
fn publish(layout: &Layout, merger: &mut MergerView)
    requires small { IsMergerSmall layout.now merger.old }
    requires seats { length merger.old.readers ≡ layout.now.seats }
    ensures { (f : Facts) (x : ℕ) → merger.new ≡ merger_after layout.now f merger.old Step.Publish x }
{
    merger.merged += 1;
    merger.phase = Phase::Retired;
    merger.round = None;
    merger.former_floor = merger.merged_floor;
    merger.merged_floor = merger.floor;
    forget(&mut merger.readers);
}

/// Notes in the merger's view its step that found this word; the words are those before the step.
pub fn note_merger(layout: &Layout, words: &[u64], merger: &mut MergerView, step: &Step, found: u64)
    requires size { length words.now ≡ size_of layout.now }
    requires small { IsMergerSmall layout.now merger.old }
    requires seats { length merger.old.readers ≡ layout.now.seats }
    requires looks { LooksAtWord layout.now step.now }
    ensures { (slots : List (Option Slot)) → merger.new ≡ merger_after layout.now
        (facts_of layout.now (memory layout.now words.now) merger.old slots) merger.old step.now found }
{
    match step {
        Step::EnterExclusive if found == 0 => {
            merger.exclusive = true;
            merger.holds = merger.holds.wrapping_add(1);
        }
        Step::EnterExclusive => merger.busy = merger.busy.wrapping_add(1),
        Step::LeaveExclusive => leave(layout, merger),
        Step::Look(Word::Snap(seat)) => note_snapshot(layout, merger, *seat, found),
        Step::Look(Word::Clock) => note_clock(merger, found),
        Step::Look(Word::Pin(seat)) => note_pin(layout, merger, *seat, found),
        Step::Pad(_) => merger.padded = true,
        Step::ClearState(cell) if is_last(layout, words, merger, *cell) => {
            merger.phase = Phase::Clean;
        }
        Step::Publish => publish(layout, merger),
        Step::ExtendClock => merger.clock_extended = true,
        Step::ExtendLimit => merger.limit_extended = true,
        _ => {}
    }
}
