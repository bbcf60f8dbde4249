//! Whether a step is open to the merger: `IsOpenToMerger` of clsm_law/specs/Merging.antt.
ghost use Rattle.std.specs.Prelude.{◌≡◌, ◌+◌, ◌*◌, ◌≤◌, ◌<◌, ◌^◌, ◌↔◌, true, false, IsTrue};
ghost use Rattle.clsm_law.specs.Codes.{last_limit};
ghost use Rattle.clsm_law.specs.Memory.{is_word, region_of, room_of};
ghost use Rattle.clsm_law.specs.Layout.{memory};
ghost use Rattle.clsm_law.specs.Places.{is_named};
ghost use Rattle.clsm_law.specs.Worlds.{are_canonical, facts_of, is_headless};
ghost use Rattle.clsm_law.specs.Merging.{IsOpenToMerger, IsRunWord, epoch_end, is_all_quiet, is_clean, is_freeze_whole, is_frozen, is_retired, place_of};
ghost use Rattle.clsm_law.specs.Merging.{retired_region, target_of};
ghost use Rattle.clsm_law.specs.Deciding.{IsMergeable, IsMergerSmall, wanted_of, written_of};

use crate::deciding::is_wanted_written;
use crate::facts::{is_headless, is_orderless, is_padded, is_target_canonical};
use crate::phases::{is_clean, is_frozen, is_retired};
use crate::sources::Merge;
use crate::words::{epoch_end, retired_region, target_of, word_at};
use clsm_law::{Cell, Items, LAST_LIMIT, Layout, MergerView, Reader, Step, Word, is_named};
use clsm_model::{Slot, Time};

fn is_all_quiet(readers: &Items<Reader>) -> bool
    ensures { result ≡ is_all_quiet readers.now }
{
    readers.as_slice().iter().all(|reader| reader.quiet)
}

/// Whether no freeze is half done.
fn is_freeze_whole(merger: &MergerView) -> bool
    ensures { result ≡ is_freeze_whole merger.now }
{
    merger.limit_extended || !(merger.padded || merger.clock_extended)
}

/// Whether times are left for the epoch after the next.
fn has_next_epoch(layout: &Layout, merger: &MergerView) -> bool
    requires { IsMergerSmall layout.now merger.now }
    ensures { IsTrue result ↔ ((merger.now.merged + 2) * layout.now.cells ≤ last_limit) }
{
    (merger.merged + 2) * layout.cells <= LAST_LIMIT
}

/// Whether the time is an undrawn one of the epoch.
fn is_undrawn(layout: &Layout, words: &[u64], merger: &MergerView, time: Time) -> bool
    requires { IsMergeable layout.now words.now merger.now }
    ensures { IsTrue result ↔ ((memory layout.now words.now Word.Clock ≤ time) × (time < epoch_end layout.now merger.now)) }
{
    word_at(layout, words, Word::Clock) <= time && time < epoch_end(layout, merger)
}

/// Whether the word is one of a place that no reader of the component searches.
fn is_unread(layout: &Layout, merger: &MergerView, word: Word) -> bool
    ensures { IsTrue result ↔ (IsRunWord word × (is_word layout.now word ≡ true) × (is_named merger.now.merged (place_of word) ≡ false)) }
{
    match word {
        Word::Count(place) | Word::Entry { place, .. } => {
            layout.is_word(word) && !is_named(merger.merged, place)
        }
        _ => false,
    }
}

/// Whether the retired region may be given up: no reader holds it.
fn is_let_go(merger: &MergerView) -> bool
    ensures { IsTrue result ↔ ((is_retired merger.now.phase ≡ true) × (is_all_quiet merger.now.readers ≡ true)) }
{
    is_retired(merger.phase) && is_all_quiet(&merger.readers)
}

/// Whether the cell is one of the retired region.
fn is_retired_cell(layout: &Layout, merger: &MergerView, cell: Cell) -> bool
    requires { IsMergerSmall layout.now merger.now }
    ensures { IsTrue result ↔ ((cell < 2 * layout.now.cells) × (region_of layout.now cell ≡ retired_region merger.now)) }
{
    cell < 2 * layout.cells && layout.region_of(cell) == retired_region(layout, merger)
}

/// Whether the target holds what the next merge is to write and nothing besides, and has room for
/// it.
#[tactic(auto, unfolding(clsm_law::specs::Deciding::written_of, clsm_law::specs::Deciding::wanted_of))]
fn is_publishable(
    layout: &Layout,
    words: &[u64],
    merger: &MergerView,
    slots: &[Option<Slot>],
) -> bool
    requires { IsMergeable layout.now words.now merger.now }
    ensures { IsTrue result ↔ ((memory layout.now words.now (Word.Count (target_of merger.now)) ≤ room_of layout.now (target_of merger.now))
        × (written_of layout.now words.now merger.now ≡ wanted_of layout.now words.now merger.now slots.now)
        × (are_canonical (memory layout.now words.now) (target_of merger.now) ≡ true)) }
{
    let target = target_of(merger);
    word_at(layout, words, Word::Count(target)) <= layout.room_of(target)
        && is_target_canonical(layout, words, merger)
        && is_wanted_written(&Merge {
            layout,
            words,
            merger,
            slots,
        })
}

/// Whether the step is open to the merger.
#[tactic(auto, unfolding(clsm_law::specs::Deciding::written_of, clsm_law::specs::Deciding::wanted_of))]
pub fn is_open_to_merger(
    layout: &Layout,
    words: &[u64],
    merger: &MergerView,
    slots: &[Option<Slot>],
    step: &Step,
) -> bool
    requires { IsMergeable layout.now words.now merger.now }
    ensures { IsTrue result ↔ IsOpenToMerger layout.now (facts_of layout.now (memory layout.now words.now) merger.now slots.now) merger.now step.now }
{
    match step {
        Step::EnterExclusive => is_clean(merger.phase) && !merger.exclusive,
        Step::LeaveExclusive => merger.exclusive && is_freeze_whole(merger),
        Step::Look(word) => layout.is_word(*word),
        Step::Pad(time) => merger.exclusive && is_undrawn(layout, words, merger, *time),
        Step::WriteRun(word, _) => is_frozen(merger.phase) && is_unread(layout, merger, *word),
        Step::ClearHead { region, chain } => {
            is_let_go(merger) && *region == retired_region(layout, merger) && *chain < layout.chains
        }
        Step::ClearState(cell) => {
            is_let_go(merger)
                && is_retired_cell(layout, merger, *cell)
                && is_headless(layout, words, merger)
                && is_orderless(layout, words, merger)
        }
        Step::ClearOrder(region) => {
            is_let_go(merger) && *region == retired_region(layout, merger)
        }
        Step::Publish => { is_frozen(merger.phase) && is_publishable(layout, words, merger, slots) }
        Step::ExtendClock => {
            merger.exclusive && is_padded(layout, words, merger) && has_next_epoch(layout, merger)
        }
        Step::ExtendLimit => {
            merger.exclusive && merger.clock_extended && has_next_epoch(layout, merger)
        }
        _ => false,
    }
}
