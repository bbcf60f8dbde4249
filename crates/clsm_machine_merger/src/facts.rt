//! What the merger's steps ask of the words: parts of `facts_of` of clsm_law/specs/Worlds.antt.
ghost use Rattle.std.specs.Prelude.{◌≡◌, length};
ghost use Rattle.clsm_law.specs.Layout.{memory, size_of};
ghost use Rattle.clsm_law.specs.Worlds.{is_padded, is_headless, is_orderless, is_last, is_length, is_ended, is_canonical, are_canonical};
ghost use Rattle.clsm_law.specs.Merging.{target_of};
ghost use Rattle.clsm_law.specs.Deciding.{IsMergerSmall};

use crate::entries::part_at;
use crate::words::{epoch_end, retired_region, target_of, word_at};
use clsm_law::{CANCELLED_CELL, Cell, Layout, MergerView, Word};

/// Whether the undrawn cells of the epoch are cancelled.
pub(crate) fn is_padded(layout: &Layout, words: &[u64], merger: &MergerView) -> bool
    requires size { length words.now ≡ size_of layout.now }
    requires small { IsMergerSmall layout.now merger.now }
    ensures { result ≡ is_padded layout.now (memory layout.now words.now) merger.now }
{
    let clock = word_at(layout, words, Word::Clock);
    for time in clock..epoch_end(layout, merger) {
        if word_at(layout, words, Word::State(layout.cell_of(time))) != CANCELLED_CELL {
            return false;
        }
    }
    true
}

/// Whether the heads of the retired region are 0.
pub(crate) fn is_headless(layout: &Layout, words: &[u64], merger: &MergerView) -> bool
    requires size { length words.now ≡ size_of layout.now }
    requires small { IsMergerSmall layout.now merger.now }
    ensures { result ≡ is_headless layout.now (memory layout.now words.now) merger.now }
{
    let region = retired_region(layout, merger);
    for chain in 0..layout.chains {
        if word_at(layout, words, Word::Head { region, chain }) != 0 {
            return false;
        }
    }
    true
}

/// Whether the head of the retired region's ordered list is 0.
pub(crate) fn is_orderless(layout: &Layout, words: &[u64], merger: &MergerView) -> bool
    requires size { length words.now ≡ size_of layout.now }
    requires small { IsMergerSmall layout.now merger.now }
    ensures { result ≡ is_orderless (memory layout.now words.now) merger.now }
{
    word_at(layout, words, Word::Order(retired_region(layout, merger))) == 0
}

/// Whether the states of the retired region are 0, except that of this cell.
pub(crate) fn is_last(layout: &Layout, words: &[u64], merger: &MergerView, cell: Cell) -> bool
    requires size { length words.now ≡ size_of layout.now }
    requires small { IsMergerSmall layout.now merger.now }
    ensures { result ≡ is_last layout.now (memory layout.now words.now) merger.now cell }
{
    let first = retired_region(layout, merger) * layout.cells;
    for other in first..first + layout.cells {
        if other != cell && word_at(layout, words, Word::State(other)) != 0 {
            return false;
        }
    }
    true
}

/// Whether an entry with this time word may have the length: 0 for a removal, at most 8 for a
/// value.
fn is_length(spelled: u64, length: u64) -> bool
    ensures { result ≡ is_length spelled length }
{
    if spelled % 2 == 1 {
        length == 0
    } else {
        length < 9
    }
}

/// Whether the words of the entry behind its value are 0.
fn is_ended(layout: &Layout, words: &[u64], place: u64, entry: u64) -> bool
    requires { length words.now ≡ size_of layout.now }
    ensures { result ≡ is_ended (memory layout.now words.now) place entry }
{
    let length = part_at(layout, words, place, entry, 2);
    for index in 0..8 {
        if index >= length && part_at(layout, words, place, entry, 3 + index) != 0 {
            return false;
        }
    }
    true
}

/// Whether no word of the entry says more than the entry.
fn is_canonical(layout: &Layout, words: &[u64], place: u64, entry: u64) -> bool
    requires { length words.now ≡ size_of layout.now }
    ensures { result ≡ is_canonical (memory layout.now words.now) place entry }
{
    let spelled = part_at(layout, words, place, entry, 1);
    let length = part_at(layout, words, place, entry, 2);
    is_length(spelled, length) && is_ended(layout, words, place, entry)
}

/// Whether no word of the target of the next merge says more than its entries.
pub(crate) fn is_target_canonical(layout: &Layout, words: &[u64], merger: &MergerView) -> bool
    requires { length words.now ≡ size_of layout.now }
    ensures { result ≡ are_canonical (memory layout.now words.now) (target_of merger.now) }
{
    let target = target_of(merger);
    for entry in 0..word_at(layout, words, Word::Count(target)) {
        if !is_canonical(layout, words, target, entry) {
            return false;
        }
    }
    true
}
