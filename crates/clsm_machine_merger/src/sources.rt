//! The entries that a merge reads, by their numbers.
ghost use Rattle.std.specs.Prelude.{◌≡◌, ◌+◌, ◌<◌, ◌^◌, length};
ghost use Rattle.clsm_law.specs.Layout.{memory};
ghost use Rattle.clsm_law.specs.Deciding.{IsMergeable, search_order, searched_count, searched_entry, searched_total, source_count};
ghost use Rattle.clsm_machine_merger.specs.MergeReads.{MayMerge, source};

use crate::entries::{PlainEntry, entry_in, entry_of_slot};
use crate::words::word_at;
use clsm_law::{LEVEL_ONE, Layout, MergerView, Word, is_named};
use clsm_levels::is_to_level_one;
use clsm_model::Slot;

/// All places, in the order in which those that are named are searched.
const SEARCH_ORDER: [u64; 5] = [2, 1, 0, LEVEL_ONE, LEVEL_ONE + 1];

/// A merge that the merger is about to publish: the words, what the merger knows, and what all
/// times came to.
#[derive(Clone, Copy)]
pub(crate) struct Merge<'a> {
    pub(crate) layout: &'a Layout,
    pub(crate) words: &'a [u64],
    pub(crate) merger: &'a MergerView,
    pub(crate) slots: &'a [Option<Slot>],
}

/// How many entries of the place are merged where all runs are.
fn searched_count(layout: &Layout, words: &[u64], merger: &MergerView, place: u64) -> u64
    requires { IsMergeable layout.now words.now merger.now }
    ensures count { result ≡ searched_count (memory layout.now words.now) merger.now.merged place }
    ensures small { result < 2 ^ 23 }
{
    if is_named(merger.merged, place) {
        word_at(layout, words, Word::Count(place))
    } else {
        0
    }
}

/// How many entries of all places are.
fn searched_total(layout: &Layout, words: &[u64], merger: &MergerView) -> u64
    requires { IsMergeable layout.now words.now merger.now }
    ensures total { result ≡ searched_total (memory layout.now words.now) merger.now.merged search_order }
    ensures small { result < 2 ^ 26 }
{
    let mut total = 0;
    for place in &SEARCH_ORDER {
        total += searched_count(layout, words, merger, *place);
    }
    total
}

/// The entry with this number among those.
fn searched_entry(
    layout: &Layout,
    words: &[u64],
    merger: &MergerView,
    number: u64,
) -> Option<PlainEntry>
    requires { IsMergeable layout.now words.now merger.now }
    ensures { result ≡ searched_entry (memory layout.now words.now) merger.now.merged search_order number }
{
    let mut left = number;
    for place in &SEARCH_ORDER {
        let count = searched_count(layout, words, merger, *place);
        if left < count {
            return Some(entry_in(layout, words, *place, left));
        }
        left -= count;
    }
    None
}

/// How many numbers the sources of the next merge have.
#[tactic(auto, unfolding(clsm_law::specs::Deciding::source_count))]
pub(crate) fn source_count(layout: &Layout, words: &[u64], merger: &MergerView) -> u64
    requires { IsMergeable layout.now words.now merger.now }
    ensures { result ≡ source_count layout.now words.now merger.now }
{
    let searched = if is_to_level_one(merger.merged) {
        searched_total(layout, words, merger)
    } else {
        0
    };
    layout.cells + searched
}

/// The source with this number; None for a time that came to no write.
#[tactic(auto, unfolding(clsm_law::specs::Deciding::source_at))]
pub(crate) fn source_at(merge: &Merge, number: u64) -> Option<PlainEntry>
    requires { MayMerge merge.now }
    ensures { result ≡ source merge.now number }
{
    let cells = merge.layout.cells;
    if number < cells {
        entry_of_slot(merge.slots, merge.merger.merged * cells + number)
    } else {
        searched_entry(merge.layout, merge.words, merge.merger, number - cells)
    }
}
