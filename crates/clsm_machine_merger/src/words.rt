//! The words by their names, and small numbers that follow from the merger's view.
ghost use Rattle.std.specs.Prelude.{◌≡◌, ◌≤◌, ◌*◌, ◌+◌, ◌^◌, length};
ghost use Rattle.clsm_law.specs.Layout.{memory, size_of};
ghost use Rattle.clsm_law.specs.Merging.{epoch_end, retired_region, target_of};
ghost use Rattle.clsm_law.specs.Deciding.{IsMergerSmall};

use clsm_law::{Layout, MergerView, Word, target_place};
use clsm_model::Time;

/// What stands in the word; 0 for a word that the machine has not.
#[tactic(auto, unfolding(clsm_law::specs::Layout::memory))]
pub fn word_at(layout: &Layout, words: &[u64], word: Word) -> u64
    requires { length words.now ≡ size_of layout.now }
    ensures { result ≡ memory layout.now words.now word }
{
    match layout.index(word) {
        Some(index) => words[index],
        None => 0,
    }
}

/// The number of the place that the next merge writes.
pub(crate) fn target_of(merger: &MergerView) -> u64
    ensures { result ≡ target_of merger.now }
{
    target_place(merger.merged)
}

/// The region of the component that was retired.
pub(crate) fn retired_region(layout: &Layout, merger: &MergerView) -> u64
    requires { IsMergerSmall layout.now merger.now }
    ensures { result ≡ retired_region merger.now }
{
    (merger.merged + 1) % 2
}

/// The end of the epoch of the next merge.
pub(crate) fn epoch_end(layout: &Layout, merger: &MergerView) -> Time
    requires { IsMergerSmall layout.now merger.now }
    ensures end { result ≡ epoch_end layout.now merger.now }
    ensures small { result ≤ 2 ^ 62 }
{
    (merger.merged + 1) * layout.cells
}
