//! How many entries the merged runs have.
ghost use Rattle.std.specs.Prelude.{◌≡◌, ◌<◌, true, length};
ghost use Rattle.clsm_law.specs.Memory.{Memory};
ghost use Rattle.clsm_law.specs.Places.{is_named};
ghost use Rattle.clsm_law.specs.Worlds.{runs_of};
ghost use Rattle.clsm_levels.specs.Cursors.{row_at};
ghost use Rattle.clsm_search.specs.Frozen.{IsFrozenBehind};
ghost use Rattle.clsm_words.specs.Changing.{Changes, NoWord};
ghost use Rattle.clsm_words.specs.Knowing.{row_of};
ghost use Rattle.clsm_words.specs.Plays.{IsSeatOf};
ghost use Rattle.clsm_runs.specs.Outputs.{IsPlaceOfTurn};
ghost use Rattle.clsm_runs.specs.Searching.{run_at};

use clsm_law::{Word, level_one_place};
use clsm_levels::level_zero_runs;
use clsm_words::{Pace, RawMerger, Words};

/// How many entries the merged run at the place has.
pub(crate) fn count_entries<P: Pace>(words: &Words<P>, merger: &mut RawMerger, place: u64) -> u64
    requires of { IsSeatOf words.now merger.old }
    requires merging { IsFrozenBehind merger.old.knows merger.old.knows.merger.merged }
    requires named { is_named merger.old.knows.merger.merged place ≡ true }
    requires there { place < 5 }
    ensures of { IsSeatOf words.now merger.new }
    ensures looks { Changes NoWord merger.old.knows merger.new.knows }
    ensures told { result ≡ length (run_at merger.old.knows place) }
{
    merger.show_invariant();
    words.look_as_merger(merger, Word::Count(place))
}

/// The place of the run that is searched at this turn behind so many merges: those of level 0
/// first, the newest before the others, and at last that of level 1.
fn place_of_turn(merges: u64, turn: u64) -> Option<u64>
    ensures { (memory : Memory) → IsPlaceOfTurn memory merges turn result }
{
    let young = level_zero_runs(merges);
    if turn < young {
        Some(young - 1 - turn)
    } else if turn == young {
        Some(level_one_place(merges))
    } else {
        None
    }
}

/// How many entries the run has that is searched at this turn: none where there are fewer runs. It
/// is one look.
pub fn entries_at<P: Pace>(words: &Words<P>, merger: &mut RawMerger, merges: u64, turn: u64) -> u64
    requires of { IsSeatOf words.now merger.old }
    requires merging { IsFrozenBehind merger.old.knows merges }
    ensures of { IsSeatOf words.now merger.new }
    ensures looks { Changes NoWord merger.old.knows merger.new.knows }
    ensures told { result ≡ length (row_at (runs_of (row_of merger.old.knows) merges) turn) }
{
    match place_of_turn(merges, turn) {
        Some(place) => count_entries(words, merger, place),
        None => 0,
    }
}
