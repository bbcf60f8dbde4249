//! The places of the runs by their numbers: which ones readers search, and which one a merge
//! writes.
ghost use Rattle.std.specs.Prelude.{◌≡◌, ◌/◌, ◌%◌};
ghost use Rattle.clsm_levels.specs.Place.{target};
ghost use Rattle.clsm_law.specs.Places.{is_named, number_of};

use clsm_levels::{Place, level_one_run, level_zero_runs};

/// The number of the first place of level 1: those of level 0 come before it.
pub const LEVEL_ONE: u64 = 3;
/// How many places there are.
pub(crate) const PLACES: u64 = 5;

/// The number of the place that holds the run of level 1 after so many merges.
#[inline(always)]
pub fn level_one_place(merges: u64) -> u64
    ensures { result ≡ number_of (Place.LevelOne (merges / 4 % 2)) }
{
    LEVEL_ONE + level_one_run(merges)
}

/// Whether the readers of the component search the place.
#[inline(always)]
pub fn is_named(component: u64, place: u64) -> bool
    ensures { result ≡ is_named component place }
{
    if place < LEVEL_ONE {
        place < level_zero_runs(component)
    } else {
        place == level_one_place(component)
    }
}

/// The number of the place that the next merge after so many writes.
#[inline(always)]
pub fn target_place(merges: u64) -> u64
    ensures { result ≡ number_of (target merges) }
{
    match clsm_levels::target(merges) {
        Place::LevelZero(number) => number,
        Place::LevelOne(number) => LEVEL_ONE + number,
    }
}
