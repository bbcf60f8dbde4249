//! Which places hold runs after so many merges, and which one the next merge writes.
ghost use Rattle.std.specs.Prelude.{◌≡◌, ◌/◌, ◌%◌, IfOk};
ghost use Rattle.clsm_levels.specs.Merge.{is_to_level_one};
ghost use Rattle.clsm_levels.specs.Place.{places, target, IsFree};

use crate::place::Place;
use std::alloc::{AllocError, Global};

/// Whether the next merge after so many is a compaction into level 1: each fourth one is.
#[inline(always)]
pub fn is_to_level_one(merges: u64) -> bool
    ensures { result ≡ is_to_level_one merges }
{
    merges % 4 == 3
}

/// How many runs level 0 has after so many merges.
#[inline(always)]
pub fn level_zero_runs(merges: u64) -> u64
    ensures { result ≡ merges % 4 }
{
    merges % 4
}

/// Which of the two places of level 1 holds its run after so many merges: 0 or 1.
#[inline(always)]
pub fn level_one_run(merges: u64) -> u64
    ensures { result ≡ merges / 4 % 2 }
{
    merges / 4 % 2
}

/// The places that hold the runs after so many merges, in the order in which they are searched:
/// those of level 0, the newest run first, and then the one of level 1.
pub fn places(alloc: Global, merges: u64) -> Result<Vec<Place>, AllocError>
    ensures { IfOk result (λ named. named.items ≡ places merges) }
{
    let mut named = Vec::new(alloc);
    for number in (0..level_zero_runs(merges)).rev() {
        named.push(Place::LevelZero(number))?;
    }
    named.push(Place::LevelOne(level_one_run(merges)))?;
    Ok(named)
}

/// The place that the next merge writes, after this many merges. No run is there.
pub fn target(merges: u64) -> Place
    ensures place { result ≡ target merges }
    ensures free { IsFree result (places merges) }
{
    if is_to_level_one(merges) {
        Place::LevelOne(1 - level_one_run(merges))
    } else {
        Place::LevelZero(level_zero_runs(merges))
    }
}
