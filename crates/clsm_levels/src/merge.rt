//! What a merge keeps: entry by entry (`judge`), and of whole lists (`wanted`).
ghost use Rattle.std.specs.Prelude.{◌≡◌, ◌≢◌, ◌%◌, ◌≤◌, List, ◌∷◌, IfOk, map, length, cond};
ghost use Rattle.clsm_levels.specs.declared.entry.Entry.{Entry};
ghost use Rattle.clsm_levels.specs.Merge.{kept, merged, wanted};
ghost use Rattle.clsm_levels.specs.Rule.{sources, KeepsByRule, MakesNext};
ghost use Rattle.clsm_levels.specs.Pass.{RisesByKey, kept_after};
ghost use Rattle.clsm_levels.specs.Version.{version_of};

use crate::entry::{Entry, Version};
use crate::table::is_to_level_one;
use std::alloc::{AllocError, Global};

/// Whether a merge keeps the next entry by rising key, where entries of one key come the newest
/// first. `settled` is the key of the last entry below the floor before it, if there is one, and
/// the second result that key after it.
pub fn judge(
    settled: Option<u64>,
    version: Version,
    floor: u64,
    to_level_one: bool,
) -> (bool, Option<u64>)
    ensures { (e : Entry) (rest : List Entry) → version_of e ≡ version → kept_after settled floor to_level_one (e ∷ rest)
        ≡ cond result.0 (e ∷ kept_after result.1 floor to_level_one rest) (kept_after result.1 floor to_level_one rest) }
{
    if version.time >= floor {
        return (true, settled);
    }
    let is_hidden = settled == Some(version.key);
    let is_dropped = to_level_one && version.is_removal;
    (!is_hidden && !is_dropped, Some(version.key))
}

/// What a merge keeps of entries by rising key.
fn kept(
    alloc: Global,
    floor: u64,
    to_level_one: bool,
    entries: &[Entry],
) -> Result<Vec<Entry>, AllocError>
    requires { RisesByKey entries.now }
    ensures { IfOk result (λ run. run.items ≡ kept floor to_level_one entries.now) }
{
    let mut run = Vec::new(alloc);
    let mut settled = None;
    for entry in entries {
        let (is_kept, now_settled) = judge(settled, entry.version(), floor, to_level_one);
        settled = now_settled;
        if is_kept {
            run.push(*entry)?;
        }
    }
    Ok(run)
}

/// What the merge after so many reads: the epoch's entries, and behind them those of all runs where
/// it writes level 1.
fn sources(
    alloc: Global,
    merges: u64,
    epoch: &[Entry],
    runs: &[Vec<Entry>],
) -> Result<Vec<Entry>, AllocError>
    ensures { IfOk result (λ all. all.items ≡ sources merges epoch.now (map (λ r. r.items) runs.now)) }
{
    let mut all = epoch.to_vec(alloc)?;
    if is_to_level_one(merges) {
        for run in runs {
            all.extend_from_slice(run)?;
        }
    }
    Ok(all)
}

/// The entries by rising key; those of one key stay in their order.
fn merged(mut entries: Vec<Entry>) -> Result<Vec<Entry>, AllocError>
    ensures { IfOk result (λ all. all.items ≡ merged entries.items) }
{
    entries.sort_by_key(|entry| entry.key)?;
    Ok(entries)
}

/// What the merge after so many writes into its target, by rising key: of the epoch's entries where
/// it writes level 0, and of those and all runs where it writes level 1, each at or above the
/// floor, and of each key the newest below it, unless that is a removal that goes to level 1. The
/// epoch's entries are given the newest first, and the runs in the order in which they are
/// searched. Level 0 is given no more entries than the epoch has.
pub fn wanted(
    alloc: Global,
    merges: u64,
    floor: u64,
    epoch: &[Entry],
    runs: &[Vec<Entry>],
) -> Result<Vec<Entry>, AllocError>
    ensures run { IfOk result
        (λ run. run.items ≡ wanted merges floor epoch.now (map (λ r. r.items) runs.now)) }
    ensures rule { IfOk result
        (λ run. KeepsByRule merges floor epoch.now (map (λ r. r.items) runs.now) run.items) }
    ensures small { IfOk result (λ run. merges % 4 ≢ 3 → length run.items ≤ length epoch.now) }
    ensures next { IfOk result
        (λ run. MakesNext merges floor epoch.now (map (λ r. r.items) runs.now) run.items) }
{
    let entries = merged(sources(alloc, merges, epoch, runs)?)?;
    kept(alloc, floor, is_to_level_one(merges), &entries)
}
