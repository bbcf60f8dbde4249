//! The merge of an epoch's writes, with the runs where it writes level 1.
ghost use Rattle.std.specs.Prelude.{◌≡◌, ◌<◌, ◌≤◌, ◌^◌, ◌∷◌, List, None, IfErr, OnOk, length, vec_capacity};
ghost use Rattle.clsm_law.specs.Memory.{room_of};
ghost use Rattle.clsm_law.specs.Merging.{target_of};
ghost use Rattle.clsm_levels.specs.declared.entry.Entry.{Entry};
ghost use Rattle.clsm_levels.specs.Merge.{is_to_level_one};
ghost use Rattle.clsm_levels.specs.Version.{version_of};
ghost use Rattle.clsm_search.specs.Frozen.{IsAhead, IsFrozenBehind, epoch_row};
ghost use Rattle.clsm_words.specs.Plays.{IsSeatOf};
ghost use Rattle.clsm_runs.specs.Outputs.{HasWritten, IsOutput, IsSameOutput, IsTaken, LeavesOff, kept_of};
ghost use Rattle.clsm_words.specs.Changing.{Changes};
ghost use Rattle.clsm_runs.specs.Placing.{IsOfPlace, rows_of};

use crate::entry::PlacedEntry;
use crate::output::Output;
use crate::rows::{Winner, next, open_cursors, value};
use crate::writing::write_entry;
use clsm_law::{Word, target_place};
use clsm_levels::{Entry, Version, is_to_level_one, judge};
use clsm_model::{Time, Value};
use clsm_search::FrozenWalk;
use clsm_words::{Pace, RawMerger, Words};
use thiserror::Error;

/// The refusal of a merge: a merge into level 1 would keep more entries than a run has room for.
#[derive(Clone, Copy, PartialEq, Eq, Debug, Error)]
#[error("run full")]
pub struct RunFull;

/// The run that the merge after this many merges writes, with nothing in it.
fn open_output<P: Pace>(words: &Words<P>, merger: &RawMerger, merges: u64, floor: Time) -> Output
    requires of { IsSeatOf words.now merger.now }
    requires merging { IsFrozenBehind merger.now.knows merges }
    ensures output { IsOutput merger.now.knows result }
    ensures place { result.place ≡ target_of merger.now.knows.merger }
    ensures begins { (result.count ≡ 0) × (result.settled ≡ None) }
    ensures rule { (result.floor ≡ floor) × (result.to_level_one ≡ is_to_level_one merges) }
{
    let to_level_one = is_to_level_one(merges);
    let place = target_place(merges);
    Output {
        place,
        room: words.room_of(place),
        count: 0,
        floor,
        to_level_one,
        settled: None,
    }
}

/// The entry with this version and value.
#[inline]
fn entry_with(version: &Version, value: Option<Value>) -> Entry
    ensures is { (e : Entry) → version_of e ≡ version.now → value ≡ e.value → result ≡ e }
    ensures early { result.time ≡ version.now.time }
{
    Entry {
        key: version.key,
        time: version.time,
        value,
    }
}

/// Writes the next entry by rising key, if it is kept. Refused where there is no room for it.
fn take<P: Pace>(
    words: &Words<P>,
    merger: &mut RawMerger,
    merges: u64,
    output: &mut Output,
    winner: &Winner,
) -> Result<(), RunFull>
    requires of { IsSeatOf words.now merger.old }
    requires merging { IsFrozenBehind merger.old.knows merges }
    requires output { IsOutput merger.old.knows output.old }
    requires inside { winner.now.row < 5 }
    requires there { (e : Entry) × IsTaken (rows_of merger.old.knows) winner.now e }
    requires early { winner.now.version.time < 2 ^ 62 }
    ensures of { IsSeatOf words.now merger.new }
    ensures changes { Changes (IsOfPlace output.old.place) merger.old.knows merger.new.knows }
    ensures output { IsOutput merger.new.knows output.new }
    ensures same { IsSameOutput output.old output.new }
    ensures goes_on { OnOk result
        ((e : Entry) (rest all : List Entry) → IsTaken (rows_of merger.old.knows) winner.now e → LeavesOff merger.old.knows output.old (e ∷ rest) all
        → LeavesOff merger.new.knows output.new rest all) }
    ensures full { IfErr result
        (λ refusal. (e : Entry) (rest all : List Entry) → IsTaken (rows_of merger.old.knows) winner.now e → LeavesOff merger.old.knows output.old (e ∷ rest) all
        → output.old.room < length all) }
{
    let version = winner.version;
    let (is_kept, settled) = judge(output.settled, version, output.floor, output.to_level_one);
    if !is_kept {
        output.settled = settled;
        return Ok(());
    }
    if output.count == output.room {
        return Err(RunFull);
    }
    let value = value(words, merger, merges, winner);
    let entry = entry_with(&version, value);
    let at = PlacedEntry {
        place: output.place,
        entry: output.count,
    };
    write_entry(words, merger, at, &entry);
    output.count += 1;
    output.settled = settled;
    Ok(())
}

/// Writes what the next merge keeps by this floor at its place, behind one another by rising key:
/// of the frozen epoch's writes, which the walk yields from the first on, where it writes level 0,
/// and of these and all runs where it writes level 1. It takes no memory and never waits. Refused,
/// with what is written there unseen by any reader, where that is more than the place has room for.
pub fn merge<P: Pace>(
    words: &Words<P>,
    merger: &mut RawMerger,
    merges: u64,
    floor: Time,
    walk: &mut FrozenWalk,
) -> Result<(), RunFull>
    requires of { IsSeatOf words.now merger.old }
    requires merging { IsFrozenBehind merger.old.knows merges }
    requires ahead { IsAhead merger.old.knows walk.old (epoch_row merger.old.knows) }
    ensures of { IsSeatOf words.now merger.new }
    ensures changes { Changes (IsOfPlace (target_of merger.old.knows.merger)) merger.old.knows merger.new.knows }
    ensures written { OnOk result (HasWritten merger.new.knows (kept_of merger.old.knows floor)) }
    ensures full { IfErr result (λ refusal. room_of merger.old.knows.layout (target_of merger.old.knows.merger) < length (kept_of merger.old.knows floor)) }
    ensures room { merger.new.knows.layout.cells ≤ vec_capacity walk.new.group }
{
    merger.show_invariant();
    let mut output = open_output(words, merger, merges, floor);
    let mut cursors = open_cursors(words, merger, merges, walk);
    while let Some(winner) = next(words, merger, merges, walk, &mut cursors) {
        merger.show_invariant();
        take(words, merger, merges, &mut output, &winner)?;
    }
    words.write_run(merger, Word::Count(output.place), output.count);
    Ok(())
}
