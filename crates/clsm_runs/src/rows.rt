//! The sources of a merge, read by cursors.
ghost use Rattle.std.specs.Prelude.{◌≡◌, ◌≢◌, ℕ, ◌<◌, ◌+◌, true, drop, length};
ghost use Rattle.clsm_levels.specs.declared.entry.Entry.{Entry};
ghost use Rattle.clsm_levels.specs.Version.{version_in};
ghost use Rattle.clsm_law.specs.Places.{is_named};
ghost use Rattle.clsm_words.specs.declared.known.Known.{Known};
ghost use Rattle.clsm_levels.specs.Cursors.{HeadsOf, cursor_at, first_of, row_at};
ghost use Rattle.clsm_words.specs.Plays.{IsSeatOf};
ghost use Rattle.clsm_search.specs.Frozen.{IsFrozenBehind, IsGoing, epoch_row};
ghost use Rattle.clsm_runs.specs.Outputs.{AreSources, IsNextOf, IsOneAhead, IsPlaceOfRow, IsTaken, IsWalkedTo};
ghost use Rattle.clsm_words.specs.Changing.{Changes, NoWord};
ghost use Rattle.clsm_runs.specs.Placing.{rows_of};
ghost use Rattle.clsm_runs.specs.Searching.{run_at};

use crate::entry::PlacedEntry;
use clsm_law::{Word, level_one_place};
use clsm_levels::{Cursor, Version, is_to_level_one, least};
use clsm_model::Value;
use clsm_search::{FrozenWalk, frozen_value, next_write};
use clsm_words::{Pace, RawMerger, Words};

/// A merge reads at most so many rows: the epoch's writes, three runs of level 0 and that of level
/// 1.
const ROWS: usize = 5;

/// An entry that a merge takes: it stands at this position of the row.
#[derive(Clone, Copy)]
pub(crate) struct Winner {
    row: usize,
    position: u64,
    pub(crate) version: Version,
}

/// An entry of a row, which is this many behind the row's first.
#[derive(Clone, Copy)]
struct RowEntry {
    row: usize,
    position: u64,
}

/// The entry there without its value, if the run has so many.
fn version_at<P: Pace>(words: &Words<P>, merger: &mut RawMerger, at: PlacedEntry) -> Option<Version>
    requires of { IsSeatOf words.now merger.old }
    requires merging { IsFrozenBehind merger.old.knows merger.old.knows.merger.merged }
    requires named { is_named merger.old.knows.merger.merged at.place ≡ true }
    requires there { at.place < 5 }
    ensures of { IsSeatOf words.now merger.new }
    ensures looks { Changes NoWord merger.old.knows merger.new.knows }
    ensures head { result ≡ version_in (first_of (drop at.entry (run_at merger.old.knows at.place))) }
{
    merger.show_invariant();
    let count = words.look_as_merger(merger, Word::Count(at.place));
    if at.entry < count {
        Some(at.version(words, merger))
    } else {
        None
    }
}

/// The place of the run that is this row behind the first, if the merge reads runs: they stand in
/// the order in which they are searched.
fn place_of_row(merges: u64, row: usize) -> Option<u64>
    requires inside { (0 < row) × (row < 5) }
    ensures place { (k : Known) → k.merger.merged ≡ merges → IsPlaceOfRow k row result }
{
    if !is_to_level_one(merges) {
        return None;
    }
    Some(if row < 4 {
        3 - row as u64
    } else {
        level_one_place(merges)
    })
}

impl RowEntry {
    /// A cursor at the entry, which is of a row behind the first.
    fn cursor<P: Pace>(self, words: &Words<P>, merger: &mut RawMerger, merges: u64) -> Cursor
        requires of { IsSeatOf words.now merger.old }
        requires merging { IsFrozenBehind merger.old.knows merges }
        requires inside { (0 < self.row) × (self.row < 5) }
        ensures of { IsSeatOf words.now merger.new }
        ensures looks { Changes NoWord merger.old.knows merger.new.knows }
        ensures position { result.position ≡ self.position }
        ensures head { result.head ≡ version_in (first_of (drop self.position (row_at (rows_of merger.old.knows) self.row))) }
    {
        let RowEntry { row, position } = self;
        let head = match place_of_row(merges, row) {
            Some(place) => {
                let entry = position;
                version_at(words, merger, PlacedEntry { place, entry })
            }
            None => None,
        };
        Cursor { position, head }
    }
}

/// A cursor at the position of the first row, which is the epoch's writes: the walk has yielded
/// those before it.
fn epoch_cursor<P: Pace>(
    words: &Words<P>,
    merger: &mut RawMerger,
    walk: &mut FrozenWalk,
    position: u64,
) -> Cursor
    requires of { IsSeatOf words.now merger.old }
    requires walked { IsWalkedTo merger.old.knows walk.old position }
    ensures of { IsSeatOf words.now merger.new }
    ensures looks { Changes NoWord merger.old.knows merger.new.knows }
    ensures position { result.position ≡ position }
    ensures head { result.head ≡ version_in (first_of (drop position (epoch_row merger.old.knows))) }
    ensures walked { IsWalkedTo merger.new.knows walk.new (position + 1) }
{
    merger.show_invariant();
    let head = next_write(words, merger, walk);
    Cursor { position, head }
}

/// Cursors at the beginning of each row.
pub(crate) fn open_cursors<P: Pace>(
    words: &Words<P>,
    merger: &mut RawMerger,
    merges: u64,
    walk: &mut FrozenWalk,
) -> [Cursor; 5]
    requires of { IsSeatOf words.now merger.old }
    requires merging { IsFrozenBehind merger.old.knows merges }
    requires walked { IsWalkedTo merger.old.knows walk.old 0 }
    ensures of { IsSeatOf words.now merger.new }
    ensures looks { Changes NoWord merger.old.knows merger.new.knows }
    ensures long { length result ≡ 5 }
    ensures heads { HeadsOf (rows_of merger.old.knows) result }
    ensures begins { (i : ℕ) → i < length result → (cursor_at result i).position ≡ 0 }
    ensures ahead { IsOneAhead merger.new.knows walk.new result }
{
    merger.show_invariant();
    let first = epoch_cursor(words, merger, walk, 0);
    let mut cursors = [first; ROWS];
    for row in 1..ROWS {
        merger.show_invariant();
        let at = RowEntry { row, position: 0 };
        cursors[row] = at.cursor(words, merger, merges);
    }
    cursors
}

/// A cursor at the entry: the walk has yielded the epoch's writes before it, where its row is the
/// first.
fn cursor_to<P: Pace>(
    words: &Words<P>,
    merger: &mut RawMerger,
    merges: u64,
    walk: &mut FrozenWalk,
    at: RowEntry,
) -> Cursor
    requires of { IsSeatOf words.now merger.old }
    requires merging { IsFrozenBehind merger.old.knows merges }
    requires inside { at.row < 5 }
    requires going { IsGoing merger.old.knows walk.old }
    requires walked { at.row ≡ 0 → IsWalkedTo merger.old.knows walk.old at.position }
    ensures of { IsSeatOf words.now merger.new }
    ensures looks { Changes NoWord merger.old.knows merger.new.knows }
    ensures position { result.position ≡ at.position }
    ensures head { result.head ≡ version_in (first_of (drop at.position (row_at (rows_of merger.old.knows) at.row))) }
    ensures walked { at.row ≡ 0 → IsWalkedTo merger.new.knows walk.new (at.position + 1) }
    ensures stays { at.row ≢ 0 → walk.new ≡ walk.old }
{
    if at.row == 0 {
        epoch_cursor(words, merger, walk, at.position)
    } else {
        at.cursor(words, merger, merges)
    }
}

/// Takes the next entry of the rows by rising key: of equal keys that of the first row.
pub(crate) fn next<P: Pace>(
    words: &Words<P>,
    merger: &mut RawMerger,
    merges: u64,
    walk: &mut FrozenWalk,
    cursors: &mut [Cursor],
) -> Option<Winner>
    requires of { IsSeatOf words.now merger.old }
    requires merging { IsFrozenBehind merger.old.knows merges }
    requires sources { AreSources (rows_of merger.old.knows) }
    requires long { length cursors.old ≡ 5 }
    requires heads { HeadsOf (rows_of merger.old.knows) cursors.old }
    requires ahead { IsOneAhead merger.old.knows walk.old cursors.old }
    ensures of { IsSeatOf words.now merger.new }
    ensures looks { Changes NoWord merger.old.knows merger.new.knows }
    ensures long { length cursors.new ≡ 5 }
    ensures heads { HeadsOf (rows_of merger.old.knows) cursors.new }
    ensures next { IsNextOf (rows_of merger.old.knows) cursors.old cursors.new result }
    ensures ahead { IsOneAhead merger.new.knows walk.new cursors.new }
{
    merger.show_invariant();
    let Some((row, version)) = least(cursors) else {
        return None;
    };
    let position = cursors[row].position;
    let behind = RowEntry {
        row,
        position: position + 1,
    };
    cursors[row] = cursor_to(words, merger, merges, walk, behind);
    Some(Winner {
        row,
        position,
        version,
    })
}

/// The value of the entry that is taken: none where it is a removal. Of all that a merge reads,
/// these values alone are read.
pub(crate) fn value<P: Pace>(
    words: &Words<P>,
    merger: &mut RawMerger,
    merges: u64,
    winner: &Winner,
) -> Option<Value>
    requires of { IsSeatOf words.now merger.old }
    requires merging { IsFrozenBehind merger.old.knows merges }
    requires inside { winner.now.row < 5 }
    requires there { (e : Entry) × IsTaken (rows_of merger.old.knows) winner.now e }
    ensures of { IsSeatOf words.now merger.new }
    ensures looks { Changes NoWord merger.old.knows merger.new.knows }
    ensures told { (e : Entry) → IsTaken (rows_of merger.old.knows) winner.now e → result ≡ e.value }
{
    merger.show_invariant();
    if winner.row == 0 {
        return frozen_value(words, merger, &winner.version);
    }
    let place = place_of_row(merges, winner.row)?;
    let removes = winner.version.is_removal;
    let entry = winner.position;
    PlacedEntry { place, entry }.value(words, merger, removes)
}
