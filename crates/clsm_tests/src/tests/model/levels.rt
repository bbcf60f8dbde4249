//! Runs and their merges.
ghost use Rattle.std.specs.Prelude.{◌≡◌};

use crate::tests::model::{Wrong, optional_value, same};
use clsm_levels::{Cursor, Entry, Place, entries_of, judge, least, places, target, wanted};
use clsm_model::{Key, Slot};
use std::alloc::Global;

const ZERO_0: Place = Place::LevelZero(0);

const ZERO_1: Place = Place::LevelZero(1);

const ZERO_2: Place = Place::LevelZero(2);

const ONE_0: Place = Place::LevelOne(0);

const ONE_1: Place = Place::LevelOne(1);

/// After so many merges these places are named, and the next merge writes this one.
const PLACES: &[(u64, &[Place], Place)] = &[
    (0, &[ONE_0], ZERO_0),
    (1, &[ZERO_0, ONE_0], ZERO_1),
    (2, &[ZERO_1, ZERO_0, ONE_0], ZERO_2),
    (3, &[ZERO_2, ZERO_1, ZERO_0, ONE_0], ONE_1),
    (4, &[ONE_1], ZERO_0),
    (5, &[ZERO_0, ONE_1], ZERO_1),
    (8, &[ONE_0], ZERO_0),
    (11, &[ZERO_2, ZERO_1, ZERO_0, ONE_0], ONE_1),
];

pub(super) fn table_of_places(alloc: Global) -> Result<(), Wrong> {
    for row in 0..PLACES.len() {
        let (merges, named, written) = PLACES[row];
        let Ok(found) = places(alloc, merges) else {
            return Err(Wrong::Memory);
        };
        let is_same = found.as_slice() == named && target(merges) == written;
        same(is_same, Wrong::Places(row))?;
    }
    Ok(())
}

/// An entry as data: its key, its time, and its word; None for a removal.
type Line = (u64, u64, Option<u64>);

fn entry(key: Key, time: u64, word: Option<u64>) -> Entry
    ensures { result.time ≡ time }
{
    let value = optional_value(word);
    Entry { key, time, value }
}

fn entries(alloc: Global, lines: &[Line]) -> Result<Vec<Entry>, Wrong> {
    let mut entries = Vec::new(alloc);
    for (key, time, word) in lines {
        let (key, time) = (*key, *time);
        let value = optional_value(*word);
        if entries.push(Entry { key, time, value }).is_err() {
            return Err(Wrong::Memory);
        }
    }
    Ok(entries)
}

/// A merge: how many there were before it, its floor, the writes of its epoch, the runs of level 0
/// and 1 that it reads, and what it keeps.
struct Merge {
    merges: u64,
    floor: u64,
    epoch: &'static [Line],
    level_zero: &'static [Line],
    level_one: &'static [Line],
    kept: &'static [Line],
}

/// The writes of the first epoch.
const FIRST_EPOCH: &[Line] = &[
    (1, 3, Some(30)),
    (2, 2, None),
    (2, 1, Some(20)),
    (1, 0, Some(10)),
];

/// Those of the fourth, and the runs that its merge reads.
const FOURTH_EPOCH: &[Line] = &[(2, 7, None), (4, 6, Some(46))];

const LEVEL_ZERO: &[Line] = &[(1, 5, Some(15)), (3, 4, None)];

const LEVEL_ONE: &[Line] = &[(1, 0, Some(10)), (2, 1, Some(21)), (3, 2, Some(32))];

const MERGES: &[Merge] = &[
    // into level 0, all above the floor
    Merge {
        merges: 0,
        floor: 0,
        epoch: FIRST_EPOCH,
        level_zero: &[],
        level_one: &[],
        kept: &[
            (1, 3, Some(30)),
            (1, 0, Some(10)),
            (2, 2, None),
            (2, 1, Some(20)),
        ],
    },
    // the same, all below it
    Merge {
        merges: 0,
        floor: 4,
        epoch: FIRST_EPOCH,
        level_zero: &[],
        level_one: &[],
        kept: &[(1, 3, Some(30)), (2, 2, None)],
    },
    // a snapshot at 2 is the floor: it sees the put at 1, and not the one at 2 itself
    Merge {
        merges: 0,
        floor: 2,
        epoch: &[
            (1, 3, Some(30)),
            (1, 2, Some(20)),
            (1, 1, Some(10)),
            (1, 0, Some(0)),
        ],
        level_zero: &[],
        level_one: &[],
        kept: &[(1, 3, Some(30)), (1, 2, Some(20)), (1, 1, Some(10))],
    },
    // into level 1, all below the floor
    Merge {
        merges: 3,
        floor: 8,
        epoch: FOURTH_EPOCH,
        level_zero: LEVEL_ZERO,
        level_one: LEVEL_ONE,
        kept: &[(1, 5, Some(15)), (4, 6, Some(46))],
    },
    // the same, with the floor between the times
    Merge {
        merges: 3,
        floor: 5,
        epoch: FOURTH_EPOCH,
        level_zero: LEVEL_ZERO,
        level_one: LEVEL_ONE,
        kept: &[
            (1, 5, Some(15)),
            (1, 0, Some(10)),
            (2, 7, None),
            (2, 1, Some(21)),
            (4, 6, Some(46)),
        ],
    },
];

pub(super) fn merges(alloc: Global) -> Result<(), Wrong> {
    for (row, merge) in MERGES.iter().enumerate() {
        let epoch = entries(alloc, merge.epoch)?;
        let runs = [
            entries(alloc, merge.level_zero)?,
            entries(alloc, merge.level_one)?,
        ];
        let Ok(run) = wanted(alloc, merge.merges, merge.floor, &epoch, &runs) else {
            return Err(Wrong::Memory);
        };
        let kept = entries(alloc, merge.kept)?;
        same(run.as_slice() == kept.as_slice(), Wrong::Merges(row))?;
    }
    Ok(())
}

fn write(key: Key, word: Option<u64>) -> Option<Slot> {
    let value = entry(key, 0, word).value;
    Some(Slot::Wrote {
        seat: 0,
        key,
        value,
    })
}

/// What stands of the slots between two times, the newest first.
const SLOTS: &[(u64, u64, &[Line])] = &[(1, 7, &[(2, 4, None), (1, 1, Some(5))]), (4, 4, &[])];

pub(super) fn entries_of_slots(alloc: Global) -> Result<(), Wrong> {
    let slots = [
        write(9, Some(5)),
        write(1, Some(5)),
        Some(Slot::Nothing),
        None,
        write(2, None),
    ];
    for row in 0..SLOTS.len() {
        let (from, to, found) = SLOTS[row];
        let Ok(newest_first) = entries_of(alloc, &slots, from, to) else {
            return Err(Wrong::Memory);
        };
        let expected = entries(alloc, found)?;
        let is_same = newest_first.as_slice() == expected.as_slice();
        same(is_same, Wrong::Slots(row))?;
    }
    Ok(())
}

const NO_HEAD: Cursor = Cursor {
    position: 0,
    head: None,
};

fn cursor(key: Key, time: u64, word: Option<u64>) -> Cursor {
    Cursor {
        position: 0,
        head: Some(entry(key, time, word).version()),
    }
}

pub(super) fn least_of_cursors() -> Result<(), Wrong> {
    let cursors = [
        NO_HEAD,
        cursor(7, 4, Some(74)),
        cursor(3, 2, Some(32)),
        NO_HEAD,
        cursor(3, 1, None),
        cursor(7, 4, Some(74)),
    ];
    let all = &cursors[..];
    let found = Some((2, entry(3, 2, Some(32)).version()));
    same(least(all) == found, Wrong::Least(0))?;
    let found = Some((0, entry(3, 1, None).version()));
    same(least(&all[4..]) == found, Wrong::Least(1))?;
    same(least(&[]).is_none(), Wrong::Least(2))?;
    same(least(&[NO_HEAD, NO_HEAD]).is_none(), Wrong::Least(3))
}

/// Entries that are judged in turn, with the key that is settled before each; and for level 0, and
/// then for level 1, whether it is kept, and which key is settled then. The floor is 5: the entries
/// of key 1 at and above it stay, then the first below it, and the next one is hidden. A removal
/// below it is not kept in level 1.
const JUDGED: &[(Option<u64>, Line, (bool, bool), Option<u64>)] = &[
    (None, (1, 6, None), (true, true), None),
    (None, (1, 5, Some(15)), (true, true), None),
    (None, (1, 4, Some(14)), (true, true), Some(1)),
    (Some(1), (1, 3, Some(13)), (false, false), Some(1)),
    (Some(1), (2, 4, Some(24)), (true, true), Some(2)),
    (None, (2, 4, None), (true, false), Some(2)),
];

pub(super) fn judge_by_the_floor() -> Result<(), Wrong> {
    for (row, (settled, (key, time, word), (in_zero, in_one), then)) in JUDGED.iter().enumerate() {
        let in_level_zero = judge(*settled, entry(*key, *time, *word).version(), 5, false);
        let in_level_one = judge(*settled, entry(*key, *time, *word).version(), 5, true);
        let is_same = in_level_zero == (*in_zero, *then) && in_level_one == (*in_one, *then);
        same(is_same, Wrong::Judged(row))?;
    }
    Ok(())
}
