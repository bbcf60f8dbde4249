//! Values, refusals and the plain map.
use crate::tests::model::{Wrong, same};
use clsm_model::{Key, *};
use std::alloc::Global;

const GREATEST: u64 = u64::MAX;

/// One to eight words.
type Words = &'static [u64];

/// A write of a key, and its value; None for a removal. None for a time at which nothing is
/// written.
type Written = Option<(u64, Option<Words>)>;

/// What stands at keys.
type Pairs = &'static [(u64, Words)];

const SEVENTY: Words = &[70];

const SEVENTY_ONE: Words = &[71];

const WIDE: Words = &[1, 2, 3, 4, 5, 6, 7, 8];

/// Words, and as what the value of them is printed; None where they make no value.
const VALUES: &[(Words, Option<&str>)] = &[
    (&[], None),
    (&[GREATEST], Some("18446744073709551615")),
    (&[70], Some("70")),
    (&[1, 2, 3], Some("1,2,3")),
    (&[0, GREATEST], Some("0,18446744073709551615")),
    (
        &[GREATEST, 2, 3, 4, 5, 6, 7, 8],
        Some("18446744073709551615,2,3,4,5,6,7,8"),
    ),
    (&[GREATEST, 2, 3, 4, 5, 6, 7, 8, 0], None),
];

pub(super) fn values(alloc: Global) -> Result<(), Wrong> {
    for row in 0..VALUES.len() {
        let (words, printed) = VALUES[row];
        let is_same = match (Value::new(words), printed) {
            (Ok(value), Some(printed)) => {
                let Ok(text) = format!(in alloc; "{value}") else {
                    return Err(Wrong::Memory);
                };
                value.words() == words && text.as_str() == printed
            }
            (Err(Length), None) => true,
            _ => false,
        };
        same(is_same, Wrong::Values(row))?;
    }
    Ok(())
}

const REFUSALS: &[(OpenError, &str)] = &[
    (OpenError::Cells(3), "1 cells: 3 is not in 4 to 65536"),
    (OpenError::Seats(80), "2 seats: 80 is not in 1 to 64"),
    (OpenError::Shards(0), "3 shards: 0 is not in 1 to 1024"),
    (
        OpenError::Run(4_194_305),
        "4 run: 4194305 is not in 4 to 4194304",
    ),
    (OpenError::Memory, "5 memory ran out"),
    (OpenError::Patience(65), "9 patience: 65 is not in 0 to 64"),
];

pub(super) fn names(alloc: Global) -> Result<(), Wrong> {
    for row in 0..REFUSALS.len() {
        let (refusal, shown) = REFUSALS[row];
        let number = refusal.number();
        let Ok(text) = format!(in alloc; "{number} {refusal}") else {
            return Err(Wrong::Memory);
        };
        same(text.as_str() == shown, Wrong::Refusals(row))?;
    }
    let Ok(text) = format!(in alloc; "{Length} {Memory}") else {
        return Err(Wrong::Memory);
    };
    same(
        text.as_str() == "length memory",
        Wrong::Refusals(REFUSALS.len()),
    )
}

fn slot_of(written: Written) -> Slot {
    match written {
        Some((key, words)) => Slot::Wrote {
            seat: 0,
            key,
            value: match words {
                Some(words) => Value::new(words).ok(),
                None => None,
            },
        },
        None => Slot::Nothing,
    }
}

/// Whether the map has these pairs between the two keys, and no more.
fn holds(map: &PlainMap, lo: Key, hi: Key, pairs: Pairs) -> Result<bool, Wrong> {
    let Ok(rows) = map.range(lo, hi) else {
        return Err(Wrong::Memory);
    };
    for ((found, value), (key, words)) in rows.iter().zip(pairs) {
        if found != key || value.words() != *words || map.get(*key) != Some(*value) {
            return Ok(false);
        }
    }
    Ok(rows.len() == pairs.len())
}

/// Slots that a map plays one after another, and what it then has.
const PLAYED: &[(Written, Pairs)] = &[
    (None, &[]),
    (Some((7, Some(SEVENTY))), &[(7, SEVENTY)]),
    (Some((3, Some(WIDE))), &[(3, WIDE), (7, SEVENTY)]),
    (Some((7, Some(SEVENTY_ONE))), &[(3, WIDE), (7, SEVENTY_ONE)]),
    (None, &[(3, WIDE), (7, SEVENTY_ONE)]),
    (Some((3, None)), &[(7, SEVENTY_ONE)]),
    (Some((4, None)), &[(7, SEVENTY_ONE)]),
    (
        Some((GREATEST, Some(WIDE))),
        &[(7, SEVENTY_ONE), (GREATEST, WIDE)],
    ),
    (Some((7, None)), &[(GREATEST, WIDE)]),
    (Some((GREATEST, None)), &[]),
    (Some((1, Some(SEVENTY))), &[(1, SEVENTY)]),
    (Some((2, Some(SEVENTY))), &[(1, SEVENTY), (2, SEVENTY)]),
    (None, &[(1, SEVENTY), (2, SEVENTY)]),
    (Some((1, None)), &[(2, SEVENTY)]),
    (Some((2, Some(SEVENTY_ONE))), &[(2, SEVENTY_ONE)]),
];

/// A map that plays slot after slot, and after each one the replay of all so far, has what is
/// written.
pub(super) fn plays(alloc: Global) -> Result<(), Wrong> {
    let mut map = PlainMap::new(alloc);
    let mut slots = Vec::new(alloc);
    for (row, (written, pairs)) in PLAYED.iter().enumerate() {
        let slot = slot_of(*written);
        if map.apply(&slot).is_err() || slots.push(slot).is_err() {
            return Err(Wrong::Memory);
        }
        let Ok(replayed) = PlainMap::replay(alloc, &slots) else {
            return Err(Wrong::Memory);
        };
        let is_same = holds(&map, 0, GREATEST, pairs)? && holds(&replayed, 0, GREATEST, pairs)?;
        let has_removed = match written {
            Some((key, None)) => map.get(*key).is_some(),
            _ => false,
        };
        same(
            is_same && !has_removed && map.get(4).is_none(),
            Wrong::Played(row),
        )?;
    }
    Ok(())
}

pub(super) fn many_keys(alloc: Global) -> Result<(), Wrong> {
    let mut map = PlainMap::new(alloc);
    for key in 0..40 {
        let value = Value::new(&[key]).ok();
        let seat = 0;
        if map.apply(&Slot::Wrote { seat, key, value }).is_err() {
            return Err(Wrong::Memory);
        }
        let Ok(rows) = map.range(0, GREATEST) else {
            return Err(Wrong::Memory);
        };
        let half = key / 2;
        let is_same = rows.len() as u64 == key + 1
            && map.get(key) == value
            && map.get(half) == Value::new(&[half]).ok()
            && match rows.last() {
                Some((last, word)) => *last == key && Some(*word) == value,
                None => false,
            };
        same(is_same, Wrong::Keys(key as usize))?;
    }
    Ok(())
}

/// What a map with the keys 3, 7 and 2^64 - 1 has between two keys.
const RANGES: &[(u64, u64, Pairs)] = &[
    (
        0,
        GREATEST,
        &[(3, SEVENTY), (7, SEVENTY), (GREATEST, SEVENTY)],
    ),
    (3, 7, &[(3, SEVENTY), (7, SEVENTY)]),
    (4, 7, &[(7, SEVENTY)]),
    (3, 6, &[(3, SEVENTY)]),
    (4, 6, &[]),
    (8, GREATEST, &[(GREATEST, SEVENTY)]),
    (GREATEST, GREATEST, &[(GREATEST, SEVENTY)]),
    (7, 3, &[]),
    (GREATEST, 0, &[]),
];

pub(super) fn ranges(alloc: Global) -> Result<(), Wrong> {
    let slots = [
        slot_of(Some((GREATEST, Some(SEVENTY)))),
        slot_of(Some((3, Some(SEVENTY)))),
        slot_of(Some((7, None))),
        slot_of(Some((7, Some(SEVENTY)))),
    ];
    let Ok(map) = PlainMap::replay(alloc, &slots) else {
        return Err(Wrong::Memory);
    };
    for (row, (lo, hi, pairs)) in RANGES.iter().enumerate() {
        same(holds(&map, *lo, *hi, pairs)?, Wrong::Ranges(row))?;
    }
    Ok(())
}
