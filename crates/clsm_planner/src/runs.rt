//! Looks at the runs of a component, in the order of their entries: what stands there does not
//! change while it is held.
use crate::made::{Made, Stop};
use clsm_law::{Word, level_one_place};
use clsm_levels::{Entry, level_zero_runs};
use clsm_model::{Key, Time, Value};

/// The parts of an entry: its key, twice its time and 1 more for a removal, the number of its
/// value's words, and the first of these.
const KEY: u64 = 0;

const TIME: u64 = 1;

const LENGTH: u64 = 2;

const VALUE: u64 = 3;

fn part_of(made: &mut Made, place: u64, entry: u64, part: u64) -> Result<u64, Stop> {
    made.look(Word::Entry { place, entry, part })
}

/// The value of the entry.
fn value_in(made: &mut Made, place: u64, entry: u64) -> Result<Option<Value>, Stop> {
    let length = part_of(made, place, entry, LENGTH)?;
    let count = length.min(8) as usize;
    let mut words = [0; 8];
    for index in 0..count {
        words[index] = part_of(made, place, entry, VALUE + index as u64)?;
    }
    Ok(Value::new(&words[..count]).ok())
}

/// The entry of this key with this time word.
fn entry_in(made: &mut Made, place: u64, entry: u64, key: Key, stamp: u64) -> Result<Entry, Stop> {
    let value = if stamp % 2 == 1 {
        None
    } else {
        value_in(made, place, entry)?
    };
    let time = stamp / 2;
    Ok(Entry { key, time, value })
}

/// The first entry of the run with a key from `lo` to `hi` and a time below `until`.
fn first_of(
    made: &mut Made,
    place: u64,
    lo: Key,
    hi: Key,
    until: Time,
) -> Result<Option<Entry>, Stop> {
    let count = made.look(Word::Count(place))?;
    for number in 0..count {
        let key = part_of(made, place, number, KEY)?;
        if key > hi {
            return Ok(None);
        }
        if key < lo {
            continue;
        }
        let stamp = part_of(made, place, number, TIME)?;
        if stamp / 2 < until {
            return Ok(Some(entry_in(made, place, number, key, stamp)?));
        }
    }
    Ok(None)
}

/// The newest entry below `until` of the least key from `lo` to `hi` that has one, in the runs of
/// the component.
pub(crate) fn search(
    made: &mut Made,
    component: u64,
    lo: Key,
    hi: Key,
    until: Time,
) -> Result<Option<Entry>, Stop> {
    let mut least = first_of(made, level_one_place(component), lo, hi, until)?;
    for place in 0..level_zero_runs(component) {
        let last = match &least {
            Some(entry) => entry.key,
            None => hi,
        };
        if let Some(entry) = first_of(made, place, lo, last, until)? {
            least = Some(entry);
        }
    }
    Ok(least)
}
