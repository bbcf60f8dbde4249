//! The rows of a range of keys in a component.
use crate::cells::{part_of, value_in};
use crate::made::{Made, Stop};
use crate::place::Place;
use crate::runs::search;
use clsm_law::{Layout, Part, Word};
use clsm_levels::Entry;
use clsm_model::{Key, Rows, Time, Value};
use std::alloc::{AllocError, Global};

/// The keys from `lo` to `hi`.
#[derive(Clone, Copy)]
pub(crate) struct Keys {
    pub(crate) lo: Key,
    pub(crate) hi: Key,
}

/// Puts the entry behind those of its key and of lesser keys.
pub(crate) fn put_in(row: &mut Vec<Entry>, entry: Entry) -> Result<(), AllocError> {
    let end = row.len();
    let place = row.iter().position(|other| other.key > entry.key);
    row.insert(place.unwrap_or(end), entry)?;
    Ok(())
}

/// The write of the time, if it is one of these keys.
fn entry_of(
    made: &mut Made,
    layout: &Layout,
    time: Time,
    keys: &Keys,
) -> Result<Option<Entry>, Stop> {
    let cell = layout.cell_of(time);
    let key = part_of(made, cell, Part::Key)?;
    if key < keys.lo || keys.hi < key {
        return Ok(None);
    }
    let value = match made.look(Word::State(cell))? {
        0 | 1 => return Ok(None),
        2 => value_in(made, cell)?,
        _ => None,
    };
    Ok(Some(Entry { key, time, value }))
}

/// The writes of these keys in the component's epochs below the read's time: by rising key, and the
/// newest of a key first.
fn gather(
    made: &mut Made,
    alloc: Global,
    layout: &Layout,
    place: &Place,
    keys: &Keys,
) -> Result<Vec<Entry>, Stop> {
    let first = place.component.saturating_mul(layout.cells);
    let mut row = Vec::new(alloc);
    for time in (first..place.time).rev() {
        if let Some(entry) = entry_of(made, layout, time, keys)? {
            put_in(&mut row, entry)?;
        }
    }
    Ok(row)
}

/// The newest entry of the least of the keys: of the epochs' writes, or else of the runs.
fn next_entry(
    made: &mut Made,
    row: &[Entry],
    place: &Place,
    keys: &Keys,
) -> Result<Option<Entry>, Stop> {
    let Keys { lo, hi } = *keys;
    let own = row.iter().find(|entry| entry.key >= lo).copied();
    let found = search(made, place.component, lo, hi, place.time)?;
    match (&own, &found) {
        (Some(newer), Some(older)) if older.key < newer.key => Ok(found),
        (Some(_), _) => Ok(own),
        (None, _) => Ok(found),
    }
}

/// Puts the row behind the others, if it has a value.
fn push_row(
    rows: &mut Vec<(u64, Value)>,
    key: Key,
    value: Option<Value>,
) -> Result<(), AllocError> {
    if let Some(value) = value {
        rows.push((key, value))?;
    }
    Ok(())
}

/// The rows of all these keys below the read's time: of the epochs' writes and of the runs. There
/// are no more keys than times.
pub(crate) fn rows_below(
    made: &mut Made,
    alloc: Global,
    layout: &Layout,
    place: &Place,
    keys: &Keys,
) -> Result<Rows, Stop> {
    let row = gather(made, alloc, layout, place, keys)?;
    let mut rows = Vec::new(alloc);
    let mut left = *keys;
    for _ in 0..place.time.saturating_add(1) {
        let Some(entry) = next_entry(made, row.as_slice(), place, &left)? else {
            return Ok(Rows::new(rows));
        };
        push_row(&mut rows, entry.key, entry.value)?;
        let Some(behind) = entry.key.checked_add(1) else {
            return Ok(Rows::new(rows));
        };
        left.lo = behind;
    }
    Ok(Rows::new(rows))
}
