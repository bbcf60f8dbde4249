//! Whether rows are a range of a history, tested by the history's slots alone.
ghost use Rattle.std.specs.Prelude.{◌≡◌, ◌↔◌, All, IsTrue, length};
ghost use Rattle.clsm_model.specs.History.{value};
ghost use Rattle.clsm_model.specs.Map.{IsRange, KeysRise, value_at};
ghost use Rattle.clsm_law.specs.SeatReads.{Gives, IsGivenRow, IsGivenWrite};
ghost use Rattle.clsm_law.specs.Worlds.{history_of};

use clsm_model::{Key, Slot, Value};

/// The value of the key after all these slots.
pub(crate) fn value_of(seen: &[Option<Slot>], key: Key) -> Option<Value>
    ensures { result ≡ value (history_of seen.now) key (length seen.now) }
{
    let mut value = None;
    for slot in seen {
        if let Some(slot) = slot {
            value = slot.value_after(key, value);
        }
    }
    value
}

/// Whether this is the value of the key after the slots.
pub(crate) fn is_value(seen: &[Option<Slot>], key: Key, reply: Option<Value>) -> bool
    ensures { IsTrue result ↔ (reply ≡ value (history_of seen.now) key (length seen.now)) }
{
    reply == value_of(seen, key)
}

/// What the rows give for the key.
fn value_at(rows: &[(u64, Value)], key: Key) -> Option<Value>
    ensures { result ≡ value_at rows.now key }
{
    let row = rows.iter().find(|row| key == row.0)?;
    Some(row.1)
}

/// Whether the rows give the key its value after the slots.
fn gives(seen: &[Option<Slot>], rows: &[(u64, Value)], key: Key) -> bool
    ensures { IsTrue result ↔ Gives (history_of seen.now) (length seen.now) rows.now key }
{
    is_value(seen, key, value_at(rows, key))
}

fn keys_rise(rows: &[(u64, Value)]) -> bool
    ensures { IsTrue result ↔ KeysRise rows.now }
{
    rows.is_sorted_by(|row, next| row.0 < next.0)
}

/// Whether each row's key is from `lo` to `hi`, and has the row's value after the slots.
fn is_each_row_given(seen: &[Option<Slot>], lo: Key, hi: Key, rows: &[(u64, Value)]) -> bool
    ensures { IsTrue result ↔ All (IsGivenRow (history_of seen.now) (length seen.now) lo hi rows.now) rows.now }
{
    rows.iter().all(|row| lo <= row.0 && row.0 <= hi && gives(seen, rows, row.0))
}

/// Whether the rows give the key of the write its value after the slots, where the key is from `lo`
/// to `hi`.
fn is_given_write(
    seen: &[Option<Slot>],
    lo: Key,
    hi: Key,
    rows: &[(u64, Value)],
    slot: Option<Slot>,
) -> bool
    ensures { IsTrue result ↔ IsGivenWrite (history_of seen.now) (length seen.now) lo hi rows.now slot }
{
    match slot {
        Some(Slot::Wrote { key, .. }) if lo <= key && key <= hi => gives(seen, rows, key),
        _ => true,
    }
}

fn is_each_write_given(seen: &[Option<Slot>], lo: Key, hi: Key, rows: &[(u64, Value)]) -> bool
    ensures { IsTrue result ↔ All (IsGivenWrite (history_of seen.now) (length seen.now) lo hi rows.now) seen.now }
{
    seen.iter()
        .all(|slot| is_given_write(seen, lo, hi, rows, *slot))
}

/// Whether the rows are all keys from `lo` to `hi` that have a value after the slots, by rising
/// key.
pub(crate) fn is_range(seen: &[Option<Slot>], lo: Key, hi: Key, rows: &[(u64, Value)]) -> bool
    ensures { IsTrue result ↔ IsRange (history_of seen.now) (length seen.now) lo hi rows.now }
{
    keys_rise(rows)
        && is_each_row_given(seen, lo, hi, rows)
        && is_each_write_given(seen, lo, hi, rows)
}
