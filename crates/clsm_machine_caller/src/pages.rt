//! Whether rows are a page of a history, tested by the history's slots alone.
ghost use Rattle.std.specs.Prelude.{◌↔◌, IsTrue, length};
ghost use Rattle.clsm_law.specs.SeatReads.{IsNextKey, IsPageOf, IsRangeBelow};
ghost use Rattle.clsm_law.specs.Worlds.{history_of};

use crate::ranges::{is_range, value_of};
use clsm_model::{Key, PageRange, Slot, Value};

/// Whether the rows are all keys from `lo` on, below `hi`, that have a value after the slots, by
/// rising key.
fn is_range_below(seen: &[Option<Slot>], lo: Key, hi: Key, rows: &[(u64, Value)]) -> bool
    ensures { IsTrue result ↔ IsRangeBelow (history_of seen.now) (length seen.now) lo hi rows.now }
{
    if hi == 0 {
        return rows.is_empty();
    }
    is_range(seen, lo, hi - 1, rows)
}

/// Whether the rows are the last of the pairs that are asked for after the slots, and no more than
/// that.
fn is_last_page(seen: &[Option<Slot>], asked: PageRange, rows: &[(u64, Value)]) -> bool
    ensures { IsTrue result ↔ IsPageOf (history_of seen.now) (length seen.now) asked.from asked.hi asked.max rows.now None }
{
    rows.len() as u64 <= asked.max && is_range(seen, asked.from, asked.hi, rows)
}

fn is_next_key(seen: &[Option<Slot>], from: u64, hi: Key, key: Key) -> bool
    ensures { IsTrue result ↔ IsNextKey (history_of seen.now) (length seen.now) from hi key }
{
    from <= key && key <= hi && value_of(seen, key).is_some()
}

/// Whether they are the first of those pairs, as many as are asked for, and the next one's key is
/// `next`.
fn is_page_before(seen: &[Option<Slot>], asked: PageRange, rows: &[(u64, Value)], next: u64) -> bool
    ensures { IsTrue result ↔ IsPageOf (history_of seen.now) (length seen.now) asked.from asked.hi asked.max rows.now (Some next) }
{
    rows.len() as u64 == asked.max
        && is_next_key(seen, asked.from, asked.hi, next)
        && is_range_below(seen, asked.from, next, rows)
}

/// Whether the rows are the pairs that the page asks for after the slots, and `more` is the key of
/// the next one.
pub(crate) fn is_page(
    seen: &[Option<Slot>],
    asked: PageRange,
    rows: &[(u64, Value)],
    more: Option<u64>,
) -> bool
    ensures { IsTrue result ↔ IsPageOf (history_of seen.now) (length seen.now) asked.from asked.hi asked.max rows.now more }
{
    match more {
        None => is_last_page(seen, asked, rows),
        Some(next) => is_page_before(seen, asked, rows, next),
    }
}
