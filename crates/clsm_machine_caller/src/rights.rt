//! Whether what a deed read is right at its time.
ghost use Rattle.std.specs.Prelude.{◌↔◌, IsTrue, length};
ghost use Rattle.clsm_model.specs.Right.{IsRight, Reads};
ghost use Rattle.clsm_law.specs.Worlds.{history_of, open_past};

use crate::batches::is_uncut;
use crate::pages::is_page;
use crate::ranges::{is_range, is_value};
use clsm_model::{Batch, Deed, Slot, Time};

/// Whether what the deed read, if it read, is what the slots give.
fn reads(seen: &[Option<Slot>], deed: &Deed) -> bool
    ensures { IsTrue result ↔ Reads (history_of seen.now) (length seen.now) deed.now }
{
    match deed {
        Deed::Rmw { key, old, .. } => is_value(seen, *key, *old),
        Deed::Get { key, reply } => is_value(seen, *key, *reply),
        Deed::GetAt { key, reply } => is_value(seen, *key, *reply),
        Deed::Scan { lo, hi, rows } => is_range(seen, *lo, *hi, rows.as_slice()),
        Deed::Page { range, rows, more } => is_page(seen, *range, rows.as_slice(), *more),
        _ => true,
    }
}

/// Whether the deed stands at a time of the past, and what it read is what the slots below that
/// time give; and the time is inside no batch.
pub(crate) fn is_right(
    slots: &[Option<Slot>],
    batches: &[Batch],
    past: Time,
    time: Time,
    deed: &Deed,
) -> bool
    ensures { IsTrue result ↔ IsRight (open_past slots.now batches.now past) time deed.now }
{
    if time > past || time > slots.len() as u64 {
        return false;
    }
    is_uncut(batches, time) && reads(&slots[..time as usize], deed)
}
