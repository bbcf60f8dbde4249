//! The writes of an epoch as entries.
ghost use Rattle.std.specs.Prelude.{◌≡◌, ◌-◌, ◌≤◌, [], ◌∷◌, IfOk, length, slice_index_or};
ghost use Rattle.std.specs.Option.{option_to_list};
ghost use Rattle.clsm_model.specs.History.{plain};
ghost use Rattle.clsm_levels.specs.Run.{IsExact};
ghost use Rattle.clsm_levels.specs.Entry.{entry_of, entries_of, decided_slots};

use crate::entry::Entry;
use clsm_model::{Slot, Time};
use std::alloc::{AllocError, Global};

/// The write at the time, if there is one.
fn entry_at(slots: &[Option<Slot>], time: Time) -> Option<Entry>
    ensures { option_to_list result
        ≡ entry_of time (slice_index_or (decided_slots slots.now) time Slot.Nothing) }
{
    let slot = slots.get(time as usize).copied().flatten()?;
    match slot {
        Slot::Wrote { key, value, .. } => Some(Entry { key, time, value }),
        Slot::Nothing => None,
    }
}

/// The writes with `from <= time < to`, the newest first. A slot that is not decided, or not there,
/// is no write.
pub fn entries_of(
    alloc: Global,
    slots: &[Option<Slot>],
    from: Time,
    to: Time,
) -> Result<Vec<Entry>, AllocError>
    ensures entries { IfOk result
        (λ entries. entries.items ≡ entries_of (decided_slots slots.now) from to) }
    ensures exact { IfOk result
        (λ entries. from ≡ 0 → IsExact (entries.items ∷ []) (plain (decided_slots slots.now)) 0 to) }
    ensures small { IfOk result (λ entries. length entries.items ≤ to - from) }
{
    let mut entries = Vec::new(alloc);
    for time in (from..to).rev() {
        if let Some(entry) = entry_at(slots, time) {
            entries.push(entry)?;
        }
    }
    Ok(entries)
}
