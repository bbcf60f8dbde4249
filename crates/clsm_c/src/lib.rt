//! The store for C: one export for each call. `capi/core/clsm_core.h` declares them, and says what
//! C owes.
//!
//! A handle lies in memory of C's own: a store, a caller or the merger, or none where it was
//! refused. An export is given the pointer to it, and lends it to a safe function of `calls`.
#![tactic(auto)]

ghost use Rattle.std.specs.Prelude.{◌≡◌};
ghost use Rattle.std.specs.Ptr.{room_at};
ghost use Rattle.clsm_model.specs.declared.record.Deed.TheVariants.{Remove};
ghost use Rattle.clsm_model.specs.Changes.{Adds};
ghost use Rattle.clsm_store.specs.Freezing.{TryFreezes};
ghost use Rattle.clsm_store.specs.Phase.{CountsIfFrozen};
ghost use Rattle.clsm_store.specs.Promises.{ClosesSnapshot, CountsRange, Gets, GetsAtIfOpen, OpensSnapshot, TriesToChangeBy, TriesToWrite};
ghost use Rattle.clsm_store.specs.Sweeping.{TrySweeps};
ghost use Rattle.clsm_c.specs.Calls.{BatchesRows, ByCaller, ByMerger, LooksAtPhase, Opens, Pages, PagesDown, PutsRow, ReplacesValue, TakesCaller, TakesMerger};
ghost use Rattle.clsm_c.specs.Calls.{TellsChange, TellsClosed, TellsCounted, TellsEntries, TellsFreeze, TellsGot, TellsGotAt, TellsOpened};
ghost use Rattle.clsm_c.specs.Calls.{FillsValues, GetsValues, GetsValuesAt, TellsSweep, TellsTry, Told};
ghost use Rattle.clsm_c.specs.Conditional.{BatchesRowsIf};
ghost use Rattle.clsm_c.specs.Lent.{both, bytes_of, left, lies};
ghost use Rattle.clsm_c.specs.contracts.slots.CallerSlot.{the_row as caller_row};
ghost use Rattle.clsm_c.specs.contracts.slots.MergerSlot.{the_row as merger_row};
ghost use Rattle.clsm_c.specs.contracts.slots.StoreSlot.{the_row as store_row};
ghost use types.Logic.{sem};

mod calls;
pub mod codes;
mod conditions;
mod many;
mod merging;
mod opening;
mod shared;
mod slots;
mod types;

use slots::{CallerSlot, MergerSlot, StoreSlot};
pub use slots::{
    CALLER_ALIGNMENT, CALLER_WORDS, MERGER_ALIGNMENT, MERGER_WORDS, STORE_ALIGNMENT, STORE_WORDS,
};
use std::alloc::Global;
pub use types::{
    CoreAdding, CoreChanged, CoreCode, CoreCounted, CoreEntries, CoreGot, CoreKey, CorePaged,
    CorePhase, CoreRange, CoreRangeCount, CoreReplacing, CoreRooms, CoreRow, CoreSizes, CoreTime,
    CoreTurn, CoreUnmet, CoreUsed, CoreValue,
};

// ---- stores

/// Answers how many bytes each kind of handle takes. The types of handles have that room.
#[unsafe(no_mangle)]
pub extern "C" fn clsm_core_room(answer: &mut CoreRooms)
    ensures store { answer.new.store ≡ bytes_of store_row }
    ensures caller { answer.new.caller ≡ bytes_of caller_row }
    ensures merger { answer.new.merger ≡ bytes_of merger_row }
{
    *answer = slots::rooms();
}

/// Opens an empty store of these sizes, takes all its memory, and makes its handle. Answers `OK`,
/// or the first size out of its range, in the order `BAD_EPOCH` (cells), `BAD_SEATS`, `BAD_SHARDS`,
/// `BAD_KEYS` (run), `BAD_PATIENCE`, or `MEMORY`: the handle is empty then, and nothing is kept.
#[unsafe(no_mangle)]
pub unsafe extern "C" fn clsm_core_open(
    alloc: Global,
    ask: &CoreSizes,
    answer: &mut CoreCode,
    store: *mut u8,
)
    requires* { sem 𝓛 (room_at store_row store) }
    ensures* { sem 𝓛 (left store_row store (λ made. Opens ask.now answer.new made.handles)) }
{
    unsafe {
        store
            .cast::<StoreSlot>()
            .write(calls::open(alloc, ask, answer))
    }
}

/// Gives the handle of a store back. Its memory is given back with the last of its handles, callers
/// and the merger among them: this is tested, and not proved.
#[unsafe(no_mangle)]
pub unsafe extern "C" fn clsm_core_close(store: *mut u8)
    ghost old: { StoreSlot }
    requires* { sem 𝓛 (lies store_row store old) }
    ensures* { sem 𝓛 (room_at store_row store) }
{
    calls::close(unsafe { store.cast::<StoreSlot>().read() });
}

/// Makes the handle of a caller: of the last seat of the store that is not taken. Answers `OK`, or
/// `NO_HANDLE` if none is left: the handle is empty then.
#[unsafe(no_mangle)]
pub unsafe extern "C" fn clsm_core_take_caller(
    store: *mut u8,
    answer: &mut CoreCode,
    caller: *mut u8,
)
    ghost old: { StoreSlot }
    requires* store { sem 𝓛 (lies store_row store old) }
    requires* room { sem 𝓛 (room_at caller_row caller) }
    ensures* { sem 𝓛 (both store_row caller_row store caller (λ new made. TakesCaller old.handles new.handles answer.new made.caller)) }
{
    let made = calls::take_caller(unsafe { &mut *store.cast::<StoreSlot>() }, answer);
    unsafe { caller.cast::<CallerSlot>().write(made) }
}

/// Gives the handle of a caller back. Its seat cannot be taken again, and what it pins stays
/// pinned.
#[unsafe(no_mangle)]
pub unsafe extern "C" fn clsm_core_drop_caller(caller: *mut u8)
    ghost old: { CallerSlot }
    requires* { sem 𝓛 (lies caller_row caller old) }
    ensures* { sem 𝓛 (room_at caller_row caller) }
{
    calls::drop_caller(unsafe { caller.cast::<CallerSlot>().read() });
}

/// Makes the handle of the merger, of which a store has one. Answers `OK`, or `NO_HANDLE` if it is
/// taken: the handle is empty then.
#[unsafe(no_mangle)]
pub unsafe extern "C" fn clsm_core_take_merger(
    store: *mut u8,
    answer: &mut CoreCode,
    merger: *mut u8,
)
    ghost old: { StoreSlot }
    requires* store { sem 𝓛 (lies store_row store old) }
    requires* room { sem 𝓛 (room_at merger_row merger) }
    ensures* { sem 𝓛 (both store_row merger_row store merger (λ new made. TakesMerger old.handles new.handles answer.new made.merger)) }
{
    let made = calls::take_merger(unsafe { &mut *store.cast::<StoreSlot>() }, answer);
    unsafe { merger.cast::<MergerSlot>().write(made) }
}

/// Gives the handle of the merger back. Nothing merges the store from then on.
#[unsafe(no_mangle)]
pub unsafe extern "C" fn clsm_core_drop_merger(merger: *mut u8)
    ghost old: { MergerSlot }
    requires* { sem 𝓛 (lies merger_row merger old) }
    ensures* { sem 𝓛 (room_at merger_row merger) }
{
    calls::drop_merger(unsafe { merger.cast::<MergerSlot>().read() });
}

// ---- a caller's writes

/// Writes the value at the key, and answers `OK` and the write's time. It tries each exchange once.
/// Refused with `FULL` and the clock's time if the epoch has no timestamp left, `BUSY` if the lock
/// was not free to enter, `RACED` if another caller was faster, `OVERTAKEN` if a reader cancelled
/// the write, and `BAD_VALUE`: nothing was written then.
#[unsafe(no_mangle)]
pub unsafe extern "C" fn clsm_core_try_put(
    caller: *mut u8,
    ask: &CoreRow,
    answer: &mut CoreTime,
) -> u32
    ghost old: { CallerSlot }
    requires* { sem 𝓛 (lies caller_row caller old) }
    ensures* { sem 𝓛 (left caller_row caller (λ new. ByCaller (PutsRow ask.now answer.new result) old.caller new.caller result)) }
{
    calls::try_put(unsafe { &mut *caller.cast::<CallerSlot>() }, ask, answer)
}

/// Removes the key, whether or not it has a value, and answers `OK` and the removal's time. Refused
/// as `clsm_core_try_put`, but for `BAD_VALUE`.
#[unsafe(no_mangle)]
pub unsafe extern "C" fn clsm_core_try_remove(
    caller: *mut u8,
    ask: &CoreKey,
    answer: &mut CoreTime,
) -> u32
    ghost old: { CallerSlot }
    requires* { sem 𝓛 (lies caller_row caller old) }
    ensures* { sem 𝓛 (left caller_row caller (λ new. ByCaller (λ before after.
        Told (TriesToWrite before after (Remove ask.now.key)) (TellsTry answer.new result)) old.caller new.caller result)) }
{
    calls::try_remove(unsafe { &mut *caller.cast::<CallerSlot>() }, ask, answer)
}

/// Writes the rows as one batch: at consecutive times in their order, all of which become visible
/// at one moment. A row without a value removes its key; of several rows of one key the last one
/// wins. Answers `OK` and the time of the first row. It takes memory for the rows while it runs,
/// and tries to take the lock once. Refused, in this order, with `MEMORY`, `BAD_VALUE` if a value
/// has more than eight words, `BAD_BATCH` if there is no row or more than an epoch has cells,
/// `BUSY` if the lock was not free, and `FULL` and the clock's time if the epoch has fewer
/// timestamps left than there are rows: nothing was written then.
#[unsafe(no_mangle)]
pub unsafe extern "C" fn clsm_core_try_batch(
    caller: *mut u8,
    rows: &[CoreRow],
    answer: &mut CoreTime,
) -> u32
    ghost old: { CallerSlot }
    requires* { sem 𝓛 (lies caller_row caller old) }
    ensures* { sem 𝓛 (left caller_row caller (λ new. ByCaller (BatchesRows rows.now answer.new result) old.caller new.caller result)) }
{
    calls::try_batch(unsafe { &mut *caller.cast::<CallerSlot>() }, rows, answer)
}

/// Writes the rows as one batch, as `clsm_core_try_batch`, if each expected row has its value, or,
/// if it has none, its key has none, and each count is the number of keys of its range that have a
/// value: all of that at the batch's own time. Answers `OK` and the time of the first row; with no
/// row it writes nothing, and answers a time at which all that holds. It takes memory for what it
/// is passed while it runs, and tries to take the lock once. Refused, in this order, with `MEMORY`
/// and `BAD_VALUE` as there, for the expected rows first, `BAD_BATCH` if there are more rows than
/// an epoch has cells, `BUSY` if the lock was not free, `KEPT`, the clock's time and the place of
/// the first that does not hold, and `FULL` and the clock's time if the epoch has fewer timestamps
/// left than there are rows: nothing was written then.
#[unsafe(no_mangle)]
pub unsafe extern "C" fn clsm_core_try_batch_if(
    caller: *mut u8,
    expected: &[CoreRow],
    counts: &[CoreRangeCount],
    rows: &[CoreRow],
    answer: &mut CoreUnmet,
) -> u32
    ghost old: { CallerSlot }
    requires* { sem 𝓛 (lies caller_row caller old) }
    ensures* { sem 𝓛 (left caller_row caller (λ new. ByCaller (BatchesRowsIf expected.now counts.now rows.now answer.new result)
        old.caller new.caller result)) }
{
    calls::try_batch_if(
        unsafe { &mut *caller.cast::<CallerSlot>() },
        expected,
        counts,
        rows,
        answer,
    )
}

// ---- a caller's read-modify-writes

/// Adds a number to the key's word, which counts as 0 if the key has no value, and answers `OK`,
/// the time, and the values before and after; or `KEPT` if the value has several words or the sum
/// passes 2^64 - 1: the value is as before then. Refused as `clsm_core_try_remove`, and with
/// `RACED` also if another caller wrote the key between its read and its write.
#[unsafe(no_mangle)]
pub unsafe extern "C" fn clsm_core_try_add(
    caller: *mut u8,
    ask: &CoreAdding,
    answer: &mut CoreChanged,
) -> u32
    ghost old: { CallerSlot }
    requires* { sem 𝓛 (lies caller_row caller old) }
    ensures* { sem 𝓛 (left caller_row caller (λ new. ByCaller (λ before after.
        Told (TriesToChangeBy before after ask.now.key (Adds ask.now.by)) (TellsChange answer.new result)) old.caller new.caller result)) }
{
    calls::try_add(unsafe { &mut *caller.cast::<CallerSlot>() }, ask, answer)
}

/// Replaces the key's value by the desired one if it is the expected one, where each may be no
/// value, and answers as `clsm_core_try_add`: `KEPT` if the key has another value than the expected
/// one. Refused as that, and with `BAD_VALUE`.
#[unsafe(no_mangle)]
pub unsafe extern "C" fn clsm_core_try_replace(
    caller: *mut u8,
    ask: &CoreReplacing,
    answer: &mut CoreChanged,
) -> u32
    ghost old: { CallerSlot }
    requires* { sem 𝓛 (lies caller_row caller old) }
    ensures* { sem 𝓛 (left caller_row caller (λ new. ByCaller (ReplacesValue ask.now answer.new result) old.caller new.caller result)) }
{
    calls::try_replace(unsafe { &mut *caller.cast::<CallerSlot>() }, ask, answer)
}

// ---- a caller's reads

/// Reads the key at a time of its own, which is the clock's, and answers the time and the value,
/// and `OK`, or `NOT_FOUND` if the key has no value: the length is 0 then. It is never refused.
#[unsafe(no_mangle)]
pub unsafe extern "C" fn clsm_core_get(caller: *mut u8, ask: &CoreKey, answer: &mut CoreGot) -> u32
    ghost old: { CallerSlot }
    requires* { sem 𝓛 (lies caller_row caller old) }
    ensures* { sem 𝓛 (left caller_row caller (λ new. ByCaller (λ before after.
        Told (Gets before after ask.now.key) (TellsGot answer.new result)) old.caller new.caller result)) }
{
    calls::get(unsafe { &mut *caller.cast::<CallerSlot>() }, ask, answer)
}

/// Opens the caller's snapshot at a time of its own, which is the clock's, and answers `OK` and
/// that time. Refused with `OPEN` and the time of the one that is open.
#[unsafe(no_mangle)]
pub unsafe extern "C" fn clsm_core_snapshot(caller: *mut u8, answer: &mut CoreTime) -> u32
    ghost old: { CallerSlot }
    requires* { sem 𝓛 (lies caller_row caller old) }
    ensures* { sem 𝓛 (left caller_row caller (λ new. ByCaller (λ before after.
        Told (OpensSnapshot before after) (TellsOpened answer.new result)) old.caller new.caller result)) }
{
    calls::snapshot(unsafe { &mut *caller.cast::<CallerSlot>() }, answer)
}

/// Closes the caller's snapshot, and answers `OK` and its time. Refused with `NO_SNAPSHOT`.
#[unsafe(no_mangle)]
pub unsafe extern "C" fn clsm_core_close_snapshot(caller: *mut u8, answer: &mut CoreTime) -> u32
    ghost old: { CallerSlot }
    requires* { sem 𝓛 (lies caller_row caller old) }
    ensures* { sem 𝓛 (left caller_row caller (λ new. ByCaller (λ before after.
        Told (ClosesSnapshot before after) (TellsClosed answer.new result)) old.caller new.caller result)) }
{
    calls::close_snapshot(unsafe { &mut *caller.cast::<CallerSlot>() }, answer)
}

/// Reads the key below the time of the caller's open snapshot, as `clsm_core_get`. Refused with
/// `NO_SNAPSHOT`.
#[unsafe(no_mangle)]
pub unsafe extern "C" fn clsm_core_get_at(
    caller: *mut u8,
    ask: &CoreKey,
    answer: &mut CoreGot,
) -> u32
    ghost old: { CallerSlot }
    requires* { sem 𝓛 (lies caller_row caller old) }
    ensures* { sem 𝓛 (left caller_row caller (λ new. ByCaller (λ before after.
        Told (GetsAtIfOpen before after ask.now.key) (TellsGotAt answer.new result)) old.caller new.caller result)) }
{
    calls::get_at(unsafe { &mut *caller.cast::<CallerSlot>() }, ask, answer)
}

/// Reads each of the keys at one time, which is the clock's, and writes its value at the same place
/// of the values: a length of 0 says that the key has none. As many keys are read as there are
/// values, or fewer, and the values behind these stay as they are. It answers `OK` and that time,
/// also where no key is read. It is never refused, and takes no memory.
#[unsafe(no_mangle)]
pub unsafe extern "C" fn clsm_core_get_many(
    caller: *mut u8,
    keys: &[CoreKey],
    values: &mut [CoreValue],
    answer: &mut CoreTime,
) -> u32
    ghost old: { CallerSlot }
    requires* { sem 𝓛 (lies caller_row caller old) }
    ensures* { sem 𝓛 (left caller_row caller (λ new.
        FillsValues (GetsValues answer.new result) old.caller keys.now values.old new.caller values.new result)) }
{
    many::get_many(
        unsafe { &mut *caller.cast::<CallerSlot>() },
        keys,
        values,
        answer,
    )
}

/// Reads each of the keys below the time of the caller's open snapshot, as `clsm_core_get_many`.
/// Refused with `NO_SNAPSHOT`: the values stay as they are then.
#[unsafe(no_mangle)]
pub unsafe extern "C" fn clsm_core_get_many_at(
    caller: *mut u8,
    keys: &[CoreKey],
    values: &mut [CoreValue],
    answer: &mut CoreTime,
) -> u32
    ghost old: { CallerSlot }
    requires* { sem 𝓛 (lies caller_row caller old) }
    ensures* { sem 𝓛 (left caller_row caller (λ new.
        FillsValues (GetsValuesAt answer.new result) old.caller keys.now values.old new.caller values.new result)) }
{
    many::get_many_at(
        unsafe { &mut *caller.cast::<CallerSlot>() },
        keys,
        values,
        answer,
    )
}

/// Counts the keys of the range that have a value: below the time of the caller's open snapshot, or
/// else at a time of its own, which is the clock's. Answers `OK`, that time and the number, which
/// is 0 if the first key is above the last. It looks at each key of the range.
#[unsafe(no_mangle)]
pub unsafe extern "C" fn clsm_core_count(
    caller: *mut u8,
    ask: &CoreRange,
    answer: &mut CoreCounted,
) -> u32
    ghost old: { CallerSlot }
    requires* { sem 𝓛 (lies caller_row caller old) }
    ensures* { sem 𝓛 (left caller_row caller (λ new. ByCaller (λ before after.
        Told (CountsRange before after ask.now.first ask.now.last) (TellsCounted answer.new result)) old.caller new.caller result)) }
{
    calls::count(unsafe { &mut *caller.cast::<CallerSlot>() }, ask, answer)
}

/// Fills rows by rising key: the first ones of the range that have a value, as many as there is
/// room for. The rows behind these stay as they are. It reads at the time that `clsm_core_count`
/// would, and takes no memory. Answers `OK`, that time, the number of rows filled, and where the
/// next page begins, if there are more.
#[unsafe(no_mangle)]
pub unsafe extern "C" fn clsm_core_page(
    caller: *mut u8,
    ask: &CoreRange,
    rows: &mut [CoreRow],
    answer: &mut CorePaged,
) -> u32
    ghost old: { CallerSlot }
    requires* { sem 𝓛 (lies caller_row caller old) }
    ensures* { sem 𝓛 (left caller_row caller (λ new. Pages old.caller ask.now rows.old new.caller rows.new answer.new result)) }
{
    calls::page(
        unsafe { &mut *caller.cast::<CallerSlot>() },
        ask,
        rows,
        answer,
    )
}

/// Fills rows by falling key: the last ones of the range that have a value, as many as there is
/// room for. The rows behind these stay as they are. It reads at the time that `clsm_core_count`
/// would, and takes no memory. Answers `OK`, that time, the number of rows filled, and at which key
/// the next page downwards begins, if there are more.
#[unsafe(no_mangle)]
pub unsafe extern "C" fn clsm_core_page_down(
    caller: *mut u8,
    ask: &CoreRange,
    rows: &mut [CoreRow],
    answer: &mut CorePaged,
) -> u32
    ghost old: { CallerSlot }
    requires* { sem 𝓛 (lies caller_row caller old) }
    ensures* { sem 𝓛 (left caller_row caller (λ new. PagesDown old.caller ask.now rows.old new.caller rows.new answer.new result)) }
{
    calls::page_down(
        unsafe { &mut *caller.cast::<CallerSlot>() },
        ask,
        rows,
        answer,
    )
}

// ---- the merger's

/// Answers the phase that the merger is in, and `OK`.
#[unsafe(no_mangle)]
pub unsafe extern "C" fn clsm_core_phase_of(merger: *mut u8, answer: &mut CorePhase) -> u32
    ghost old: { MergerSlot }
    requires* { sem 𝓛 (lies merger_row merger old) }
    ensures* { sem 𝓛 (left merger_row merger (λ new. ByMerger (LooksAtPhase answer.new result) old.merger new.merger result)) }
{
    merging::phase_of(unsafe { &mut *merger.cast::<MergerSlot>() }, answer)
}

/// Freezes the epoch, if `used` of its timestamps are drawn, or all, so that writes find room
/// again. It never merges. Answers `OK` where an epoch is frozen or retired, by this call or before
/// it; `IDLE` if too few timestamps were drawn; `BUSY` if a caller held the lock; `WORN` at the end
/// of times, 2^62.
#[unsafe(no_mangle)]
pub unsafe extern "C" fn clsm_core_try_freeze(merger: *mut u8, ask: &CoreUsed) -> u32
    ghost old: { MergerSlot }
    requires* { sem 𝓛 (lies merger_row merger old) }
    ensures* { sem 𝓛 (left merger_row merger (λ new. ByMerger (λ before after.
        Told (TryFreezes ask.now.used before after) (TellsFreeze result)) old.merger new.merger result)) }
{
    merging::try_freeze(unsafe { &mut *merger.cast::<MergerSlot>() }, ask)
}

/// Freezes the epoch as `clsm_core_try_freeze`, merges it, and reclaims what that retired; goes on
/// where the last sweep stopped. Answers `OK` once nothing is frozen or retired; `IDLE`, `BUSY` and
/// `WORN` as there; `RUN_FULL` if the merge would keep more entries than a run has room for;
/// `PINNED`, with the number of the caller as the time, if that may still read what is retired.
#[unsafe(no_mangle)]
pub unsafe extern "C" fn clsm_core_try_sweep(
    merger: *mut u8,
    ask: &CoreUsed,
    answer: &mut CoreTime,
) -> u32
    ghost old: { MergerSlot }
    requires* { sem 𝓛 (lies merger_row merger old) }
    ensures* { sem 𝓛 (left merger_row merger (λ new. ByMerger (λ before after.
        Told (TrySweeps ask.now.used before after) (TellsSweep answer.new result)) old.merger new.merger result)) }
{
    merging::try_sweep(unsafe { &mut *merger.cast::<MergerSlot>() }, ask, answer)
}

/// Answers how many entries the run has that is searched at this turn, counted from 0: those of
/// level 0, the newest first, and then that of level 1; 0 if there are fewer runs. Answers `OK`; or
/// `IDLE`, and 0, if no epoch is frozen.
#[unsafe(no_mangle)]
pub unsafe extern "C" fn clsm_core_count_entries(
    merger: *mut u8,
    ask: &CoreTurn,
    answer: &mut CoreEntries,
) -> u32
    ghost old: { MergerSlot }
    requires* { sem 𝓛 (lies merger_row merger old) }
    ensures* { sem 𝓛 (left merger_row merger (λ new. ByMerger (λ before after.
        Told (CountsIfFrozen before after ask.now.turn) (TellsEntries answer.new result)) old.merger new.merger result)) }
{
    merging::count_entries(unsafe { &mut *merger.cast::<MergerSlot>() }, ask, answer)
}
