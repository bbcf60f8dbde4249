//! The calls for C, on slots: safe functions, one for each export, of its name.
ghost use Rattle.std.specs.Prelude.{◌≡◌, ◌<◌, IfErr, IfNone, IfOk, IfSome};
ghost use Rattle.clsm_model.specs.declared.record.Deed.TheVariants.{Remove};
ghost use Rattle.clsm_model.specs.Changes.{Adds};
ghost use Rattle.clsm_store.specs.Promises.{ClosesSnapshot, CountsRange, Gets, GetsAtIfOpen, OpensSnapshot, TriesToChangeBy, TriesToWrite};
ghost use Rattle.clsm_c.specs.Calls.{AreMembers, BatchesRows, ByCaller, HasLong, IsMember, IsNext, Opens, Pages, PagesDown};
ghost use Rattle.clsm_c.specs.Calls.{PutsRow, ReplacesValue, TakesCaller, TakesMerger, TellsBatch, TellsChange, TellsClosed, TellsCounted};
ghost use Rattle.clsm_c.specs.Calls.{TellsGot, TellsGotAt, TellsOpened, TellsPage, TellsRefused, TellsTry, Told};
ghost use Rattle.clsm_c.specs.Calls.{kept_code, refusal_code, value_after};
ghost use Rattle.clsm_c.specs.Conditional.{BatchesRowsIf, TellsBatchIf, no_members_code};

use crate::codes::{
    BAD_BATCH, BAD_EPOCH, BAD_KEYS, BAD_PATIENCE, BAD_SEATS, BAD_SHARDS, BAD_VALUE, BUSY, Code,
    FULL, KEPT, MEMORY, NO_HANDLE, NO_SNAPSHOT, NOT_FOUND, OK, OPEN, OVERTAKEN, RACED,
};
use crate::conditions::to_conditions;
use crate::opening;
use crate::shared::SharedCaller;
use crate::slots::{CallerSlot, MergerSlot, StoreSlot};
use crate::types::{
    CoreAdding, CoreChanged, CoreCode, CoreCounted, CoreGot, CoreKey, CorePaged, CoreRange,
    CoreRangeCount, CoreReplacing, CoreRow, CoreSizes, CoreTime, CoreUnmet, TooLong, from_core,
    leave, value_or_none,
};
use clsm_store::{
    BatchError, BatchIfError, Change, Config, Filled, Got, OpenError, Rmw, Time, TryBatchError,
    TryBatchIfError, TryPutError, Value,
};
use std::alloc::Global;

// ---- stores

/// The code of a refused opening.
fn refusal_code(error: OpenError) -> Code
    ensures { result ≡ refusal_code error }
{
    match error {
        OpenError::Cells(_) => BAD_EPOCH,
        OpenError::Seats(_) => BAD_SEATS,
        OpenError::Shards(_) => BAD_SHARDS,
        OpenError::Run(_) => BAD_KEYS,
        OpenError::Memory => MEMORY,
        OpenError::Patience(_) => BAD_PATIENCE,
    }
}

pub(crate) fn open(alloc: Global, ask: &CoreSizes, answer: &mut CoreCode) -> StoreSlot
    ensures { Opens ask.now answer.new result.handles }
{
    let config = Config {
        cells: ask.cells,
        seats: ask.seats,
        shards: ask.shards,
        run: ask.run,
        patience: ask.patience,
    };
    match opening::open(alloc, config) {
        Ok(handles) => {
            answer.code = OK;
            StoreSlot {
                handles: Some(handles),
            }
        }
        Err(error) => {
            answer.code = refusal_code(error);
            StoreSlot { handles: None }
        }
    }
}

pub(crate) fn close(slot: StoreSlot) {
    drop(slot);
}

pub(crate) fn take_caller(store: &mut StoreSlot, answer: &mut CoreCode) -> CallerSlot
    ensures { TakesCaller store.old.handles store.new.handles answer.new result.caller }
{
    answer.code = NO_HANDLE;
    let Some(handles) = &mut store.handles else {
        return CallerSlot { caller: None };
    };
    match handles.take_caller() {
        Some(caller) => {
            answer.code = OK;
            CallerSlot {
                caller: Some(caller),
            }
        }
        None => CallerSlot { caller: None },
    }
}

pub(crate) fn drop_caller(slot: CallerSlot) {
    drop(slot);
}

pub(crate) fn take_merger(store: &mut StoreSlot, answer: &mut CoreCode) -> MergerSlot
    ensures { TakesMerger store.old.handles store.new.handles answer.new result.merger }
{
    answer.code = NO_HANDLE;
    let Some(handles) = &mut store.handles else {
        return MergerSlot { merger: None };
    };
    match handles.take_merger() {
        Some(merger) => {
            answer.code = OK;
            MergerSlot {
                merger: Some(merger),
            }
        }
        None => MergerSlot { merger: None },
    }
}

pub(crate) fn drop_merger(slot: MergerSlot) {
    drop(slot);
}

// ---- a caller's writes

/// Tells why a try was refused, and the time of that, if it has one.
fn tell_refused(error: TryPutError, answer: &mut u64) -> Code
    ensures { TellsRefused answer.new result error }
{
    match error {
        TryPutError::Full { time } => {
            *answer = time;
            FULL
        }
        TryPutError::Busy => BUSY,
        TryPutError::Raced => RACED,
        TryPutError::Overtaken => OVERTAKEN,
    }
}

/// Tells what a try came to, and its time, if it has one.
fn tell_try(came: Result<Time, TryPutError>, answer: &mut CoreTime) -> Code
    ensures { TellsTry answer.new result came }
{
    match came {
        Ok(time) => {
            answer.time = time;
            OK
        }
        Err(error) => tell_refused(error, &mut answer.time),
    }
}

pub(crate) fn try_put(slot: &mut CallerSlot, ask: &CoreRow, answer: &mut CoreTime) -> Code
    ensures { ByCaller (PutsRow ask.now answer.new result) slot.old.caller slot.new.caller result }
{
    let Some(caller) = &mut slot.caller else {
        return NO_HANDLE;
    };
    let Some(value) = from_core(&ask.value) else {
        return BAD_VALUE;
    };
    let came = caller.store.try_put(&mut caller.seat, ask.key, value);
    tell_try(came, answer)
}

pub(crate) fn try_remove(slot: &mut CallerSlot, ask: &CoreKey, answer: &mut CoreTime) -> Code
    ensures { ByCaller (λ before after. Told (TriesToWrite before after (Remove ask.now.key))
        (TellsTry answer.new result)) slot.old.caller slot.new.caller result }
{
    let Some(caller) = &mut slot.caller else {
        return NO_HANDLE;
    };
    let came = caller.store.try_remove(&mut caller.seat, ask.key);
    tell_try(came, answer)
}

// ---- a caller's read-modify-writes

/// What the key has after the change of its value.
fn value_after(rmw: &Rmw) -> Option<Value>
    ensures { result ≡ value_after rmw.now.old rmw.now.change }
{
    match rmw.change {
        Change::Keep => rmw.old,
        Change::Set(value) => Some(value),
        Change::Remove => None,
    }
}

/// The code of a read-modify-write: whether it kept the value.
fn kept_code(change: &Change) -> Code
    ensures { result ≡ kept_code change.now }
{
    match change {
        Change::Keep => KEPT,
        _ => OK,
    }
}

/// Tells what a try to change a key came to.
fn tell_change(came: Result<Rmw, TryPutError>, answer: &mut CoreChanged) -> Code
    ensures { TellsChange answer.new result came }
{
    match came {
        Ok(rmw) => {
            answer.time = rmw.time;
            leave(&rmw.old, &mut answer.before);
            leave(&value_after(&rmw), &mut answer.after);
            kept_code(&rmw.change)
        }
        Err(error) => tell_refused(error, &mut answer.time),
    }
}

pub(crate) fn try_add(slot: &mut CallerSlot, ask: &CoreAdding, answer: &mut CoreChanged) -> Code
    ensures { ByCaller (λ before after. Told (TriesToChangeBy before after ask.now.key (Adds ask.now.by))
        (TellsChange answer.new result)) slot.old.caller slot.new.caller result }
{
    let Some(caller) = &mut slot.caller else {
        return NO_HANDLE;
    };
    let came = caller.store.try_add(&mut caller.seat, ask.key, ask.by);
    tell_change(came, answer)
}

pub(crate) fn try_replace(
    slot: &mut CallerSlot,
    ask: &CoreReplacing,
    answer: &mut CoreChanged,
) -> Code
    ensures { ByCaller (ReplacesValue ask.now answer.new result) slot.old.caller slot.new.caller result }
{
    let Some(caller) = &mut slot.caller else {
        return NO_HANDLE;
    };
    let Ok(expected) = value_or_none(&ask.expected) else {
        return BAD_VALUE;
    };
    let Ok(desired) = value_or_none(&ask.desired) else {
        return BAD_VALUE;
    };
    let came = caller
        .store
        .try_replace(&mut caller.seat, ask.key, expected, desired);
    tell_change(came, answer)
}

// ---- a caller's batches

/// Why rows are no members of a batch.
pub(crate) enum NoMembers {
    /// The value of one has too many words.
    TooLong,
    Memory,
}

/// The member that the row is: a write of its value, or a removal if it has none.
fn to_member(row: &CoreRow) -> Option<(u64, Change)>
    ensures member { IfSome result (IsMember row.now) }
    ensures none { IfNone result (8 < row.now.value.length) }
{
    match value_or_none(&row.value) {
        Ok(Some(value)) => Some((row.key, Change::Set(value))),
        Ok(None) => Some((row.key, Change::Remove)),
        Err(TooLong) => None,
    }
}

/// The members that the rows are.
fn to_members(alloc: Global, rows: &[CoreRow]) -> Result<Vec<(u64, Change)>, NoMembers>
    ensures members { IfOk result (λ members. AreMembers rows.now members.items) }
    ensures long { IfErr result (λ error. error ≡ NoMembers.TooLong → HasLong rows.now) }
{
    let Ok(mut members) = Vec::with_capacity(alloc, rows.len()) else {
        return Err(NoMembers::Memory);
    };
    for row in rows {
        match to_member(row) {
            Some(member) => members.push_reserved(member),
            None => return Err(NoMembers::TooLong),
        }
    }
    Ok(members)
}

/// Tells what a try of a batch came to, and its time, if it has one.
fn tell_batch(came: Result<Time, TryBatchError>, answer: &mut CoreTime) -> Code
    ensures { TellsBatch answer.new result came }
{
    match came {
        Ok(time) => {
            answer.time = time;
            OK
        }
        Err(TryBatchError::Busy) => BUSY,
        Err(TryBatchError::Refused(BatchError::Full { time })) => {
            answer.time = time;
            FULL
        }
        Err(TryBatchError::Refused(_)) => BAD_BATCH,
    }
}

pub(crate) fn try_batch(slot: &mut CallerSlot, rows: &[CoreRow], answer: &mut CoreTime) -> Code
    ensures { ByCaller (BatchesRows rows.now answer.new result) slot.old.caller slot.new.caller result }
{
    let Some(caller) = &mut slot.caller else {
        return NO_HANDLE;
    };
    match to_members(caller.alloc, rows) {
        Ok(members) => {
            let came = caller.store.try_batch(&mut caller.seat, &members);
            tell_batch(came, answer)
        }
        Err(NoMembers::TooLong) => BAD_VALUE,
        Err(NoMembers::Memory) => MEMORY,
    }
}

/// Tells what a try of a batch with conditions came to, its time, and the place of a condition that
/// is unmet.
fn tell_batch_if(came: Result<Time, TryBatchIfError>, answer: &mut CoreUnmet) -> Code
    ensures { TellsBatchIf answer.new result came }
{
    match came {
        Ok(time) => {
            answer.time = time;
            OK
        }
        Err(TryBatchIfError::Busy) => BUSY,
        Err(TryBatchIfError::Refused(BatchIfError::Unmet { index, time })) => {
            answer.time = time;
            answer.index = index as u64;
            KEPT
        }
        Err(TryBatchIfError::Refused(BatchIfError::Full { time })) => {
            answer.time = time;
            FULL
        }
        Err(TryBatchIfError::Refused(_)) => BAD_BATCH,
    }
}

/// The code of rows that are no batch.
fn no_members_code(why: NoMembers) -> Code
    ensures { result ≡ no_members_code why }
{
    match why {
        NoMembers::TooLong => BAD_VALUE,
        NoMembers::Memory => MEMORY,
    }
}

pub(crate) fn try_batch_if(
    slot: &mut CallerSlot,
    expected: &[CoreRow],
    counts: &[CoreRangeCount],
    rows: &[CoreRow],
    answer: &mut CoreUnmet,
) -> Code
    ensures { ByCaller (BatchesRowsIf expected.now counts.now rows.now answer.new result) slot.old.caller slot.new.caller result }
{
    let Some(caller) = &mut slot.caller else {
        return NO_HANDLE;
    };
    let conditions = match to_conditions(caller.alloc, expected, counts) {
        Ok(conditions) => conditions,
        Err(why) => return no_members_code(why),
    };
    match to_members(caller.alloc, rows) {
        Ok(members) => {
            let came = caller
                .store
                .try_batch_if(&mut caller.seat, &conditions, &members);
            tell_batch_if(came, answer)
        }
        Err(why) => no_members_code(why),
    }
}

// ---- a caller's reads

/// Tells what a read found, and its time.
fn tell_got(got: &Got, answer: &mut CoreGot) -> Code
    ensures { TellsGot answer.new result got.now }
{
    answer.time = got.time;
    leave(&got.value, &mut answer.value);
    match got.value {
        Some(_) => OK,
        None => NOT_FOUND,
    }
}

pub(crate) fn get(slot: &mut CallerSlot, ask: &CoreKey, answer: &mut CoreGot) -> Code
    ensures { ByCaller (λ before after. Told (Gets before after ask.now.key)
        (TellsGot answer.new result)) slot.old.caller slot.new.caller result }
{
    let Some(caller) = &mut slot.caller else {
        return NO_HANDLE;
    };
    let got = caller.store.get(&mut caller.seat, ask.key);
    tell_got(&got, answer)
}

/// Reads the key under the caller's snapshot, or answers `None`, with nothing done, if none is open.
fn get_at_if_open(caller: &mut SharedCaller, key: u64) -> Option<Got>
    ensures { GetsAtIfOpen caller.old.seat caller.new.seat key result }
{
    caller.seat.snapshot_time()?;
    Some(caller.store.get_at(&mut caller.seat, key))
}

pub(crate) fn get_at(slot: &mut CallerSlot, ask: &CoreKey, answer: &mut CoreGot) -> Code
    ensures { ByCaller (λ before after. Told (GetsAtIfOpen before after ask.now.key)
        (TellsGotAt answer.new result)) slot.old.caller slot.new.caller result }
{
    let Some(caller) = &mut slot.caller else {
        return NO_HANDLE;
    };
    let Some(got) = get_at_if_open(caller, ask.key) else {
        return NO_SNAPSHOT;
    };
    tell_got(&got, answer)
}

pub(crate) fn snapshot(slot: &mut CallerSlot, answer: &mut CoreTime) -> Code
    ensures { ByCaller (λ before after. Told (OpensSnapshot before after)
        (TellsOpened answer.new result)) slot.old.caller slot.new.caller result }
{
    let Some(caller) = &mut slot.caller else {
        return NO_HANDLE;
    };
    match caller.store.snapshot(&mut caller.seat) {
        Ok(time) => {
            answer.time = time;
            OK
        }
        Err(open) => {
            answer.time = open.time;
            OPEN
        }
    }
}

pub(crate) fn close_snapshot(slot: &mut CallerSlot, answer: &mut CoreTime) -> Code
    ensures { ByCaller (λ before after. Told (ClosesSnapshot before after)
        (TellsClosed answer.new result)) slot.old.caller slot.new.caller result }
{
    let Some(caller) = &mut slot.caller else {
        return NO_HANDLE;
    };
    let Some(time) = caller.store.close_snapshot(&mut caller.seat) else {
        return NO_SNAPSHOT;
    };
    answer.time = time;
    OK
}

pub(crate) fn count(slot: &mut CallerSlot, ask: &CoreRange, answer: &mut CoreCounted) -> Code
    ensures { ByCaller (λ before after. Told (CountsRange before after ask.now.first ask.now.last)
        (TellsCounted answer.new result)) slot.old.caller slot.new.caller result }
{
    let Some(caller) = &mut slot.caller else {
        return NO_HANDLE;
    };
    let counted = caller
        .store
        .count(caller.alloc, &mut caller.seat, ask.first, ask.last);
    answer.time = counted.time;
    answer.keys = counted.keys;
    OK
}

/// Tells where the next page begins, if there is one.
fn tell_next(more: Option<u64>, answer: &mut CorePaged)
    ensures next { IsNext answer.new more }
    ensures time { answer.new.time ≡ answer.old.time }
    ensures rows { answer.new.rows ≡ answer.old.rows }
{
    answer.more = more.is_some();
    answer.next = more.unwrap_or(0);
}

/// Tells of a page: its time, how many rows it filled, and where the next one begins.
fn tell_page(filled: &Filled, answer: &mut CorePaged) -> Code
    ensures { TellsPage answer.new result filled.now }
{
    answer.time = filled.time;
    answer.rows = filled.rows as u64;
    tell_next(filled.more, answer);
    OK
}

pub(crate) fn page(
    slot: &mut CallerSlot,
    ask: &CoreRange,
    rows: &mut [CoreRow],
    answer: &mut CorePaged,
) -> Code
    ensures { Pages slot.old.caller ask.now rows.old slot.new.caller rows.new answer.new result }
{
    let Some(caller) = &mut slot.caller else {
        return NO_HANDLE;
    };
    let filled = caller
        .store
        .page_into(&mut caller.seat, ask.first, ask.last, rows);
    tell_page(&filled, answer)
}

pub(crate) fn page_down(
    slot: &mut CallerSlot,
    ask: &CoreRange,
    rows: &mut [CoreRow],
    answer: &mut CorePaged,
) -> Code
    ensures { PagesDown slot.old.caller ask.now rows.old slot.new.caller rows.new answer.new result }
{
    let Some(caller) = &mut slot.caller else {
        return NO_HANDLE;
    };
    let found = caller
        .store
        .page_down_into(caller.alloc, &mut caller.seat, ask.first, ask.last, rows);
    tell_page(&found, answer)
}
