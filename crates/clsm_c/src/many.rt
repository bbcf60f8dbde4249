//! The calls for C that read many keys, on slots, as `calls`.
ghost use Rattle.std.specs.Prelude.{◌≡◌, drop, length, map, take};
ghost use Rattle.clsm_store.specs.Promises.{GetsMany, GetsManyAtIfOpen};
ghost use Rattle.clsm_c.specs.Calls.{FillsValues, GetsValues, GetsValuesAt, keys_in};
ghost use Rattle.clsm_c.specs.Values.{TellsValue};

use crate::codes::{Code, NO_HANDLE, NO_SNAPSHOT, OK};
use crate::shared::SharedCaller;
use crate::slots::CallerSlot;
use crate::types::{CoreKey, CoreTime, CoreValue};
use clsm_store::Time;

/// Reads as many keys as there are values, or fewer, and fills the values beside them.
fn fill_values(caller: &mut SharedCaller, keys: &[CoreKey], values: &mut [CoreValue]) -> Time
    ensures gets { GetsMany TellsValue caller.old.seat caller.new.seat (keys_in keys.now values.old) (take (length keys.now) values.new) result }
    ensures rest { drop (length keys.now) values.new ≡ drop (length keys.now) values.old }
{
    let count = keys.len().min(values.len());
    caller
        .store
        .get_many(&mut caller.seat, &keys[..count], &mut values[..count])
}

pub(crate) fn get_many(
    slot: &mut CallerSlot,
    keys: &[CoreKey],
    values: &mut [CoreValue],
    answer: &mut CoreTime,
) -> Code
    ensures { FillsValues (GetsValues answer.new result) slot.old.caller keys.now values.old slot.new.caller values.new result }
{
    let Some(caller) = &mut slot.caller else {
        return NO_HANDLE;
    };
    answer.time = fill_values(caller, keys, values);
    OK
}

/// Reads the keys under the caller's snapshot, or answers `None`, with nothing done, if none is
/// open.
fn get_many_if_open(
    caller: &mut SharedCaller,
    keys: &[CoreKey],
    values: &mut [CoreValue],
) -> Option<Time>
    requires { length values.old ≡ length keys.now }
    ensures { GetsManyAtIfOpen TellsValue caller.old.seat caller.new.seat (map (λ ask. ask.key) keys.now) values.old values.new result }
{
    caller.seat.snapshot_time()?;
    Some(caller.store.get_many_at(&mut caller.seat, keys, values))
}

/// As `fill_values`, under the caller's snapshot, if one is open.
fn fill_values_if_open(
    caller: &mut SharedCaller,
    keys: &[CoreKey],
    values: &mut [CoreValue],
) -> Option<Time>
    ensures gets { GetsManyAtIfOpen TellsValue caller.old.seat caller.new.seat (keys_in keys.now values.old)
        (take (length keys.now) values.old) (take (length keys.now) values.new) result }
    ensures rest { drop (length keys.now) values.new ≡ drop (length keys.now) values.old }
{
    let few = keys.len().min(values.len());
    get_many_if_open(caller, &keys[..few], &mut values[..few])
}

pub(crate) fn get_many_at(
    slot: &mut CallerSlot,
    keys: &[CoreKey],
    values: &mut [CoreValue],
    answer: &mut CoreTime,
) -> Code
    ensures { FillsValues (GetsValuesAt answer.new result) slot.old.caller keys.now values.old slot.new.caller values.new result }
{
    let Some(caller) = &mut slot.caller else {
        return NO_HANDLE;
    };
    let Some(time) = fill_values_if_open(caller, keys, values) else {
        return NO_SNAPSHOT;
    };
    answer.time = time;
    OK
}
