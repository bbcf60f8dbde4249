//! A check of the store against its contracts: a put and a get of one key race, and once both
//! seats are settled, the get's answer is that of a plain map of the writes below its time.
ghost use Rattle.std.specs.Prelude.{◌≡◌, ◌↔◌, IsTrue, IfOk};
ghost use Rattle.clsm_model.specs.declared.record.Deed.TheVariants.{Get, Put};
ghost use Rattle.clsm_store_calls.specs.Seats.{Answers, AreNew, newcomer};
ghost use Rattle.clsm_store_audit.specs.Race.{left_by_put};

use crate::pair::{SIZES, Write};
use clsm_model::{Key, Memory, PlainMap, Slot};
use clsm_store::{Free, Full, Got, Opened, Seat, Store, Time, open};
use std::alloc::Global;
use std::sync::Wait;
use std::thread::{Threads, join};

/// Puts the value at the key, and answers the seat and the put's time.
fn write_once<R: Wait>(
    rt: &R,
    store: &Store<Free>,
    mut seat: Seat,
    write: &Write,
) -> Result<(Seat, Time), Full>
    requires { seat.store ≡ store.now }
    ensures { IfOk result (λ done. Answers seat done.0 done.1 (Put write.now.key write.now.value)) }
{
    let time = store.put(rt, &mut seat, write.key, write.value)?;
    Ok((seat, time))
}

/// Gets the key, and answers the seat and what it got.
fn read_once(store: &Store<Free>, mut seat: Seat, key: Key) -> (Seat, Got)
    requires { seat.store ≡ store.now }
    ensures { Answers seat result.0 result.1.time (Get key result.1.value) }
{
    let got = store.get(&mut seat, key);
    (seat, got)
}

/// What the two threads answer.
type Raced = (Result<(Seat, Time), Full>, (Seat, Got));

/// One thread puts the value at the key while another one gets it, by the two seats of a new store.
fn race<R: Threads + Wait + Sync>(
    rt: &R,
    store: &Store<Free>,
    mut seats: Vec<Seat>,
    write: &Write,
) -> Raced
    requires { AreNew store.now 2 seats.items }
    ensures put { IfOk result.0 (λ done.
        Answers (newcomer store.now 0) done.0 done.1 (Put write.now.key write.now.value)) }
    ensures got { let got = result.1.1 in
        Answers (newcomer store.now 1) result.1.0 got.time (Get write.now.key got.value) }
{
    let Write { key, value } = *write;
    let reader = seats.pop().unwrap();
    let writer = seats.pop().unwrap();
    join(
        rt,
        || -> Result<(Seat, Time), Full>
            requires { writer.store ≡ store.now }
            ensures { IfOk result (λ done. Answers writer done.0 done.1 (Put key value)) }
        { write_once(rt, store, writer, &Write { key, value }) },
        || -> (Seat, Got)
            requires { reader.store ≡ store.now }
            ensures { Answers reader result.0 result.1.time (Get key result.1.value) }
        { read_once(store, reader, key) },
    )
}

/// Whether the get's answer is that of a plain map to which the put is applied if its time is below
/// the get's. Refused if memory runs out.
fn check(alloc: Global, write: &Write, put: Time, got: &Got) -> Result<bool, Memory>
    ensures { IfOk result (λ agrees.
        IsTrue agrees ↔ (got.now.value ≡ left_by_put write.now.value put got.now.time)) }
{
    let key = write.key;
    let mut map = PlainMap::new(alloc);
    if put < got.time {
        let value = Some(write.value);
        map.apply(&Slot::Wrote {
            seat: 0,
            key,
            value,
        })?;
    }
    Ok(map.get(key) == got.value)
}

/// Settles both seats, and checks the get's answer: the check never fails. Refused if memory
/// runs out.
fn confirm(
    alloc: Global,
    store: &Store<Free>,
    put: (Seat, Time),
    read: (Seat, Got),
    write: &Write,
) -> Result<(), Memory>
    requires two { store.now.layout.seats ≡ 2 }
    requires put { Answers (newcomer store.now 0) put.0 put.1 (Put write.now.key write.now.value) }
    requires read { Answers (newcomer store.now 1) read.0 read.1.time (Get write.now.key read.1.value) }
{
    let (writer, time) = put;
    let (reader, got) = read;
    let seats = vec![in alloc; writer, reader].map_err(|_| Memory)?;
    let _seats = store.settle(seats);
    if !check(alloc, write, time, &got)? {
        unreachable!()
    }
    Ok(())
}

/// Lets a put of the value and a get of its key race on a new store, settles both seats, and confirms that the
/// get's answer is that of a plain map of the writes below its time: that it is not cannot come.
/// Answers nothing where the store, the put or memory is refused.
pub fn race_agrees<R: Threads + Sync + Wait>(rt: &R, alloc: Global, write: &Write) -> Option<()> {
    let Opened { store, seats, .. } = open(alloc, SIZES).ok()?;
    let (put, read) = race(rt, &store, seats, write);
    let Ok(put) = put else {
        return None;
    };
    confirm(alloc, &store, put, read, write).ok()
}
