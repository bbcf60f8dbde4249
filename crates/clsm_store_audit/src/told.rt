//! A check of the store against its contracts: a producer puts, tells, and sends the message with
//! the key through a channel; a consumer hears it and gets the key. By the contracts alone it finds
//! what was put, with no lock between the two.
ghost use Rattle.std.specs.Prelude.{◌≡◌, ◌<◌, [], ◌∷◌, None, Option, Some, IfOk, IfSome};
ghost use Rattle.atomic_table.specs.Seated.{TableId};
ghost use Rattle.clsm_model.specs.declared.record.Deed.TheVariants.{Put};
ghost use Rattle.clsm_law.specs.Relation.{call_of};
ghost use Rattle.clsm_store_calls.specs.Seats.{AreNew, known_by, newcomer};
ghost use Rattle.clsm_store.specs.Meetings.{told_by};
ghost use Rattle.clsm_store_audit.specs.Told.{HasFound, HasMade, HasPut};

use crate::pair::{SIZES, Write};
use clsm_model::{Key, Memory};
use clsm_store::{Free, Full, Got, Message, Opened, Seat, Store, Time, open};
use crossbeam_channel::{Receiver, Sender, bounded};
use std::alloc::Global;
use std::marker::{Brand, PhantomData};
use std::sync::Wait;
use std::thread::{Threads, join};

/// The table of a store, for proofs alone: by it a message that comes through a channel is known to
/// be one of that store.
pub trait Home {
    ghost table: { Option TableId };
}

impl Home for Brand {
    ghost table = { None };
}

/// What the producer sends: the key of its data, the time at which it put them, and what it knew
/// then.
#[derive(Drop)]
struct News<H: Home> {
    key: Key,
    time: Time,
    message: Message,
    home: PhantomData<H>,
    ghost of: { H.table ≡ Some message.table },
    ghost below: { time < message.heard },
    ghost put: { HasPut (told_by message) key time },
}

/// What the consumer found: its seat, the key and the time of which it was told, and what it got.
#[derive(Drop)]
struct Found {
    seat: Seat,
    key: Key,
    time: Time,
    got: Got,
}

/// News of the put of the key at the time, which the seat knows.
fn news_of<H: Home>(store: &Store<Free>, seat: &mut Seat, key: Key, time: Time) -> News<H>
    requires seat { seat.old.store ≡ store.now }
    requires home { H.table ≡ Some store.now.table }
    requires below { time < seat.old.due }
    requires put { HasPut (known_by seat.old) key time }
    ensures { seat.new ≡ seat.old }
{
    let message = store.tell(seat);
    News {
        key,
        time,
        message,
        home: PhantomData,
    }
}

/// Puts the value at the key, by a new seat, and knows that then.
fn put_and_know<R: Wait>(
    rt: &R,
    store: &Store<Free>,
    seat: &mut Seat,
    write: &Write,
) -> Result<Time, Full>
    requires { seat.old ≡ newcomer store.now 0 }
    ensures made { IfOk result (λ time. HasMade store.now 0 (call_of 0 time (Put write.now.key write.now.value) ∷ []) seat.new) }
    ensures below { IfOk result (λ time. time < seat.new.due) }
    ensures known { IfOk result (λ time. HasPut (known_by seat.new) write.now.key time) }
{
    let time = store.put(rt, seat, write.key, write.value)?;
    let own = store.tell(seat);
    store.hear(seat, own);
    seat.show_records();
    Ok(time)
}

/// Puts the value at the key, by a new seat, and sends news of it. It answers the seat and the time
/// of the put.
fn produce<R: Wait, H: Home>(
    rt: &R,
    store: &Store<Free>,
    mut seat: Seat,
    write: &Write,
    news: Sender<News<H>>,
) -> Result<(Seat, Time), Full>
    requires seat { seat ≡ newcomer store.now 0 }
    requires home { H.table ≡ Some store.now.table }
    ensures { IfOk result (λ done. HasMade store.now 0 (call_of 0 done.1 (Put write.now.key write.now.value) ∷ []) done.0) }
{
    let time = put_and_know(rt, store, &mut seat, write)?;
    let _sent = news.send(rt, news_of(store, &mut seat, write.key, time));
    Ok((seat, time))
}

/// Hears the news, by a new seat, and gets the key that they name: the reply is the value that was
/// put, unless the key was written again before the get's time.
fn look_up<H: Home>(store: &Store<Free>, mut seat: Seat, news: News<H>) -> Found
    requires seat { seat ≡ newcomer store.now 1 }
    requires home { H.table ≡ Some store.now.table }
    ensures { HasFound store.now result.seat result.key result.time result.got.time result.got.value }
{
    let News {
        key,
        time,
        message,
        ..
    } = news;
    store.hear(&mut seat, message);
    let got = store.get(&mut seat, key);
    seat.show_records();
    Found {
        seat,
        key,
        time,
        got,
    }
}

/// Waits for news, hears it and gets the key that it names. It answers nothing where no news comes.
fn consume<R: Wait, H: Home>(
    rt: &R,
    store: &Store<Free>,
    seat: Seat,
    news: Receiver<News<H>>,
) -> Option<Found>
    requires seat { seat ≡ newcomer store.now 1 }
    requires home { H.table ≡ Some store.now.table }
    ensures { IfSome result (λ found. HasFound store.now found.seat found.key found.time found.got.time found.got.value) }
{
    let one = news.recv(rt).ok()?;
    Some(look_up(store, seat, one))
}

/// What the two threads answer.
type Passed = (Result<(Seat, Time), Full>, Option<Found>);

/// One thread puts the value at the key and sends news of it through a channel to another thread,
/// by the two seats of a new store. Refused if memory runs out.
fn pass<R: Threads + Wait + Sync, H: Home + Send>(
    rt: &R,
    alloc: Global,
    store: &Store<Free>,
    mut seats: Vec<Seat>,
    write: &Write,
) -> Result<Passed, Memory>
    requires new { AreNew store.now 2 seats.items }
    requires home { H.table ≡ Some store.now.table }
    ensures put { IfOk result (λ passed. IfOk passed.0 (λ done.
        HasMade store.now 0 (call_of 0 done.1 (Put write.now.key write.now.value) ∷ []) done.0)) }
    ensures found { IfOk result (λ passed. IfSome passed.1 (λ found.
        HasFound store.now found.seat found.key found.time found.got.time found.got.value)) }
{
    let Ok((sender, receiver)) = bounded(alloc, 1) else {
        return Err(Memory);
    };
    let Write { key, value } = *write;
    let reader = seats.pop().unwrap();
    let writer = seats.pop().unwrap();
    let passed = join(
        rt,
        || -> Result<(Seat, Time), Full>
            requires { (writer ≡ newcomer store.now 0) × (H.table ≡ Some store.now.table) }
            ensures { IfOk result (λ done.
                HasMade store.entry.now 0 (call_of 0 done.1 (Put key value) ∷ []) done.0) }
        { produce::<R, H>(rt, store, writer, &Write { key, value }, sender) },
        || -> Option<Found>
            requires { (reader ≡ newcomer store.now 1) × (H.table ≡ Some store.now.table) }
            ensures { IfSome result (λ found.
                HasFound store.entry.now found.seat found.key found.time found.got.time found.got.value) }
        { consume::<R, H>(rt, store, reader, receiver) },
    );
    Ok(passed)
}

/// Settles both seats, and checks what the consumer found: that it is anything but the value that
/// the producer put cannot come. Refused if memory runs out.
fn confirm(
    alloc: Global,
    store: &Store<Free>,
    put: (Seat, Time),
    found: Found,
    write: &Write,
) -> Result<(), Memory>
    requires two { store.now.layout.seats ≡ 2 }
    requires put { HasMade store.now 0 (call_of 0 put.1 (Put write.now.key write.now.value) ∷ []) put.0 }
    requires found { HasFound store.now found.seat found.key found.time found.got.time found.got.value }
{
    let (writer, _) = put;
    let Found { seat, got, .. } = found;
    let seats = vec![in alloc; writer, seat].map_err(|_| Memory)?;
    let _seats = store.settle(seats);
    if got.value != Some(write.value) {
        unreachable!()
    }
    Ok(())
}

/// Lets the two threads do so on a new store, settles their seats and checks what was found. It
/// answers nothing where the put is refused or memory runs out.
fn pass_and_confirm<R: Threads + Sync + Wait>(
    rt: &R,
    alloc: Global,
    store: &Store<Free>,
    seats: Vec<Seat>,
    write: &Write,
) -> Option<()>
    requires two { store.now.layout.seats ≡ 2 }
    requires new { AreNew store.now 2 seats.items }
{
    let Ok((put, found)) = pass::<R, Brand>(rt, alloc, store, seats, write) else {
        return None;
    };
    let (Ok(put), Some(found)) = (put, found) else {
        return None;
    };
    confirm(alloc, store, put, found, write).ok()
}

/// Lets one thread of a new store put the value at the key, tell, and send the message with the key
/// through a channel to another, which hears it and gets the key. Settles both seats, and confirms
/// that the get's answer is the value: that it is not cannot come. Answers nothing where the store,
/// the put or memory is refused.
pub fn news_is_found<R: Threads + Sync + Wait>(rt: &R, alloc: Global, write: &Write) -> Option<()> {
    let Opened { store, seats, .. } = open(alloc, SIZES).ok()?;
    pass_and_confirm(rt, alloc, &store, seats, write)
}
