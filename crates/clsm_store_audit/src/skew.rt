//! A check of the store against its contracts: two transactions cross. Each reads two keys at one
//! time, and writes one of them on the condition that both have what it read. By the contracts
//! alone not both are answered where both read the same: there is no write skew.
ghost use Rattle.std.specs.Prelude.{◌≡◌, ◌↔◌, IsTrue, IfOk};
ghost use Rattle.clsm_store_calls.specs.Seats.{AreNew, newcomer};
ghost use Rattle.clsm_store_audit.specs.Skew.{ReadsBoth, HasStood, IsSameRead};

use crate::pair::{SIZES, Write};
use clsm_model::{Change, Key, Memory};
use clsm_store::{BatchIfError, Condition, Free, Opened, Seat, Store, Time, Value, open};
use std::alloc::Global;
use std::sync::Wait;
use std::thread::{Threads, join};

/// What two transactions write. Both read the keys of both.
#[derive(Clone, Copy)]
pub struct Crossing {
    pub one: Write,
    pub other: Write,
}

/// What came of them. That both were answered after they had read the same cannot come.
#[derive(Clone, Copy, PartialEq, Eq, Debug)]
pub enum Outcome {
    /// One of the two batches was refused, or both were.
    Refused,
    /// Both were answered, and what they read differs.
    InTurn,
}

/// What a transaction read: the value of the key that it writes, and of the one beside it.
#[derive(Clone, Copy)]
pub(crate) struct Read {
    own: Option<Value>,
    beside: Option<Value>,
}

/// A transaction that was answered: its seat, what it read, and the time of its batch.
#[derive(Drop)]
pub(crate) struct Stood {
    seat: Seat,
    read: Read,
    time: Time,
}

/// Reads both keys at one time, by a new seat.
fn read_both(store: &Store<Free>, seat: &mut Seat, own: Key, beside: Key) -> Read
    requires { seat.old.store ≡ store.now }
    ensures { ReadsBoth seat.old seat.new own beside result }
{
    let mut places = [None; 2];
    store.get_many(seat, &[own, beside], &mut places);
    Read {
        own: places[0],
        beside: places[1],
    }
}

/// Reads its own key and the one beside it, by a new seat, and writes its own one if both have what
/// it read.
fn transact<R: Wait>(
    rt: &R,
    store: &Store<Free>,
    mut seat: Seat,
    own: &Write,
    beside: Key,
) -> Result<Stood, BatchIfError>
    requires { seat.store ≡ store.now }
    ensures { IfOk result (λ stood. HasStood seat own.now beside stood) }
{
    let read = read_both(store, &mut seat, own.key, beside);
    let own_stands = Condition::Has(own.key, read.own);
    let beside_stands = Condition::Has(beside, read.beside);
    let members = [(own.key, Change::Set(own.value))];
    let time = store.batch_if(rt, &mut seat, &[own_stands, beside_stands], &members)?;
    Ok(Stood { seat, read, time })
}

/// What the two threads answer.
type Crossed = (Result<Stood, BatchIfError>, Result<Stood, BatchIfError>);

/// Each of two threads makes one of the transactions, by the two seats of a new store.
fn cross<R: Threads + Wait + Sync>(
    rt: &R,
    store: &Store<Free>,
    mut seats: Vec<Seat>,
    crossing: &Crossing,
) -> Crossed
    requires { AreNew store.now 2 seats.items }
    ensures one { IfOk result.0 (λ stood.
        HasStood (newcomer store.now 0) crossing.now.one crossing.now.other.key stood) }
    ensures other { IfOk result.1 (λ stood.
        HasStood (newcomer store.now 1) crossing.now.other crossing.now.one.key stood) }
{
    let Crossing { one, other } = *crossing;
    let second = seats.pop().unwrap();
    let first = seats.pop().unwrap();
    join(
        rt,
        || -> Result<Stood, BatchIfError>
            requires { first.store ≡ store.now }
            ensures { IfOk result (λ stood. HasStood first one other.key stood) }
        { transact(rt, store, first, &one, other.key) },
        || -> Result<Stood, BatchIfError>
            requires { second.store ≡ store.now }
            ensures { IfOk result (λ stood. HasStood second other one.key stood) }
        { transact(rt, store, second, &other, one.key) },
    )
}

/// Whether both read the same of the two keys: the key that is one's own is beside the other's.
fn is_same_read(one: &Read, other: &Read) -> bool
    ensures { IsTrue result ↔ IsSameRead one.now other.now }
{
    one.own == other.beside && one.beside == other.own
}

/// Settles both seats, and checks that the two transactions did not read the same: that they did
/// cannot come. Refused if memory runs out.
fn confirm(
    alloc: Global,
    store: &Store<Free>,
    crossing: &Crossing,
    one: Stood,
    other: Stood,
) -> Result<(), Memory>
    requires two { store.now.layout.seats ≡ 2 }
    requires one { HasStood (newcomer store.now 0) crossing.now.one crossing.now.other.key one }
    requires other { HasStood (newcomer store.now 1) crossing.now.other crossing.now.one.key other }
{
    let seats = vec![in alloc; one.seat, other.seat].map_err(|_| Memory)?;
    let _seats = store.settle(seats);
    if is_same_read(&one.read, &other.read) {
        unreachable!()
    }
    Ok(())
}

/// Lets two transactions cross on a new store, by a thread each. Each reads the keys of both at one
/// time, and writes its own one on the condition that both have what it read. It settles both
/// seats, and confirms that not both were answered, or that what they read differs: that both stand
/// on the same read cannot come. Answers nothing where the store or memory is refused.
pub fn skew_is_refused<R: Threads + Sync + Wait>(
    rt: &R,
    alloc: Global,
    crossing: &Crossing,
) -> Option<Outcome> {
    let Opened { store, seats, .. } = open(alloc, SIZES).ok()?;
    let (one, other) = cross(rt, &store, seats, crossing);
    let (Ok(one), Ok(other)) = (one, other) else {
        return Some(Outcome::Refused);
    };
    confirm(alloc, &store, crossing, one, other).ok()?;
    Some(Outcome::InTurn)
}
