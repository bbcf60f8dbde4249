//! Seats that are settled or met: the calls of one, which are audited, a frozen epoch that meets
//! one, and a put and a get that race.
ghost use Rattle.std.specs.Prelude.{◌≡◌, []};
ghost use Rattle.clsm_store_calls.specs.Seats.{AreNew, HasSizes, IsNewMerger};

use clsm_model::{CallRecord, Config, Deed, Key, Memory, OpenError, Value};
use clsm_store::{Free, Merger, NotFrozen, Opened, Seat, Store, open};
use clsm_store_audit::{
    Crossing, Write, joined_are_records, race_agrees, settle_audited, skew_is_refused,
};
use std::alloc::Global;
use std::process::Abort;
use std::sync::Wait;

const ONE_SEAT: Config = Config {
    cells: 4,
    seats: 1,
    shards: 1,
    run: 4,
    patience: 0,
};

fn opened(rt: &impl Abort, alloc: Global) -> Opened<Free>
    ensures sizes { HasSizes result.store ONE_SEAT }
    ensures seats { AreNew result.store 1 result.seats.items }
    ensures merger { IsNewMerger result.store result.merger }
{
    match open(alloc, ONE_SEAT) {
        Err(OpenError::Memory) => open(alloc, ONE_SEAT).expect(rt, "memory at the second try"),
        answer => answer.expect(rt, "sizes in their ranges"),
    }
}

/// The one seat of a new store.
fn take_seat(rt: &impl Abort, store: &Store<Free>, seats: &mut Vec<Seat>) -> Seat
    requires { AreNew store.now 1 seats.old.items }
    ensures store { result.store ≡ store.now }
    ensures number { result.number ≡ 0 }
    ensures calls { result.calls ≡ [] }
{
    seats.pop().expect(rt, "a seat")
}

/// Puts a value at the key, and records that.
fn record_put<R: Abort + Wait>(
    rt: &R,
    store: &Store<Free>,
    seat: &mut Seat,
    records: &mut Vec<CallRecord>,
    key: Key,
)
    requires store { seat.old.store ≡ store.now }
    requires calls { records.old.items ≡ seat.old.calls }
    ensures store { seat.new.store ≡ store.now }
    ensures number { seat.new.number ≡ seat.old.number }
    ensures calls { records.new.items ≡ seat.new.calls }
{
    let value = Value::new(&[key]).expect(rt, "one word");
    let number = seat.number();
    let time = store.put(rt, seat, key, value).expect(rt, "a cell is left");
    let record = CallRecord {
        seat: number,
        time,
        deed: Deed::Put { key, value },
    };
    records.push(record).expect(rt, "memory");
}

/// Settles the seat alone, and audits its calls.
fn settle_alone(
    rt: &impl Abort,
    alloc: Global,
    store: &Store<Free>,
    seat: Seat,
    records: &[CallRecord],
) -> Result<(), Memory>
    requires sizes { HasSizes store.now ONE_SEAT }
    requires store { seat.store ≡ store.now }
    requires number { seat.number ≡ 0 }
    requires calls { records.now ≡ seat.calls }
{
    let seats = vec![in alloc; seat].expect(rt, "memory");
    joined_are_records(store, &seats, records);
    settle_audited(alloc, store, &ONE_SEAT, seats, records).1
}

#[test]
fn settled_calls_have_no_fault(rt: HostRuntime) {
    let Opened {
        store,
        mut seats,
        ..
    } = opened(&rt, rt.alloc());
    let mut seat = take_seat(&rt, &store, &mut seats);
    let mut records = Vec::new(rt.alloc());
    record_put(&rt, &store, &mut seat, &mut records, 7);
    record_put(&rt, &store, &mut seat, &mut records, 8);
    let audited = settle_alone(&rt, rt.alloc(), &store, seat, &records);
    assert_eq!(rt; audited, Ok(()));
}

/// The merger meets a seat only where an epoch is frozen.
#[test]
fn a_frozen_epoch_meets_a_seat(rt: HostRuntime) {
    let Opened {
        store,
        mut seats,
        merger,
    } = opened(&rt, rt.alloc());
    let mut seat = take_seat(&rt, &store, &mut seats);
    let mut records = Vec::new(rt.alloc());
    record_put(&rt, &store, &mut seat, &mut records, 7);
    let mut merger = Merger::new(&store, merger);
    assert_eq!(rt; merger.meet(&mut seat), Err(NotFrozen));
    let (mut merger, frozen) = merger.freeze(&rt);
    assert_eq!(rt; frozen, Ok(0));
    assert_eq!(rt; merger.meet(&mut seat), Ok(()));
}

/// At most one allocation of a run is made to fail: the race is then run once more.
#[test]
fn a_race_answers_as_the_history(rt: HostRuntime) {
    let value = Value::new(&[1, 2]).expect(&rt, "two words");
    let write = Write { key: 7, value };
    let mut raced = race_agrees(&rt, rt.alloc(), &write);
    if raced.is_none() {
        raced = race_agrees(&rt, rt.alloc(), &write);
    }
    assert_eq!(rt; raced, Some(()));
}

/// Each of the two reads both keys and writes one. Which of them is refused, if one is, depends on
/// the threads.
#[test]
fn two_transactions_cross(rt: HostRuntime) {
    let value = Value::new(&[1, 2]).expect(&rt, "two words");
    let one = Write { key: 7, value };
    let other = Write { key: 8, value };
    let crossing = Crossing { one, other };
    let mut came = skew_is_refused(&rt, rt.alloc(), &crossing);
    if came.is_none() {
        came = skew_is_refused(&rt, rt.alloc(), &crossing);
    }
    assert!(rt; came.is_some());
}
