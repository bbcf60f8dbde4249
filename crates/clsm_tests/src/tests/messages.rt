//! Messages: of a writer that was held to a reader that is held, through merges beside an open
//! snapshot, and to the seat that told them.
ghost use Rattle.std.specs.Prelude.{◌≡◌, All, Some};

use super::act::{Answer, Turn, read_as};
use super::case::FOUR_CELLS;
use super::gate::{ALL_STEPS, AT_DECIDE, Gates, Hold, NOWHERE};
use clsm_model::Value;
use clsm_store::{Merger, Message, Opened, Seat, Store, open, open_paced};
use clsm_store_audit::{Home, Write, news_is_found};
use clsm_words::{Kind, Pace};
use crossbeam_channel::{Receiver, Sender, bounded};
use std::alloc::Global;
use std::marker::{Brand, PhantomData};
use std::process::Abort;
use std::sync::Wait;
use std::test::*;
use std::thread::{Threads, join};

const KEY: u64 = 7;

/// Seat 1 is held behind its decide, and seat 2 at the end of its read.
const WRITER: Hold = Hold {
    kind: Some(Kind::LeaveShared),
    ..AT_DECIDE
};

const READER: Hold = Hold {
    seat: 2,
    kind: Some(Kind::Unpin),
    ..WRITER
};

/// A message of the store whose table `H` has, for proofs alone.
#[derive(Drop)]
struct Letter<H: Home> {
    message: Message,
    home: PhantomData<H>,
    ghost of: { H.table ≡ Some message.table },
}

/// The last of the seats.
fn take_seat<P: Pace>(rt: &impl Abort, store: &Store<P>, seats: &mut Vec<Seat>) -> Seat
    requires { All (λ seat. seat.store ≡ store.now) seats.old.items }
    ensures of { result.store ≡ store.now }
    ensures others { All (λ seat. seat.store ≡ store.now) seats.new.items }
{
    seats.pop().expect(rt, "a seat")
}

/// The seat's put of the word has this time. Answers what the seat tells then.
fn put_and_tell<P: Pace, R: Abort + Wait>(
    rt: &R,
    store: &Store<P>,
    seat: &mut Seat,
    word: u64,
    time: u64,
) -> Message
    requires { seat.old.store ≡ store.now }
    ensures seat { seat.new.store ≡ store.now }
    ensures message { result.table ≡ store.now.table }
{
    let value = Value::new(&[word]).expect(rt, "one word");
    let put = store.put(rt, seat, KEY, value).expect(rt, "a cell is left");
    assert_eq!(rt; put, time);
    store.tell(seat)
}

/// A get of the seat is answered so.
fn check_get<P: Pace>(rt: &impl Abort, store: &Store<P>, seat: &mut Seat, expected: &Answer)
    requires { seat.old.store ≡ store.now }
    ensures { seat.new.store ≡ store.now }
{
    let got = store.get(seat, KEY);
    assert!(rt; read_as(got.time, &got.value) == *expected);
}

/// The seat hears the message, and a get at the time at which it did is answered so.
fn check_news<P: Pace>(
    rt: &impl Abort,
    store: &Store<P>,
    seat: &mut Seat,
    message: Message,
    expected: &Answer,
)
    requires seat { seat.old.store ≡ store.now }
    requires message { message.table ≡ store.now.table }
    ensures { seat.new.store ≡ store.now }
{
    let heard = store.hear(seat, message);
    let got = store.get(seat, KEY);
    assert_eq!(rt; heard, got.time);
    assert!(rt; read_as(heard, &got.value) == *expected);
}

/// A thread's end of the channel, and so its part.
#[derive(Drop)]
enum End<H: Home> {
    /// The writer waits until the reader is held, puts and sends a message.
    Sends(Sender<Letter<H>>),
    /// The reader gets, in which it is held, hears a message and gets again.
    Receives(Receiver<Letter<H>>),
}

/// Plays the part of the thread that has this end.
fn play_part<R: Abort + Wait, H: Home>(rt: &R, store: &Store<Gates>, mut seat: Seat, end: End<H>)
    requires seat { seat.store ≡ store.now }
    requires home { H.table ≡ Some store.now.table }
{
    match end {
        End::Sends(letters) => {
            store.pace().second.take_turn(&Turn::Wait);
            let message = put_and_tell(rt, store, &mut seat, 1, 0);
            let letter = Letter {
                message,
                home: PhantomData,
            };
            assert!(rt; letters.send(rt, letter).is_ok());
        }
        End::Receives(letters) => {
            check_get(rt, store, &mut seat, &Answer::None(0));
            let Ok(letter) = letters.recv(rt) else {
                panic!(rt; "no letter came");
            };
            check_news(rt, store, &mut seat, letter.message, &Answer::Got(1, 1));
        }
    }
}

/// Lets both go, the writer once it is held.
fn let_both_go(rt: &impl Abort, gates: &Gates) {
    assert!(rt; gates.first.take_turn(&Turn::Wait) == Answer::Held(true));
    assert!(rt; gates.first.take_turn(&Turn::LetGo) == Answer::Held(true));
    assert!(rt; gates.second.take_turn(&Turn::LetGo) == Answer::Held(true));
}

fn pass_letter<R: Abort + Threads + Wait + Sync, H: Home + Send>(
    rt: &R,
    alloc: Global,
    store: &Store<Gates>,
    writer: Seat,
    reader: Seat,
)
    requires writer { writer.store ≡ store.now }
    requires reader { reader.store ≡ store.now }
    requires home { H.table ≡ Some store.now.table }
{
    let (sender, receiver) = bounded(alloc, 1).expect(rt, "memory");
    join(
        rt,
        || -> ()
            requires { (writer.store ≡ store.now) × (H.table ≡ Some store.now.table) }
        { play_part::<R, H>(rt, store, writer, End::Sends(sender)) },
        || -> ()
            requires { (reader.store ≡ store.now) × (H.table ≡ Some store.now.table) }
        {
            join(
                rt,
                || -> ()
                    requires { (reader.store ≡ store.now) × (H.table ≡ Some store.now.table) }
                { play_part::<R, H>(rt, store, reader, End::Receives(receiver)) },
                || let_both_go(rt, store.pace()),
            );
        },
    );
}

/// The last of the seats reads, and the one before it writes.
fn pass_letter_held<R: Abort + Threads + Wait + Sync>(
    rt: &R,
    alloc: Global,
    store: &Store<Gates>,
    mut seats: Vec<Seat>,
)
    requires { All (λ seat. seat.store ≡ store.now) seats.items }
{
    let reader = take_seat(rt, store, &mut seats);
    let writer = take_seat(rt, store, &mut seats);
    pass_letter::<R, Brand>(rt, alloc, store, writer, reader);
}

#[test]
fn a_held_reader_hears_a_writer_that_was_held(rt: HostRuntime) {
    let opened = open_paced(rt.alloc(), FOUR_CELLS, Gates::new(&WRITER, &READER));
    let Opened { store, seats, .. } = opened.expect(&rt, "memory");
    pass_letter_held(&rt, rt.alloc(), &store, seats);
}

/// Messages told before a merge are heard behind it, beside an open snapshot.
#[test]
fn messages_pass_merges_and_a_snapshot(rt: HostRuntime) {
    let opened = open(rt.alloc(), FOUR_CELLS);
    let Opened {
        store,
        mut seats,
        merger,
    } = opened.expect(&rt, "memory");
    let mut reader = take_seat(&rt, &store, &mut seats);
    let mut writer = take_seat(&rt, &store, &mut seats);
    let merger = Merger::new(&store, merger);
    put_and_tell(&rt, &store, &mut writer, 1, 0);
    assert_eq!(rt; store.snapshot(&mut reader), Ok(1));
    let message = put_and_tell(&rt, &store, &mut writer, 2, 1);
    let (merger, swept) = merger.sweep(&rt);
    assert_eq!(rt; swept, Ok(()));
    check_news(&rt, &store, &mut reader, message, &Answer::Got(4, 2));
    let message = put_and_tell(&rt, &store, &mut writer, 3, 4);
    let (_merger, swept) = merger.sweep(&rt);
    assert_eq!(rt; swept, Ok(()));
    check_news(&rt, &store, &mut reader, message, &Answer::Got(8, 3));
}

/// In six steps.
#[test]
fn a_seat_hears_itself(rt: HostRuntime) {
    let opened = open_paced(rt.alloc(), FOUR_CELLS, Gates::new(&ALL_STEPS, &NOWHERE));
    let Opened {
        store,
        mut seats,
        ..
    } = opened.expect(&rt, "memory");
    take_seat(&rt, &store, &mut seats);
    take_seat(&rt, &store, &mut seats);
    let mut seat = take_seat(&rt, &store, &mut seats);
    let early = put_and_tell(&rt, &store, &mut seat, 1, 0);
    let late = put_and_tell(&rt, &store, &mut seat, 2, 1);
    assert_eq!(rt; store.hear(&mut seat, late), 2);
    store.pace().first.take_turn(&Turn::Steps);
    assert_eq!(rt; store.hear(&mut seat, early), 2);
    assert!(rt; store.pace().first.take_turn(&Turn::Steps) == Answer::Count(6));
    check_get(&rt, &store, &mut seat, &Answer::Got(2, 2));
}

/// At most one allocation of a run is made to fail: the message is then sent once more.
#[test]
fn news_of_a_put_reach_the_consumer(rt: HostRuntime) {
    let value = Value::new(&[1, 2]).expect(&rt, "two words");
    let write = Write { key: KEY, value };
    let mut found = news_is_found(&rt, rt.alloc(), &write);
    if found.is_none() {
        found = news_is_found(&rt, rt.alloc(), &write);
    }
    assert_eq!(rt; found, Some(()));
}
