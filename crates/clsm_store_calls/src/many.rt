//! Reads of many keys at the words: each of its own, and all at one time.
ghost use Rattle.std.specs.Prelude.{◌≡◌, ◌<◌, IfSome, Some, length, map, slice_get, take};
ghost use Rattle.clsm_model.specs.History.{plain, value};
ghost use Rattle.clsm_law.specs.{OpenSteps.open_time, Views.next_word};
ghost use Rattle.clsm_words.specs.{Keeping.Looks, Plays.IsSeatOf};
ghost use Rattle.clsm_store_calls.specs.Many.{HoldValues, ReadsFirst, ReadsFirstUnder};
ghost use Rattle.clsm_store_calls.specs.{Reading.MayReadBelow, Resting.RestsAt};

use crate::got::Got;
use crate::loading::{GROUP, load_ahead};
use crate::meeting::meet_at;
use crate::places::{Keyed, ValuePlace};
use crate::reading::{begin, end_of, value_left};
use crate::snapshotting::{OpenSnapshot, begin_under, end_under};
use clsm_model::{Time, Value};
use clsm_pins::unpin;
use clsm_scan::ReadPoint;
use clsm_words::{Pace, RawSeat, Words};

/// Leaves the value of each key but the first at the point in the key's place. That of the first
/// is in its own already.
fn leave_others<P: Pace, K: Keyed, V: ValuePlace>(
    words: &Words<P>,
    seat: &mut RawSeat,
    point: ReadPoint,
    keys: &[K],
    places: &mut [V],
)
    requires of { IsSeatOf words.now seat.old }
    requires may { MayReadBelow seat.old.knows point.component point.until }
    requires some { 0 < length keys.now }
    requires same { length places.old ≡ length keys.now }
    requires first { HoldValues V.tells (plain seat.old.knows.past) point.until (map K.key (take 1 keys.now)) (take 1 places.old) }
    ensures of { IsSeatOf words.now seat.new }
    ensures looks { Looks seat.old.knows seat.new.knows }
    ensures values { HoldValues V.tells (plain seat.old.knows.past) point.until (map K.key keys.now) places.new }
{
    for at in 1..keys.len() {
        if at % GROUP == 0 {
            load_ahead(words, seat, point.component, &keys[at..]);
        }
        let mut value = None;
        value_left(words, seat, point, keys[at].key(), &mut value);
        places[at].take(&value);
    }
}

/// Leaves the value of each key at the point in the key's place, and answers that of the first.
/// The point's time is not below what is merged into its component, or it is that of the seat's
/// open snapshot.
fn leave_all<P: Pace, K: Keyed, V: ValuePlace>(
    words: &Words<P>,
    seat: &mut RawSeat,
    point: ReadPoint,
    keys: &[K],
    places: &mut [V],
) -> Option<Value>
    requires of { IsSeatOf words.now seat.old }
    requires may { MayReadBelow seat.old.knows point.component point.until }
    requires some { 0 < length keys.now }
    requires same { length places.old ≡ length keys.now }
    ensures of { IsSeatOf words.now seat.new }
    ensures looks { Looks seat.old.knows seat.new.knows }
    ensures values { HoldValues V.tells (plain seat.old.knows.past) point.until (map K.key keys.now) places.new }
    ensures first { IfSome (slice_get (map K.key keys.now) 0) (λ key. result ≡ value (plain seat.old.knows.past) key point.until) }
{
    load_ahead(words, seat, point.component, keys);
    let mut first = None;
    value_left(words, seat, point, keys[0].key(), &mut first);
    places[0].take(&first);
    leave_others(words, seat, point, keys, places);
    first
}

/// Reads each key at a time of the read's own, the same for all, and leaves its value in its place.
/// It is recorded as a read of the first key; with no key it is a meeting.
pub fn read_many<P: Pace, K: Keyed, V: ValuePlace>(
    words: &Words<P>,
    seat: &mut RawSeat,
    pin_word: u64,
    keys: &[K],
    places: &mut [V],
) -> Time
    requires rests { RestsAt words.now seat.old pin_word }
    requires same { length places.old ≡ length keys.now }
    ensures rests { RestsAt words.now seat.new (next_word (next_word pin_word)) }
    ensures reads { ReadsFirst seat.old.knows seat.new.knows result (map K.key keys.now) }
    ensures values { HoldValues V.tells (plain seat.new.knows.past) result (map K.key keys.now) places.new }
{
    if keys.is_empty() {
        return meet_at(words, seat, pin_word);
    }
    let point = begin(words, seat, pin_word);
    let (key, time) = (keys[0].key(), point.until);
    let value = leave_all(words, seat, point, keys, places);
    unpin(
        words,
        seat,
        pin_word.wrapping_add(1),
        &end_of(key, &Got { time, value }),
    );
    time
}

/// Reads each key at the time of the open snapshot, and leaves its value in its place. It is
/// recorded as a read of the first key.
pub fn read_many_under<P: Pace, K: Keyed, V: ValuePlace>(
    words: &Words<P>,
    seat: &mut RawSeat,
    snapshot: OpenSnapshot,
    keys: &[K],
    places: &mut [V],
)
    requires rests { RestsAt words.now seat.old snapshot.pin_word }
    requires opened { open_time seat.old.knows.view.snapshot ≡ Some snapshot.time }
    requires some { 0 < length keys.now }
    requires same { length places.old ≡ length keys.now }
    ensures rests { RestsAt words.now seat.new (next_word (next_word snapshot.pin_word)) }
    ensures reads { ReadsFirstUnder seat.old.knows seat.new.knows snapshot.time (map K.key keys.now) }
    ensures values { HoldValues V.tells (plain seat.new.knows.past) snapshot.time (map K.key keys.now) places.new }
{
    let point = begin_under(words, seat, snapshot);
    let (key, time) = (keys[0].key(), snapshot.time);
    let value = leave_all(words, seat, point, keys, places);
    unpin(
        words,
        seat,
        snapshot.pin_word.wrapping_add(1),
        &end_under(key, &Got { time, value }),
    );
}
