//! How seats settle: each tells its due, each follows the one before it, and each is confirmed by
//! what the last one knows. It takes no memory.
ghost use Rattle.std.specs.Prelude.{◌≡◌, ◌<◌, length};
ghost use Rattle.clsm_store.specs.Meetings.{AreChained, AreConfirmed, AreDueBelow, AreMetAt, AreOf};

use crate::seat::Seat;
use crate::store::Store;
use crate::telling::{confirm, follow, join, tell};
use clsm_words::{Message, Pace};

/// A message with the greatest due of all.
pub(crate) fn tell_all<P: Pace>(store: &Store<P>, seats: &mut Vec<Seat>) -> Message
    requires some { 0 < length seats.old.items }
    requires of_store { AreOf store.now seats.old.items }
    ensures seats { seats.new.items ≡ seats.old.items }
    ensures table { result.table ≡ store.now.table }
    ensures dues { AreDueBelow result.heard seats.old.items }
{
    let mut message = tell(store, &mut seats[0]);
    for place in 1..seats.len() {
        let other = tell(store, &mut seats[place]);
        join(store, &mut message, other);
    }
    message
}

/// Each follows the one before it, the first one the message.
pub(crate) fn follow_all<P: Pace>(store: &Store<P>, seats: &mut Vec<Seat>, message: Message)
    requires of_store { AreOf store.now seats.old.items }
    requires table { message.table ≡ store.now.table }
    ensures met { AreMetAt message.heard seats.old.items seats.new.items }
    ensures chained { AreChained seats.new.items }
{
    let mut newest = message;
    for place in 0..seats.len() {
        follow(store, &mut seats[place], newest);
        newest = tell(store, &mut seats[place]);
    }
}

/// Each is confirmed by what the last one knows.
pub(crate) fn confirm_all<P: Pace>(store: &Store<P>, seats: &mut Vec<Seat>)
    requires of_store { AreOf store.now seats.old.items }
    ensures seats { seats.new.items ≡ seats.old.items }
    ensures confirmed { AreConfirmed seats.old.items }
{
    let count = seats.len();
    for place in 0..count {
        let message = tell(store, &mut seats[count - 1]);
        confirm(store, &mut seats[place], message);
    }
}
