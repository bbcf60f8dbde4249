//! What seats tell one another.
ghost use Rattle.std.specs.Prelude.{◌≡◌, ◌≤◌};
ghost use Rattle.clsm_store_calls.specs.Seats.{known_by};
ghost use Rattle.clsm_store.specs.Meetings.{Follows, IsConfirmedBy, told_by};

use crate::seat::{Seat, pass_read};
use crate::store::Store;
use clsm_model::Time;
use clsm_store_calls::{confirm_at, meet_at};
use clsm_words::{Message, Pace};

/// A message with what the seat knows, and its due.
pub(crate) fn tell<P: Pace>(store: &Store<P>, seat: &mut Seat) -> Message
    requires { seat.old.store ≡ store.now }
    ensures seat { seat.new ≡ seat.old }
    ensures table { result.table ≡ store.now.table }
    ensures told { told_by result ≡ known_by seat.old }
    ensures heard { result.heard ≡ seat.old.due }
{
    store.words.tell(&mut seat.raw)
}

/// From now on the message carries what the other carries, and the greater due.
pub(crate) fn join<P: Pace>(store: &Store<P>, message: &mut Message, other: Message)
    requires table { message.old.table ≡ store.now.table }
    requires other { other.table ≡ store.now.table }
    ensures table { message.new.table ≡ store.now.table }
    ensures told { told_by message.new ≡ told_by other }
    ensures above { message.old.heard ≤ message.new.heard }
    ensures above_other { other.heard ≤ message.new.heard }
{
    store.words.join(message, other);
}

/// The seat takes the message in, and reads at a time of its own.
pub(crate) fn follow<P: Pace>(store: &Store<P>, seat: &mut Seat, message: Message) -> Time
    requires seat { seat.old.store ≡ store.now }
    requires message { message.table ≡ store.now.table }
    ensures { Follows message result seat.old seat.new }
{
    store.words.learn(&mut seat.raw, message);
    let time = meet_at(&store.words, &mut seat.raw, seat.pin);
    pass_read(&mut seat.pin);
    time
}

/// The seat takes the message in and looks once: then its calls are known to agree with what it was
/// told.
pub(crate) fn confirm<P: Pace>(store: &Store<P>, seat: &mut Seat, message: Message)
    requires seat { seat.old.store ≡ store.now }
    requires message { message.table ≡ store.now.table }
    ensures seat { seat.new ≡ seat.old }
    ensures confirmed { IsConfirmedBy (told_by message) seat.old }
{
    seat.show_records();
    store.words.learn(&mut seat.raw, message);
    confirm_at(&store.words, &mut seat.raw);
}
