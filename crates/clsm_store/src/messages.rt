//! Messages: how one caller comes to know of another that is in other hands.
ghost use Rattle.std.specs.Prelude.{◌≡◌};
ghost use Rattle.clsm_store.specs.Promises.{Hears, Tells};

use crate::caller::Caller;
use crate::seat::Seat;
use crate::store::Store;
use crate::telling;
use clsm_model::Time;
use clsm_words::Pace;
use std::marker::Model;

/// What a caller knew when it told: a beginning of the history of its store, and its due. It has no
/// bytes. It may be moved to another thread, through a channel too, and is heard once, or dropped.
/// Contracts see the table of its store, that beginning, as its slots and its batches, and the due.
#[derive(Drop)]
pub struct Message {
    words: clsm_words::Message,
}

impl Model for Message {
    ghost use Rattle.clsm_words.specs.Seats.{MessageState};

    ghost Value = { MessageState };

    ghost view = { λ m. m.words };
}

impl<P: Pace> Store<P> {
    /// Answers a message for a caller in another thread: all that the seat knows, and its due. The
    /// seat stays as it was. It makes no step, and takes no memory and no lock.
    pub fn tell(&self, seat: &mut Seat) -> Message
        requires seat { seat.old.store ≡ self.now }
        ensures { Tells self.now seat.old seat.new result }
    {
        let words = telling::tell(self, seat);
        Message { words }
    }

    /// Takes a message in: the seat reads at a time of its own, below neither its due nor that
    /// which its sender had when it told, and then knows all that its sender knew then. It answers
    /// that time. Each later call of the seat has a time at or above it, except for reads under an
    /// earlier snapshot and its close, so its reads see each write that its sender had made. A seat
    /// may hear a message of its own. It makes six steps, and one more for each time below its own
    /// that no read has settled yet. It takes no memory and no lock, never waits and is never
    /// refused.
    pub fn hear(&self, seat: &mut Seat, message: Message) -> Time
        requires seat { seat.old.store ≡ self.now }
        requires message { message.table ≡ self.now.table }
        ensures { Hears message seat.old seat.new result }
    {
        telling::follow(self, seat, message.words)
    }
}

impl<'a, P: Pace> Caller<'a, P> {
    /// As `Store::tell`.
    pub fn tell(&mut self) -> Message
        ensures { Tells self.old.seat.store self.old.seat self.new.seat result }
    {
        self.store.tell(&mut self.seat)
    }

    /// As `Store::hear`.
    pub fn hear(&mut self, message: Message) -> Time
        requires { message.table ≡ self.old.seat.store.table }
        ensures { Hears message self.old.seat self.new.seat result }
    {
        self.store.hear(&mut self.seat, message)
    }
}
