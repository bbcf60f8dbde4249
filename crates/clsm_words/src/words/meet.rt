//! How one seat learns what another knew.
ghost use Rattle.std.specs.Prelude.{◌≡◌};
ghost use Rattle.clsm_words.specs.Seats.{MessageState};
ghost use Rattle.clsm_words.specs.Plays.{IsSeatOf, IsMessageOf, Learns, TakesIn, TellsOf};

use super::{Message, RawMerger, RawSeat, WordTable, Words};
use crate::known::Known;
use crate::pace::Pace;
use crate::rule::Tells;
use atomic_table::Seat;

impl WordTable {
    /// Answers a message with the seat's past and its due.
    pub(super) fn tell(&self, from: &mut RawSeat) -> Message
        requires { IsSeatOf self.now from.old }
        ensures seat { from.new ≡ from.old }
        ensures message { IsMessageOf self.now result × TellsOf from.old.knows result }
    {
        let seat = self.table.shared.split_seat::<Tells>(&mut from.seat);
        Message { seat }
    }

    /// A message takes in another: it carries the other's past and the greater of the dues.
    pub(super) fn join(&self, to: &mut Message, message: Message)
        requires to { IsMessageOf self.now to.old }
        requires message { IsMessageOf self.now message }
        ensures { IsMessageOf self.now to.new × TakesIn to.old message to.new }
    {
        let Message { seat: other } = message;
        self.table.shared.join_seat::<Tells>(&mut to.seat, other);
    }

    /// A seat of the table takes in what the message carries.
    fn take_in(&self, seat: &mut Seat<u64, Known>, message: Message)
        requires seat { seat.old.table_id ≡ self.now.table.shared.table_id }
        requires message { IsMessageOf self.now message }
        ensures table { seat.new.table_id ≡ seat.old.table_id }
        ensures learns { Learns seat.old.me.0 message seat.new.me.0 }
    {
        let Message { seat: sent } = message;
        self.table.shared.join_seat::<Tells>(seat, sent);
    }

    /// The seat learns of the message. From its next step on its past begins with what it was told,
    /// or the other way round.
    pub(super) fn learn(&self, to: &mut RawSeat, message: Message)
        requires seat { IsSeatOf self.now to.old }
        requires message { IsMessageOf self.now message }
        ensures { IsSeatOf self.now to.new × Learns to.old.knows message to.new.knows }
    {
        self.take_in(&mut to.seat, message);
    }

    /// The merger learns of the message. From its next step on its past begins with what it was
    /// told, or the other way round.
    pub(super) fn learn_as_merger(&self, to: &mut RawMerger, message: Message)
        requires merger { IsSeatOf self.now to.old }
        requires message { IsMessageOf self.now message }
        ensures { IsSeatOf self.now to.new × Learns to.old.knows message to.new.knows }
    {
        self.take_in(&mut to.seat, message);
    }
}

impl<P: Pace> Words<P> {
    /// Answers a message with the seat's past and its due.
    pub fn tell(&self, from: &mut RawSeat) -> Message
        requires { IsSeatOf self.now from.old }
        ensures seat { from.new ≡ from.old }
        ensures message { IsMessageOf self.now result × TellsOf from.old.knows result }
    {
        self.words.tell(from)
    }

    /// A message takes in another: it carries the other's past and the greater of the dues.
    pub fn join(&self, to: &mut Message, message: Message)
        requires to { IsMessageOf self.now to.old }
        requires message { IsMessageOf self.now message }
        ensures { IsMessageOf self.now to.new × TakesIn to.old message to.new }
    {
        self.words.join(to, message);
    }

    /// The seat learns of the message. From its next step on its past begins with what it was told,
    /// or the other way round.
    pub fn learn(&self, to: &mut RawSeat, message: Message)
        requires seat { IsSeatOf self.now to.old }
        requires message { IsMessageOf self.now message }
        ensures { IsSeatOf self.now to.new × Learns to.old.knows message to.new.knows }
    {
        self.words.learn(to, message);
    }

    /// The merger learns of the message. From its next step on its past begins with what it was
    /// told, or the other way round.
    pub fn learn_as_merger(&self, to: &mut RawMerger, message: Message)
        requires merger { IsSeatOf self.now to.old }
        requires message { IsMessageOf self.now message }
        ensures { IsSeatOf self.now to.new × Learns to.old.knows message to.new.knows }
    {
        self.words.learn_as_merger(to, message);
    }
}
