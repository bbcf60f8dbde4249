//! The calls by which seats come to know of one another.
ghost use Rattle.std.specs.Prelude.{◌≡◌};
ghost use Rattle.clsm_store.specs.Headline.{HasAllSeats, IsJointHistory, IsWholeHistory, longest_past};
ghost use Rattle.clsm_store.specs.Meetings.{AreChained, AreMet, AreOf};
ghost use Rattle.clsm_store.specs.Promises.{LetsMeet};

use crate::seat::Seat;
use crate::settling::{confirm_all, follow_all, tell_all};
use crate::store::Store;
use crate::telling::{follow, tell};
use clsm_model::Time;
use clsm_words::Pace;

impl<P: Pace> Store<P> {
    /// Lets two callers meet: each reads at a time of its own that is not below any earlier time of
    /// either, and the one knows all that the other did before. The due of each is then the time at
    /// which it read, up to which it knows all. It answers the first of those times: each later
    /// call of either seat has a time at or above it, except for reads under an earlier snapshot
    /// and its close. It takes no memory and no lock, never waits and is never refused.
    pub fn meet(&self, one: &mut Seat, other: &mut Seat) -> Time
        requires one { one.old.store ≡ self.now }
        requires other { other.old.store ≡ self.now }
        ensures { LetsMeet one.old one.new other.old other.new result }
    {
        let message = tell(self, other);
        let time = follow(self, one, message);
        let message = tell(self, one);
        follow(self, other, message);
        time
    }

    /// Settles what these seats did: the same seats in the same order, with the same calls and
    /// snapshots, have one joint history from then on, which is what the one that knows most of
    /// them knows. Each answered put, remove and read-modify-write stands in it once, at its own
    /// time, and the members of each answered batch at its times, one after another; each read
    /// answered as a plain map of the writes below its time, which is strictly inside no batch; no
    /// seat's times run back. With all seats of the store no other write stands in it. Each seat
    /// knows what those before it know, and its due is the time at which it read last. It takes no
    /// memory and no lock, never waits and is never refused; an empty list comes back empty.
    pub fn settle(&self, mut seats: Vec<Seat>) -> Vec<Seat>
        requires { AreOf self.now seats.items }
        ensures of_store { AreOf self.now result.items }
        ensures met { AreMet seats.items result.items }
        ensures chained { AreChained result.items }
        ensures joint { IsJointHistory result.items (longest_past result.items) }
        ensures whole { HasAllSeats self.now seats.items → IsWholeHistory result.items (longest_past result.items) }
    {
        if seats.is_empty() {
            return seats;
        }
        let message = tell_all(self, &mut seats);
        follow_all(self, &mut seats, message);
        confirm_all(self, &mut seats);
        seats
    }
}
