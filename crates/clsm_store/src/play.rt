//! Calls as values: a seat makes one, and is answered.
ghost use Rattle.std.specs.Prelude.{◌≡◌};
ghost use Rattle.clsm_store.specs.Promises.{GetsAtIfOpen, Plays};

use crate::caller::Caller;
use crate::seat::Seat;
use crate::store::Store;
use clsm_model::Key;
use clsm_store_calls::Got;
use clsm_words::Pace;
use std::alloc::Global;
use std::sync::Wait;

mod answer;
mod call;

pub use answer::Answer;
pub use call::Call;

/// Reads the key under the seat's snapshot; `None` if none is open, and nothing was done then.
fn get_at<P: Pace>(store: &Store<P>, seat: &mut Seat, key: Key) -> Option<Got>
    requires { seat.old.store ≡ store.now }
    ensures { GetsAtIfOpen seat.old seat.new key result }
{
    seat.snapshot_time()?;
    Some(store.get_at(seat, key))
}

impl<P: Pace> Store<P> {
    /// Makes the call by the seat, and answers what the method of its name answers: it waits,
    /// counts and is refused as that. A read under a snapshot is refused if none is open, and
    /// nothing was done then.
    pub fn play<R: Wait>(&self, rt: &R, alloc: Global, seat: &mut Seat, call: &Call) -> Answer
        requires { seat.old.store ≡ self.now }
        ensures { Plays call.now seat.old seat.new result }
    {
        match call {
            Call::Put { key, value } => Answer::Write(self.put(rt, seat, *key, *value)),
            Call::Remove { key } => Answer::Write(self.remove(rt, seat, *key)),
            Call::Try { key, value } => Answer::Try(self.try_put(seat, *key, *value)),
            Call::Add { key, by } => Answer::Change(self.add(rt, seat, *key, *by)),
            Call::Claim { key, value } => {
                Answer::Change(self.put_if_absent(rt, seat, *key, *value))
            }
            Call::Get { key } => Answer::Read(self.get(seat, *key)),
            Call::Snap => Answer::Snapshot(self.snapshot(seat)),
            Call::Close => Answer::Close(self.close_snapshot(seat)),
            Call::GetAt { key } => Answer::ReadAt(get_at(self, seat, *key)),
            Call::Scan { lo, hi } => Answer::Scan(self.scan(alloc, seat, *lo, *hi)),
            Call::Page { from, hi, max } => {
                Answer::Page(self.page(alloc, seat, *from, *hi, *max as usize))
            }
            Call::Batch { members } => Answer::Batch(self.batch(rt, seat, members.as_slice())),
        }
    }
}

impl<'a, P: Pace> Caller<'a, P> {
    /// As `Store::play`.
    pub fn play<R: Wait>(&mut self, rt: &R, alloc: Global, call: &Call) -> Answer
        ensures { Plays call.now self.old.seat self.new.seat result }
    {
        self.store.play(rt, alloc, &mut self.seat, call)
    }
}
