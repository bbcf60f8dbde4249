//! The steps on the seat's own pin and snapshot words.
ghost use Rattle.std.specs.Prelude.{◌≡◌, ◌+◌, ◌%◌, ◌^◌};
ghost use Rattle.clsm_law.specs.declared.step.Step.TheVariants.{Pin, Unpin, Note, CloseSnapshot};
ghost use Rattle.clsm_words.specs.Plays.{MayPlay, Plays};

use super::{RawSeat, Words};
use crate::ending::Ending;
use crate::operation::Operation::Store;
use crate::pace::{Kind, Pace};
use clsm_law::{Step, Word};
use clsm_model::Time;
use std::marker::Brand;

impl<P: Pace> Words<P> {
    /// Begins a read. `pin` is the seat's pin word.
    #[inline(always)]
    pub fn pin(&self, seat: &mut RawSeat, pin: u64)
        requires opens { MayPlay self.now seat.old Pin }
        requires pin { pin ≡ seat.old.knows.view.pin }
        ensures { Plays self.now seat.old Pin seat.new }
    {
        let word = Word::Pin(seat.number);
        self.play(seat, &Step::Pin, word, Store(pin.wrapping_add(1)));
    }

    /// Ends a read. `pin` is the seat's pin word. How it ends is for the proof alone.
    #[inline(always)]
    pub fn unpin<E: Ending>(&self, seat: &mut RawSeat, pin: u64, end: &E)
        requires opens { MayPlay self.now seat.old (Unpin (E.end end.now)) }
        requires pin { pin ≡ seat.old.knows.view.pin }
        ensures { Plays self.now seat.old (Unpin (E.end end.now)) seat.new }
    {
        self.pace.step(seat.number(), Kind::Unpin);
        let word = Word::Pin(seat.number);
        let next = Store(pin.wrapping_add(1));
        self.words
            .act_told::<Brand, E>(&mut seat.seat, end, word, next);
    }

    /// Notes the time in the seat's snapshot word.
    #[inline(always)]
    pub fn note(&self, seat: &mut RawSeat, time: Time)
        requires { MayPlay self.now seat.old (Note time) }
        ensures { Plays self.now seat.old (Note time) seat.new }
    {
        seat.show_invariant();
        let word = Word::Snap(seat.number);
        self.play(seat, &Step::Note(time), word, Store(time + 1));
    }

    /// Closes the seat's snapshot.
    #[inline(always)]
    pub fn close_snapshot(&self, seat: &mut RawSeat)
        requires { MayPlay self.now seat.old CloseSnapshot }
        ensures { Plays self.now seat.old CloseSnapshot seat.new }
    {
        let word = Word::Snap(seat.number);
        self.play(seat, &Step::CloseSnapshot, word, Store(0));
    }
}
