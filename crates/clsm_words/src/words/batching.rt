//! The steps of a batch: a caller's hold of the lock alone, the keys of the members, and their
//! commit.
ghost use Rattle.std.specs.Prelude.{◌≡◌, Some};
ghost use Rattle.clsm_law.specs.declared.step.Step.TheVariants.{EnterExclusive, LeaveExclusive, Stage, Commit};
ghost use Rattle.clsm_words.specs.Plays.{MayPlay, Plays, PlaysTo};

use super::cells::won_if;
use super::{RawSeat, Words};
use crate::operation::Operation::{Exchange, Store, Subtract};
use crate::pace::{Kind, Pace};
use clsm_law::{Answer, EXCLUSIVE_HOLD, Part, Step, Word};
use clsm_model::{Change, Key, Time};
use std::marker::Brand;

impl<P: Pace> Words<P> {
    /// Enters the lock alone, if nobody holds it. Answers `Lost` where somebody does: the seat is
    /// outside then, and nothing is counted.
    #[inline(always)]
    pub fn enter_exclusive(&self, seat: &mut RawSeat) -> Answer
        requires { MayPlay self.now seat.old EnterExclusive }
        ensures { PlaysTo self.now seat.old EnterExclusive result seat.new }
    {
        let hold = Exchange(0, EXCLUSIVE_HOLD);
        let found = self.play(seat, &Step::EnterExclusive, Word::Lock, hold);
        won_if(found == 0)
    }

    /// Leaves the lock that the seat holds alone.
    #[inline(always)]
    pub fn leave_exclusive(&self, seat: &mut RawSeat)
        requires { MayPlay self.now seat.old LeaveExclusive }
        ensures { Plays self.now seat.old LeaveExclusive seat.new }
    {
        let hold = Subtract(EXCLUSIVE_HOLD);
        self.play(seat, &Step::LeaveExclusive, Word::Lock, hold);
    }

    /// Takes the time for the next member of the seat's batch, and fills this key in its cell. The
    /// time is the seat's then as a drawn one is.
    #[inline(always)]
    pub fn stage(&self, seat: &mut RawSeat, time: Time, key: Key)
        requires { MayPlay self.now seat.old (Stage time key) }
        ensures { Plays self.now seat.old (Stage time key) seat.new }
    {
        let cell = self.words.cell_of(time);
        let part = Part::Key;
        let step = Step::Stage(time, key);
        self.play(seat, &step, Word::Cell { cell, part }, Store(key));
    }

    /// Commits the members that the seat decided, at the times from `first` on, which is the clock
    /// that it looked at in this hold: the clock moves behind them, and they are recorded as one
    /// batch.
    #[inline(always)]
    pub fn commit(&self, seat: &mut RawSeat, first: Time, members: &[(u64, Change)])
        requires opens { MayPlay self.now seat.old (Commit members.now) }
        requires first { seat.old.knows.view.hold_clock ≡ Some first }
        ensures { Plays self.now seat.old (Commit members.now) seat.new }
    {
        self.pace.step(seat.number(), Kind::Commit);
        let end = Store(first + members.len() as u64);
        self.words
            .act_told::<Brand, &[(u64, Change)]>(&mut seat.seat, &members, Word::Clock, end);
    }
}
