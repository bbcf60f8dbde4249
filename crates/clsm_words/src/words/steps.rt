//! The steps on the lock, the clock and the front, and looks at any word.
ghost use Rattle.std.specs.Prelude.{◌≡◌, true};
ghost use Rattle.clsm_law.specs.Memory.{is_word};
ghost use Rattle.clsm_law.specs.declared.step.Step.TheVariants.{EnterShared, LeaveShared, Draw, Look, RaiseFront};
ghost use Rattle.clsm_law.specs.declared.word.Word.TheVariants.{Front};
ghost use Rattle.clsm_words.specs.Knowing.{Opens};
ghost use Rattle.clsm_words.specs.Plays.{MayPlay, Played, Plays, PlaysTo, confirming};

use super::cells::won_if;
use super::{RawSeat, Words};
use crate::operation::Operation::{Exchange, Load, Raise, Subtract};
use crate::pace::{Kind, Pace};
use clsm_law::{Answer, Step, Word};
use clsm_model::Time;
use std::marker::Brand;

impl<P: Pace> Words<P> {
    /// Enters the lock beside so many other holders. Answers `Lost` where there were not just so
    /// many, or somebody held it exclusively: the seat is outside then, and its count `busy` moves
    /// by one.
    #[inline(always)]
    pub fn enter_shared(&self, seat: &mut RawSeat, holders: u64) -> Answer
        requires { MayPlay self.now seat.old (EnterShared holders) }
        ensures { PlaysTo self.now seat.old (EnterShared holders) result seat.new }
    {
        let step = Step::EnterShared(holders);
        let found = self.play(seat, &step, Word::Lock, Exchange(holders, holders + 1));
        won_if(found == holders)
    }

    /// Leaves the lock.
    #[inline(always)]
    pub fn leave_shared(&self, seat: &mut RawSeat)
        requires { MayPlay self.now seat.old LeaveShared }
        ensures { Plays self.now seat.old LeaveShared seat.new }
    {
        self.play(seat, &Step::LeaveShared, Word::Lock, Subtract(1));
    }

    /// Draws the time, if it is the next. Answers `Lost` where it is not: nothing is drawn then,
    /// and the seat's count `raced` moves by one.
    #[inline(always)]
    pub fn draw(&self, seat: &mut RawSeat, time: Time) -> Answer
        requires { MayPlay self.now seat.old (Draw time) }
        ensures { PlaysTo self.now seat.old (Draw time) result seat.new }
    {
        seat.show_invariant();
        let step = Step::Draw(time);
        let found = self.play(seat, &step, Word::Clock, Exchange(time, time + 1));
        won_if(found == time)
    }

    /// Raises FRONT to the time, and the seat's past with it.
    #[inline(always)]
    pub fn raise_front(&self, seat: &mut RawSeat, time: Time)
        requires { MayPlay self.now seat.old (RaiseFront time) }
        ensures { Plays self.now seat.old (RaiseFront time) seat.new }
    {
        self.play(seat, &Step::RaiseFront(time), Word::Front, Raise(time));
    }

    /// Looks at FRONT before a raise to the time, and answers what it found. Where that is the time
    /// or above, nothing is left to raise, and the look is the raise: the seat's past is raised to
    /// the time. Readers that only look share the word's line, which each raise would take from the
    /// others.
    #[inline(always)]
    pub fn confirm_front(&self, seat: &mut RawSeat, time: Time) -> u64
        requires raise { MayPlay self.now seat.old (RaiseFront time) }
        requires look { Opens seat.old.knows (Look Front) }
        ensures { Played self.now seat.old (confirming time result) result seat.new }
    {
        self.pace.step(seat.number, Kind::RaiseFront);
        self.words
            .act_told::<Brand, Time>(&mut seat.seat, &time, Word::Front, Load)
    }

    /// Loads the word for nobody, so that it is near when a seat looks at it. What it finds tells
    /// nothing, and it is no step.
    #[inline(always)]
    pub fn peek(&self, word: Word) -> u64
        requires { is_word self.now.layout word ≡ true }
    {
        self.words.table.shared.peek(self.words.place(word))
    }

    /// Looks at the word.
    #[inline(always)]
    pub fn look(&self, seat: &mut RawSeat, word: Word) -> u64
        requires { MayPlay self.now seat.old (Look word) }
        ensures { Played self.now seat.old (Look word) result seat.new }
    {
        self.play(seat, &Step::Look(word), word, Load)
    }
}
