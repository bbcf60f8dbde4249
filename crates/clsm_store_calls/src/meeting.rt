//! Meetings at the words.
ghost use Rattle.clsm_law.specs.Views.{next_word};
ghost use Rattle.clsm_words.specs.Plays.{IsSeatOf};
ghost use Rattle.clsm_store_calls.specs.Meeting.{Confirms, MeetsAt};
ghost use Rattle.clsm_store_calls.specs.Resting.{IsAtRest, RestsAt};

use crate::reading::begin;
use clsm_law::{End, Word};
use clsm_model::Time;
use clsm_pins::unpin;
use clsm_words::{Pace, RawSeat, Words};

/// Reads at a time of its own, with no search and no record: all below that time is settled.
pub fn meet_at<P: Pace>(words: &Words<P>, seat: &mut RawSeat, pin_word: u64) -> Time
    requires rests { RestsAt words.now seat.old pin_word }
    ensures rests { RestsAt words.now seat.new (next_word (next_word pin_word)) }
    ensures meets { MeetsAt seat.old.knows seat.new.knows result }
{
    let point = begin(words, seat, pin_word);
    seat.show_invariant();
    unpin(words, seat, pin_word.wrapping_add(1), &End::Meeting);
    point.until
}

/// Looks once, so that the seat's calls are known to agree with what it was told.
pub fn confirm_at<P: Pace>(words: &Words<P>, seat: &mut RawSeat)
    requires of { IsSeatOf words.now seat.old }
    requires rests { IsAtRest seat.old.knows }
    ensures of { IsSeatOf words.now seat.new }
    ensures rests { IsAtRest seat.new.knows }
    ensures confirms { Confirms seat.old.knows seat.new.knows }
{
    seat.show_invariant();
    words.look(seat, Word::Front);
    seat.show_invariant();
}
