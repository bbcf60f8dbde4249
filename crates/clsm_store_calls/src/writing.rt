//! Writes at the words: look ahead, draw, fill, enter, decide, and on from there where another seat
//! was faster.
ghost use Rattle.std.specs.Prelude.{◌≡◌, ◌<◌, None, IfOk, IfErr};
ghost use Rattle.clsm_law.specs.Views.{next_word};
ghost use Rattle.clsm_words.specs.Plays.{IsSeatOf};
ghost use Rattle.clsm_memtable.specs.Inserting.{IsStart};
ghost use Rattle.clsm_store_calls.specs.Resting.{FindsFull, IsAtRest, IsInHold, Records, Still, Tries, deed_of, is_answer};
ghost use Rattle.clsm_store_calls.specs.Tally.{CancelsNone, CountsTry, OnlyLoses, looked, tally_of};
ghost use Rattle.clsm_store_calls.specs.Writing.{CountsOne, CountsTries, Fails, HasCome, IsToEnter, LeavesIn, TriesInHold};

use crate::refusal::{Full, TryPutError};
use clsm_lock::{lock_shared, try_lock_shared, unlock_shared};
use clsm_memtable::{
    Decided, DrawError, DrawnCell, EntryState, Start, decide, draw, fill, give_up, look_ahead,
    look_back,
};
use clsm_model::{Deed, Key, Time, Value};
use clsm_search::Guess;
use clsm_words::{Pace, RawSeat, Words};
use std::sync::Wait;

/// A write that is asked for: the value that the key is to have, or none for a removal.
#[derive(Drop)]
struct Assignment<'a> {
    key: Key,
    value: &'a Option<Value>,
}

/// A drawn time whose cell says the write, and where the entry of that cell stands.
#[derive(Clone, Copy)]
pub(crate) struct Drawn {
    time: Time,
    entry: EntryState,
}

/// How far a write has come in its hold of the lock.
#[derive(Clone, Copy)]
pub(crate) struct Progress {
    /// Where the search for its place begins.
    start: Start,
    /// What it has drawn and not decided yet.
    drawn: Option<Drawn>,
}

impl Progress {
    /// That of a write which has not begun.
    #[inline(always)]
    fn none() -> Progress
        ensures drawn { result.drawn ≡ None }
        ensures lost { result.start.lost ≡ 0 }
    {
        Progress {
            start: Start::hinted(Guess::NONE),
            drawn: None,
        }
    }
}

/// What came of tries to write in a hold of the lock.
#[derive(Drop)]
pub(crate) enum Attempt {
    Written(Time),
    /// The clock stands at the limit.
    Full(Time),
    /// Another seat was faster: it drew the time, or linked its cell in the same chain, or inserted
    /// one at the same place of the list. A time that is drawn stays so.
    Raced,
    /// A reader cancelled the drawn time.
    Overtaken,
}

impl Attempt {
    /// The write was made, or is refused for good.
    #[inline(always)]
    fn is_answer(&self) -> bool
        ensures { result ≡ is_answer self.now }
    {
        matches!(self, Attempt::Written(_) | Attempt::Full(_))
    }
}

/// The write of the value at the key, or its removal.
#[inline(always)]
pub(crate) fn deed_of(key: Key, value: &Option<Value>) -> Deed
    ensures { result ≡ deed_of key value.now }
{
    match *value {
        Some(value) => Deed::Put { key, value },
        None => Deed::Remove { key },
    }
}

/// Looks ahead, in a hold of the lock, where the search for the place begins at no lost cell.
#[tactic(auto, using(crate::proofs::Retries::hold_ahead, crate::proofs::Retries::still_ahead, crate::proofs::Losses::nothing_ahead, crate::proofs::Rest::still_none,))]
#[inline(always)]
fn look_first<P: Pace>(words: &Words<P>, seat: &mut RawSeat, key: Key, start: &mut Start)
    requires of { IsSeatOf words.now seat.old }
    requires holds { IsInHold seat.old.knows }
    requires start { IsStart seat.old.knows start.old.lost }
    ensures of { IsSeatOf words.now seat.new }
    ensures holds { IsInHold seat.new.knows }
    ensures still { Still seat.old.knows seat.new.knows }
    ensures counts { tally_of seat.new.knows ≡ looked (tally_of seat.old.knows) (tally_of seat.new.knows) }
    ensures start { IsStart seat.new.knows start.new.lost }
{
    if start.lost != 0 {
        return;
    }
    start.guess = look_ahead(words, seat, key);
}

impl Assignment<'_> {
    /// The drawn time of the write: that which it has, or else the next one, in whose cell it fills
    /// what it says. Where it begins its search at no lost cell, it looks ahead before it draws.
    #[tactic(auto, using(crate::proofs::Retries::hold_raced, crate::proofs::Retries::start_raced, crate::proofs::Retries::undecided_drawn, crate::proofs::Retries::may_enter_drawn, crate::proofs::Losses::nothing_trans, crate::proofs::Losses::nothing_drawn, crate::proofs::Losses::nothing_full, crate::proofs::Losses::raced_draw, crate::proofs::Losses::counts_behind, crate::proofs::Rest::still_trans, crate::proofs::Rest::still_none, crate::proofs::Rest::still_drawn, crate::proofs::Rest::still_raced, crate::proofs::Rest::full_by, crate::proofs::Rest::full_later,))]
    #[inline(always)]
    fn draw<P: Pace>(
        &self,
        words: &Words<P>,
        seat: &mut RawSeat,
        progress: &mut Progress,
    ) -> Result<Drawn, Attempt>
        requires of { IsSeatOf words.now seat.old }
        requires come { HasCome words.now seat.old self.now.key self.now.value.now progress.old }
        ensures of { IsSeatOf words.now seat.new }
        ensures drawn { IfOk result (IsToEnter words.now seat.old.knows seat.new self.now.key self.now.value.now progress.new.start.lost) }
        ensures come { IfErr result (LeavesIn words.now seat.new self.now.key self.now.value.now progress.new) }
        ensures writes { IfErr result (Tries seat.old.knows seat.new.knows (deed_of self.now.key self.now.value.now)) }
        ensures counts { IfErr result (CountsOne (tally_of seat.old.knows) (tally_of seat.new.knows)) }
    {
        if let Some(drawn) = progress.drawn {
            return Ok(drawn);
        }
        look_first(words, seat, self.key, &mut progress.start);
        let time = match draw(words, seat) {
            Ok(time) => time,
            Err(DrawError::Full(time)) => return Err(Attempt::Full(time)),
            Err(DrawError::Raced) => return Err(Attempt::Raced),
        };
        fill(words, seat, time, self.key, self.value.as_ref());
        let entry = EntryState::Unlinked;
        Ok(Drawn { time, entry })
    }

    /// Goes on with the write from where it stands, up to the first exchange that it loses.
    #[tactic(auto, using(crate::proofs::Retries::start_overtaken, crate::proofs::Retries::opens_write, crate::proofs::Retries::shared_entered, crate::proofs::Retries::hold_written, crate::proofs::Retries::hold_overtaken, crate::proofs::Retries::written_entered, crate::proofs::Retries::still_overtaken, crate::proofs::Retries::undecided_on, crate::proofs::Retries::still_undecided, crate::proofs::Losses::nothing_trans, crate::proofs::Losses::nothing_out, crate::proofs::Losses::nothing_entered, crate::proofs::Losses::nothing_recorded, crate::proofs::Losses::overtaken_decide, crate::proofs::Losses::counts_behind, crate::proofs::Losses::raced_entry, crate::proofs::Rest::still_trans,))]
    #[inline(always)]
    fn go_on<P: Pace>(
        &self,
        words: &Words<P>,
        seat: &mut RawSeat,
        progress: &mut Progress,
    ) -> Attempt
        requires of { IsSeatOf words.now seat.old }
        requires come { HasCome words.now seat.old self.now.key self.now.value.now progress.old }
        ensures of { IsSeatOf words.now seat.new }
        ensures come { LeavesIn words.now seat.new self.now.key self.now.value.now progress.new result }
        ensures writes { Tries seat.old.knows seat.new.knows (deed_of self.now.key self.now.value.now) result }
        ensures counts { CountsOne (tally_of seat.old.knows) (tally_of seat.new.knows) result }
    {
        let drawn = match self.draw(words, seat, progress) {
            Ok(drawn) => drawn,
            Err(attempt) => return attempt,
        };
        let time = drawn.time;
        let key = self.key;
        let placement = match (DrawnCell { time, key }).enter(
            words,
            seat,
            &progress.start,
            drawn.entry,
        ) {
            Ok(placement) => placement,
            Err(entry) => {
                progress.drawn = Some(Drawn { time, entry });
                return Attempt::Raced;
            }
        };
        progress.drawn = None;
        seat.show_invariant();
        progress.start.lost = look_back(words, seat, &placement, progress.start.lost);
        seat.show_invariant();
        match decide(
            words,
            seat,
            time,
            &deed_of(key, self.value),
            &placement.trace,
        ) {
            Decided::Done => Attempt::Written(time),
            Decided::Overtaken => Attempt::Overtaken,
        }
    }

    /// Writes in a hold of the lock, and tries until the write stands, or the clock is at the limit,
    /// or so many tries were lost. Each try goes on from where the last one lost an exchange, or
    /// from the cell that it lost to a reader. It never waits.
    #[tactic(auto, using(crate::proofs::Retries::tries_later, crate::proofs::Retries::tries_still, crate::proofs::Retries::may_go_on, crate::proofs::Losses::loses_none, crate::proofs::Losses::loses_more, crate::proofs::Losses::counts_last, crate::proofs::Rest::still_none, crate::proofs::Rest::still_trans,))]
    #[inline(always)]
    fn write_in_hold<P: Pace>(
        &self,
        words: &Words<P>,
        seat: &mut RawSeat,
        progress: &mut Progress,
        tries: u64,
    ) -> Attempt
        requires of { IsSeatOf words.now seat.old }
        requires come { HasCome words.now seat.old self.now.key self.now.value.now progress.old }
        requires some { 0 < tries }
        ensures of { IsSeatOf words.now seat.new }
        ensures come { LeavesIn words.now seat.new self.now.key self.now.value.now progress.new result }
        ensures writes { Tries seat.old.knows seat.new.knows (deed_of self.now.key self.now.value.now) result }
        ensures counts { CountsTries tries (tally_of seat.old.knows) (tally_of seat.new.knows) result }
    {
        for lost in 0..tries {
            let attempt = self.go_on(words, seat, progress);
            if attempt.is_answer() || lost + 1 == tries {
                return attempt;
            }
        }
        unreachable!()
    }

    /// Writes in a hold of the lock, and tries until the write stands or the clock is at the limit.
    #[tactic(auto, using(crate::proofs::Rest::still_none, crate::proofs::Rest::still_trans, crate::proofs::Rest::records_later, crate::proofs::Rest::full_later, crate::proofs::Losses::only_none, crate::proofs::Losses::only_trans, crate::proofs::Losses::only_loses,))]
    #[inline(always)]
    fn write_at_last<P: Pace, R: Wait>(
        &self,
        rt: &R,
        words: &Words<P>,
        seat: &mut RawSeat,
    ) -> Result<Time, Full>
        requires of { IsSeatOf words.now seat.old }
        requires holds { IsInHold seat.old.knows }
        ensures of { IsSeatOf words.now seat.new }
        ensures holds { IsInHold seat.new.knows }
        ensures counts { OnlyLoses (tally_of seat.old.knows) (tally_of seat.new.knows) }
        ensures written { IfOk result (λ time. Records seat.old.knows seat.new.knows time (deed_of self.now.key self.now.value.now)) }
        ensures full { IfErr result (λ full. FindsFull seat.old.knows seat.new.knows full.time) }
    {
        let mut progress = Progress::none();
        for _ in rt.forever() {
            match self.write_in_hold(words, seat, &mut progress, AT_A_TIME) {
                Attempt::Written(time) => return Ok(time),
                Attempt::Full(time) => return Err(Full { time }),
                Attempt::Raced | Attempt::Overtaken => {}
            }
        }
        unreachable!()
    }

    /// Writes in a hold of the lock, and gives up once so many tries were lost.
    #[tactic(auto, using(crate::proofs::Retries::come_drawn, crate::proofs::Retries::come_undrawn, crate::proofs::Losses::raced_undrawn, crate::proofs::Losses::raced_drawn, crate::proofs::Rest::still_trans, crate::proofs::Rest::still_given_up,))]
    #[inline(always)]
    fn try_in_hold<P: Pace>(
        &self,
        words: &Words<P>,
        seat: &mut RawSeat,
        tries: u64,
    ) -> Result<Time, TryPutError>
        requires of { IsSeatOf words.now seat.old }
        requires holds { IsInHold seat.old.knows }
        requires some { 0 < tries }
        ensures of { IsSeatOf words.now seat.new }
        ensures tries { TriesInHold tries seat.old.knows seat.new.knows (deed_of self.now.key self.now.value.now) result }
    {
        let mut progress = Progress::none();
        match self.write_in_hold(words, seat, &mut progress, tries) {
            Attempt::Written(time) => Ok(time),
            Attempt::Full(time) => Err(TryPutError::Full { time }),
            Attempt::Overtaken => Err(TryPutError::Overtaken),
            Attempt::Raced => {
                let Some(drawn) = progress.drawn else {
                    return Err(TryPutError::Raced);
                };
                give_up(words, seat, drawn.time);
                Err(TryPutError::Raced)
            }
        }
    }
}

/// A write that waits loses so many tries before it looks whether to go on, which it does.
pub(crate) const AT_A_TIME: u64 = 1;

/// Writes the value at the key, or with `None` removes it, and waits for the lock.
#[tactic(auto, using(crate::proofs::Losses::cancels_none,))]
#[inline(always)]
pub fn write<P: Pace, R: Wait>(
    rt: &R,
    words: &Words<P>,
    seat: &mut RawSeat,
    key: Key,
    value: &Option<Value>,
) -> Result<Time, Full>
    requires of { IsSeatOf words.now seat.old }
    requires rests { IsAtRest seat.old.knows }
    ensures of { IsSeatOf words.now seat.new }
    ensures rests { IsAtRest seat.new.knows }
    ensures entered { seat.new.knows.view.entries ≡ next_word seat.old.knows.view.entries }
    ensures cancels { CancelsNone (tally_of seat.old.knows) (tally_of seat.new.knows) }
    ensures written { IfOk result (λ time. Records seat.old.knows seat.new.knows time (deed_of key value.now)) }
    ensures full { IfErr result (λ full. FindsFull seat.old.knows seat.new.knows full.time) }
{
    lock_shared(rt, words, seat);
    let answer = Assignment { key, value }.write_at_last(rt, words, seat);
    unlock_shared(words, seat);
    answer
}

/// Tries the lock once, and then at most so many times to write the value at the key, or with
/// `None` to remove it.
pub fn try_write<P: Pace>(
    words: &Words<P>,
    seat: &mut RawSeat,
    key: Key,
    value: &Option<Value>,
    tries: u64,
) -> Result<Time, TryPutError>
    requires of { IsSeatOf words.now seat.old }
    requires rests { IsAtRest seat.old.knows }
    requires some { 0 < tries }
    ensures of { IsSeatOf words.now seat.new }
    ensures rests { IsAtRest seat.new.knows }
    ensures written { IfOk result (λ time. Records seat.old.knows seat.new.knows time (deed_of key value.now)) }
    ensures fails { IfErr result (Fails seat.old.knows seat.new.knows) }
    ensures counts { CountsTry tries (tally_of seat.old.knows) (tally_of seat.new.knows) result }
{
    if try_lock_shared(words, seat).is_err() {
        return Err(TryPutError::Busy);
    }
    let answer = Assignment { key, value }.try_in_hold(words, seat, tries);
    unlock_shared(words, seat);
    answer
}
