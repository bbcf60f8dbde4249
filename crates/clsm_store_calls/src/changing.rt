//! Read-modify-writes at the words: a read in a hold of the lock, and a write at a later time if no
//! write of the key came between. What loses an exchange goes on from there.
ghost use Rattle.std.specs.Prelude.{◌≡◌, ◌*◌, ◌<◌, ◌≤◌, false, true, None, length, IfOk, IfErr};
ghost use Rattle.clsm_model.specs.declared.record.Deed.TheVariants.{Rmw as ChangeOf};
ghost use Rattle.clsm_model.specs.History.{plain, value};
ghost use Rattle.clsm_law.specs.Views.{next_word};
ghost use Rattle.clsm_law.specs.Relation.{first_of};
ghost use Rattle.clsm_memtable.specs.Settled.{MaySettleBelow};
ghost use Rattle.clsm_words.specs.Keeping.{OnlyReads};
ghost use Rattle.clsm_words.specs.Plays.{IsSeatOf};
ghost use Rattle.clsm_store_calls.specs.Changing.{ChangesAt, CountsChange, CountsChangeInHold, CountsChanges, CountsOneChange, Does, EndsFull};
ghost use Rattle.clsm_store_calls.specs.Changing.{EndsRefused, GivesUpFor, HasComeSoFar, HasDrawnFor, HasKept, IsAnsweredBy, IsAskedBy, IsToFill};
ghost use Rattle.clsm_store_calls.specs.Changing.{IsPinnedInHold, IsWrittenFrom, IsWrittenSince, KeepsRead, KeepsReadOf, LeavesPinned, ReadsNow};
ghost use Rattle.clsm_store_calls.specs.Changing.{Spares, TriesChange, changed_at, is_keep, is_last, pin_after, progress_of, read_end, value_set};
ghost use Rattle.clsm_store_calls.specs.Resting.{FindsFull, RestsAt, Still, seat_of};
ghost use Rattle.clsm_store_calls.specs.Seats.{GivesUpForWrites};
ghost use Rattle.clsm_store_calls.specs.Tally.{HasRead, OnlyLosesChanges, tally_of};
ghost use Rattle.clsm_store_calls.specs.Writing.{Fails};

use crate::got::{Got, Rmw};
use crate::reading::value_below;
use crate::refusal::{Full, TryPutError};
use crate::writing::AT_A_TIME;
use clsm_law::{End, Word};
use clsm_lock::{lock_shared, try_lock_shared, unlock_shared};
use clsm_memtable::{
    Decided, DrawError, DrawnCell, EntryState, Start, decide, draw, fill, give_up, prefetch,
    settle_below,
};
use clsm_model::{Change, Deed, Key, Time, Value};
use clsm_pins::{pin, unpin};
use clsm_scan::ReadPoint;
use clsm_search::{Guess, Span, is_written_in, newest};
use clsm_words::{Pace, RawSeat, Words};
use std::sync::Wait;

/// The times of a span are looked at one by one where there are at most so many.
const FEW_TIMES: u64 = 64;

/// A change that is asked for: the key, and the function that answers to the key's value what is
/// made of it.
#[derive(Drop)]
pub struct Modification<'a, F> {
    pub key: Key,
    pub f: &'a F,
}

/// A change whose write is to come: what was read of its key and is made of that, and the value
/// that it sets, or none for a removal.
#[derive(Clone, Copy)]
pub(crate) struct Modified {
    read: Rmw,
    value: Option<Value>,
}

/// A change with a drawn time, whose cell says the write.
#[derive(Clone, Copy)]
pub(crate) struct DrawnChange {
    modified: Modified,
    time: Time,
    /// What hints say of the place of the cell.
    guess: Guess,
    entry: EntryState,
}

/// How far a change has come in its hold of the lock.
#[derive(Clone, Copy)]
pub(crate) enum ChangeProgress {
    /// It is to read its key.
    Unread,
    /// It read that, and is to draw a time.
    Read(Modified),
    /// It is to enter the cell of a drawn time, and to decide that.
    Drawn(DrawnChange),
}

/// What came of tries to change a key in a hold of the lock.
#[derive(Clone, Copy)]
pub(crate) enum ChangeAttempt {
    /// It was read and kept, or written.
    Done(Rmw),
    /// The clock stands at the limit.
    Full(Time),
    /// Another seat was faster: it drew the time, or linked its cell in the same chain, or inserted
    /// one at the same place of the list. The change goes on from there.
    Raced(ChangeProgress),
    /// Another seat wrote the key since it was read. The drawn time is given up.
    Outdated,
    /// A reader cancelled the drawn time.
    Overtaken,
}

impl ChangeAttempt {
    /// The change was made, or is refused for good.
    fn is_last(&self) -> bool
        ensures { result ≡ is_last self.now }
    {
        matches!(self, ChangeAttempt::Done(_) | ChangeAttempt::Full(_))
    }

    /// How far the change has come behind a try that was lost: one that lost its time begins anew.
    fn progress(&self) -> ChangeProgress
        ensures { result ≡ progress_of self.now }
    {
        match *self {
            ChangeAttempt::Raced(progress) => progress,
            _ => ChangeProgress::Unread,
        }
    }
}

/// The read-modify-write with this answer.
fn deed_of(key: Key, rmw: &Rmw) -> Deed
    ensures { result ≡ ChangeOf key rmw.now.old rmw.now.change }
{
    let old = rmw.old;
    let change = rmw.change;
    Deed::Rmw { key, old, change }
}

/// What the function answers to the old value.
fn ask<F: Fn(Option<Value>) -> Change>(f: &F, old: &Option<Value>) -> Change
    requires { F.IsAlwaysCallable f.now }
    ensures { F.post f.now old.now result }
{
    f(*old)
}

fn is_keep(change: &Change) -> bool
    ensures { result ≡ is_keep change.now }
{
    matches!(change, Change::Keep)
}

/// The value that the change sets, or none for a removal.
pub(crate) fn value_set(change: &Change) -> Option<Value>
    ensures { result ≡ value_set change.now }
{
    match change {
        Change::Set(value) => Some(*value),
        _ => None,
    }
}

/// The value of the key at the clock, below which all is settled.
fn latest<P: Pace>(words: &Words<P>, seat: &mut RawSeat, component: u64, key: Key) -> Got
    requires of { IsSeatOf words.now seat.old }
    requires pinned { IsPinnedInHold seat.old.knows component }
    ensures of { IsSeatOf words.now seat.new }
    ensures pinned { IsPinnedInHold seat.new.knows component }
    ensures still { Still seat.old.knows seat.new.knows }
    ensures counts { HasRead (tally_of seat.old.knows) (tally_of seat.new.knows) }
    ensures reads { ReadsNow seat.new.knows component key result.time result.value }
    ensures beyond { length seat.old.knows.past ≤ result.time }
    ensures first { seat.new.knows.view.hold_first ≡ first_of seat.old.knows.view.hold_first result.time }
{
    let time = words.look(seat, Word::Clock);
    settle_below(words, seat, component, time);
    let until = time;
    let value = value_below(words, seat, ReadPoint { component, until }, key);
    Got { time, value }
}

/// A change that is asked for, in a read of this component.
#[derive(Drop)]
struct PinnedChange<'a, F> {
    component: u64,
    key: Key,
    f: &'a F,
}

impl<'a, F: Fn(Option<Value>) -> Change> PinnedChange<'a, F> {
    /// Settles all below the time, and answers whether no write of the key stands between what was
    /// read and that: by a look at each of these times where they are few, and else by a search. So
    /// a change that nobody disturbs makes no look for writes, and one among others a look or two
    /// at each time between.
    fn is_unchanged<P: Pace>(
        &self,
        words: &Words<P>,
        seat: &mut RawSeat,
        from: Time,
        until: Time,
    ) -> bool
        requires of { IsSeatOf words.now seat.old }
        requires may { MaySettleBelow seat.old.knows self.now.component until }
        requires merged { self.now.component * seat.old.knows.layout.cells ≤ from }
        requires later { from ≤ until }
        ensures of { IsSeatOf words.now seat.new }
        ensures reads { OnlyReads seat.old.knows seat.new.knows }
        ensures settled { until ≤ length seat.new.knows.past }
        ensures written { result ≡ false → IsWrittenFrom seat.new.knows.past self.now.key from }
        ensures unchanged { result ≡ true → value (plain seat.new.knows.past) self.now.key until
            ≡ value (plain seat.new.knows.past) self.now.key from }
    {
        let key = self.key;
        settle_below(words, seat, self.component, until);
        let times = until - from;
        if times <= FEW_TIMES {
            return !is_written_in(words, seat, self.component, &Span { key, from, until });
        }
        match newest(words, seat, self.component, key, until) {
            Some(time) => time < from,
            None => true,
        }
    }

    /// Enters the cell of the drawn time from where its entry stands on, and decides the time.
    fn change_drawn<P: Pace>(
        &self,
        words: &Words<P>,
        seat: &mut RawSeat,
        drawn: &DrawnChange,
    ) -> ChangeAttempt
        requires of { IsSeatOf words.now seat.old }
        requires drawn { HasDrawnFor words.now seat.old self.now.component self.now.key drawn.now }
        requires asked { IsAskedBy (F.post self.now.f.now) (ChangeProgress.Drawn drawn.now) }
        ensures of { IsSeatOf words.now seat.new }
        ensures stays { LeavesPinned words.now seat.new self.now.component self.now.key result }
        ensures keeps { KeepsRead drawn.now.modified result }
        ensures changes { TriesChange seat.old.knows seat.new.knows self.now.component self.now.key result }
        ensures answered { IsAnsweredBy (F.post self.now.f.now) result }
        ensures spared { Spares seat.old.knows seat.new.knows self.now.key (ChangeProgress.Drawn drawn.now) result }
        ensures counts { CountsOneChange (tally_of seat.old.knows) (tally_of seat.new.knows) result }
    {
        let time = drawn.time;
        let key = self.key;
        let start = Start::hinted(drawn.guess);
        let placement = match (DrawnCell { time, key }).enter(words, seat, &start, drawn.entry) {
            Ok(placement) => placement,
            Err(entry) => {
                let after = DrawnChange { entry, ..*drawn };
                return ChangeAttempt::Raced(ChangeProgress::Drawn(after));
            }
        };
        let read = drawn.modified.read;
        match decide(words, seat, time, &deed_of(key, &read), &placement.trace) {
            Decided::Done => ChangeAttempt::Done(read.at(time)),
            Decided::Overtaken => ChangeAttempt::Overtaken,
        }
    }

    /// Fills the cell of the drawn time with the write.
    fn fill<P: Pace>(
        &self,
        words: &Words<P>,
        seat: &mut RawSeat,
        modified: &Modified,
        time: Time,
    ) -> DrawnChange
        requires of { IsSeatOf words.now seat.old }
        requires drawn { IsToFill seat.old.knows self.now.component self.now.key modified.now time }
        ensures of { IsSeatOf words.now seat.new }
        ensures drawn { HasDrawnFor words.now seat.new self.now.component self.now.key result }
        ensures keeps { result.modified ≡ modified.now }
        ensures still { Still seat.old.knows seat.new.knows }
        ensures counts { tally_of seat.new.knows ≡ tally_of seat.old.knows }
    {
        seat.show_invariant();
        let guess = prefetch(words, seat, time, self.key);
        seat.show_invariant();
        fill(words, seat, time, self.key, modified.value.as_ref());
        DrawnChange {
            modified: *modified,
            time,
            guess,
            entry: EntryState::Unlinked,
        }
    }

    /// Draws a time for what was read, and writes the change there, if the key is unchanged until
    /// then.
    fn change_read<P: Pace>(
        &self,
        words: &Words<P>,
        seat: &mut RawSeat,
        modified: &Modified,
    ) -> ChangeAttempt
        requires of { IsSeatOf words.now seat.old }
        requires kept { HasKept seat.old.knows self.now.component self.now.key modified.now }
        requires asked { IsAskedBy (F.post self.now.f.now) (ChangeProgress.Read modified.now) }
        ensures of { IsSeatOf words.now seat.new }
        ensures stays { LeavesPinned words.now seat.new self.now.component self.now.key result }
        ensures keeps { KeepsRead modified.now result }
        ensures changes { TriesChange seat.old.knows seat.new.knows self.now.component self.now.key result }
        ensures answered { IsAnsweredBy (F.post self.now.f.now) result }
        ensures spared { Spares seat.old.knows seat.new.knows self.now.key (ChangeProgress.Read modified.now) result }
        ensures counts { CountsOneChange (tally_of seat.old.knows) (tally_of seat.new.knows) result }
    {
        seat.show_invariant();
        let time = match draw(words, seat) {
            Ok(time) => time,
            Err(DrawError::Full(time)) => return ChangeAttempt::Full(time),
            Err(DrawError::Raced) => return ChangeAttempt::Raced(ChangeProgress::Read(*modified)),
        };
        if !self.is_unchanged(words, seat, modified.read.time, time) {
            give_up(words, seat, time);
            return ChangeAttempt::Outdated;
        }
        seat.show_invariant();
        let drawn = self.fill(words, seat, modified, time);
        self.change_drawn(words, seat, &drawn)
    }

    /// Reads the key, asks what is made of its value, and writes that at a later time, unless the
    /// key is kept.
    fn change_unread<P: Pace>(&self, words: &Words<P>, seat: &mut RawSeat) -> ChangeAttempt
        requires of { IsSeatOf words.now seat.old }
        requires pinned { IsPinnedInHold seat.old.knows self.now.component }
        requires callable { F.IsAlwaysCallable self.now.f.now }
        ensures of { IsSeatOf words.now seat.new }
        ensures stays { LeavesPinned words.now seat.new self.now.component self.now.key result }
        ensures changes { TriesChange seat.old.knows seat.new.knows self.now.component self.now.key result }
        ensures answered { IsAnsweredBy (F.post self.now.f.now) result }
        ensures spared { Spares seat.old.knows seat.new.knows self.now.key ChangeProgress.Unread result }
        ensures counts { CountsOneChange (tally_of seat.old.knows) (tally_of seat.new.knows) result }
    {
        let got = latest(words, seat, self.component, self.key);
        let read = got.with(ask(self.f, &got.value));
        if is_keep(&read.change) {
            return ChangeAttempt::Done(read);
        }
        let value = value_set(&read.change);
        self.change_read(words, seat, &Modified { read, value })
    }

    /// Goes on with the change from where it stands, up to the first exchange that it loses.
    fn go_on<P: Pace>(
        &self,
        words: &Words<P>,
        seat: &mut RawSeat,
        progress: &ChangeProgress,
    ) -> ChangeAttempt
        requires of { IsSeatOf words.now seat.old }
        requires come { HasComeSoFar words.now seat.old self.now.component self.now.key progress.now }
        requires asked { IsAskedBy (F.post self.now.f.now) progress.now }
        requires callable { F.IsAlwaysCallable self.now.f.now }
        ensures of { IsSeatOf words.now seat.new }
        ensures stays { LeavesPinned words.now seat.new self.now.component self.now.key result }
        ensures keeps { KeepsReadOf progress.now result }
        ensures changes { TriesChange seat.old.knows seat.new.knows self.now.component self.now.key result }
        ensures answered { IsAnsweredBy (F.post self.now.f.now) result }
        ensures spared { Spares seat.old.knows seat.new.knows self.now.key progress.now result }
        ensures counts { CountsOneChange (tally_of seat.old.knows) (tally_of seat.new.knows) result }
    {
        match progress {
            ChangeProgress::Unread => self.change_unread(words, seat),
            ChangeProgress::Read(modified) => self.change_read(words, seat, modified),
            ChangeProgress::Drawn(drawn) => self.change_drawn(words, seat, drawn),
        }
    }

    /// Changes the key in a hold of the lock and a read, and tries until that is done, or the clock
    /// is at the limit, or so many tries were lost. Each try goes on from where the last one lost
    /// an exchange; where that lost its time, it reads the key anew. It never waits.
    fn change_in_hold<P: Pace>(
        &self,
        words: &Words<P>,
        seat: &mut RawSeat,
        mut progress: ChangeProgress,
        tries: u64,
    ) -> ChangeAttempt
        requires of { IsSeatOf words.now seat.old }
        requires come { HasComeSoFar words.now seat.old self.now.component self.now.key progress }
        requires asked { IsAskedBy (F.post self.now.f.now) progress }
        requires callable { F.IsAlwaysCallable self.now.f.now }
        requires some { 0 < tries }
        ensures of { IsSeatOf words.now seat.new }
        ensures stays { LeavesPinned words.now seat.new self.now.component self.now.key result }
        ensures changes { TriesChange seat.old.knows seat.new.knows self.now.component self.now.key result }
        ensures answered { IsAnsweredBy (F.post self.now.f.now) result }
        ensures spared { Spares seat.old.knows seat.new.knows self.now.key progress result }
        ensures counts { CountsChanges tries (tally_of seat.old.knows) (tally_of seat.new.knows) result }
    {
        for lost in 0..tries {
            let attempt = self.go_on(words, seat, &progress);
            if attempt.is_last() || lost + 1 == tries {
                return attempt;
            }
            progress = attempt.progress();
        }
        unreachable!()
    }

    /// Changes the key, and tries until that is done or the clock is at the limit.
    fn change_at_last<P: Pace, R: Wait>(
        &self,
        rt: &R,
        words: &Words<P>,
        seat: &mut RawSeat,
    ) -> Result<Rmw, Full>
        requires of { IsSeatOf words.now seat.old }
        requires pinned { IsPinnedInHold seat.old.knows self.now.component }
        requires unread { seat.old.knows.view.hold_first ≡ None }
        requires callable { F.IsAlwaysCallable self.now.f.now }
        ensures of { IsSeatOf words.now seat.new }
        ensures pinned { IsPinnedInHold seat.new.knows self.now.component }
        ensures counts { OnlyLosesChanges (tally_of seat.old.knows) (tally_of seat.new.knows) }
        ensures spared { GivesUpFor seat.old.knows seat.new.knows self.now.key (changed_at result) }
        ensures changed { IfOk result (λ rmw. Does rmw.change seat.old.knows seat.new.knows self.now.component self.now.key rmw.time rmw.old) }
        ensures answered { IfOk result (λ rmw. F.post self.now.f.now rmw.old rmw.change) }
        ensures full { IfErr result (λ full. FindsFull seat.old.knows seat.new.knows full.time) }
    {
        let mut progress = ChangeProgress::Unread;
        for _ in rt.forever() {
            let attempt = self.change_in_hold(words, seat, progress, AT_A_TIME);
            match attempt {
                ChangeAttempt::Done(rmw) => return Ok(rmw),
                ChangeAttempt::Full(time) => return Err(Full { time }),
                _ => progress = attempt.progress(),
            }
        }
        unreachable!()
    }

    /// Changes the key, and gives up once so many tries were lost.
    fn try_in_hold<P: Pace>(
        &self,
        words: &Words<P>,
        seat: &mut RawSeat,
        tries: u64,
    ) -> Result<Rmw, TryPutError>
        requires of { IsSeatOf words.now seat.old }
        requires pinned { IsPinnedInHold seat.old.knows self.now.component }
        requires unread { seat.old.knows.view.hold_first ≡ None }
        requires callable { F.IsAlwaysCallable self.now.f.now }
        requires some { 0 < tries }
        ensures of { IsSeatOf words.now seat.new }
        ensures pinned { IsPinnedInHold seat.new.knows self.now.component }
        ensures changed { IfOk result (λ rmw. Does rmw.change seat.old.knows seat.new.knows self.now.component self.now.key rmw.time rmw.old) }
        ensures answered { IfOk result (λ rmw. F.post self.now.f.now rmw.old rmw.change) }
        ensures fails { IfErr result (Fails seat.old.knows seat.new.knows) }
        ensures counts { CountsChangeInHold tries (IsWrittenSince seat.old.knows seat.new.knows self.now.key) (tally_of seat.old.knows)
            (tally_of seat.new.knows) result }
    {
        match self.change_in_hold(words, seat, ChangeProgress::Unread, tries) {
            ChangeAttempt::Done(rmw) => Ok(rmw),
            ChangeAttempt::Full(time) => Err(TryPutError::Full { time }),
            ChangeAttempt::Overtaken => Err(TryPutError::Overtaken),
            ChangeAttempt::Outdated => Err(TryPutError::Raced),
            ChangeAttempt::Raced(progress) => {
                let ChangeProgress::Drawn(drawn) = progress else {
                    return Err(TryPutError::Raced);
                };
                give_up(words, seat, drawn.time);
                Err(TryPutError::Raced)
            }
        }
    }
}

/// How the read under a read-modify-write ends: with its record where the key was kept, else with
/// none, since its write has it.
fn read_end<E>(key: Key, answer: &Result<Rmw, E>) -> End
    ensures { result ≡ read_end key answer.now }
{
    match answer {
        Ok(rmw) if is_keep(&rmw.change) => End::Recorded(deed_of(key, rmw)),
        _ => End::Neither,
    }
}

/// Changes the key: in a hold of the lock and a read.
pub fn change<P: Pace, R: Wait, F: Fn(Option<Value>) -> Change>(
    rt: &R,
    words: &Words<P>,
    seat: &mut RawSeat,
    pin_word: u64,
    modification: &Modification<'_, F>,
) -> Result<Rmw, Full>
    requires rests { RestsAt words.now seat.old pin_word }
    requires callable { F.IsAlwaysCallable modification.now.f.now }
    ensures rests { RestsAt words.now seat.new (next_word (next_word pin_word)) }
    ensures entered { seat.new.knows.view.entries ≡ next_word seat.old.knows.view.entries }
    ensures patient { seat.new.knows.view.hasty ≡ seat.old.knows.view.hasty }
    ensures spared { GivesUpForWrites (seat_of seat.old) (seat_of seat.new) modification.now.key (changed_at result) }
    ensures changed { IfOk result (λ rmw. ChangesAt seat.old.knows seat.new.knows rmw.time modification.now.key rmw.old rmw.change) }
    ensures answered { IfOk result (λ rmw. F.post modification.now.f.now rmw.old rmw.change) }
    ensures full { IfErr result (λ full. EndsFull seat.old.knows seat.new.knows full.time) }
{
    seat.show_invariant();
    lock_shared(rt, words, seat);
    let component = pin(words, seat, pin_word);
    let key = modification.key;
    let f = modification.f;
    let answer = PinnedChange { component, key, f }.change_at_last(rt, words, seat);
    let end = read_end(key, &answer);
    unpin(words, seat, pin_word.wrapping_add(1), &end);
    unlock_shared(words, seat);
    seat.show_invariant();
    answer
}

/// The pin word after a try that found this one and answered so.
pub fn pin_after(pin_word: u64, answer: &Result<Rmw, TryPutError>) -> u64
    ensures { result ≡ pin_after pin_word answer.now }
{
    match answer {
        Err(TryPutError::Busy) => pin_word,
        _ => pin_word.wrapping_add(2),
    }
}

/// Tries the lock once, and then at most so many times to change the key: in a hold of the lock and
/// a read.
pub fn try_change<P: Pace, F: Fn(Option<Value>) -> Change>(
    words: &Words<P>,
    seat: &mut RawSeat,
    pin_word: u64,
    modification: &Modification<'_, F>,
    tries: u64,
) -> Result<Rmw, TryPutError>
    requires rests { RestsAt words.now seat.old pin_word }
    requires callable { F.IsAlwaysCallable modification.now.f.now }
    requires some { 0 < tries }
    ensures rests { RestsAt words.now seat.new (pin_after pin_word result) }
    ensures changed { IfOk result (λ rmw. ChangesAt seat.old.knows seat.new.knows rmw.time modification.now.key rmw.old rmw.change) }
    ensures answered { IfOk result (λ rmw. F.post modification.now.f.now rmw.old rmw.change) }
    ensures refused { IfErr result (EndsRefused seat.old.knows seat.new.knows) }
    ensures counts { CountsChange tries (IsWrittenSince seat.old.knows seat.new.knows modification.now.key) (tally_of seat.old.knows)
        (tally_of seat.new.knows) result }
{
    if try_lock_shared(words, seat).is_err() {
        return Err(TryPutError::Busy);
    }
    let component = pin(words, seat, pin_word);
    let key = modification.key;
    let f = modification.f;
    let answer = PinnedChange { component, key, f }.try_in_hold(words, seat, tries);
    let end = read_end(key, &answer);
    unpin(words, seat, pin_word.wrapping_add(1), &end);
    unlock_shared(words, seat);
    answer
}
