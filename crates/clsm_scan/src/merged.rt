//! Walks along the epochs and runs of a component, as one.
ghost use Rattle.std.specs.Prelude.{◌≡◌, ℕ, ◌+◌, ◌<◌, ◌≤◌, [], length, remove, true, false, None, Some};
ghost use Rattle.clsm_words.specs.Keeping.{LooksAside};
ghost use Rattle.clsm_words.specs.Plays.{IsSeatOf};
ghost use Rattle.clsm_scan.specs.Optional.{If, found_in};
ghost use Rattle.clsm_scan.specs.Streams.{AreAhead, AreFrom, AreOver, ArePast, HasAdded, IsAhead, IsLeast, IsMerging, all_ahead_later, all_ahead_stays};
ghost use Rattle.clsm_scan.specs.Streams.{all_over_stays, first_of, key_at, last_at, last_at_stays, up_to, up_to_stays};
ghost use Rattle.clsm_scan.specs.Walks.{any_found, any_over, any_stands};

use crate::any_walk::AnyWalk;
use crate::cursor::Cursor;
use crate::run_cursor::RunCursor;
use crate::sink::Sink;
use crate::source::Source;
use crate::walk::Walk;
use arrayvec::ArrayVec;
use clsm_model::Key;
use clsm_runs::HeldRun;
use clsm_words::{Pace, RawSeat, Words};

/// A walk, and the key of the write that it came by last.
#[derive(Clone, Copy)]
pub struct Stream {
    walk: AnyWalk,
    key: Key,
}

/// What stands in an unused place.
impl Default for Stream {
    fn default() -> Stream {
        let component = 0;
        let place = 0;
        Stream {
            walk: AnyWalk::AlongRun(RunCursor::new(HeldRun { component, place }, 0)),
            key: 0,
        }
    }
}

impl Stream {
    /// Goes on to the next write with a key from `from` on: whether there is one up to `hi`.
    #[inline(always)]
    fn go_on<P: Pace>(&mut self, words: &Words<P>, seat: &mut RawSeat, from: u64, hi: Key) -> bool
        requires of { IsSeatOf words.now seat.old }
        requires over { any_over seat.old.knows self.old.walk }
        requires stands { any_stands seat.old.knows self.old.walk from }
        ensures of { IsSeatOf words.now seat.new }
        ensures looks { LooksAside seat.old.knows seat.new.knows }
        ensures over { any_over seat.new.knows self.new.walk }
        ensures same { (key : ℕ) → any_found seat.new.knows self.new.walk key ≡ any_found seat.old.knows self.old.walk key }
        ensures ahead { result ≡ true → (from ≤ self.new.key) × IsAhead seat.new.knows from hi self.new }
        ensures ended { result ≡ false → (key : ℕ) → from ≤ key → key ≤ hi → any_found seat.old.knows self.old.walk key ≡ None }
    {
        let Some(key) = self.walk.next(words, seat, from) else {
            return false;
        };
        self.key = key;
        key <= hi
    }
}

/// Walks as one, the newest first: the write of a key is that of the first walk that has one. A
/// walk that has no further write up to the greatest key leaves.
#[derive(Drop)]
pub struct Merged {
    /// Two epochs, three runs of level 0 and one of level 1 at most.
    streams: ArrayVec<Stream, 6>,
    /// The place of the first walk of those that came by the least key.
    lead: usize,
    /// The greatest key.
    hi: Key,
}

/// The first place among those of the streams with the least key.
#[inline(always)]
fn least(streams: &[Stream]) -> usize
    ensures inside { 0 < length streams.now → result < length streams.now }
    ensures least { IsLeast result streams.now }
{
    let mut lead = 0;
    for at in 1..streams.len() {
        if streams[at].key < streams[lead].key {
            lead = at;
        }
    }
    lead
}

/// The key of the stream at the place, if there is one.
#[inline(always)]
fn key_at(streams: &[Stream], at: usize) -> Option<u64>
    ensures there { at < length streams.now → result ≡ Some (key_at streams.now at) }
    ensures none { length streams.now ≤ at → result ≡ None }
{
    if at < streams.len() {
        Some(streams[at].key)
    } else {
        None
    }
}

impl Merged {
    /// No walk, of which keys up to `hi` are wanted.
    #[inline(always)]
    pub(crate) fn new(hi: Key) -> Merged
        ensures none { result.streams.items ≡ [] }
        ensures hi { result.hi ≡ hi }
    {
        Merged {
            streams: ArrayVec::new(),
            lead: 0,
            hi,
        }
    }

    /// Adds the walk, if there is one, from the key on: it is older than those before.
    #[inline(always)]
    pub(crate) fn add<P: Pace>(
        &mut self,
        words: &Words<P>,
        seat: &mut RawSeat,
        walk: Option<AnyWalk>,
        lo: Key,
    )
        requires merges { IsMerging words.now seat.old lo self.old }
        requires room { length self.old.streams.items < 6 }
        requires walk { If (any_over seat.old.knows) walk }
        ensures of { IsSeatOf words.now seat.new }
        ensures room { length self.new.streams.items ≤ length self.old.streams.items + 1 }
        ensures added { HasAdded lo seat.old.knows self.old seat.new.knows self.new (found_in (any_found seat.old.knows) walk) }
    {
        let Some(mut walk) = walk else {
            return;
        };
        walk.seek(words, seat, lo);
        let mut stream = Stream { walk, key: 0 };
        if stream.go_on(words, seat, lo, self.hi) {
            self.streams.push(stream);
        }
    }

    /// Has the walk at the place go on to a write with a key from `from` on, if it is not there
    /// yet; it leaves if there is none. Answers the place behind it.
    #[inline(always)]
    fn pass_at<P: Pace>(
        &mut self,
        words: &Words<P>,
        seat: &mut RawSeat,
        at: usize,
        from: u64,
    ) -> usize
        requires merges { IsMerging words.now seat.old from self.old }
        requires inside { at < length self.old.streams.items }
        requires past { ArePast from at self.old.streams.items }
        ensures of { IsSeatOf words.now seat.new }
        ensures looks { LooksAside seat.old.knows seat.new.knows }
        ensures hi { self.new.hi ≡ self.old.hi }
        ensures over { AreOver seat.new.knows self.new.streams.items }
        ensures ahead { AreAhead seat.new.knows from self.new.hi self.new.streams.items }
        ensures past { ArePast from result self.new.streams.items }
        ensures nearer { length self.new.streams.items + at < length self.old.streams.items + result }
        ensures same { (key : ℕ) → from ≤ key → key ≤ self.old.hi → first_of seat.new.knows self.new.streams.items key
            ≡ first_of seat.old.knows self.old.streams.items key }
    {
        if self.streams[at].key >= from {
            return at + 1;
        }
        let hi = self.hi;
        if self.streams[at].go_on(words, seat, from, hi) {
            return at + 1;
        }
        self.end(at);
        at
    }

    /// Takes the walk at the place away. This is rare, and kept apart from what each row needs.
    #[inline(never)]
    fn end(&mut self, at: usize)
        requires inside { at < length self.old.streams.items }
        ensures hi { self.new.hi ≡ self.old.hi }
        ensures removed { self.new.streams.items ≡ remove self.old.streams.items at }
        ensures fewer { length self.new.streams.items + 1 ≡ length self.old.streams.items }
    {
        self.streams.remove(at);
    }

    /// Has each walk go on to a write with a key from `from` on, if it is not there yet, and leave
    /// if there is none.
    #[inline(always)]
    fn pass<P: Pace>(&mut self, words: &Words<P>, seat: &mut RawSeat, from: u64)
        requires merges { IsMerging words.now seat.old from self.old }
        ensures of { IsSeatOf words.now seat.new }
        ensures looks { LooksAside seat.old.knows seat.new.knows }
        ensures hi { self.new.hi ≡ self.old.hi }
        ensures over { AreOver seat.new.knows self.new.streams.items }
        ensures ahead { AreAhead seat.new.knows from self.new.hi self.new.streams.items }
        ensures from { AreFrom from self.new.streams.items }
        ensures same { (key : ℕ) → from ≤ key → key ≤ self.old.hi → first_of seat.new.knows self.new.streams.items key
            ≡ first_of seat.old.knows self.old.streams.items key }
    {
        let mut at = 0;
        while at < self.streams.len() {
            at = self.pass_at(words, seat, at, from);
        }
    }
}

impl Source for Merged {
    ghost found = { λ k m. up_to m.hi (first_of k m.streams.items) };

    ghost is_over = { λ k m. AreOver k m.streams.items };

    ghost stands = { λ k m from. AreAhead k from m.hi m.streams.items };

    ghost last = { λ k m. last_at k m.streams.items m.lead };

    #[inline(always)]
    fn has_value<P: Pace>(&self, words: &Words<P>, seat: &mut RawSeat) -> bool {
        match self.streams.as_slice().get(self.lead) {
            Some(stream) => stream.walk.has_value(words, seat),
            None => false,
        }
    }

    #[inline(always)]
    fn give<P: Pace, S: Sink>(&self, words: &Words<P>, seat: &mut RawSeat, to: &mut S) -> S::Reply {
        match self.streams.as_slice().get(self.lead) {
            Some(stream) => stream.walk.give(words, seat, to),
            None => unreachable!(),
        }
    }

    ghost over_stays = { λ k k' m looks over. all_over_stays k k' looks m.streams.items over };

    ghost found_stays = { λ k k' m looks over key. up_to_stays k k' looks m.hi m.streams.items over key };

    ghost stands_stays = { λ k k' m from looks over stands. all_ahead_stays k k' looks from m.hi m.streams.items over stands };

    ghost stands_later = { λ k m from later le stands. all_ahead_later k from later m.hi m.streams.items le stands };

    ghost last_stays = { λ k k' m looks over. last_at_stays k k' looks m.streams.items m.lead over };
}

impl Cursor for Merged {
    #[inline(always)]
    fn read<P: Pace>(&mut self, words: &Words<P>, seat: &mut RawSeat, from: u64) -> Option<u64> {
        self.pass(words, seat, from);
        let streams = self.streams.as_slice();
        let lead = least(streams);
        let key = key_at(streams, lead);
        self.lead = lead;
        key
    }
}
