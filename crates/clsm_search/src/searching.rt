//! The newest write of a key below a time, in the two epochs of a held component.
ghost use Rattle.std.specs.Prelude.{◌≡◌, ◌+◌, ◌*◌, ◌%◌, ◌<◌, ◌≤◌, ◌≢◌, Some, length, IfOk, IfSome};
ghost use Rattle.clsm_law.specs.Memory.{cell_of};
ghost use Rattle.clsm_words.specs.Keeping.{Looks};
ghost use Rattle.clsm_words.specs.Plays.{IsSeatOf};
ghost use Rattle.clsm_search.specs.Ordering.{LooksOn, MayWalk};
ghost use Rattle.clsm_search.specs.ChainWalks.{FindsNewest, IsNewestOf, IsWalking, WalksOn};
ghost use Rattle.clsm_search.specs.Searching.{GoesOn, IsFoundTime, IsNewest, IsNewestIn, IsNewestTime, MayLookInto};
ghost use Rattle.clsm_search.specs.Searching.{better, is_later, is_write, slot_in};
ghost use Rattle.clsm_search.specs.Versions.{IsNewestVersion};

use crate::cells::KnownCell;
use crate::list::Epoch;
use crate::versions::{FEW, Listed, PILE, Unsure};
use clsm_law::{Cell, Part, Word};
use clsm_model::{Key, Time};
use clsm_words::{Pace, RawSeat, Words};

/// What a list tells of the newest write of a key: its time, where there is one.
type Newest = Result<Option<Time>, Unsure>;

#[inline(always)]
fn is_later(best: Option<Time>, time: Time) -> bool
    ensures { result ≡ is_later best time }
{
    match best {
        None => true,
        Some(best) => best < time,
    }
}

/// How far the chain of a key in an epoch was walked, which is begun.
#[derive(Clone, Copy)]
struct ChainWalk {
    epoch: Epoch,
    key: Key,
    /// The place of the next cell, or 0 at the chain's end.
    next: u64,
    /// The newest write of the key among the cells that were passed.
    best: Option<Time>,
}

/// What the next of the cell is, on whose time the seat's walk stands.
#[inline(always)]
fn next_of<P: Pace>(words: &Words<P>, seat: &mut RawSeat, cell: Cell) -> u64
    requires of { IsSeatOf words.now seat.old }
    requires held { seat.old.knows.view.held ≢ None }
    requires inside { cell < 2 * seat.old.knows.layout.cells }
    ensures of { IsSeatOf words.now seat.new }
    ensures looks { Looks seat.old.knows seat.new.knows }
    ensures walks { GoesOn seat.old.knows cell result seat.new.knows }
{
    seat.show_invariant();
    let part = Part::Next;
    words.look(seat, Word::Cell { cell, part })
}

impl ChainWalk {
    /// The best so far, or the time of this cell in the epoch, where that is below the epoch's
    /// bound, later, and a write of the key.
    #[inline(always)]
    fn better<P: Pace>(&self, words: &Words<P>, seat: &mut RawSeat, cell: Cell) -> Option<Time>
        requires walks { IsWalking words.now seat.old self.now }
        requires place { cell_of seat.old.knows.layout (self.now.epoch.first + cell % seat.old.knows.layout.cells) ≡ cell }
        ensures looks { LooksOn words.now seat.old seat.new }
        ensures better { result ≡ better self.now.best (self.now.epoch.first + cell % seat.old.knows.layout.cells) self.now.epoch.until
            (is_write self.now.key (slot_in seat.old.knows (self.now.epoch.first + cell % seat.old.knows.layout.cells))) }
    {
        let offset = words.number_in_region(cell);
        if offset >= self.epoch.until - self.epoch.first {
            return self.best;
        }
        let time = self.epoch.first + offset;
        if !is_later(self.best, time) {
            return self.best;
        }
        let component = self.epoch.component;
        let at = KnownCell {
            component,
            time,
            cell,
        };
        if at.is_write(words, seat, self.key) {
            Some(time)
        } else {
            self.best
        }
    }

    /// The walk behind the next cell of the key's chain.
    #[inline(always)]
    fn pass_cell<P: Pace>(self, words: &Words<P>, seat: &mut RawSeat) -> ChainWalk
        requires walks { IsWalking words.now seat.old self }
        requires some { self.next ≢ 0 }
        ensures on { WalksOn words.now seat.old seat.new self result }
        ensures passed { length seat.old.knows.trail ≡ length seat.new.knows.trail + 1 }
    {
        let cell = self.next - 1;
        let best = self.better(words, seat, cell);
        let next = next_of(words, seat, cell);
        ChainWalk { next, best, ..self }
    }

    /// Walks along the key's chain of the epoch to its first cell that is a write of the key, past
    /// so many cells at most, or to its end.
    #[inline(always)]
    fn to_write<P: Pace>(self, words: &Words<P>, seat: &mut RawSeat, most: u64) -> ChainWalk
        requires { IsWalking words.now seat.old self }
        ensures { WalksOn words.now seat.old seat.new self result }
    {
        let mut walk = self;
        for _ in 0..most {
            if walk.next == 0 || walk.best.is_some() {
                return walk;
            }
            walk = walk.pass_cell(words, seat);
        }
        walk
    }

    /// The time of the newest write of the key in the epoch: walks on along its chain to the end.
    fn to_end<P: Pace>(self, words: &Words<P>, seat: &mut RawSeat) -> Option<Time>
        requires { IsWalking words.now seat.old self }
        ensures { FindsNewest words.now seat.old seat.new self result }
    {
        let mut walk = self;
        for _ in 0..words.cells() {
            if walk.next == 0 {
                return walk.best;
            }
            walk = walk.pass_cell(words, seat);
        }
        walk.best
    }

    /// The time of the newest write of the key, of which the epoch's list tells.
    #[inline(always)]
    fn time_of<P: Pace>(&self, words: &Words<P>, seat: &RawSeat, listed: Listed) -> Newest
        requires of { IsSeatOf words.now seat.now }
        requires newest { IfOk listed (IsNewestVersion seat.now.knows self.now.epoch self.now.key) }
        ensures { IfOk result (IsNewestOf seat.now.knows self.now) }
    {
        match listed {
            Ok(Some(spot)) => Ok(Some(self.epoch.time_at(words, spot))),
            Ok(None) => Ok(None),
            Err(unsure) => Err(unsure),
        }
    }

    /// The time of the newest write of the key in the epoch, by its ordered list.
    fn newest_listed<P: Pace>(&self, words: &Words<P>, seat: &mut RawSeat) -> Newest
        requires { IsWalking words.now seat.old self.now }
        ensures looks { LooksOn words.now seat.old seat.new }
        ensures newest { IfOk result (IsNewestOf seat.old.knows self.now) }
    {
        let listed = self.epoch.newest(words, seat, self.key);
        self.time_of(words, seat, listed)
    }

    /// The time of the newest write of the key in the epoch, by its ordered list from the write on
    /// that the walk came to.
    fn newest_near<P: Pace>(&self, words: &Words<P>, seat: &mut RawSeat) -> Newest
        requires { IsWalking words.now seat.old self.now }
        ensures looks { LooksOn words.now seat.old seat.new }
        ensures newest { IfOk result (IsNewestOf seat.old.knows self.now) }
    {
        let Some(time) = self.best else {
            return Err(Unsure);
        };
        let from = self.epoch.spot_of(words, seat, time);
        let listed = self.epoch.newer(words, seat, from);
        self.time_of(words, seat, listed)
    }

    /// The time of the newest write of the key in the epoch, where its chain has more cells than a
    /// walk has passed: by the ordered list or else by the rest of the walk.
    #[inline(never)]
    fn newest_behind<P: Pace>(self, words: &Words<P>, seat: &mut RawSeat) -> Option<Time>
        requires { IsWalking words.now seat.old self }
        ensures { FindsNewest words.now seat.old seat.new self result }
    {
        match self.newest_listed(words, seat) {
            Ok(newest) => newest,
            Err(_) => self.to_end(words, seat),
        }
    }

    /// The time of the newest write of the key in the epoch, where its chain has more cells than a
    /// short walk has passed. If the next one is below the epoch's bound, those that were passed
    /// have cancelled times, or other keys: the walk goes on past many.
    #[inline(never)]
    fn newest_further<P: Pace>(self, words: &Words<P>, seat: &mut RawSeat) -> Option<Time>
        requires { IsWalking words.now seat.old self }
        ensures { FindsNewest words.now seat.old seat.new self result }
    {
        let offset = words.number_in_region(self.next.saturating_sub(1));
        if self.best.is_some() || offset >= self.epoch.until - self.epoch.first {
            return self.newest_behind(words, seat);
        }
        let further = self.to_write(words, seat, PILE);
        if let Ok(newest) = further.newest_near(words, seat) {
            return newest;
        }
        further.newest_behind(words, seat)
    }

    /// The time of the newest write of the key in the epoch, from the head of its chain: the first
    /// write of the key in the chain or, where that goes on, the last from there on in the ordered
    /// list, since links do not stand in a chain by time.
    fn newest<P: Pace>(self, words: &Words<P>, seat: &mut RawSeat) -> Option<Time>
        requires { IsWalking words.now seat.old self }
        ensures { FindsNewest words.now seat.old seat.new self result }
    {
        let walk = self.to_write(words, seat, FEW);
        if walk.next == 0 {
            return walk.best;
        }
        if let Ok(newest) = walk.newest_near(words, seat) {
            return newest;
        }
        // A walk of its own for the call: this one stays in registers where it ends here.
        let ChainWalk {
            epoch,
            key,
            next,
            best,
        } = walk;
        let further = ChainWalk {
            epoch,
            key,
            next,
            best,
        };
        further.newest_further(words, seat)
    }
}

impl Epoch {
    /// The walk that begins at the head of the key's chain in the epoch, which is begun.
    #[inline(always)]
    fn walk_of<P: Pace>(&self, words: &Words<P>, seat: &mut RawSeat, key: Key) -> ChainWalk
        requires of { IsSeatOf words.now seat.old }
        requires may { MayWalk seat.old.knows self.now }
        requires begun { self.now.first < self.now.until }
        ensures looks { Looks seat.old.knows seat.new.knows }
        ensures walks { IsWalking words.now seat.new result }
        ensures epoch { result.epoch ≡ self.now }
        ensures key { result.key ≡ key }
    {
        seat.show_invariant();
        let chain = words.chain_of(key);
        let region = self.number % 2;
        ChainWalk {
            epoch: *self,
            key,
            next: words.look(seat, Word::Head { region, chain }),
            best: None,
        }
    }

    /// The time of the newest write of the key in the epoch, which is begun.
    #[inline(always)]
    fn newest_time<P: Pace>(&self, words: &Words<P>, seat: &mut RawSeat, key: Key) -> Option<Time>
        requires of { IsSeatOf words.now seat.old }
        requires may { MayWalk seat.old.knows self.now }
        requires begun { self.now.first < self.now.until }
        ensures of { IsSeatOf words.now seat.new }
        ensures looks { Looks seat.old.knows seat.new.knows }
        ensures newest { IsNewestTime seat.old.knows self.now.first key self.now.until result }
    {
        let head = self.walk_of(words, seat, key);
        head.newest(words, seat)
    }

    /// The time of the newest write of the key in the epoch, which may begin behind its bound.
    #[inline(always)]
    fn newest_in<P: Pace>(&self, words: &Words<P>, seat: &mut RawSeat, key: Key) -> Option<Time>
        requires of { IsSeatOf words.now seat.old }
        requires held { seat.old.knows.view.held ≡ Some self.now.component }
        requires within { self.now.until ≤ self.now.first + seat.old.knows.layout.cells }
        requires may { MayLookInto seat.old.knows self.now.number self.now.first self.now.until }
        ensures of { IsSeatOf words.now seat.new }
        ensures looks { Looks seat.old.knows seat.new.knows }
        ensures known { IfSome result (λ time. IsFoundTime seat.new.knows self.now.component time) }
        ensures newest { IsNewestIn seat.old.knows self.now.first key self.now.until result }
    {
        if self.first >= self.until {
            return None;
        }
        self.newest_time(words, seat, key)
    }
}

/// The time of the newest write of the key below `until` in the two epochs of the held component:
/// in the later one, which is searched only where it begins below `until`, and then in the earlier
/// one. With `None` no write of the key below `until` is at or above the component's first time; it
/// may be in the runs. Each time below `until` has to be settled. It never waits, takes no memory
/// and is never refused. A walk of a chain that the seat had begun is ended.
#[inline(always)]
pub fn newest<P: Pace>(
    words: &Words<P>,
    seat: &mut RawSeat,
    component: u64,
    key: Key,
    until: Time,
) -> Option<Time>
    requires of { IsSeatOf words.now seat.old }
    requires held { seat.old.knows.view.held ≡ Some component }
    requires within { until ≤ (component + 2) * seat.old.knows.layout.cells }
    requires settled { until ≤ length seat.old.knows.past }
    ensures of { IsSeatOf words.now seat.new }
    ensures looks { Looks seat.old.knows seat.new.knows }
    ensures known { IfSome result (λ time. IsFoundTime seat.new.knows component time) }
    ensures newest { IsNewest seat.old.knows component key until result }
{
    let cells = words.cells();
    let Some(first) = component.checked_mul(cells) else {
        return None;
    };
    let second = first.saturating_add(cells);
    let later = Epoch {
        component,
        number: component.saturating_add(1),
        first: second,
        until,
    };
    let earlier = Epoch {
        component,
        number: component,
        first,
        until: until.min(second),
    };
    match later.newest_in(words, seat, key) {
        Some(time) => Some(time),
        None => earlier.newest_in(words, seat, key),
    }
}
