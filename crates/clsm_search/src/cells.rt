//! Looks at the cells of times that the seat knows.
ghost use Rattle.std.specs.Prelude.{◌≡◌, None};
ghost use Rattle.std.proofs.Common.{ap, ◌∙◌};
ghost use Rattle.clsm_words.specs.Knowing.{IsPartOf, code_of};
ghost use Rattle.clsm_words.specs.Keeping.{LooksAside};
ghost use Rattle.clsm_words.specs.Plays.{IsSeatOf};
ghost use Rattle.clsm_words.proofs.Keeps.{aside_trans};
ghost use Rattle.clsm_law.specs.declared.word.Part.TheVariants.{Key};
ghost use Rattle.clsm_search.specs.Searching.{IsFoundTime, IsKnownTime, is_write, slot_in, value_in};
ghost use Rattle.clsm_search.specs.Staying.{known_stays, slot_stays};

use clsm_law::{Cell, Part, Word};
use clsm_model::{Key, Time, Value};
use clsm_words::{Load, Pace, RawSeat, Words, load_into};

/// The cell of a time that the seat knows, of a component that it holds.
#[derive(Clone, Copy)]
pub(crate) struct KnownCell {
    pub(crate) component: u64,
    pub(crate) time: Time,
    pub(crate) cell: Cell,
}

/// What the state of the time's cell is.
#[inline(always)]
pub(crate) fn state<P: Pace>(words: &Words<P>, seat: &mut RawSeat, at: &KnownCell) -> u64
    requires of { IsSeatOf words.now seat.old }
    requires known { IsKnownTime seat.old.knows at.now.component at.now.time at.now.cell }
    ensures of { IsSeatOf words.now seat.new }
    ensures looks { LooksAside seat.old.knows seat.new.knows }
    ensures told { result ≡ code_of (slot_in seat.old.knows at.now.time) }
{
    seat.show_invariant();
    words.look(seat, Word::State(at.cell))
}

impl KnownCell {
    /// What the key of the time's cell is.
    #[inline(always)]
    fn key<P: Pace>(&self, words: &Words<P>, seat: &mut RawSeat) -> u64
        requires of { IsSeatOf words.now seat.old }
        requires known { IsKnownTime seat.old.knows self.now.component self.now.time self.now.cell }
        ensures of { IsSeatOf words.now seat.new }
        ensures looks { LooksAside seat.old.knows seat.new.knows }
        ensures told { IsPartOf (slot_in seat.old.knows self.now.time) Key result }
    {
        seat.show_invariant();
        let cell = self.cell;
        let part = Part::Key;
        words.look(seat, Word::Cell { cell, part })
    }

    /// Whether the time is a write of the key.
    #[inline(always)]
    pub(crate) fn is_write<P: Pace>(&self, words: &Words<P>, seat: &mut RawSeat, key: Key) -> bool
        requires of { IsSeatOf words.now seat.old }
        requires known { IsKnownTime seat.old.knows self.now.component self.now.time self.now.cell }
        ensures of { IsSeatOf words.now seat.new }
        ensures looks { LooksAside seat.old.knows seat.new.knows }
        ensures told { result ≡ is_write key (slot_in seat.old.knows self.now.time) }
    {
        self.key(words, seat) == key && state(words, seat, self) >= 2
    }
}

impl Load<RawSeat> for KnownCell {
    ghost stands = { λ words seat at. IsSeatOf words seat × IsKnownTime seat.knows at.component at.time at.cell × (code_of (slot_in seat.knows at.time) ≡ 2) };

    ghost value = { λ seat at. value_in (slot_in seat.knows at.time) };

    ghost looks = { λ words a b. IsSeatOf words b × LooksAside a.knows b.knows };

    #[inline(always)]
    fn length<P: Pace>(&self, words: &Words<P>, seat: &mut RawSeat) -> usize {
        seat.show_invariant();
        let cell = self.cell;
        let part = Part::Length;
        words.look(seat, Word::Cell { cell, part }) as usize
    }

    #[inline(always)]
    fn word<P: Pace>(&self, words: &Words<P>, seat: &mut RawSeat, index: usize) -> u64 {
        seat.show_invariant();
        let cell = self.cell;
        let part = Part::Value(index as u64);
        words.look(seat, Word::Cell { cell, part })
    }

    ghost stands_on = { λ words a b at is looks. (
      looks.0,
      known_stays a.knows b.knows at.component at.time at.cell looks.1.looks is.1,
      ap code_of (slot_stays a.knows b.knows at.time looks.1.looks) ∙ is.2,
    ) };

    ghost value_stays = { λ words a b at is looks. ap value_in (slot_stays a.knows b.knows at.time looks.1.looks) };

    ghost looks_on = { λ words a b c first then. (then.0, aside_trans a.knows b.knows c.knows first.1 then.1) };
}

/// Leaves the value that a write at the time sets in the caller's place, which is empty before and
/// stays so for a removal. The seat knows the time, and holds the component. It never waits, takes
/// no memory and is never refused.
#[inline(always)]
pub fn value_at<P: Pace>(
    words: &Words<P>,
    seat: &mut RawSeat,
    component: u64,
    time: Time,
    into: &mut Option<Value>,
)
    requires of { IsSeatOf words.now seat.old }
    requires known { IsFoundTime seat.old.knows component time }
    requires empty { into.old ≡ None }
    ensures of { IsSeatOf words.now seat.new }
    ensures looks { LooksAside seat.old.knows seat.new.knows }
    ensures value { into.new ≡ value_in (slot_in seat.old.knows time) }
{
    let at = KnownCell {
        component,
        time,
        cell: words.cell_of(time),
    };
    if state(words, seat, &at) == 2 {
        load_into(words, seat, &at, into);
    }
}
