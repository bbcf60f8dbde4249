//! The cells and chains of times and keys, the states that deeds leave, and answers.
ghost use Rattle.std.specs.Prelude.{◌≡◌, ◌^◌, ◌%◌, ◌+◌, ◌<◌};
ghost use Rattle.clsm_model.specs.Right.{write_by};
ghost use Rattle.clsm_law.specs.declared.word.Word.TheVariants.{Order};
ghost use Rattle.clsm_law.specs.Memory.{cell_of, region_of, head_of, link_at};
ghost use Rattle.clsm_law.specs.Relation.{state_by, won_if};

use super::{WordTable, Words};
use crate::pace::Pace;
use clsm_law::{Answer, Cell, REMOVAL_CELL, UNDECIDED_CELL, VALUE_CELL, Word};
use clsm_model::{Change, Deed, Key, Time};

impl WordTable {
    /// The cell that the time has.
    #[inline(always)]
    pub(super) fn cell_of(&self, time: Time) -> u64
        ensures { result ≡ cell_of self.now.layout time }
    {
        self.divisors.ring.rest(time)
    }

    /// The head of the chain in which the time's cell with this key is linked.
    #[inline(always)]
    pub(super) fn head_of(&self, time: Time, key: Key) -> Word
        ensures { result ≡ head_of self.now.layout time key }
    {
        Word::Head {
            region: self.layout.region_of(self.cell_of(time)),
            chain: self.divisors.chains.rest(key),
        }
    }

    /// The link behind the place in the ordered list of the time's region.
    #[inline(always)]
    pub(super) fn link_behind(&self, time: Time, place: u64) -> Word
        requires { place + 1 < 2 ^ 64 }
        ensures { result ≡ Order (link_at (region_of self.now.layout (cell_of self.now.layout time)) place) }
    {
        if place == 0 {
            Word::Order(self.layout.region_of(self.cell_of(time)))
        } else {
            Word::Order(place + 1)
        }
    }
}

impl<P: Pace> Words<P> {
    /// The cell that the time has.
    #[inline(always)]
    pub fn cell_of(&self, time: Time) -> u64
        ensures { result ≡ cell_of self.now.layout time }
    {
        self.words.cell_of(time)
    }

    /// The number of the cell in its region.
    #[inline(always)]
    pub fn number_in_region(&self, cell: Cell) -> u64
        ensures { result ≡ cell % self.now.layout.cells }
    {
        self.words.divisors.region.rest(cell)
    }

    /// The chain of the key.
    #[inline(always)]
    pub fn chain_of(&self, key: Key) -> u64
        ensures { result ≡ key % self.now.layout.chains }
    {
        self.words.divisors.chains.rest(key)
    }

    /// The head of the chain in which the time's cell with this key is linked.
    #[inline(always)]
    pub fn head_of(&self, time: Time, key: Key) -> Word
        ensures { result ≡ head_of self.now.layout time key }
    {
        self.words.head_of(time, key)
    }
}

/// The number of the state that the deed's write leaves in its cell.
#[inline(always)]
pub(super) fn state_by(deed: &Deed) -> u64
    ensures { result ≡ state_by (write_by 0 deed.now) }
{
    match deed {
        Deed::Put { .. }
        | Deed::Rmw {
            change: Change::Set(_),
            ..
        } => VALUE_CELL,
        Deed::Remove { .. }
        | Deed::Rmw {
            change: Change::Remove,
            ..
        } => REMOVAL_CELL,
        _ => UNDECIDED_CELL,
    }
}

/// The answer of an exchange.
#[inline(always)]
pub(super) fn won_if(won: bool) -> Answer
    ensures { result ≡ won_if won }
{
    if won { Answer::Done } else { Answer::Lost }
}
