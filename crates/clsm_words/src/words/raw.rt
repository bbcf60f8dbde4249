//! The operations on a word by which a seat plays a step.
ghost use Rattle.std.specs.Prelude.{◌≡◌, ◌<◌, true};
ghost use Rattle.clsm_law.specs.declared.word.Word.TheVariants.{Count as CountWord};
ghost use Rattle.clsm_law.specs.Memory.{is_word};
ghost use Rattle.clsm_law.specs.Layout.{index_of, size_of};
ghost use Rattle.clsm_words.specs.Acting.{OfFound};
ghost use Rattle.clsm_words.specs.Plays.{MayAct, MayActAsMerger, MayActBy, Merged, Played};

use super::{RawMerger, RawSeat, WordTable, Words};
use crate::known::Known;
use crate::operation::Operation;
use crate::pace::{Kind, Pace};
use crate::rule::{Does, Stores, Told};
use atomic_table::Seat;
use clsm_law::{Step, Word};
use std::marker::Brand;

impl WordTable {
    /// Where the place begins, with its count.
    #[inline(always)]
    #[tactic(auto, using(crate::proofs::Starts::start_at, crate::proofs::Starts::start_inside))]
    fn start_of(&self, place: u64) -> u64
        requires { place < 5 }
        ensures placed { result ≡ index_of self.now.layout (CountWord place) }
        ensures inside { result < size_of self.now.layout }
    {
        self.starts[place as usize]
    }

    /// Where the word stands.
    #[inline(always)]
    pub(super) fn place(&self, word: Word) -> usize
        requires { is_word self.now.layout word ≡ true }
        ensures { (result ≡ index_of self.now.layout word) × (result < size_of self.now.layout) }
    {
        match word {
            Word::Count(place) => self.start_of(place) as usize,
            Word::Entry { place, entry, part } => {
                let start = self.start_of(place);
                self.layout.entry_index(start, place, entry, part)
            }
            _ => self.layout.index_of(word),
        }
    }

    /// Operates on the word for a seat to which a step is open. Which step that is `by` says, for
    /// the proof alone: it costs nothing when it runs.
    #[inline(always)]
    pub(super) fn act_told<E: Told, B>(
        &self,
        seat: &mut Seat<u64, Known>,
        by: &B,
        word: Word,
        operation: Operation,
    ) -> u64
        requires word { is_word self.now.layout word ≡ true }
        requires seat { seat.old.table_id ≡ self.now.table.shared.table_id }
        requires allows { MayActBy self.now seat.old.id seat.old.me E.follows word operation }
        ensures { OfFound operation (λ x. (seat.new.table_id ≡ seat.old.table_id) × E.follows seat.old.me.0 x seat.new.me.0) result }
    {
        let at = self.place(word);
        let words = &self.table.shared;
        match operation {
            Operation::Load => words.load::<Does<E>>(seat, at),
            Operation::Store(new) => {
                words.store::<Stores<E>>(seat, at, new);
                0
            }
            Operation::Subtract(by) => words.fetch_sub::<Does<E>>(seat, at, by),
            Operation::Raise(to) => words.fetch_max::<Does<E>>(seat, at, to),
            Operation::Exchange(old, new) => words.compare_exchange::<Does<E>>(seat, at, old, new),
        }
    }
}

impl<P: Pace> Words<P> {
    /// Plays the step by this operation on its word.
    #[inline(always)]
    pub(super) fn play(&self, seat: &mut RawSeat, step: &Step, word: Word, by: Operation) -> u64
        requires { MayAct self.now seat.old step.now word by }
        ensures { OfFound by (λ x. Played self.now seat.old step.now x seat.new) result }
    {
        self.pace.step(seat.number, Kind::of(step));
        self.words
            .act_told::<Brand, Step>(&mut seat.seat, step, word, by)
    }

    /// Plays the merger's step by this operation on its word. The merger's number is the number of
    /// the callers' seats.
    #[inline(always)]
    pub(super) fn play_as_merger(
        &self,
        seat: &mut RawMerger,
        step: &Step,
        word: Word,
        operation: Operation,
    ) -> u64
        requires { MayActAsMerger self.now seat.old step.now word operation }
        ensures { OfFound operation (λ x. Merged self.now seat.old step.now x seat.new) result }
    {
        self.pace.step(self.words.layout.seats, Kind::of(step));
        self.words
            .act_told::<Brand, Step>(&mut seat.seat, step, word, operation)
    }
}
