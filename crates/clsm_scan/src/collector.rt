//! What collects the rows of a range.
ghost use Rattle.std.specs.Prelude.{◌≡◌, ℕ, ◌++◌, ◌∷◌, [], List, Option, IfOk, Some, false, length, map, take, true};
ghost use Rattle.clsm_model.specs.Map.{Pair};
ghost use Rattle.clsm_words.specs.Keeping.{LooksAside};
ghost use Rattle.clsm_words.specs.Plays.{IsSeatOf};
ghost use Rattle.clsm_scan.specs.Collected.{is_full};
ghost use Rattle.clsm_scan.specs.Filling.{AreFilled, FillsOn, fills_none, fills_on};
ghost use Rattle.clsm_scan.specs.Heads.{has_value, rows_of};

use crate::row::Row;
use crate::source::Source;
use clsm_model::{Memory, Value};
use clsm_words::{Pace, RawSeat, Words};
use std::alloc::Global;
use std::convert::Infallible;

/// What collects rows, one behind the other: at most so many, where it has a greatest number.
pub trait Collector {
    /// Why it does not collect a row for which there is room.
    type Refusal;

    ghost rows: { Self → List Pair };

    ghost most: { Self → Option ℕ };

    ghost is_ready: { Self → Type 0 };

    ghost goes_on: { Self → Self → Type 0 };

    /// Whether it has as many rows as it may have.
    fn is_full(&self) -> bool
        requires { is_ready self.now }
        ensures { result ≡ is_full (most self.now) (length (rows self.now)) };

    /// Collects the row of the write that the source came by last.
    fn collect<S: Source, P: Pace>(
        &mut self,
        words: &Words<P>,
        seat: &mut RawSeat,
        source: &S,
    ) -> Result<(), Self::Refusal>
        requires of { IsSeatOf words.now seat.old }
        requires over { S.is_over seat.old.knows source.now }
        requires has { has_value (S.last seat.old.knows source.now) ≡ true }
        requires ready { is_ready self.old }
        requires room { is_full (most self.old) (length (rows self.old)) ≡ false }
        ensures of { IsSeatOf words.now seat.new }
        ensures looks { LooksAside seat.old.knows seat.new.knows }
        ensures ready { is_ready self.new }
        ensures most { most self.new ≡ most self.old }
        ensures goes_on { goes_on self.old self.new }
        ensures collected { IfOk result (λ done. (row : Pair) → rows_of (S.last seat.old.knows source.now) ≡ row ∷ []
            → rows self.new ≡ rows self.old ++ row ∷ []) };

    ghost begins: { (c : Self) → is_ready c → goes_on c c };

    ghost goes_further: { (a b c : Self) → goes_on a b → goes_on b c → goes_on a c };
}

/// A list of rows that grows, up to a greatest length where there is one. A row is refused if
/// memory runs out.
#[derive(Drop)]
pub struct Listed {
    pub rows: Vec<(u64, Value)>,
    pub most: Option<usize>,
}

impl Listed {
    /// The most rows for which memory is taken at first.
    const FEW: usize = 16;

    /// No row yet, of at most so many. Refused if there is no memory for the first few.
    pub fn new(alloc: Global, most: Option<usize>) -> Result<Listed, Memory>
        ensures none { IfOk result (λ listed. listed.rows.items ≡ []) }
        ensures most { IfOk result (λ listed. listed.most ≡ most) }
    {
        let room = most.unwrap_or(Listed::FEW).min(Listed::FEW);
        let rows = Vec::with_capacity(alloc, room)?;
        Ok(Listed { rows, most })
    }
}

impl Collector for Listed {
    type Refusal = Memory;

    ghost rows = { λ listed. listed.rows.items };

    ghost most = { λ listed. listed.most };

    ghost is_ready = { λ listed. Unit {0} };

    ghost goes_on = { λ before after. Unit {0} };

    #[inline(always)]
    fn is_full(&self) -> bool {
        match self.most {
            Some(most) => most <= self.rows.len(),
            None => false,
        }
    }

    #[inline(always)]
    fn collect<S: Source, P: Pace>(
        &mut self,
        words: &Words<P>,
        seat: &mut RawSeat,
        source: &S,
    ) -> Result<(), Memory> {
        source.give(words, seat, &mut self.rows)
    }

    ghost begins = { λ listed ready. tt };

    ghost goes_further = { λ a b c first second. tt };
}

/// Rows of the caller's, of which so many are filled: the next one is put behind them, as long as
/// there is room. It takes no memory.
#[derive(Drop)]
pub struct Filling<'a, R> {
    pub rows: &'a mut [R],
    pub count: usize,
}

impl<R: Row> Collector for Filling<'_, R> {
    type Refusal = Infallible;

    ghost rows = { λ filling. map R.pair (take filling.count filling.rows.now) };

    ghost most = { λ filling. Some (length filling.rows.now) };

    ghost is_ready = { λ filling. AreFilled R.is_row filling.rows.now filling.count };

    ghost goes_on = { λ before after. FillsOn before.rows before.count after.rows after.count };

    #[inline(always)]
    fn is_full(&self) -> bool {
        self.rows.len() <= self.count
    }

    #[inline(always)]
    fn collect<S: Source, P: Pace>(
        &mut self,
        words: &Words<P>,
        seat: &mut RawSeat,
        source: &S,
    ) -> Result<(), Infallible> {
        let at = self.count;
        source.give(words, seat, &mut self.rows[at]);
        self.count = at + 1;
        Ok(())
    }

    ghost begins = { λ filling ready. fills_none filling.rows filling.count };

    ghost goes_further = { λ a b c first second. fills_on a.rows a.count b.rows b.count c.rows c.count first second };
}
