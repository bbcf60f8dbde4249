//! What yields writes of a held component by rising key.
ghost use Rattle.std.specs.Prelude.{◌≡◌, ℕ, ◌≤◌, ◌∷◌, [], Option, true};
ghost use Rattle.clsm_model.specs.Map.{Pair};
ghost use Rattle.clsm_levels.specs.declared.entry.Entry.{Entry};
ghost use Rattle.clsm_words.specs.declared.known.Known.{Known};
ghost use Rattle.clsm_words.specs.Keeping.{LooksAside};
ghost use Rattle.clsm_words.specs.Plays.{IsSeatOf};
ghost use Rattle.clsm_scan.specs.Heads.{has_value, rows_of};

use crate::sink::Sink;
use clsm_words::{Pace, RawSeat, Words};

/// A source of the newest write of each key below a time, by rising key, which has come by one of
/// them last. It never waits.
pub trait Source {
    ghost found: { Known → Self → ℕ → Option Entry };

    ghost is_over: { Known → Self → Type 0 };

    ghost stands: { Known → Self → ℕ → Type 0 };

    ghost last: { Known → Self → Option Entry };

    /// Whether the write that it came by last has a value, which a removal has not.
    fn has_value<P: Pace>(&self, words: &Words<P>, seat: &mut RawSeat) -> bool
        requires of { IsSeatOf words.now seat.old }
        requires over { is_over seat.old.knows self.now }
        ensures of { IsSeatOf words.now seat.new }
        ensures looks { LooksAside seat.old.knows seat.new.knows }
        ensures has { result ≡ has_value (last seat.old.knows self.now) };

    /// Gives the sink the key of the write that it came by last with its value, which it has to
    /// have. No value is handed on between the two.
    fn give<P: Pace, S: Sink>(&self, words: &Words<P>, seat: &mut RawSeat, to: &mut S) -> S::Reply
        requires of { IsSeatOf words.now seat.old }
        requires over { is_over seat.old.knows self.now }
        requires has { has_value (last seat.old.knows self.now) ≡ true }
        requires ready { S.is_ready to.old }
        ensures of { IsSeatOf words.now seat.new }
        ensures looks { LooksAside seat.old.knows seat.new.knows }
        ensures ready { S.is_ready to.new }
        ensures takes { (row : Pair) → rows_of (last seat.old.knows self.now) ≡ row ∷ [] → S.takes to.old row result to.new };

    ghost over_stays: { (k k' : Known) (s : Self) → LooksAside k k' → is_over k s → is_over k' s };

    ghost found_stays: { (k k' : Known) (s : Self) → LooksAside k k' → is_over k s → (key : ℕ) → found k' s key ≡ found k s key };

    ghost stands_stays: { (k k' : Known) (s : Self) (from : ℕ) → LooksAside k k' → is_over k s → stands k s from → stands k' s from };

    ghost stands_later: { (k : Known) (s : Self) (from later : ℕ) → from ≤ later → stands k s from → stands k s later };

    ghost last_stays: { (k k' : Known) (s : Self) → LooksAside k k' → is_over k s → last k' s ≡ last k s };
}
