//! A walk along the ordered list of an epoch.
ghost use Rattle.std.specs.Prelude.{◌≡◌, ◌∷◌, [], None, false, true};
ghost use Rattle.clsm_model.specs.Map.{Pair};
ghost use Rattle.clsm_search.specs.Ordering.{MayWalk, StandsAt, found_in_epoch};
ghost use Rattle.clsm_search.proofs.Orders.{walk_on};
ghost use Rattle.clsm_words.specs.Keeping.{LooksAside};
ghost use Rattle.clsm_words.specs.Plays.{IsSeatOf};
ghost use Rattle.clsm_scan.specs.Heads.{has_value, rows_of};
ghost use Rattle.clsm_scan.specs.Optional.{If, if_so};
ghost use Rattle.clsm_scan.specs.Walking.{IsWriteAt, found_on, spot_entry, spot_same, stands_later, stands_on, write_on};

use crate::sink::Sink;
use crate::source::Source;
use crate::walk::Walk;
use clsm_model::{Key, Value};
use clsm_search::{Epoch, Stand};
use clsm_words::{Pace, RawSeat, Spot, Words};

/// A walk along an epoch of the held component.
#[derive(Clone, Copy)]
pub struct EpochCursor {
    epoch: Epoch,
    /// Where it stands in the list.
    stand: Stand,
    /// The spot of the write that it came by last, if there was one.
    last: Option<Spot>,
}

impl EpochCursor {
    /// The walk along the epoch, which has to seek first.
    pub fn new(epoch: Epoch) -> EpochCursor
        ensures { result ≡ record { epoch = epoch; stand = record { ahead = None; leaps = false }; last = None } }
    {
        EpochCursor {
            epoch,
            stand: Stand::at(None),
            last: None,
        }
    }
}

impl EpochCursor {
    /// Gives the sink a row, as `give`, whose value may have many words. This is rare, and kept
    /// apart from what most rows need.
    #[inline(never)]
    fn give_long<P: Pace, S: Sink>(
        &self,
        words: &Words<P>,
        seat: &mut RawSeat,
        to: &mut S,
    ) -> S::Reply
        requires of { IsSeatOf words.now seat.old }
        requires over { MayWalk seat.old.knows self.now.epoch × If (IsWriteAt seat.old.knows self.now.epoch) self.now.last }
        requires has { has_value (spot_entry seat.old.knows self.now.epoch self.now.last) ≡ true }
        requires ready { S.is_ready to.old }
        ensures of { IsSeatOf words.now seat.new }
        ensures looks { LooksAside seat.old.knows seat.new.knows }
        ensures ready { S.is_ready to.new }
        ensures takes { (row : Pair) → rows_of (spot_entry seat.old.knows self.now.epoch self.now.last) ≡ row ∷ [] → S.takes to.old row result to.new }
    {
        match self.last {
            Some(spot) => to.take(spot.key, self.epoch.value(words, seat, spot)),
            None => unreachable!(),
        }
    }
}

impl Source for EpochCursor {
    ghost found = { λ k w key. found_in_epoch k w.epoch key };

    ghost is_over = { λ k w. MayWalk k w.epoch × If (IsWriteAt k w.epoch) w.last };

    ghost stands = { λ k w from. StandsAt k w.epoch from w.stand.ahead };

    ghost last = { λ k w. spot_entry k w.epoch w.last };

    #[inline(always)]
    fn has_value<P: Pace>(&self, words: &Words<P>, seat: &mut RawSeat) -> bool {
        match self.last {
            Some(spot) => self.epoch.has_value(words, seat, spot),
            None => false,
        }
    }

    #[inline(always)]
    fn give<P: Pace, S: Sink>(&self, words: &Words<P>, seat: &mut RawSeat, to: &mut S) -> S::Reply {
        match self.last {
            Some(spot) => match self.epoch.word_alone(words, seat, spot) {
                Some(word) => to.take(spot.key, Value::from(word)),
                None => self.give_long(words, seat, to),
            },
            None => unreachable!(),
        }
    }

    ghost over_stays = { λ k k' w looks over. (
      walk_on k k' w.epoch looks.looks over.0,
      if_so (IsWriteAt k w.epoch) (IsWriteAt k' w.epoch) w.last (λ spot. write_on k k' w.epoch spot looks.looks over.0) over.1,
    ) };

    ghost found_stays = { λ k k' w looks over key. found_on k k' w.epoch looks.looks key };

    ghost stands_stays = { λ k k' w from looks over stands. stands_on k k' w.epoch from w.stand.ahead looks.looks over.0 stands };

    ghost stands_later = { λ k w from later le stands. stands_later k w.epoch from later w.stand.ahead le stands };

    ghost last_stays = { λ k k' w looks over. spot_same k k' w.epoch w.last looks.looks };
}

impl Walk for EpochCursor {
    fn seek<P: Pace>(&mut self, words: &Words<P>, seat: &mut RawSeat, key: Key) {
        self.stand = Stand::at(self.epoch.seek(words, seat, key));
        self.last = None;
    }

    #[inline(always)]
    fn next<P: Pace>(&mut self, words: &Words<P>, seat: &mut RawSeat, from: u64) -> Option<u64> {
        // (place and key are written word by word: a copy of both would wait for them)
        match self.epoch.newest_from(words, seat, &mut self.stand, from) {
            Some(Spot { place, key }) => {
                self.last = Some(Spot { place, key });
                Some(key)
            }
            None => {
                self.last = None;
                None
            }
        }
    }
}
