//! A walk along an epoch or a run.
ghost use Rattle.clsm_scan.specs.Walks.{any_found, any_found_stays, any_last, any_last_stays, any_over, any_over_stays, any_stands, any_stands_later};
ghost use Rattle.clsm_scan.specs.Walks.{any_stands_stays};

use crate::epoch_cursor::EpochCursor;
use crate::run_cursor::RunCursor;
use crate::sink::Sink;
use crate::source::Source;
use crate::walk::Walk;
use clsm_model::Key;
use clsm_words::{Pace, RawSeat, Words};

/// A walk along an epoch or a run of the held component.
#[derive(Clone, Copy)]
pub enum AnyWalk {
    AlongEpoch(EpochCursor),
    AlongRun(RunCursor),
}

impl Source for AnyWalk {
    ghost found = { any_found };

    ghost is_over = { any_over };

    ghost stands = { any_stands };

    ghost last = { any_last };

    #[inline(always)]
    fn has_value<P: Pace>(&self, words: &Words<P>, seat: &mut RawSeat) -> bool {
        match self {
            AnyWalk::AlongEpoch(walk) => walk.has_value(words, seat),
            AnyWalk::AlongRun(walk) => walk.has_value(words, seat),
        }
    }

    #[inline(always)]
    fn give<P: Pace, S: Sink>(&self, words: &Words<P>, seat: &mut RawSeat, to: &mut S) -> S::Reply {
        match self {
            AnyWalk::AlongEpoch(walk) => walk.give(words, seat, to),
            AnyWalk::AlongRun(walk) => walk.give(words, seat, to),
        }
    }

    ghost over_stays = { any_over_stays };

    ghost found_stays = { any_found_stays };

    ghost stands_stays = { any_stands_stays };

    ghost stands_later = { any_stands_later };

    ghost last_stays = { any_last_stays };
}

impl Walk for AnyWalk {
    #[inline(always)]
    fn seek<P: Pace>(&mut self, words: &Words<P>, seat: &mut RawSeat, key: Key) {
        match self {
            AnyWalk::AlongEpoch(walk) => walk.seek(words, seat, key),
            AnyWalk::AlongRun(walk) => walk.seek(words, seat, key),
        }
    }

    fn next<P: Pace>(&mut self, words: &Words<P>, seat: &mut RawSeat, from: u64) -> Option<u64> {
        match self {
            AnyWalk::AlongEpoch(walk) => walk.next(words, seat, from),
            AnyWalk::AlongRun(walk) => walk.next(words, seat, from),
        }
    }
}
