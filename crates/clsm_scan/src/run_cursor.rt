//! A walk along a run in the words.
ghost use Rattle.std.specs.Prelude.{◌≡◌, ◌∷◌, [], ℕ, IfSome, None, false, true};
ghost use Rattle.clsm_model.specs.Map.{Pair};
ghost use Rattle.clsm_levels.specs.Entry.{first_below};
ghost use Rattle.clsm_runs.specs.Passing.{IsPassageFrom, IsPassed, passed_entry};
ghost use Rattle.clsm_runs.specs.Searching.{IsSearchable, run_at};
ghost use Rattle.clsm_runs.proofs.Standing.{passage_later, passage_stays};
ghost use Rattle.clsm_words.specs.declared.known.Known.{Known};
ghost use Rattle.clsm_words.specs.Keeping.{LooksAside};
ghost use Rattle.clsm_words.specs.Plays.{IsSeatOf};
ghost use Rattle.clsm_scan.specs.Heads.{has_value, key_of, rows_of};
ghost use Rattle.clsm_scan.specs.Optional.{If, if_so};
ghost use Rattle.clsm_scan.specs.Walking.{found_in_run_on, passed_on, passed_same, run_on};

use crate::sink::Sink;
use crate::source::Source;
use crate::walk::Walk;
use clsm_model::{Key, Time, Value};
use clsm_runs::{HeldRun, Passage, Passed, Sought};
use clsm_words::{Pace, RawSeat, Words};

/// A walk along the run at a place that the held component names.
#[derive(Clone, Copy)]
pub struct RunCursor {
    run: HeldRun,
    /// It yields versions below this time.
    until: Time,
    passage: Passage,
    /// The entry that it came by last, if there was one.
    last: Option<Passed>,
}

impl RunCursor {
    /// The walk at the run's beginning.
    pub fn new(run: HeldRun, until: Time) -> RunCursor
        ensures { result ≡ record { run = run; until = until; passage = record { position = 0; count = 0; are_all = false }; last = None } }
    {
        RunCursor {
            run,
            until,
            passage: Passage::NONE,
            last: None,
        }
    }
}

/// The key of the entry, if there is one.
#[inline(always)]
fn key_of(passed: Option<Passed>) -> Option<u64>
    ensures { (k : Known) (component place : ℕ) → IfSome passed (IsPassed k component place) → result ≡ key_of (passed_entry k place passed) }
{
    match passed {
        Some(passed) => Some(passed.key),
        None => None,
    }
}

impl RunCursor {
    /// Gives the sink a row, as `give`, whose value may have many words. This is rare, and kept
    /// apart from what most rows need.
    #[inline(never)]
    fn give_long<P: Pace, S: Sink>(
        &self,
        words: &Words<P>,
        seat: &mut RawSeat,
        to: &mut S,
    ) -> S::Reply
        requires of { IsSeatOf words.now seat.old }
        requires over { IsSearchable seat.old.knows self.now.run.component self.now.run.place
            × If (IsPassed seat.old.knows self.now.run.component self.now.run.place) self.now.last }
        requires has { has_value (passed_entry seat.old.knows self.now.run.place self.now.last) ≡ true }
        requires ready { S.is_ready to.old }
        ensures of { IsSeatOf words.now seat.new }
        ensures looks { LooksAside seat.old.knows seat.new.knows }
        ensures ready { S.is_ready to.new }
        ensures takes { (row : Pair) → rows_of (passed_entry seat.old.knows self.now.run.place self.now.last) ≡ row ∷ [] → S.takes to.old row result to.new }
    {
        match self.last {
            Some(passed) => to.take(passed.key, self.run.value(words, seat, &passed)),
            None => unreachable!(),
        }
    }
}

impl Source for RunCursor {
    ghost found = { λ k w key. first_below (run_at k w.run.place) key w.until };

    ghost is_over = { λ k w. IsSearchable k w.run.component w.run.place × If (IsPassed k w.run.component w.run.place) w.last };

    ghost stands = { λ k w from. IsPassageFrom k w.run w.until from w.passage };

    ghost last = { λ k w. passed_entry k w.run.place w.last };

    #[inline(always)]
    fn has_value<P: Pace>(&self, words: &Words<P>, seat: &mut RawSeat) -> bool {
        match self.last {
            Some(passed) => self.run.has_value(words, seat, &passed),
            None => false,
        }
    }

    #[inline(always)]
    fn give<P: Pace, S: Sink>(&self, words: &Words<P>, seat: &mut RawSeat, to: &mut S) -> S::Reply {
        match self.last {
            Some(passed) => match self.run.word_alone(words, seat, &passed) {
                Some(word) => to.take(passed.key, Value::from(word)),
                None => self.give_long(words, seat, to),
            },
            None => unreachable!(),
        }
    }

    ghost over_stays = { λ k k' w looks over. (
      run_on k k' w.run.component w.run.place looks.looks over.0,
      if_so (IsPassed k w.run.component w.run.place) (IsPassed k' w.run.component w.run.place) w.last
          (λ passed. passed_on k k' w.run.component w.run.place passed looks.looks) over.1,
    ) };

    ghost found_stays = { λ k k' w looks over. found_in_run_on k k' w.run.component w.run.place w.until looks.looks over.0 };

    ghost stands_stays = { λ k k' w from looks over stands. passage_stays k k' w.run w.until from w.passage looks.looks over.0 stands };

    ghost stands_later = { λ k w from later le stands. passage_later k w.run w.until from later w.passage le stands };

    ghost last_stays = { λ k k' w looks over. passed_same k k' w.run.component w.run.place w.last looks.looks over.0 };
}

impl Walk for RunCursor {
    fn seek<P: Pace>(&mut self, words: &Words<P>, seat: &mut RawSeat, key: Key) {
        let until = self.until;
        let sought = Sought { from: key, until };
        self.passage = self.run.seek(words, seat, sought);
        self.last = None;
    }

    #[inline(always)]
    fn next<P: Pace>(&mut self, words: &Words<P>, seat: &mut RawSeat, from: u64) -> Option<u64> {
        let until = self.until;
        let sought = Sought { from, until };
        self.last = self.run.next(words, seat, &mut self.passage, sought);
        key_of(self.last)
    }
}
