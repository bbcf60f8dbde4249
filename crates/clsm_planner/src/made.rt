//! The steps of a part of a call that were made.
ghost use Rattle.std.specs.Prelude.{◌≡◌};
ghost use Rattle.clsm_planner.specs.Playing.{found_of};

use crate::planner::PlanError;
use clsm_law::{Answer, Step, Word};
use clsm_model::Memory;
use std::alloc::AllocError;

/// What a step found.
#[derive(Clone, Copy, PartialEq, Eq, Hash)]
pub(crate) enum Found {
    /// A look, this word.
    Word(u64),
    Done,
    Lost,
}

impl Found {
    pub(crate) fn of(answer: Answer) -> Found
        ensures { result ≡ found_of answer }
    {
        match answer {
            Answer::Value(word) => Found::Word(word),
            Answer::Done => Found::Done,
            Answer::Lost => Found::Lost,
        }
    }
}

/// Why a part of a call is not over.
#[derive(Drop)]
pub(crate) enum Stop {
    /// This step comes next.
    Next(Step),
    /// The part begins again.
    Again,
    Memory,
}

impl Stop {
    /// Whether the part begins again. Refused where memory was wanting.
    pub(crate) fn is_again(self) -> Result<bool, Memory> {
        match self {
            Stop::Again => Ok(true),
            Stop::Next(_) => Ok(false),
            Stop::Memory => Err(Memory),
        }
    }
}

/// The step that comes next, if a part that was played stopped there.
pub(crate) fn next_step<T: Drop>(played: Result<T, Stop>) -> Result<Step, PlanError> {
    match played {
        Err(Stop::Next(step)) => Ok(step),
        Err(Stop::Memory) => Err(PlanError::Memory),
        Err(Stop::Again) | Ok(_) => Err(PlanError::Stuck),
    }
}

impl From<AllocError> for Stop {
    fn from(_: AllocError) -> Stop {
        Stop::Memory
    }
}

impl From<Memory> for Stop {
    fn from(_: Memory) -> Stop {
        Stop::Memory
    }
}

/// What the steps of a part of a call found, in their order. A part is played from its beginning:
/// each of its steps takes the next of these, and the first step that finds none left is the one
/// to make.
#[derive(Drop)]
pub(crate) struct Made<'a> {
    found: &'a [Found],
}

impl<'a> Made<'a> {
    pub(crate) fn new(found: &'a [Found]) -> Made<'a> {
        Made { found }
    }

    /// What the step found, if it was made.
    pub(crate) fn step(&mut self, step: Step) -> Result<Found, Stop> {
        match self.found {
            [] => Err(Stop::Next(step)),
            [first, rest @ ..] => {
                self.found = rest;
                Ok(*first)
            }
        }
    }

    /// The word that a look found, if it was made.
    pub(crate) fn look(&mut self, word: Word) -> Result<u64, Stop> {
        match self.step(Step::Look(word))? {
            Found::Word(word) => Ok(word),
            Found::Done | Found::Lost => Ok(0),
        }
    }

    /// Whether an exchange found the word that it named, if it was made.
    pub(crate) fn wins(&mut self, step: Step) -> Result<bool, Stop> {
        Ok(self.step(step)? != Found::Lost)
    }
}
