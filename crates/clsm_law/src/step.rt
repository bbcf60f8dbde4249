//! The atomic steps, each with its operation, and what they answer. `OpenSteps.antt`,
//! `Relation.antt` and `Merging.antt` of specs/ say when a step is open, and what it does.
ghost use Rattle.std.specs.Prelude.{◌≡◌};

use crate::Cell;
use crate::word::{Part, Word};
use clsm_model::{Deed, Members, Time};
use std::alloc::AllocError;

/// One atomic step.
#[derive(Clone, Drop)]
pub enum Step {
    // the lock
    /// compare_exchange LOCK from this number of holders to one more.
    EnterShared(u64),
    /// fetch_sub LOCK 1.
    LeaveShared,
    /// compare_exchange LOCK from 0 to 2^32, of the merger for a freeze, of a caller for a batch.
    EnterExclusive,
    /// fetch_sub LOCK 2^32.
    LeaveExclusive,
    // writes
    /// compare_exchange CLOCK from this time to the next.
    Draw(Time),
    /// Store a part of the drawn cell.
    Fill(Part, u64),
    /// compare_exchange the head of the drawn cell's chain from this word to the drawn cell.
    Link(u64),
    /// Store the link behind the drawn cell in the ordered list.
    FillOrder(u64),
    /// compare_exchange the link behind this place of the list, 0 or a cell plus 1, from this word
    /// to the drawn cell.
    Insert(u64, u64),
    /// Store a hint.
    StoreHint { cell: Cell, hint: u64, word: u64 },
    /// compare_exchange the state of the drawn cell from empty to set or removed, as the deed
    /// writes. In an exclusive hold it records nothing.
    Decide(Time, Deed),
    /// compare_exchange the state of this time's cell from empty to cancelled.
    Cancel(Time),
    // batches
    /// Store the key of the next member of a batch, whose time is this one.
    Stage(Time, u64),
    /// Store CLOCK, behind the times of these members.
    Commit(Members),
    // reads
    /// Store the seat's pin word plus 1, and so again where the read ends.
    Pin,
    Unpin(End),
    /// Load a word.
    Look(Word),
    /// fetch_max FRONT to this time.
    RaiseFront(Time),
    /// Store the seat's snapshot word: this time plus 1.
    Note(Time),
    /// Store 0 there.
    CloseSnapshot,
    // merges
    /// Store 1 in the state of this undrawn time's cell.
    Pad(Time),
    /// Store this in a word of a place that no reader searches.
    WriteRun(Word, u64),
    /// Store 0 in a head, and in a state, of the retired region.
    ClearHead { region: u64, chain: u64 },
    ClearState(u64),
    /// Store 0 in the head of the retired region's list.
    ClearOrder(u64),
    /// Store MERGED, one more merge.
    Publish,
    /// Store CLOCK, the end of the epoch, and then LIMIT, an epoch more.
    ExtendClock,
    ExtendLimit,
}

/// How a read ends.
#[derive(Clone, Drop)]
pub enum End {
    Neither,
    /// With a meeting at the clock looked at under this pin.
    Meeting,
    Recorded(Deed),
}

/// One step by one seat; the merger's number is the number of the callers' seats.
#[derive(Drop)]
pub struct Event {
    pub seat: u32,
    pub step: Step,
}

impl Clone for Event {
    ghost is_clone = { λ original copy. copy ≡ original };

    /// The same event. Refused if memory runs out.
    fn clone(&self) -> Result<Event, AllocError> {
        let step = self.step.clone()?;
        Ok(Event { step, ..*self })
    }
}

/// What a step answers.
#[derive(Clone, Copy, PartialEq, Eq, Debug)]
pub enum Answer {
    /// The word that a look found.
    Value(u64),
    Done,
    /// An exchange found another word.
    Lost,
}

/// Why a step is not made.
#[derive(Clone, Copy, PartialEq, Eq, Debug)]
pub enum StepError {
    /// It is not open to that seat in that world.
    NotAllowed,
    Memory,
}

impl StepError {
    ghost use Rattle.clsm_law.specs.Numbers.{number_of};

    /// The number of the refusal: 1 or 2.
    pub fn number(self) -> u8
        ensures { result ≡ number_of self }
    {
        match self {
            StepError::NotAllowed => 1,
            StepError::Memory => 2,
        }
    }
}

impl From<AllocError> for StepError {
    ghost use Rattle.clsm_law.specs.declared.step.StepError.TheVariants.{Memory};

    ghost from_gives = { λ _ e. e ≡ Memory };

    fn from(_: AllocError) -> StepError {
        StepError::Memory
    }
}
