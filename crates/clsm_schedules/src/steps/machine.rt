//! The pure machine, played by its planner.
use crate::steps::command::{Command, FIRST, MERGER, OTHER, Script, SweepPart, Turn};
use crate::steps::noted::Made;
use crate::steps::sizes::SIZES;
use crate::steps::wrong::Wrong;
use clsm_law::{Event, Layout, Step, StepError, Word};
use clsm_machine::World;
use clsm_model::CallRecord;
use clsm_planner::{AnyDeal, AsCalled, Caller, Merging, PlanError};
use clsm_words::Kind;
use std::alloc::Global;

/// The most steps that a call makes which does not wait.
const LIMIT: u64 = 1000;

#[derive(Drop)]
pub(crate) struct Machine {
    alloc: Global,
    layout: Layout,
    world: World,
    callers: Vec<Caller>,
    /// The calls of each seat.
    deals: Vec<Vec<AnyDeal>>,
    merging: Merging,
    /// The merger's last step.
    merged: Option<Kind>,
    /// The steps that were made since the state was.
    made: Vec<Made>,
}

/// A call that was begun, and its number among those of its seat.
#[derive(Clone, Copy)]
struct Begun {
    turn: Turn,
    number: usize,
}

/// The calls of each seat.
fn deals_of(alloc: Global, script: &Script) -> Result<Vec<Vec<AnyDeal>>, Wrong> {
    let mut deals = Vec::new(alloc);
    for player in [FIRST, OTHER] {
        if deals.push(script.deals(alloc, player)?).is_err() {
            return Err(Wrong::Memory);
        }
    }
    Ok(deals)
}

/// The callers that make these calls.
fn callers_of(alloc: Global, deals: &[Vec<AnyDeal>]) -> Result<Vec<Caller>, Wrong> {
    let mut callers = Vec::new(alloc);
    for calls in deals {
        if callers.push(Caller::new(alloc, calls.as_slice())).is_err() {
            return Err(Wrong::Memory);
        }
    }
    Ok(callers)
}

impl Machine {
    pub(crate) fn new(alloc: Global, script: &Script) -> Result<Machine, Wrong> {
        let Ok(layout) = Layout::new(SIZES) else {
            return Err(Wrong::Unread);
        };
        let deals = deals_of(alloc, script)?;
        let callers = callers_of(alloc, &deals)?;
        let Ok(world) = World::new(alloc, &layout) else {
            return Err(Wrong::Memory);
        };
        Ok(Machine {
            alloc,
            layout,
            world,
            callers,
            deals,
            merging: Merging::new(alloc),
            merged: None,
            made: Vec::new(alloc),
        })
    }

    /// How many of its calls the seat has played; none where it is the merger.
    fn played(&self, player: u32) -> usize {
        let place = player as usize;
        let (Some(caller), Some(deals)) = (self.callers.get(place), self.deals.get(place)) else {
            return 0;
        };
        let mut count = 0;
        for number in 1..=deals.len() {
            if caller.is_over(&deals[..number]) {
                count = number;
            }
        }
        count
    }

    fn begin(&self, turn: &Turn) -> Begun {
        Begun {
            turn: *turn,
            number: self.played(turn.player),
        }
    }

    /// The next step of the one with this number.
    fn next(&self, player: u32) -> Result<Option<Step>, Wrong> {
        let place = player as usize;
        let next = match (self.callers.get(place), self.deals.get(place)) {
            (Some(caller), Some(deals)) => caller.next(self.alloc, &self.layout, deals.as_slice()),
            _ => self.merging.next(self.alloc, &self.layout),
        };
        match next {
            Ok(step) => Ok(step),
            Err(PlanError::Memory) => Err(Wrong::Memory),
            Err(PlanError::Stuck) => Err(Wrong::Stuck),
        }
    }

    /// Whether the call is over.
    fn is_over(&self, begun: &Begun) -> Result<bool, Wrong> {
        Ok(match &begun.turn.command {
            Command::Call(_) | Command::Page { .. } => {
                self.played(begun.turn.player) != begun.number
            }
            Command::Merger(SweepPart::Freeze) => self.merged == Some(Kind::LeaveExclusive),
            Command::Merger(SweepPart::Merge) => self.merged == Some(Kind::Publish),
            Command::Merger(SweepPart::Reclaim) => self.next(MERGER)?.is_none(),
        })
    }

    /// Whether the step stores in an entry of a run the word that is there.
    fn is_vain(&self, step: &Step) -> bool {
        match step {
            Step::WriteRun(Word::Entry { place, entry, part }, word) => {
                let (place, entry, part) = (*place, *entry, *part);
                self.world.word(Word::Entry { place, entry, part }) == Some(*word)
            }
            _ => false,
        }
    }

    /// Makes the step of the one with this number.
    fn make(&mut self, player: u32, step: Step) -> Result<(), Wrong> {
        let made = Made {
            player,
            kind: Kind::of(&step),
            is_vain: self.is_vain(&step),
        };
        let kind = made.kind;
        let answer = match self.world.step(Event { seat: player, step }) {
            Ok(answer) => answer,
            Err(StepError::NotAllowed) => return Err(Wrong::Refused(kind)),
            Err(StepError::Memory) => return Err(Wrong::Memory),
        };
        let place = player as usize;
        let (alloc, layout) = (self.alloc, &self.layout);
        let taken = match (self.callers.get_mut(place), self.deals.get(place)) {
            (Some(caller), Some(deals)) => {
                caller.take(&AsCalled, alloc, layout, deals.as_slice(), answer)
            }
            _ => {
                self.merged = Some(kind);
                self.merging.take(&AsCalled, alloc, layout, answer)
            }
        };
        if taken.is_err() || self.made.push(made).is_err() {
            return Err(Wrong::Memory);
        }
        Ok(())
    }

    /// Makes so many steps of the call.
    fn go_to(&mut self, begun: &Begun, count: usize) -> Result<(), Wrong> {
        for _ in 0..count {
            let Some(step) = self.next(begun.turn.player)? else {
                return Err(Wrong::Stuck);
            };
            self.make(begun.turn.player, step)?;
        }
        Ok(())
    }

    /// Plays the call to its end. Answers whether it ends, as a call does that does not wait.
    fn finish(&mut self, begun: &Begun) -> Result<bool, Wrong> {
        for _ in 0..LIMIT {
            if self.is_over(begun)? {
                return Ok(true);
            }
            let Some(step) = self.next(begun.turn.player)? else {
                return Ok(true);
            };
            self.make(begun.turn.player, step)?;
        }
        Ok(false)
    }

    /// Plays the state of the script.
    fn prepare(&mut self, script: &Script) -> Result<(), Wrong> {
        for turn in &script.state {
            let begun = self.begin(turn);
            if !self.finish(&begun)? {
                return Err(Wrong::Endless);
            }
        }
        self.made.clear();
        Ok(())
    }

    /// Plays the script. If a place is given, the call of the row is held before its step at this
    /// place while the other call is made. Answers whether the other call ends there.
    pub(crate) fn play(&mut self, script: &Script, hold: Option<usize>) -> Result<bool, Wrong> {
        self.prepare(script)?;
        let first = self.begin(&script.first);
        if let (Some(place), Some(other)) = (hold, &script.other) {
            self.go_to(&first, place)?;
            let other = self.begin(other);
            if !self.finish(&other)? {
                return Ok(false);
            }
        }
        if !self.finish(&first)? {
            return Err(Wrong::Endless);
        }
        Ok(true)
    }

    /// The steps that the one with this number made since the state was.
    pub(crate) fn steps(&self, player: u32) -> Result<Vec<Made>, Wrong> {
        let mut steps = Vec::new(self.alloc);
        for made in &self.made {
            if made.player == player && steps.push(*made).is_err() {
                return Err(Wrong::Memory);
            }
        }
        Ok(steps)
    }

    /// The records of a seat.
    pub(crate) fn records(&self, seat: u32) -> &[CallRecord] {
        self.world.calls(seat)
    }
}
