//! What a world tells, runs of the events, and two worlds beside each other.
use crate::schedules::line::{Line, record};
use crate::schedules::play::{Play, Wrong, config_of};
use clsm_machine::{Event, Layout, StepError, World, run};
use clsm_model::{Slot, Time};
use std::hash::{DefaultHasher, Hash, Hasher};

fn hash_of(world: &World) -> u64 {
    let mut hasher = DefaultHasher::new();
    world.hash(&mut hasher);
    hasher.finish()
}

fn right(is_right: bool) -> Result<(), Wrong> {
    if is_right { Ok(()) } else { Err(Wrong::Other) }
}

/// The sizes that are asked for give these cells, seats, chains and entries.
fn has_layout(line: &mut Line) -> Result<(), Wrong> {
    let Ok(layout) = Layout::new(config_of(line)?) else {
        return Err(Wrong::Other);
    };
    for size in [layout.cells, layout.seats, layout.chains, layout.run] {
        right(line.number()? == size)?;
    }
    Ok(())
}

impl Play {
    /// What the world tells; other rows are passed on.
    pub(crate) fn told(&mut self, name: &str, mut line: Line) -> Result<(), Wrong> {
        match name {
            "has" => {
                let value = line.number()?;
                right(self.world.word(line.place()?) == Some(value))
            }
            "has-none" => right(self.world.word(line.place()?).is_none()),
            "undecided" => right(self.world.slot(line.number()?).is_none()),
            "nothing" => right(self.world.slot(line.number()?) == Some(Slot::Nothing)),
            "wrote" => {
                let time = line.number()?;
                let (seat, key, value) = (line.seat()?, line.number()?, line.value()?);
                right(self.world.slot(time) == Some(Slot::Wrote { seat, key, value }))
            }
            "calls" => {
                let count = self.world.calls(line.seat()?).len() as u64;
                right(line.number()? == count)
            }
            "call" => {
                let (index, call) = (line.number()?, record(self.alloc, line.left)?);
                right(self.world.calls(call.seat).get(index as usize) == Some(&call))
            }
            "is-run" => right(self.run(None)? == self.world),
            "refused-without" => {
                let (number, place) = (line.number()?, line.number()?);
                match self.run(Some(number as usize)) {
                    Err(Wrong::Run(at)) => right(at as u64 == place),
                    Err(wrong) => Err(wrong),
                    Ok(_) => Err(Wrong::Other),
                }
            }
            name => self.compared(name, line),
        }
    }

    /// Layouts, and two worlds; other rows are passed on.
    fn compared(&mut self, name: &str, mut line: Line) -> Result<(), Wrong> {
        match name {
            "copies" => {
                self.other = self.world.copy()?;
                right(self.other == self.world)
            }
            "swaps" => {
                std::mem::swap(&mut self.world, &mut self.other);
                Ok(())
            }
            "equal" => right(
                self.world == self.other && hash_of(&self.world) == hash_of(&self.other),
            ),
            "differ" => right(
                self.world != self.other && hash_of(&self.world) != hash_of(&self.other),
            ),
            "layout" => has_layout(&mut line),
            "no-layout" => match Layout::new(config_of(&mut line)?) {
                Ok(_) => Err(Wrong::Other),
                Err(refusal) => right(u64::from(refusal.number()) == line.number()?),
            },
            name => self.call(name, line),
        }
    }

    /// What a run of the events gives, maybe without the one of this number.
    fn run(&self, without: Option<usize>) -> Result<World, Wrong> {
        let mut events = Vec::new(self.alloc);
        for (at, event) in self.events.iter().enumerate() {
            if Some(at) == without {
                continue;
            }
            let Ok(event) = event.clone() else {
                return Err(Wrong::Memory);
            };
            if events.push(event).is_err() {
                return Err(Wrong::Memory);
            }
        }
        match run(self.alloc, &self.layout, &events) {
            Ok(world) => Ok(world),
            Err((_, StepError::Memory)) => Err(Wrong::Memory),
            Err((place, _)) => Err(Wrong::Run(place)),
        }
    }
}
