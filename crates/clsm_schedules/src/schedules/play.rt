//! The player of schedules: a world that is played row by row, with the list of its events.
use crate::schedules::line::Line;
use clsm_machine::{Answer, Event, Layout, Step, StepError, Word, World};
use clsm_model::{Config, Memory};
use std::alloc::Global;

/// What a row found that it does not ask for.
#[derive(Clone, Copy, Debug)]
pub(crate) enum Wrong {
    /// Memory was wanted.
    Memory,
    /// The row says nothing that is played, or sizes that are refused.
    Unread,
    // what a step was answered
    Value(u64),
    Done,
    Lost,
    NotAllowed,
    /// What the world tells, or how the two worlds compare.
    Other,
    /// A run of the events ended at this place.
    Run(usize),
    /// A search found no write of its key.
    NotFound,
    /// An ordered list or a chain goes on behind an epoch's cells.
    Endless,
}

impl From<Memory> for Wrong {
    fn from(_: Memory) -> Wrong {
        Wrong::Memory
    }
}

fn wrong_answer(answer: Result<Answer, StepError>) -> Wrong {
    match answer {
        Ok(Answer::Value(value)) => Wrong::Value(value),
        Ok(Answer::Done) => Wrong::Done,
        Ok(Answer::Lost) => Wrong::Lost,
        Err(StepError::NotAllowed) => Wrong::NotAllowed,
        Err(StepError::Memory) => Wrong::Memory,
    }
}

/// Plays the rows one after another. Answers how many, and whether the last of them was wrong.
pub(crate) fn play_rows(alloc: Global, text: &str) -> (usize, Result<(), Wrong>) {
    let mut rows = text.lines();
    let mut play = match Play::new(alloc, rows.next().unwrap_or("")) {
        Ok(play) => play,
        Err(wrong) => return (0, Err(wrong)),
    };
    let mut count = 0_usize;
    for row in rows {
        if row.starts_with('#') || row.is_empty() {
            continue;
        }
        count = count.saturating_add(1);
        if let Err(wrong) = play.row(row) {
            return (count, Err(wrong));
        }
    }
    (count, Ok(()))
}

#[derive(Drop)]
pub(crate) struct Play {
    pub(crate) alloc: Global,
    pub(crate) layout: Layout,
    pub(crate) world: World,
    /// A second world, for schedules that compare two.
    pub(crate) other: World,
    /// What was done so far, in whichever world.
    pub(crate) events: Vec<Event>,
}

/// The sizes that are asked for.
pub(crate) fn config_of(line: &mut Line) -> Result<Config, Wrong> {
    Ok(Config {
        cells: line.number()? as usize,
        seats: line.number()? as usize,
        shards: line.number()? as usize,
        run: line.number()? as usize,
        patience: line.number()? as usize,
    })
}

impl Play {
    /// Both worlds as they are opened, by the row `sizes` and five sizes.
    fn new(alloc: Global, left: &str) -> Result<Play, Wrong> {
        let mut line = Line { left };
        if line.word() != "sizes" {
            return Err(Wrong::Unread);
        }
        let Ok(layout) = Layout::new(config_of(&mut line)?) else {
            return Err(Wrong::Unread);
        };
        Ok(Play {
            alloc,
            layout,
            world: World::new(alloc, &layout)?,
            other: World::new(alloc, &layout)?,
            events: Vec::new(alloc),
        })
    }

    /// Single steps; other rows are passed on.
    fn row(&mut self, left: &str) -> Result<(), Wrong> {
        let mut line = Line { left };
        match line.word() {
            "done" => {
                let (seat, step) = (line.seat()?, line.step(self.alloc)?);
                self.does(seat, step)
            }
            "lost" => {
                let (seat, step) = (line.seat()?, line.step(self.alloc)?);
                self.answers(seat, step, Ok(Answer::Lost))
            }
            "found" => {
                let (seat, value) = (line.seat()?, line.number()?);
                self.finds(seat, line.place()?, value)
            }
            "refused" => self.refuses(line.word(), line.left),
            name => self.told(name, line),
        }
    }

    /// How the world answers the event. Where it refuses it, the world stays as it was.
    fn tries(&mut self, event: Event) -> Result<Result<Answer, StepError>, Wrong> {
        let before = self.world.copy()?;
        let answer = self.world.step(event);
        if answer.is_err() && self.world != before {
            return Err(Wrong::Other);
        }
        Ok(answer)
    }

    /// The step is answered so. It is noted in the list where it is made. Where it is refused the
    /// world stays as it was, and so it does where memory is refused.
    pub(crate) fn answers(
        &mut self,
        seat: u32,
        step: Step,
        expected: Result<Answer, StepError>,
    ) -> Result<(), Wrong> {
        let event = Event { seat, step };
        let Ok(copy) = event.clone() else {
            return Err(Wrong::Memory);
        };
        let answer = self.tries(copy)?;
        if answer != expected {
            return Err(wrong_answer(answer));
        }
        if answer.is_ok() && self.events.push(event).is_err() {
            return Err(Wrong::Memory);
        }
        Ok(())
    }

    pub(crate) fn does(&mut self, seat: u32, step: Step) -> Result<(), Wrong> {
        self.answers(seat, step, Ok(Answer::Done))
    }

    pub(crate) fn finds(&mut self, seat: u32, word: Word, value: u64) -> Result<(), Wrong> {
        self.answers(seat, Step::Look(word), Ok(Answer::Value(value)))
    }

    /// What the seat finds in the word, which is what the world says.
    pub(crate) fn look(&mut self, seat: u32, word: Word) -> Result<u64, Wrong> {
        let Some(value) = self.world.word(word) else {
            return Err(Wrong::Other);
        };
        self.finds(seat, word, value)?;
        Ok(value)
    }

    fn refuses(&mut self, seats: &str, steps: &str) -> Result<(), Wrong> {
        for seat in seats.split(',') {
            let seat = Line { left: seat }.seat()?;
            for left in steps.split("; ") {
                let step = Line { left }.step(self.alloc)?;
                self.answers(seat, step, Err(StepError::NotAllowed))?;
            }
        }
        Ok(())
    }
}
