//! The calls of the merger, as their steps.
use crate::schedules::line::Line;
use crate::schedules::play::{Play, Wrong};
use crate::schedules::writes::{word_at, words_of};
use clsm_machine::{Step, Word};
use clsm_model::Time;

impl Play {
    /// What the merger does.
    /// - `freezes TIME`: freezes the current epoch, where the clock is this.
    /// - `looks-at-snaps`, `looks-at-pins`: at each such word, in the order of the seats.
    /// - `writes-run PLACE` and entries, each its key, its time and its value: writes them into the
    ///   place, and their number. `merges PLACE` and entries is a merge from its beginning to its
    ///   end.
    /// - `clears REGION`: clears the heads, the ordered list and the states. `reclaims REGION`
    ///   looks at the pins first.
    pub(crate) fn merge(&mut self, name: &str, mut line: Line) -> Result<(), Wrong> {
        match name {
            "freezes" => self.freezes(line.number()?),
            "looks-at-snaps" => self.looks_at_each(false),
            "looks-at-pins" => self.looks_at_each(true),
            "writes-run" => self.writes_run(line),
            "merges" => {
                self.looks_at_each(false)?;
                self.writes_run(line)?;
                self.does(self.merger(), Step::Publish)
            }
            "clears" => self.clears(line.number()?),
            "reclaims" => {
                self.looks_at_each(true)?;
                self.clears(line.number()?)
            }
            _ => Err(Wrong::Unread),
        }
    }

    /// The merger's number.
    fn merger(&self) -> u32 {
        self.layout.seats as u32
    }

    fn freezes(&mut self, clock: Time) -> Result<(), Wrong> {
        let merger = self.merger();
        self.does(merger, Step::EnterExclusive)?;
        let limit = self.look(merger, Word::Limit)?;
        self.finds(merger, Word::Clock, clock)?;
        for time in clock..limit {
            self.does(merger, Step::Pad(time))?;
        }
        self.does(merger, Step::ExtendClock)?;
        self.does(merger, Step::ExtendLimit)?;
        self.does(merger, Step::LeaveExclusive)
    }

    fn looks_at_each(&mut self, is_pin: bool) -> Result<(), Wrong> {
        for seat in 0..self.layout.seats {
            let word = if is_pin {
                Word::Pin(seat)
            } else {
                Word::Snap(seat)
            };
            self.look(self.merger(), word)?;
        }
        Ok(())
    }

    fn writes_run(&mut self, mut line: Line) -> Result<(), Wrong> {
        let place = line.number()?;
        let mut count = 0;
        for entry in 0..self.layout.run {
            if line.left.is_empty() {
                break;
            }
            self.writes_entry(place, entry, &mut line)?;
            count = entry.saturating_add(1);
        }
        if !line.left.is_empty() {
            return Err(Wrong::Unread);
        }
        self.does(self.merger(), Step::WriteRun(Word::Count(place), count))
    }

    fn writes_entry(&mut self, place: u64, entry: u64, line: &mut Line) -> Result<(), Wrong> {
        let (key, time, value) = (line.number()?, line.number()?, line.value()?);
        let removal = if value.is_some() { 0 } else { 1 };
        for part in 0..11 {
            let word = match part {
                0 => key,
                1 => time.saturating_mul(2).saturating_add(removal),
                _ => word_at(words_of(&value), part - 2),
            };
            let written = Word::Entry { place, entry, part };
            self.does(self.merger(), Step::WriteRun(written, word))?;
        }
        Ok(())
    }

    /// Clears the heads, then the ordered list, and then the states.
    fn clears(&mut self, region: u64) -> Result<(), Wrong> {
        for chain in 0..self.layout.chains {
            self.does(self.merger(), Step::ClearHead { region, chain })?;
        }
        self.does(self.merger(), Step::ClearOrder(region))?;
        for cell in 0..2 * self.layout.cells {
            if self.layout.region_of(cell) == region {
                self.does(self.merger(), Step::ClearState(cell))?;
            }
        }
        Ok(())
    }
}
