//! The parts of a write, as their steps. A put or a removal from its beginning to its end is a row
//! `puts` with its record.
use crate::schedules::line::{Line, record};
use crate::schedules::play::{Play, Wrong};
use clsm_machine::{Part, Step, Word};
use clsm_model::{CallRecord, Change, Deed, Key, Time, Value};
use clsm_planner::link_behind;

pub(crate) fn words_of(value: &Option<Value>) -> &[u64] {
    match value {
        Some(value) => value.words(),
        None => &[],
    }
}

/// The word at the place of a value: its length, its words, and 0 behind them.
pub(crate) fn word_at(words: &[u64], place: u64) -> u64 {
    match place.checked_sub(1) {
        None => words.len() as u64,
        Some(number) => words.get(number as usize).copied().unwrap_or(0),
    }
}

/// The part of a cell at this place: the length, the words, the key and the link.
pub(crate) fn part_at(place: u64) -> Part {
    match place {
        0 => Part::Length,
        1..=8 => Part::Value(place - 1),
        9 => Part::Key,
        _ => Part::Next,
    }
}

/// The key that the call writes, and its value, if it has one.
fn written_by(deed: &Deed) -> (u64, Option<Value>) {
    match deed {
        Deed::Put { key, value } => (*key, Some(*value)),
        Deed::Rmw {
            key,
            change: Change::Set(value),
            ..
        } => (*key, Some(*value)),
        Deed::Rmw { key, .. } | Deed::Remove { key } => (*key, None),
        _ => (0, None),
    }
}

impl Play {
    /// Parts of a write; other rows are passed on.
    /// - `enters SEAT`; `draws SEAT TIME`.
    /// - `fills SEAT KEY VALUE`: all parts of the drawn cell but its link, which is filled with 0
    ///   by `fills-but PART SEAT KEY VALUE`, unless it is the part that is left out.
    /// - `links SEAT KEY TIME`, `inserts SEAT KEY TIME`.
    /// - `writes SEAT TIME DEED`: fills, links, inserts and decides.
    /// - `walks SEAT REGION` and cells, each its place, which is the cell plus 1, its key and its
    ///   state: the region's list has these and no more.
    pub(crate) fn call(&mut self, name: &str, mut line: Line) -> Result<(), Wrong> {
        match name {
            "enters" => self.enters(line.seat()?),
            "draws" => self.draws(line.seat()?, line.number()?),
            "fills" => self.fills(line.seat()?, line.number()?, &line.value()?, Part::Next),
            "fills-but" => {
                let part = line.part()?;
                self.fills(line.seat()?, line.number()?, &line.value()?, part)
            }
            "links" => self.links(line.seat()?, line.number()?, line.number()?),
            "inserts" => self.inserts(line.seat()?, line.number()?, line.number()?),
            "writes" => self.writes(record(self.alloc, line.left)?),
            "puts" => self.puts(record(self.alloc, line.left)?),
            "walks" => self.walks(line),
            name => self.batch(name, line),
        }
    }

    /// The head of the chain in which a write of the key at the time is linked.
    pub(crate) fn head_of(&self, time: Time, key: Key) -> Word {
        Word::Head {
            region: self.layout.region_of(self.layout.cell_of(time)),
            chain: key % self.layout.chains,
        }
    }

    fn puts(&mut self, call: CallRecord) -> Result<(), Wrong> {
        let seat = call.seat;
        self.enters_and_draws(seat, call.time)?;
        self.writes(call)?;
        self.does(seat, Step::LeaveShared)
    }

    fn enters_and_draws(&mut self, seat: u32, time: Time) -> Result<(), Wrong> {
        self.enters(seat)?;
        self.draws(seat, time)
    }

    fn enters(&mut self, seat: u32) -> Result<(), Wrong> {
        let holders = self.look(seat, Word::Lock)?;
        self.does(seat, Step::EnterShared(holders))
    }

    fn draws(&mut self, seat: u32, time: Time) -> Result<(), Wrong> {
        self.look(seat, Word::Limit)?;
        self.finds(seat, Word::Clock, time)?;
        self.does(seat, Step::Draw(time))
    }

    fn fills(
        &mut self,
        seat: u32,
        key: Key,
        value: &Option<Value>,
        left_out: Part,
    ) -> Result<(), Wrong> {
        let words = words_of(value);
        for place in 0..11 {
            let part = part_at(place);
            let word = match part {
                Part::Key => key,
                Part::Next => 0,
                _ => word_at(words, place),
            };
            if part != left_out {
                self.does(seat, Step::Fill(part, word))?;
            }
        }
        Ok(())
    }

    fn links(&mut self, seat: u32, key: Key, time: Time) -> Result<(), Wrong> {
        let first = self.look(seat, self.head_of(time, key))?;
        self.does(seat, Step::Fill(Part::Next, first))?;
        self.does(seat, Step::Link(first))
    }

    /// Fills, links and inserts.
    fn places(&mut self, seat: u32, time: Time, deed: &Deed) -> Result<(), Wrong> {
        let (key, value) = written_by(deed);
        self.fills(seat, key, &value, Part::Next)?;
        self.links(seat, key, time)?;
        self.inserts(seat, key, time)
    }

    pub(crate) fn writes(&mut self, call: CallRecord) -> Result<(), Wrong> {
        let CallRecord { seat, time, deed } = call;
        self.places(seat, time, &deed)?;
        self.does(seat, Step::Decide(time, deed))
    }

    /// Fills the link of the drawn cell, and puts it between the last place of the list before a
    /// cell of the key and the time, and the one behind that.
    fn inserts(&mut self, seat: u32, key: Key, time: Time) -> Result<(), Wrong> {
        let drawn = self.layout.cell_of(time);
        let region = self.layout.region_of(drawn);
        let mut place = 0;
        for _ in 0..=self.layout.cells {
            let next = self.look(seat, link_behind(region, place))?;
            let is_behind = match next.checked_sub(1) {
                Some(cell) => {
                    let part = Part::Key;
                    let found = self.look(seat, Word::Cell { cell, part })?;
                    found > key || (found == key && cell > drawn)
                }
                None => true,
            };
            if is_behind {
                self.does(seat, Step::FillOrder(next))?;
                return self.does(seat, Step::Insert(place, next));
            }
            place = next;
        }
        Err(Wrong::Endless)
    }

    fn walks(&mut self, mut line: Line) -> Result<(), Wrong> {
        let (seat, region) = (line.seat()?, line.number()?);
        let mut place = 0;
        for _ in 0..self.layout.cells {
            if line.left.is_empty() {
                break;
            }
            let next = line.number()?;
            self.finds(seat, link_behind(region, place), next)?;
            let cell = next.saturating_sub(1);
            let part = Part::Key;
            self.finds(seat, Word::Cell { cell, part }, line.number()?)?;
            self.finds(seat, Word::State(cell), line.number()?)?;
            place = next;
        }
        if !line.left.is_empty() {
            return Err(Wrong::Unread);
        }
        self.finds(seat, link_behind(region, place), 0)
    }
}
