//! The parts of a read, as their steps, with a search for a key.
use crate::schedules::line::{Line, record};
use crate::schedules::play::{Play, Wrong};
use crate::schedules::writes::{part_at, word_at, words_of};
use clsm_law::level_one_place;
use clsm_levels::level_zero_runs;
use clsm_machine::{End, Part, Step, Word};
use clsm_model::{CallRecord, Deed, Key, Time, Value};

impl Play {
    /// Parts of a read; other rows are passed on.
    /// - `pins SEAT COMPONENT`: pins, and holds this component.
    /// - `settles SEAT COMPONENT TIME`: under the component looks at the clock, which is the time,
    ///   and decides each time below it.
    /// - `searches SEAT COMPONENT TIME KEY VALUE`: a search in the component for the key finds this
    ///   below the time.
    /// - `reads COMPONENT SEAT TIME DEED`: a get, a get at the open snapshot, or a snapshot under
    ///   the component, from its beginning to its end.
    pub(crate) fn read(&mut self, name: &str, mut line: Line) -> Result<(), Wrong> {
        match name {
            "pins" => self.pins(line.seat()?, line.number()?),
            "settles" => self.settles(line.seat()?, line.number()?, line.number()?),
            "searches" => {
                let (seat, component, time) = (line.seat()?, line.number()?, line.number()?);
                let (key, value) = (line.number()?, line.value()?);
                self.searches(seat, component, time, key, &value)
            }
            "reads" => {
                let component = line.number()?;
                self.reads(component, record(self.alloc, line.left)?)
            }
            name => self.merge(name, line),
        }
    }

    /// Pins the component, and reads as the call does.
    fn pins_and_reads(&mut self, component: u64, call: &CallRecord) -> Result<(), Wrong> {
        let (seat, time) = (call.seat, call.time);
        self.pins(seat, component)?;
        match &call.deed {
            Deed::Get { key, reply } => {
                self.settles(seat, component, time)?;
                self.searches(seat, component, time, *key, reply)
            }
            Deed::GetAt { key, reply } => self.searches(seat, component, time, *key, reply),
            _ => {
                self.finds(seat, Word::Clock, time)?;
                self.does(seat, Step::Note(time))?;
                self.settles(seat, component, time)
            }
        }
    }

    fn reads(&mut self, component: u64, call: CallRecord) -> Result<(), Wrong> {
        self.pins_and_reads(component, &call)?;
        let CallRecord { seat, time, deed } = call;
        self.does(seat, Step::Unpin(End::Recorded(deed)))?;
        match self.world.calls(seat).last() {
            Some(call) if call.time == time => Ok(()),
            _ => Err(Wrong::Other),
        }
    }

    fn pins(&mut self, seat: u32, component: u64) -> Result<(), Wrong> {
        self.does(seat, Step::Pin)?;
        self.finds(seat, Word::Merged, component)
    }

    fn settles(&mut self, seat: u32, component: u64, time: Time) -> Result<(), Wrong> {
        self.finds(seat, Word::Clock, time)?;
        let front = self.look(seat, Word::Front)?;
        let first = component.saturating_mul(self.layout.cells);
        for pending in front.max(first)..time {
            let cell = self.layout.cell_of(pending);
            if self.look(seat, Word::State(cell))? == 0 {
                self.does(seat, Step::Cancel(pending))?;
            }
        }
        self.does(seat, Step::RaiseFront(time))
    }

    fn searches(
        &mut self,
        seat: u32,
        component: u64,
        time: Time,
        key: Key,
        value: &Option<Value>,
    ) -> Result<(), Wrong> {
        for epoch in [component.saturating_add(1), component] {
            let first = epoch.saturating_mul(self.layout.cells);
            if first < time
                && let Some(written) = self.in_chain(seat, first, key, time)?
            {
                let cell = self.layout.cell_of(written);
                let state = if value.is_none() { 3 } else { 2 };
                self.finds(seat, Word::State(cell), state)?;
                return self.spells(seat, None, cell, value);
            }
        }
        let runs = level_zero_runs(component);
        for number in 0..=runs {
            let place = match runs.checked_sub(number + 1) {
                Some(place) => place,
                None => level_one_place(component),
            };
            if let Some((entry, stamp)) = self.in_place(seat, place, key, time)? {
                if (stamp % 2 == 1) != value.is_none() {
                    return Err(Wrong::Value(stamp));
                }
                return self.spells(seat, Some(place), entry, value);
            }
        }
        match value {
            Some(_) => Err(Wrong::NotFound),
            None => Ok(()),
        }
    }

    /// The length and the words of the value stand in the cell, or in the entry of the place.
    fn spells(
        &mut self,
        seat: u32,
        place: Option<u64>,
        number: u64,
        value: &Option<Value>,
    ) -> Result<(), Wrong> {
        let words = words_of(value);
        for at in 0..=words.len() as u64 {
            let word = match place {
                Some(place) => Word::Entry {
                    place,
                    entry: number,
                    part: at.saturating_add(2),
                },
                None => Word::Cell {
                    cell: number,
                    part: part_at(at),
                },
            };
            self.finds(seat, word, word_at(words, at))?;
        }
        Ok(())
    }

    /// The newest write of the key below the time in the chain of the epoch that begins at the
    /// first time.
    fn in_chain(
        &mut self,
        seat: u32,
        first: Time,
        key: Key,
        time: Time,
    ) -> Result<Option<Time>, Wrong> {
        let mut newest = None;
        let mut link = self.look(seat, self.head_of(first, key))?;
        for _ in 0..self.layout.cells {
            let Some(cell) = link.checked_sub(1) else {
                return Ok(newest);
            };
            let written = first.saturating_add(cell % self.layout.cells);
            let is_newer = newest.is_none_or(|newer: Time| newer < written);
            let part = Part::Key;
            if is_newer
                && written < time
                && self.look(seat, Word::Cell { cell, part })? == key
                && self.look(seat, Word::State(cell))? > 1
            {
                newest = Some(written);
            }
            let part = Part::Next;
            link = self.look(seat, Word::Cell { cell, part })?;
        }
        if link == 0 {
            Ok(newest)
        } else {
            Err(Wrong::Endless)
        }
    }

    /// The newest entry of the key in the place below the time, and the word of its time.
    fn in_place(
        &mut self,
        seat: u32,
        place: u64,
        key: Key,
        time: Time,
    ) -> Result<Option<(u64, u64)>, Wrong> {
        for entry in 0..self.look(seat, Word::Count(place))? {
            let part = 0;
            let found = self.look(seat, Word::Entry { place, entry, part })?;
            let part = 1;
            let stamp = self.look(seat, Word::Entry { place, entry, part })?;
            if found == key && stamp / 2 < time {
                return Ok(Some((entry, stamp)));
            }
        }
        Ok(None)
    }
}
