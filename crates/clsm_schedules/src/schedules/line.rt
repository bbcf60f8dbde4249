//! What the words of a row say.
use crate::schedules::play::Wrong;
use clsm_machine::{End, Part, Step, Word};
use clsm_model::{CallRecord, Deed, Value};
use clsm_text::{LineError, parse_number, parse_record, parse_value};
use std::alloc::Global;

/// What is left of a row.
#[derive(Clone, Copy)]
pub(crate) struct Line<'a> {
    pub(crate) left: &'a str,
}

/// The record that the text says.
pub(crate) fn record(alloc: Global, text: &str) -> Result<CallRecord, Wrong> {
    match parse_record(alloc, text.as_bytes()) {
        Ok(Some(record)) => Ok(record),
        Err(LineError::Memory) => Err(Wrong::Memory),
        _ => Err(Wrong::Unread),
    }
}

impl<'a> Line<'a> {
    /// The next word; it has no letters where there is none.
    pub(crate) fn word(&mut self) -> &'a str {
        let (word, left) = self.left.split_once(' ').unwrap_or((self.left, ""));
        self.left = left;
        word
    }

    pub(crate) fn number(&mut self) -> Result<u64, Wrong> {
        parse_number(self.word()).ok_or(Wrong::Unread)
    }

    pub(crate) fn seat(&mut self) -> Result<u32, Wrong> {
        match self.word().parse() {
            Ok(seat) => Ok(seat),
            Err(_) => Err(Wrong::Unread),
        }
    }

    pub(crate) fn value(&mut self) -> Result<Option<Value>, Wrong> {
        let word = self.word();
        if word == "none" {
            return Ok(None);
        }
        match parse_value(word) {
            Some(value) => Ok(Some(value)),
            None => Err(Wrong::Unread),
        }
    }

    pub(crate) fn part(&mut self) -> Result<Part, Wrong> {
        match self.word() {
            "key" => Ok(Part::Key),
            "length" => Ok(Part::Length),
            "value" => Ok(Part::Value(self.number()?)),
            "next" => Ok(Part::Next),
            _ => Err(Wrong::Unread),
        }
    }

    /// A word of the machine: its name, and its numbers.
    pub(crate) fn place(&mut self) -> Result<Word, Wrong> {
        match self.word() {
            "lock" => Ok(Word::Lock),
            "clock" => Ok(Word::Clock),
            "limit" => Ok(Word::Limit),
            "front" => Ok(Word::Front),
            "merged" => Ok(Word::Merged),
            "pin" => Ok(Word::Pin(self.number()?)),
            "snap" => Ok(Word::Snap(self.number()?)),
            "head" => Ok(Word::Head {
                region: self.number()?,
                chain: self.number()?,
            }),
            "cell" => Ok(Word::Cell {
                cell: self.number()?,
                part: self.part()?,
            }),
            "order" => Ok(Word::Order(self.number()?)),
            "hint" => Ok(Word::Hint {
                cell: self.number()?,
                hint: self.number()?,
            }),
            "state" => Ok(Word::State(self.number()?)),
            "count" => Ok(Word::Count(self.number()?)),
            "entry" => Ok(Word::Entry {
                place: self.number()?,
                entry: self.number()?,
                part: self.number()?,
            }),
            _ => Err(Wrong::Unread),
        }
    }

    /// A step: its name, and what belongs to it.
    pub(crate) fn step(&mut self, alloc: Global) -> Result<Step, Wrong> {
        match self.word() {
            "enter-shared" => Ok(Step::EnterShared(self.number()?)),
            "leave-shared" => Ok(Step::LeaveShared),
            "draw" => Ok(Step::Draw(self.number()?)),
            "fill" => Ok(Step::Fill(self.part()?, self.number()?)),
            "link" => Ok(Step::Link(self.number()?)),
            "fill-order" => Ok(Step::FillOrder(self.number()?)),
            "insert" => Ok(Step::Insert(self.number()?, self.number()?)),
            "store-hint" => Ok(Step::StoreHint {
                cell: self.number()?,
                hint: self.number()?,
                word: self.number()?,
            }),
            "cancel" => Ok(Step::Cancel(self.number()?)),
            "stage" => Ok(Step::Stage(self.number()?, self.number()?)),
            "pin" => Ok(Step::Pin),
            "unpin" => Ok(Step::Unpin(End::Neither)),
            "meet" => Ok(Step::Unpin(End::Meeting)),
            "look" => Ok(Step::Look(self.place()?)),
            "raise-front" => Ok(Step::RaiseFront(self.number()?)),
            "note" => Ok(Step::Note(self.number()?)),
            "close-snapshot" => Ok(Step::CloseSnapshot),
            name => self.step_with_deed(alloc, name),
        }
    }

    /// A step with this name, and the deed that it ends.
    fn step_with_deed(&mut self, alloc: Global, name: &str) -> Result<Step, Wrong> {
        match name {
            "decide" => {
                let decided = self.said(alloc, "0")?;
                Ok(Step::Decide(decided.time, decided.deed))
            }
            "record" => {
                let recorded = self.said(alloc, "0 0")?;
                Ok(Step::Unpin(End::Recorded(recorded.deed)))
            }
            "commit" => match self.said(alloc, "0 0 batch")?.deed {
                Deed::Batch { members } => Ok(Step::Commit(members)),
                _ => Err(Wrong::Unread),
            },
            name => self.step_of_merger(name),
        }
    }

    /// The record that is left behind its beginning.
    fn said(&self, alloc: Global, beginning: &str) -> Result<CallRecord, Wrong> {
        match format!(in alloc; "{beginning} {}", self.left) {
            Ok(text) => record(alloc, &text),
            Err(_) => Err(Wrong::Memory),
        }
    }

    /// A step with this name at the lock that is held alone, or of the merger.
    fn step_of_merger(&mut self, name: &str) -> Result<Step, Wrong> {
        match name {
            "enter-exclusive" => Ok(Step::EnterExclusive),
            "leave-exclusive" => Ok(Step::LeaveExclusive),
            "pad" => Ok(Step::Pad(self.number()?)),
            "write-run" => Ok(Step::WriteRun(self.place()?, self.number()?)),
            "clear-head" => Ok(Step::ClearHead {
                region: self.number()?,
                chain: self.number()?,
            }),
            "clear-state" => Ok(Step::ClearState(self.number()?)),
            "clear-order" => Ok(Step::ClearOrder(self.number()?)),
            "publish" => Ok(Step::Publish),
            "extend-clock" => Ok(Step::ExtendClock),
            "extend-limit" => Ok(Step::ExtendLimit),
            _ => Err(Wrong::Unread),
        }
    }
}
