//! The parts of writes.
use crate::deal::{is_batch, is_change};
use crate::made::{Made, Stop};
use crate::place::{Place, Setting, Stage};
use clsm_law::{EXCLUSIVE_HOLD, End, Layout, Part, Step, Word};
use clsm_model::{Deed, Key, Time, Value};

/// Fills the length and the words of the drawn cell.
fn fill_value(made: &mut Made, value: Option<&Value>) -> Result<(), Stop> {
    let words = match value {
        Some(value) => value.words(),
        None => &[],
    };
    made.step(Step::Fill(Part::Length, words.len() as u64))?;
    for (index, word) in words.iter().enumerate() {
        made.step(Step::Fill(Part::Value(index as u64), *word))?;
    }
    Ok(())
}

/// The head of the chain of the key and the time's region.
fn head_of(layout: &Layout, time: Time, key: Key) -> Word {
    let region = layout.region_of(layout.cell_of(time));
    let chain = key % layout.chains;
    Word::Head { region, chain }
}

impl Place {
    /// Takes the lock shared; where it is held exclusively, or another seat was first, it looks
    /// again. A batch takes it alone.
    pub(crate) fn enter(&self, made: &mut Made, setting: &Setting) -> Result<Place, Stop> {
        if is_batch(setting.deal) {
            return self.enter_alone(made, setting);
        }
        let holders = made.look(Word::Lock)?;
        if holders >= EXCLUSIVE_HOLD || !made.wins(Step::EnterShared(holders))? {
            return Err(Stop::Again);
        }
        let is_change = is_change(setting.deal);
        Ok(self.at(if is_change { Stage::Begin } else { Stage::Draw }))
    }

    /// Draws the time that the clock says, if it is below the limit; where another seat was first,
    /// it looks again.
    pub(crate) fn draw(&self, made: &mut Made, setting: &Setting) -> Result<Place, Stop> {
        let is_change = is_change(setting.deal);
        let limit = made.look(Word::Limit)?;
        let time = made.look(Word::Clock)?;
        if time >= limit {
            let stage = if is_change {
                Stage::Unpin
            } else {
                Stage::Leave
            };
            return Ok(self.at(stage));
        }
        if !made.wins(Step::Draw(time))? {
            return Err(Stop::Again);
        }
        let stage = if is_change { Stage::Front } else { Stage::Fill };
        let drawn = Some(time);
        Ok(Place {
            stage,
            drawn,
            ..*self
        })
    }

    /// Fills the drawn cell, but for its link. The cell of a batch's member is taken with its key.
    pub(crate) fn fill(&self, made: &mut Made, setting: &Setting) -> Result<Place, Stop> {
        let key = self.key_of(setting.deal);
        made.step(if is_batch(setting.deal) {
            Step::Stage(self.drawn.unwrap_or(0), key)
        } else {
            Step::Fill(Part::Key, key)
        })?;
        let value = self.value_of(setting.deal);
        fill_value(made, value.as_ref())?;
        Ok(self.at(Stage::Link))
    }

    /// Puts the drawn cell in front of its chain; where another was first, it looks again.
    pub(crate) fn link(&self, made: &mut Made, setting: &Setting) -> Result<Place, Stop> {
        let time = self.drawn.unwrap_or(0);
        let key = self.key_of(setting.deal);
        let head = made.look(head_of(setting.layout, time, key))?;
        made.step(Step::Fill(Part::Next, head))?;
        if !made.wins(Step::Link(head))? {
            return Err(Stop::Again);
        }
        Ok(self.at(Stage::Insert(0)))
    }

    /// Decides the drawn time. Where it was cancelled a change reads again, and another write draws
    /// again. No one cancels a time of a batch.
    pub(crate) fn decide(&self, made: &mut Made, setting: &Setting) -> Result<Place, Stop> {
        let is_change = is_change(setting.deal);
        let time = self.drawn.unwrap_or(0);
        let deed: Deed = self.deed_of(setting.deal);
        let is_won = made.wins(Step::Decide(time, deed))?;
        if is_batch(setting.deal) {
            return Ok(self.after_member(setting.deal));
        }
        Ok(match (is_change, is_won) {
            (true, true) => Place::new(Stage::Unpin),
            (true, false) => self.read_again(),
            (false, true) => Place::new(Stage::Leave),
            (false, false) => Place::new(Stage::Draw),
        })
    }

    /// Ends the read under a change with no record.
    pub(crate) fn unpin(&self, made: &mut Made) -> Result<Place, Stop> {
        made.step(Step::Unpin(End::Neither))?;
        Ok(Place::new(Stage::Leave))
    }

    pub(crate) fn leave(&self, made: &mut Made, setting: &Setting) -> Result<Place, Stop> {
        made.step(if is_batch(setting.deal) {
            Step::LeaveExclusive
        } else {
            Step::LeaveShared
        })?;
        Ok(self.at(Stage::Over))
    }

    pub(crate) fn close(&self, made: &mut Made) -> Result<Place, Stop> {
        made.step(Step::CloseSnapshot)?;
        Ok(self.at(Stage::Over))
    }
}
