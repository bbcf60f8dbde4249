//! The parts of batches.
use crate::any_deal::AnyDeal;
use crate::deal::is_batch_if;
use crate::made::{Made, Stop};
use crate::place::{Place, Setting, Stage};
use clsm_law::{Step, Word};
use clsm_model::{Change, Members};
use std::alloc::{AllocError, Global};

/// The members of the call; none where it is no batch.
fn members_of(alloc: Global, deal: &AnyDeal) -> Result<Members, AllocError> {
    let mut items = Vec::new(alloc);
    for member in deal.members() {
        items.push(*member)?;
    }
    Ok(Members::new(items))
}

impl Place {
    /// Takes the lock alone; where it is held, it tries again. A batch with conditions begins a
    /// read then.
    pub(crate) fn enter_alone(&self, made: &mut Made, setting: &Setting) -> Result<Place, Stop> {
        if !made.wins(Step::EnterExclusive)? {
            return Err(Stop::Again);
        }
        Ok(self.at(if is_batch_if(setting.deal) {
            Stage::Begin
        } else {
            Stage::Times
        }))
    }

    /// Finds the times of the batch, if each of them is below the limit. One with conditions is
    /// tested at the first of them before.
    pub(crate) fn times(&self, made: &mut Made, setting: &Setting) -> Result<Place, Stop> {
        let limit = made.look(Word::Limit)?;
        let time = made.look(Word::Clock)?;
        if is_batch_if(setting.deal) {
            let stage = Stage::Front;
            return Ok(Place {
                stage,
                time,
                limit,
                ..*self
            });
        }
        if time.saturating_add(setting.deal.members().len() as u64) > limit {
            return Ok(self.at(Stage::Leave));
        }
        let stage = Stage::Fill;
        let drawn = Some(time);
        Ok(Place {
            stage,
            time,
            drawn,
            ..*self
        })
    }

    /// The member of the batch that is written, if the call is one.
    pub(crate) fn member(&self, deal: &AnyDeal) -> Option<(u64, Change)> {
        let number = self.drawn?.checked_sub(self.time)?;
        deal.members().get(number as usize).copied()
    }

    /// Behind a member that is decided the next one is filled, or the batch committed.
    pub(crate) fn after_member(&self, deal: &AnyDeal) -> Place {
        let next = self.drawn.unwrap_or(0).saturating_add(1);
        if next >= self.time.saturating_add(deal.members().len() as u64) {
            return self.at(Stage::Commit);
        }
        let stage = Stage::Fill;
        let drawn = Some(next);
        Place {
            stage,
            drawn,
            ..*self
        }
    }

    pub(crate) fn commit(
        &self,
        made: &mut Made,
        alloc: Global,
        setting: &Setting,
    ) -> Result<Place, Stop> {
        made.step(Step::Commit(members_of(alloc, setting.deal)?))?;
        Ok(Place::new(Stage::Leave))
    }
}
