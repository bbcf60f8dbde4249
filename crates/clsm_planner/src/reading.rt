//! The parts of reads.
use crate::any_deal::AnyDeal;
use crate::cells::{Span, is_written_in, newest, settle, value_at};
use crate::deal::{is_batch_if, is_change, key_of};
use crate::made::{Made, Stop};
use crate::place::{Place, Setting, Stage};
use crate::runs::search;
use crate::scanning::{Keys, rows_below};
use clsm_law::{End, Layout, Step, Word};
use clsm_model::{Change, Deal, Deed, Key, Time, Value, added, put_if_absent};
use std::alloc::Global;

/// The value of the key below the time: by the cells of the component's epochs, and else by its
/// runs.
pub(crate) fn value_below(
    made: &mut Made,
    layout: &Layout,
    component: u64,
    time: Time,
    key: Key,
) -> Result<Option<Value>, Stop> {
    if let Some(written) = newest(made, layout, component, time, key)? {
        return value_at(made, layout, written);
    }
    match search(made, component, key, key, time)? {
        Some(entry) => Ok(entry.value),
        None => Ok(None),
    }
}

/// What the call makes of the old value.
fn change_of(deal: &AnyDeal, old: Option<&Value>) -> Change {
    match deal {
        AnyDeal::Plain(Deal::Claim { value, .. }) => put_if_absent(old.copied(), *value),
        AnyDeal::Plain(Deal::Add { by, .. }) => added(old.copied(), *by),
        _ => Change::Keep,
    }
}

/// The deed of a read of one key that found this.
fn read_of(deal: &AnyDeal, reply: Option<Value>) -> Deed {
    let key = key_of(deal);
    match deal {
        AnyDeal::Plain(Deal::GetAt { .. }) => Deed::GetAt { key, reply },
        _ => Deed::Get { key, reply },
    }
}

/// Ends the read with the record of this deed.
fn record(made: &mut Made, deed: Deed) -> Result<(), Stop> {
    made.step(Step::Unpin(End::Recorded(deed)))?;
    Ok(())
}

impl Place {
    /// Pins and holds a component.
    pub(crate) fn begin(&self, made: &mut Made, setting: &Setting) -> Result<Place, Stop> {
        made.step(Step::Pin)?;
        let component = made.look(Word::Merged)?;
        let (stage, time) = match (setting.deal, setting.snapshot) {
            (AnyDeal::Plain(Deal::GetAt { .. } | Deal::Scan { .. }), Some(time)) => {
                (Stage::Answer, time)
            }
            (AnyDeal::Plain(Deal::Snap), _) => (Stage::Note, 0),
            (AnyDeal::BatchIf { .. }, _) => (Stage::Times, 0),
            _ => (Stage::ReadClock, 0),
        };
        Ok(Place {
            stage,
            component,
            time,
            ..*self
        })
    }

    /// Looks at the clock and notes it.
    pub(crate) fn note(&self, made: &mut Made) -> Result<Place, Stop> {
        let time = made.look(Word::Clock)?;
        made.step(Step::Note(time))?;
        let stage = Stage::ReadClock;
        Ok(Place {
            stage,
            time,
            ..*self
        })
    }

    pub(crate) fn read_clock(&self, made: &mut Made) -> Result<Place, Stop> {
        let time = made.look(Word::Clock)?;
        let stage = Stage::Front;
        Ok(Place {
            stage,
            time,
            ..*self
        })
    }

    /// Looks at FRONT: each time below it, or below the component, is decided.
    pub(crate) fn front(&self, made: &mut Made, layout: &Layout) -> Result<Place, Stop> {
        let front = made.look(Word::Front)?;
        let merged = self.component.saturating_mul(layout.cells);
        Ok(self.at(Stage::Settle(front.max(merged))))
    }

    /// Settles one time, or raises FRONT where each is settled below the drawn time, or the
    /// read's. A change whose time is drawn then looks for a write of its key since its read, and
    /// begins the read again where there is one.
    pub(crate) fn settle(
        &self,
        made: &mut Made,
        setting: &Setting,
        time: Time,
    ) -> Result<Place, Stop> {
        let until = self.drawn.unwrap_or(self.time);
        if time < until {
            settle(made, setting.layout, time)?;
            return Ok(self.at(Stage::Settle(time + 1)));
        }
        made.step(Step::RaiseFront(until))?;
        match self.drawn {
            None if is_batch_if(setting.deal) => Ok(self.at(Stage::Test)),
            None => Ok(self.at(Stage::Answer)),
            Some(drawn) => self.compare(made, setting, drawn),
        }
    }

    fn compare(&self, made: &mut Made, setting: &Setting, drawn: Time) -> Result<Place, Stop> {
        let span = Span {
            component: self.component,
            key: key_of(setting.deal),
            from: self.time,
            until: drawn,
        };
        if !is_written_in(made, setting.layout, &span)? {
            return Ok(self.at(Stage::Fill));
        }
        made.step(Step::Cancel(drawn))?;
        Ok(self.read_again())
    }

    /// The read of the change begins again, with the look at the clock.
    pub(crate) fn read_again(&self) -> Place {
        let component = self.component;
        Place {
            component,
            ..Place::new(Stage::ReadClock)
        }
    }

    /// Finds the answer, and ends the read with it.
    pub(crate) fn answer(
        &self,
        made: &mut Made,
        alloc: Global,
        setting: &Setting,
    ) -> Result<Place, Stop> {
        match setting.deal {
            AnyDeal::Plain(Deal::Snap) => record(made, Deed::Snapshot)?,
            AnyDeal::Plain(Deal::Scan { lo, hi }) => {
                let (lo, hi) = (*lo, *hi);
                let rows = rows_below(made, alloc, setting.layout, self, &Keys { lo, hi })?;
                record(made, Deed::Scan { lo, hi, rows })?;
            }
            _ => return self.answer_key(made, setting),
        }
        Ok(self.at(Stage::Over))
    }

    /// The same, of a call about one key.
    fn answer_key(&self, made: &mut Made, setting: &Setting) -> Result<Place, Stop> {
        let key = key_of(setting.deal);
        let reply = value_below(made, setting.layout, self.component, self.time, key)?;
        if is_change(setting.deal) {
            return self.change(made, setting.deal, reply);
        }
        record(made, read_of(setting.deal, reply))?;
        Ok(self.at(Stage::Over))
    }

    /// A change that keeps what it read ends its read with the record; another goes on to draw.
    fn change(&self, made: &mut Made, deal: &AnyDeal, old: Option<Value>) -> Result<Place, Stop> {
        let key = key_of(deal);
        if change_of(deal, old.as_ref()) == Change::Keep {
            let change = Change::Keep;
            record(made, Deed::Rmw { key, old, change })?;
            return Ok(Place::new(Stage::Leave));
        }
        let stage = Stage::Draw;
        Ok(Place {
            stage,
            old,
            ..*self
        })
    }

    /// The key that the call is about, or the member of a batch that is written.
    pub(crate) fn key_of(&self, deal: &AnyDeal) -> u64 {
        match self.member(deal) {
            Some((key, _)) => key,
            None => key_of(deal),
        }
    }

    /// What is written, as a record of one write says it.
    pub(crate) fn deed_of(&self, deal: &AnyDeal) -> Deed {
        let key = self.key_of(deal);
        if is_change(deal) {
            let change = change_of(deal, self.old.as_ref());
            let old = self.old;
            return Deed::Rmw { key, old, change };
        }
        match self.value_of(deal) {
            Some(value) => Deed::Put { key, value },
            None => Deed::Remove { key },
        }
    }

    /// The value that is written; none where it is a removal.
    pub(crate) fn value_of(&self, deal: &AnyDeal) -> Option<Value> {
        let change = match deal {
            AnyDeal::Plain(Deal::Put { value, .. }) => Change::Set(*value),
            AnyDeal::Plain(Deal::Add { .. } | Deal::Claim { .. }) => {
                change_of(deal, self.old.as_ref())
            }
            _ => self.member(deal).map_or(Change::Remove, |member| member.1),
        };
        match change {
            Change::Set(value) => Some(value),
            _ => None,
        }
    }
}
