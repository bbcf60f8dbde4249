//! The tests of batches with conditions: reads at the batch's own time, in its hold of the lock.
ghost use Rattle.std.specs.Prelude.{◌≡◌, ◌↔◌, ◌++◌, ◌∷◌, [], IfOk, IsTrue, OnOk, Some, false, is_some, true};
ghost use Rattle.clsm_planner.specs.Testing.{AreTested, IsMetBy, IsMissedBy, IsReadFor, conditions_of};

use crate::any_deal::Condition;
use crate::made::{Made, Stop};
use crate::place::{Place, Setting, Stage};
use crate::reading::value_below;
use crate::scanning::{Keys, rows_below};
use clsm_law::{End, Layout, Step};
use clsm_model::{Deed, Time, Value};
use std::alloc::{AllocError, Global};

/// What a test of a condition read: a get of its key, or a scan of its range, at this time.
#[derive(PartialEq, Eq, Hash, Drop)]
pub struct Reading {
    pub time: Time,
    pub deed: Deed,
}

impl Clone for Reading {
    ghost is_clone = { λ original copy. copy ≡ original };

    /// The same reading. Refused if memory runs out.
    fn clone(&self) -> Result<Reading, AllocError> {
        Ok(Reading {
            deed: self.deed.clone()?,
            ..*self
        })
    }
}

/// The place after a part, and what its tests read, if it is the one that tests.
#[derive(Drop)]
pub(crate) struct Played {
    pub(crate) place: Place,
    pub(crate) readings: Vec<Reading>,
}

impl Played {
    /// This place, after a part that tests nothing.
    pub(crate) fn of(alloc: Global, place: Place) -> Played
        ensures { result.readings.items ≡ [] }
    {
        let readings = Vec::new(alloc);
        Played { place, readings }
    }
}

/// What the tests of some conditions read, and whether all of these hold.
#[derive(Drop)]
struct Tested {
    readings: Vec<Reading>,
    are_met: bool,
}

/// Puts the reading behind the others.
fn note_read(readings: &mut Vec<Reading>, time: Time, deed: Deed) -> Result<(), AllocError>
    ensures { OnOk result (readings.new.items ≡ readings.old.items ++ (record { time = time; deed = deed }) ∷ []) }
{
    readings.push(Reading { time, deed })?;
    Ok(())
}

/// Whether the key has the value that is expected, or none.
fn is_expected(reply: &Option<Value>, expected: &Option<Value>) -> bool
    ensures { IsTrue result ↔ reply.now ≡ expected.now }
{
    reply == expected
}

/// Whether the condition holds, by this read of what it speaks of; none where the deed is no such
/// read.
pub fn found_by(condition: &Condition, deed: &Deed) -> Option<bool>
    ensures met { result ≡ Some true → IsMetBy condition.now deed.now }
    ensures missed { result ≡ Some false → IsMissedBy condition.now deed.now }
    ensures read { IsReadFor condition.now deed.now → IsTrue (is_some result) }
{
    match (condition, deed) {
        (Condition::Has(key, expected), Deed::Get { key: k, reply }) => {
            (k == key).then_some(is_expected(reply, expected))
        }
        (Condition::Counts { lo, hi, keys }, Deed::Scan { lo: l, hi: h, rows }) => {
            (l == lo && h == hi).then_some(rows.as_slice().len() as u64 == *keys)
        }
        _ => None,
    }
}

impl Place {
    /// The read of what the condition speaks of.
    fn read_for(
        &self,
        made: &mut Made,
        alloc: Global,
        layout: &Layout,
        condition: &Condition,
    ) -> Result<Deed, Stop>
        ensures { IfOk result (IsReadFor condition.now) }
    {
        match *condition {
            Condition::Has(key, _) => {
                let reply = value_below(made, layout, self.component, self.time, key)?;
                Ok(Deed::Get { key, reply })
            }
            Condition::Counts { lo, hi, .. } => {
                let rows = rows_below(made, alloc, layout, self, &Keys { lo, hi })?;
                Ok(Deed::Scan { lo, hi, rows })
            }
        }
    }

    /// Tests the conditions in turn, up to the first that does not hold.
    fn test_all(
        &self,
        made: &mut Made,
        alloc: Global,
        layout: &Layout,
        conditions: &[Condition],
    ) -> Result<Tested, Stop>
        ensures { IfOk result (λ tested. AreTested self.now.time conditions.now tested.readings.items) }
    {
        let mut readings = Vec::new(alloc);
        for condition in conditions {
            let time = self.time;
            let deed = self.read_for(made, alloc, layout, condition)?;
            let is_met = match found_by(condition, &deed) {
                Some(is_met) => is_met,
                None => unreachable!(),
            };
            note_read(&mut readings, time, deed)?;
            if !is_met {
                let are_met = false;
                return Ok(Tested { readings, are_met });
            }
        }
        let are_met = true;
        Ok(Tested { readings, are_met })
    }

    /// Tests the conditions of the batch, and ends the read: with a meeting, unless the batch is
    /// written. It is written if all conditions hold and its times are below the limit.
    pub(crate) fn test(
        &self,
        made: &mut Made,
        alloc: Global,
        setting: &Setting,
    ) -> Result<Played, Stop>
        ensures { IfOk result (λ played. AreTested self.now.time (conditions_of setting.now.deal.now) played.readings.items) }
    {
        let members = setting.deal.members();
        let conditions = setting.deal.conditions();
        let Tested { readings, are_met } = self.test_all(made, alloc, setting.layout, conditions)?;
        let is_passed = are_met && !members.is_empty();
        made.step(Step::Unpin(if is_passed {
            End::Neither
        } else {
            End::Meeting
        }))?;
        let is_written = is_passed && self.has_room(members.len() as u64);
        let place = self.after_tests(is_written);
        Ok(Played { place, readings })
    }

    /// Whether so many times from the batch's own on are below the limit.
    fn has_room(&self, count: u64) -> bool {
        self.time.saturating_add(count) <= self.limit
    }

    /// Behind the tests the first member is filled, or the lock left.
    fn after_tests(&self, is_written: bool) -> Place {
        if !is_written {
            return Place::new(Stage::Leave);
        }
        let time = self.time;
        let drawn = Some(time);
        Place {
            time,
            drawn,
            ..Place::new(Stage::Fill)
        }
    }
}
