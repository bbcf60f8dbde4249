//! The order in which the parts of calls are planned, and why no next step is told.
use crate::merger::MergeStage;
use crate::place::Place;

/// Why a next step cannot be told.
#[derive(Clone, Copy, PartialEq, Eq, Debug)]
pub enum PlanError {
    /// Not all calls are played, and no step comes next, or one that is none of its part.
    Stuck,
    /// Memory ran out.
    Memory,
}

/// What chooses the parts of calls: the calls' own order, or a wrong one.
pub trait Planner {
    /// The place that a caller goes on from, where its call would go on from this one.
    fn caller(&self, place: Place) -> Place;

    /// The same of the merger.
    fn merger(&self, stage: MergeStage) -> MergeStage;
}

/// The calls' own order.
pub struct AsCalled;

impl Planner for AsCalled {
    fn caller(&self, place: Place) -> Place {
        place
    }

    fn merger(&self, stage: MergeStage) -> MergeStage {
        stage
    }
}
