//! The calls of seats and of the merger as steps of the pure machine: which step comes next, by
//! what those before it found.
#![tactic(auto)]

mod any_deal;
mod batching;
mod caller;
mod cells;
mod deal;
mod inserting;
mod made;
mod merger;
mod place;
mod planned;
mod planner;
mod reading;
mod runs;
mod scanning;
mod testing;
mod writing;

pub use any_deal::{AnyDeal, Condition};
pub use caller::Caller;
pub use deal::is_passed_over;
pub use inserting::link_behind;
pub use merger::{MergeStage, Merging};
pub use place::{Place, Stage};
pub use planner::{AsCalled, PlanError, Planner};
pub use testing::{Reading, found_by};
