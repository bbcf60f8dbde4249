//! The pure machine: all words and all views as plain data, each atomic step one event, and one law
//! that every step keeps.
#![tactic(auto)]

mod machine;
mod world;

pub use clsm_law::{
    Answer, End, Event, Items, Layout, MergerView, Mode, Part, Phase, Reader, Round, SnapshotState,
    Step, StepError, View, Word,
};
pub use world::{World, run};
