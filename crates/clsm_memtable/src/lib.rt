//! The writes of the component in memory: times are drawn, their cells filled, entered and decided
//! by those who write, and settled by those who read. The crate clsm_search below searches it.
#![tactic(auto)]

mod cell_state;
mod chain;
mod clock;
mod entering;
mod filling;
mod foreseeing;
mod inserting;
mod settling;
mod staging;

pub use cell_state::{Decided, decide, give_up};
pub use clock::{DrawError, Room, draw, look_room};
pub use entering::{EntryState, look_ahead, prefetch};
pub use filling::fill;
pub use foreseeing::Lookahead;
pub use inserting::{DrawnCell, Placement, Start, look_back};
pub use settling::settle_below;
pub use staging::{commit, decide_member, stage};
