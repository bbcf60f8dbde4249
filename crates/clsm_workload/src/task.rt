//! The task of a run's threads.
ghost use Rattle.std.specs.Prelude.{◌≡◌};

use crate::board::Board;
use crate::load::{Load, Shows};

/// What the threads of a run share: how much each worker does, what is shown of it, and the board
/// by which they tell one another how far they are.
#[derive(Drop)]
pub struct Task {
    pub load: Load,
    pub shows: Shows,
    pub board: Board,
}

impl Task {
    /// The task of a run that begins.
    pub fn new(load: Load, shows: Shows) -> Task
        ensures { result.load ≡ load }
    {
        Task {
            load,
            shows,
            board: Board::new(),
        }
    }
}
