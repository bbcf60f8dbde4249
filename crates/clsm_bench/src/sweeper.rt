//! The merger of a store, kept in place between its turns.
use clsm_store::Merger;
use clsm_words::Free;
use std::sync::Wait;

/// A command of the merger.
#[derive(Clone, Copy)]
pub enum Command {
    /// Freezes the epoch, merges it and gives up what that retired.
    Sweep,
    Freeze,
    /// Merges what is frozen.
    Merge,
    /// Gives up what a merge retired.
    Reclaim,
}

/// A merger that is moved out for a turn, and put back behind it.
#[derive(Drop)]
pub struct Sweeper<'a> {
    merger: Option<Merger<'a, Free>>,
}

impl<'a> Sweeper<'a> {
    pub fn new(merger: Merger<'a, Free>) -> Sweeper<'a> {
        Sweeper {
            merger: Some(merger),
        }
    }

    /// Does the command. Answers whether all of it was done.
    pub fn run<R: Wait>(&mut self, rt: &R, command: Command) -> bool {
        let Some(merger) = self.merger.take() else {
            return false;
        };
        let (merger, is_done) = match command {
            Command::Sweep => ended(merger.sweep(rt)),
            Command::Freeze => ended(merger.freeze(rt)),
            Command::Merge => ended(merger.merge()),
            Command::Reclaim => ended(merger.reclaim()),
        };
        self.merger = Some(merger);
        is_done
    }
}

/// The merger behind a command, and whether it was done.
fn ended<'a, T: Drop, E: Drop>(
    answer: (Merger<'a, Free>, Result<T, E>),
) -> (Merger<'a, Free>, bool) {
    let (merger, done) = answer;
    (merger, done.is_ok())
}
