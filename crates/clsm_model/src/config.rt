//! The sizes of a store, their ranges, and why a store is not opened.
ghost use Rattle.std.specs.Prelude.{◌≡◌};
ghost use Rattle.clsm_model.specs.Config.{number_of, IsChecked};

use thiserror::Error;

/// The sizes of a store.
#[derive(Clone, Copy, PartialEq, Eq, Debug)]
pub struct Config {
    /// The cells of one region, 4 to 65,536: as many writes fit between two freezes.
    pub cells: usize,
    /// The callers' seats, 1 to 64.
    pub seats: usize,
    /// The least number of hash chains of one region, 1 to 1,024; there are about as many as cells.
    pub shards: usize,
    /// The entries that a place of level 1 has room for, 4 to 4,194,304.
    pub run: usize,
    /// How often a reader looks again at an undecided write before it cancels it, 0 to 64.
    pub patience: usize,
}

/// Why a store is not opened: the first size that is out of its range, as it was given, or memory.
/// Nothing is kept after a refusal.
#[derive(Clone, Copy, PartialEq, Eq, Debug, Error)]
pub enum OpenError {
    #[error("cells: {0} is not in 4 to 65536")]
    Cells(usize),
    #[error("seats: {0} is not in 1 to 64")]
    Seats(usize),
    #[error("shards: {0} is not in 1 to 1024")]
    Shards(usize),
    #[error("run: {0} is not in 4 to 4194304")]
    Run(usize),
    #[error("memory ran out")]
    Memory,
    #[error("patience: {0} is not in 0 to 64")]
    Patience(usize),
}

impl OpenError {
    /// The number of the refusal, as the program prints it: 1 to 5, and 9 for the patience.
    pub fn number(self) -> u8
        ensures { result ≡ number_of self }
    {
        match self {
            OpenError::Cells(_) => 1,
            OpenError::Seats(_) => 2,
            OpenError::Shards(_) => 3,
            OpenError::Run(_) => 4,
            OpenError::Memory => 5,
            OpenError::Patience(_) => 9,
        }
    }
}

impl Config {
    /// Tests the sizes. Refused with the first one out of its range, in the order cells, seats,
    /// shards, run, patience, and never with `Memory`.
    pub fn check(&self) -> Result<(), OpenError>
        ensures { IsChecked self.now result }
    {
        if self.cells < 4 || self.cells > 65_536 {
            return Err(OpenError::Cells(self.cells));
        }
        if self.seats < 1 || self.seats > 64 {
            return Err(OpenError::Seats(self.seats));
        }
        if self.shards < 1 || self.shards > 1_024 {
            return Err(OpenError::Shards(self.shards));
        }
        if self.run < 4 || self.run > 4_194_304 {
            return Err(OpenError::Run(self.run));
        }
        if self.patience > 64 {
            return Err(OpenError::Patience(self.patience));
        }
        Ok(())
    }
}
