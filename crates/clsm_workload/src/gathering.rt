//! The records of all workers as one list.
ghost use Rattle.std.specs.Prelude.{◌≡◌, ◌∷◌, [], ◌++◌, All, IfOk, IsOk, OnOk, flat_map, map};

use crate::watch::Note;
use crate::worker::{Made, Worked};
use clsm_model::{CallRecord, Memory};
use clsm_store::Seat;
use std::alloc::{AllocError, Global};

/// What all workers gave back.
#[derive(Drop)]
pub struct Gathered {
    pub seats: Vec<Seat>,
    pub records: Vec<CallRecord>,
    pub notes: Vec<Note>,
}

/// What all workers gave back: their seats in their order, and all records in the same order.
/// Refused if memory runs out.
pub fn gather(alloc: Global, worked: Vec<Worked>) -> Result<Gathered, Memory>
    ensures seats { IfOk result (λ all. all.seats.items ≡ map (λ w. w.seat) worked.items) }
    ensures records { IfOk result (λ all. all.records.items ≡ flat_map (λ w. w.made.records.items) worked.items) }
    ensures ended { OnOk result (All (λ w. IsOk w.made.ended) worked.items) }
{
    let mut all = Gathered {
        seats: Vec::new(alloc),
        records: Vec::new(alloc),
        notes: Vec::new(alloc),
    };
    for one in worked {
        one.made.ended?;
        all.take(one)?;
    }
    Ok(all)
}

impl Gathered {
    /// Takes in what one worker gave back. Refused if memory runs out.
    fn take(&mut self, one: Worked) -> Result<(), AllocError>
        ensures seats { OnOk result (self.new.seats.items ≡ self.old.seats.items ++ one.seat ∷ []) }
        ensures records { OnOk result (self.new.records.items ≡ self.old.records.items ++ one.made.records.items) }
    {
        let Worked { seat, made } = one;
        let Made {
            mut records,
            mut notes,
            ..
        } = made;
        self.records.append(&mut records)?;
        self.notes.append(&mut notes)?;
        self.seats.push(seat)?;
        Ok(())
    }
}
