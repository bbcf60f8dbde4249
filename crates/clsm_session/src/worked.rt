//! What the callers of a session give back.
ghost use Rattle.std.specs.Prelude.{◌≡◌, IfOk, map};

use clsm_store::Seat;
use std::alloc::{AllocError, Global};

/// What a caller gives back: its seat, and what it answered.
#[derive(Drop)]
pub struct Worked<A> {
    pub seat: Seat,
    pub answer: A,
}

/// The seats of all callers and their answers, in the order of the callers. Refused if memory runs
/// out.
pub(crate) fn part<A: Drop>(
    alloc: Global,
    worked: Vec<Worked<A>>,
) -> Result<(Vec<Seat>, Vec<A>), AllocError>
    ensures seats { IfOk result (λ parts. parts.0.items ≡ map (λ w. w.seat) worked.items) }
    ensures answers { IfOk result (λ parts. parts.1.items ≡ map (λ w. w.answer) worked.items) }
{
    let mut seats = Vec::with_capacity(alloc, worked.len())?;
    let mut answers = Vec::with_capacity(alloc, worked.len())?;
    for one in worked {
        let Worked { seat, answer } = one;
        seats.push(seat)?;
        answers.push(answer)?;
    }
    Ok((seats, answers))
}
