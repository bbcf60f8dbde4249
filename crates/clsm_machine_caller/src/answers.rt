//! What a step answers: `answer_of` of clsm_law/specs/Relation.antt.
ghost use Rattle.std.specs.Prelude.{◌≡◌};
ghost use Rattle.clsm_law.specs.Relation.{answer_of, won_if};

use clsm_law::{Answer, Step};

fn done_if(won: bool) -> Answer
    ensures { result ≡ won_if won }
{
    if won { Answer::Done } else { Answer::Lost }
}

/// What the step answers where it finds this word.
pub fn answer(step: &Step, found: u64) -> Answer
    ensures { result ≡ answer_of step.now found }
{
    match step {
        Step::EnterShared(lock) => done_if(found == *lock),
        Step::Draw(time) => done_if(found == *time),
        Step::Link(head) => done_if(found == *head),
        Step::Insert(_, next) => done_if(found == *next),
        Step::EnterExclusive | Step::Decide(..) | Step::Cancel(_) => done_if(found == 0),
        Step::Look(_) => Answer::Value(found),
        _ => Answer::Done,
    }
}
