//! How a read ends, said by what is at hand.
use clsm_law::End;

/// What says how a read ends. It is for the proof alone, so that no record is put together for it.
pub trait Ending {
    ghost use Rattle.clsm_law.specs.declared.step.End.{End};

    ghost end: { Self → End };
}

impl Ending for End {
    ghost end = { λ end. end };
}
