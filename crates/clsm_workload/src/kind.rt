//! The kinds of calls.
use crate::turn::Turn;
use clsm_model::Deal;

/// A kind of call.
#[derive(Clone, Copy, PartialEq, Eq, Debug)]
pub enum Kind {
    Put,
    Remove,
    Get,
    Add,
    Claim,
    Snap,
    Close,
    GetAt,
    Scan,
    Batch,
    Many,
    Swap,
}

/// All kinds, in the order in which they are printed.
pub const KINDS: [Kind; 12] = [
    Kind::Put,
    Kind::Remove,
    Kind::Get,
    Kind::Add,
    Kind::Claim,
    Kind::Snap,
    Kind::Close,
    Kind::GetAt,
    Kind::Scan,
    Kind::Batch,
    Kind::Many,
    Kind::Swap,
];

impl Kind {
    /// The kind of a turn.
    pub fn of(turn: &Turn) -> Kind {
        match turn {
            Turn::Call(deal) => Kind::of_call(deal),
            Turn::Many { .. } => Kind::Many,
            Turn::Swap { .. } => Kind::Swap,
        }
    }

    /// The kind of a call.
    fn of_call(deal: &Deal) -> Kind {
        match deal {
            Deal::Put { .. } => Kind::Put,
            Deal::Remove { .. } => Kind::Remove,
            Deal::Get { .. } => Kind::Get,
            Deal::Add { .. } => Kind::Add,
            Deal::Claim { .. } => Kind::Claim,
            Deal::Snap => Kind::Snap,
            Deal::Close => Kind::Close,
            Deal::GetAt { .. } => Kind::GetAt,
            Deal::Scan { .. } => Kind::Scan,
            Deal::Batch { .. } => Kind::Batch,
        }
    }

    /// Its name in print, which is that of the command, where there is one.
    pub fn name(&self) -> &'static str {
        match self {
            Kind::Put => "put",
            Kind::Remove => "remove",
            Kind::Get => "get",
            Kind::Add => "add",
            Kind::Claim => "claim",
            Kind::Snap => "snap",
            Kind::Close => "close",
            Kind::GetAt => "getat",
            Kind::Scan => "scan",
            Kind::Batch => "batch",
            Kind::Many => "many",
            Kind::Swap => "swap",
        }
    }
}
