//! The records of a script's calls. Most of them take a sixth of the room of a `CallRecord`.
ghost use Rattle.std.specs.Prelude.{◌≡◌, ◌∷◌, [], IfOk, IfSome, OnOk, Some};
ghost use Rattle.clsm_model.specs.declared.record.Deed.TheVariants.{Get};
ghost use Rattle.clsm_script.specs.Kept.{GainsRecord, KeepsCall, record_of};

use clsm_model::{CallRecord, Deed, Key, Time, Value};
use clsm_store::{Answer, Call, Got};
use std::alloc::{AllocError, Global};
use std::marker::Model;

/// A record as it is kept.
#[derive(Drop)]
enum Kept {
    /// The put of one word.
    Put {
        seat: u32,
        time: Time,
        key: Key,
        word: u64,
    },
    /// A get that found one word.
    Found {
        seat: u32,
        time: Time,
        key: Key,
        word: u64,
    },
    /// A get that found nothing.
    Absent {
        seat: u32,
        time: Time,
        key: Key,
    },
    Other(Box<CallRecord>),
}

/// The value's word, if it has only one.
fn only_word(value: &Value) -> Option<u64>
    ensures { IfSome result (λ word. value.now ≡ word ∷ []) }
{
    match value.words() {
        [word] => Some(*word),
        _ => None,
    }
}

impl Kept {
    /// What is kept of the call that the seat with this number made, if it is a put or a get of at
    /// most one word and was answered so.
    fn of_call(seat: u32, call: &Call, answer: &Answer) -> Option<Kept>
        ensures made { IfSome result (λ kept. GainsRecord seat call.now answer.now (Some (record_of kept))) }
    {
        match (call, answer) {
            (Call::Put { key, value }, Answer::Write(Ok(time)))
            | (Call::Try { key, value }, Answer::Try(Ok(time))) => {
                let (time, key, word) = (*time, *key, only_word(value)?);
                Some(Kept::Put {
                    seat,
                    time,
                    key,
                    word,
                })
            }
            (Call::Get { key }, Answer::Read(got)) => Kept::of_get(seat, *key, got),
            _ => None,
        }
    }

    /// What is kept of a get of at most one word.
    fn of_get(seat: u32, key: Key, got: &Got) -> Option<Kept>
        ensures { IfSome result (λ kept. record_of kept ≡
            record { seat = seat; time = got.now.time; deed = Get key got.now.value }) }
    {
        let time = got.time;
        let Some(value) = &got.value else {
            return Some(Kept::Absent { seat, time, key });
        };
        let word = only_word(value)?;
        Some(Kept::Found {
            seat,
            time,
            key,
            word,
        })
    }

    /// The record that is kept. Refused if memory runs out.
    fn to_record(&self) -> Result<CallRecord, AllocError>
        ensures { IfOk result (λ call. call ≡ record_of self.now) }
    {
        let (seat, time, deed) = match self {
            Kept::Put {
                seat,
                time,
                key,
                word,
            } => {
                let (key, value) = (*key, Value::from(*word));
                (*seat, *time, Deed::Put { key, value })
            }
            Kept::Found {
                seat,
                time,
                key,
                word,
            } => {
                let (key, reply) = (*key, Some(Value::from(*word)));
                (*seat, *time, Deed::Get { key, reply })
            }
            Kept::Absent { seat, time, key } => {
                let (key, reply) = (*key, None);
                (*seat, *time, Deed::Get { key, reply })
            }
            Kept::Other(call) => return (**call).clone(),
        };
        Ok(CallRecord { seat, time, deed })
    }
}

/// Records in the order in which they were kept. Contracts see their list.
#[derive(Drop)]
pub struct Records {
    kept: Vec<Kept>,
}

impl Model for Records {
    ghost use Rattle.std.specs.Prelude.{List, map};
    ghost use Rattle.clsm_model.specs.declared.record.CallRecord.{CallRecord};
    ghost use Rattle.clsm_script.specs.Kept.{record_of};

    ghost Value = { List CallRecord };

    ghost view = { λ r. map record_of r.kept.items };
}

impl Records {
    /// No records.
    pub fn new(alloc: Global) -> Records
        ensures { result ≡ [] }
    {
        Records {
            kept: Vec::new(alloc),
        }
    }

    /// Keeps the record of the call that the seat with this number made, where it was answered so,
    /// behind the others. Refused if memory runs out.
    pub fn keep(
        &mut self,
        alloc: Global,
        seat: u32,
        call: &Call,
        answer: &Answer,
    ) -> Result<(), AllocError>
        ensures { OnOk result (KeepsCall seat call.now answer.now self.old self.new) }
    {
        let kept = match Kept::of_call(seat, call, answer) {
            Some(kept) => kept,
            None => {
                let Some(made) = call.to_record(seat, answer)? else {
                    return Ok(());
                };
                Kept::Other(Box::new(alloc, made)?)
            }
        };
        self.kept.push(kept)?;
        Ok(())
    }

    /// All records. Refused if memory runs out.
    pub fn to_list(&self, alloc: Global) -> Result<Vec<CallRecord>, AllocError>
        ensures { IfOk result (λ records. records.items ≡ self.now) }
    {
        let mut records = Vec::new(alloc);
        for kept in &self.kept {
            records.push(kept.to_record()?)?;
        }
        Ok(records)
    }
}
