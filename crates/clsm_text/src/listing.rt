//! The records that lines say, as lists.
ghost use Rattle.std.specs.Prelude.{◌≡◌, ◌∷◌, ◌++◌, ◌^◌, ◌<◌, [], length, true, vec_len, IfOk, IfErr, OnOk};
ghost use Rattle.std.specs.Option.{option_to_list};
ghost use Rattle.clsm_text.specs.Line.{lines_of};
ghost use Rattle.clsm_text.specs.Audit.{IsListOf, StopsLines};

use crate::failure::Failure;
use crate::timed::{RecordLine, parse_record_line};
use clsm_audit::Moments;
use clsm_model::CallRecord;
use std::alloc::{AllocError, Global};

/// The records that lines say, and beside each the number of its line, counted from 1; or records
/// that stand on no lines, with no numbers.
#[derive(Drop)]
pub struct Listed {
    pub records: Vec<CallRecord>,
    pub lines: Vec<u64>,
}

/// The records that lines say, and the moments that stand behind them.
#[derive(Drop)]
pub struct TimedList {
    pub listed: Listed,
    pub moments: Vec<Moments>,
}

impl TimedList {
    /// Puts a record behind the others, with its moments if it has some. Refused if memory runs
    /// out.
    fn push(&mut self, said: RecordLine, number: u64) -> Result<(), AllocError>
        ensures records { OnOk result (self.new.listed.records.items ≡ self.old.listed.records.items ++ said.record ∷ []) }
        ensures lines { OnOk result (self.new.listed.lines.items ≡ self.old.listed.lines.items ++ number ∷ []) }
        ensures moments { OnOk result (self.new.moments.items ≡ self.old.moments.items ++ option_to_list said.moments) }
    {
        let RecordLine { record, moments } = said;
        self.listed.records.push(record)?;
        self.listed.lines.push(number)?;
        if let Some(moments) = moments {
            self.moments.push(moments)?;
        }
        Ok(())
    }
}

/// The records that the lines of a text say, each with its moments where these are asked for.
pub fn list_records(alloc: Global, text: &[u8], timed: bool) -> Result<TimedList, Failure>
    requires { length text.now < 2 ^ 63 }
    ensures listed { IfOk result (λ list. IsListOf timed (lines_of text.now)
        list.listed.records.items list.listed.lines.items list.moments.items) }
    ensures count { IfOk result (λ list. vec_len list.listed.lines ≡ vec_len list.listed.records) }
    ensures timed { IfOk result (λ list. timed ≡ true → vec_len list.moments ≡ vec_len list.listed.records) }
    ensures stopped { IfErr result (StopsLines timed text.now) }
{
    let mut list = TimedList {
        listed: Listed {
            records: Vec::new(alloc),
            lines: Vec::new(alloc),
        },
        moments: Vec::new(alloc),
    };
    let mut number = 0;
    for line in text.split(|byte| *byte == b'\n') {
        number += 1;
        match parse_record_line(alloc, line, timed) {
            Ok(Some(said)) => list.push(said, number)?,
            Ok(None) => {}
            Err(error) => return Err(error.at(number)),
        }
    }
    Ok(list)
}
