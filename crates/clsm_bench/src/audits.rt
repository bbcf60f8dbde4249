//! Audits of records.
use crate::calls::Lap;
use crate::failure::Failure;
use clsm_audit::audit;
use clsm_model::{CallRecord, Config, Deed, Value};
use std::alloc::{AllocError, Global};
use std::rt::Clock;
use std::time::Instant;

/// The keys of the records, and their seats.
const KEYS: u32 = 1_024;

const SEATS: u32 = 4;

/// The sizes of the store of the records.
const SIZES: Config = Config {
    cells: 65_536,
    seats: SEATS as usize,
    shards: 1,
    run: 65_536,
    patience: 16,
};

/// So many records: of puts, each with a get behind it that found what was put.
fn records_of(alloc: Global, calls: u32) -> Result<Vec<CallRecord>, AllocError> {
    let mut records = Vec::with_capacity(alloc, calls as usize)?;
    for index in 0..calls {
        let (put, is_get) = (index / 2, index % 2);
        let key = u64::from(put % KEYS);
        let value = Value::new(&[u64::from(put)]).unwrap();
        let reply = Some(value);
        let deed = match is_get {
            0 => Deed::Put { key, value },
            _ => Deed::Get { key, reply },
        };
        records.push(CallRecord {
            seat: index % SEATS,
            time: u64::from(put) + u64::from(is_get),
            deed,
        })?;
    }
    Ok(records)
}

/// Audits so many records once. Refused where they are.
pub fn audit_lap<R: Clock>(rt: &R, alloc: Global, calls: u32) -> Result<Lap, Failure> {
    let records = records_of(alloc, calls)?;
    let start = Instant::now(rt)?;
    let audited = audit(alloc, &SIZES, &records);
    let end = Instant::now(rt)?;
    if audited.is_err() {
        return Err(Failure::Unanswered);
    }
    Ok(Lap { calls, start, end })
}
