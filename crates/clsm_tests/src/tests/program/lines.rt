//! Records as lines, and texts that no session prints.
use clsm_audit::{AuditError, FaultKind};
use clsm_script::Answer;
use clsm_store::{Answer as Called, FreezeError, Full, Pinned, ReclaimError, TryPutError, Worn};
use clsm_text::{Failure, parse_record, parse_record_line, write_record, write_timed_record};
use std::test::Fail;

/// Records of each kind, one a line.
const RECORDS: &str = "3 12 put 1 1,18446744073709551615
3 12 remove 1
3 12 rmw 1 1,18446744073709551615 keep
3 12 rmw 1 none 1,18446744073709551615
3 12 rmw 1 none none
3 12 get 18446744073709551615 none
3 12 getat 1 1,18446744073709551615
3 12 snap
3 12 close
3 12 scan 0 9
3 12 scan 0 9 5=7 6=1,2
3 12 page 0 9 2 5=7 6=1,2
3 12 page 0 9 2 5=7 6=1,2 more 8
3 12 batch
3 12 batch 5=7
3 12 batch 1=1,18446744073709551615 1=none 18446744073709551615=keep";

/// What is read of a line is written as the same line.
#[test]
fn records_are_read_and_written(rt: HostRuntime) -> Result<(), Fail> {
    for line in RECORDS.lines() {
        let Ok(Some(record)) = parse_record(rt.alloc(), line.as_bytes()) else {
            panic!(rt; "{line}");
        };
        let mut written = Vec::new(rt.alloc());
        write_record(&mut written, &record)?;
        assert_eq!(rt; written.as_slice(), line.as_bytes());
    }
    Ok(())
}

/// And so with the moments of its call behind it.
#[test]
fn moments_are_read_and_written(rt: HostRuntime) -> Result<(), Fail> {
    for record in RECORDS.lines() {
        let line = format!(in rt.alloc(); "{record} | 5 18446744073709551615")?;
        let read = parse_record_line(rt.alloc(), line.as_bytes(), true);
        let Ok(Some(said)) = read else {
            panic!(rt; "{record}");
        };
        let Some(moments) = said.moments else {
            panic!(rt; "{record}");
        };
        let mut written = Vec::new(rt.alloc());
        write_timed_record(&mut written, &said.record, &moments)?;
        assert_eq!(rt; written.as_slice(), line.as_bytes());
    }
    Ok(())
}

#[test]
fn rare_refusals_are_shown(rt: HostRuntime) -> Result<(), Fail> {
    let fault = AuditError::Fault {
        kind: FaultKind::WrongReply,
        index: 3,
    };
    for (answer, shown) in [
        (Answer::Audit(Err(fault)), "audit fault WrongReply 3"),
        (
            Answer::Call(Called::Write(Err(Full { time: 4 }))),
            "full @4",
        ),
        (
            Answer::Call(Called::Try(Err(TryPutError::Full { time: u64::MAX }))),
            "full @18446744073709551615",
        ),
        (Answer::Call(Called::Try(Err(TryPutError::Busy))), "busy"),
        (Answer::Call(Called::Try(Err(TryPutError::Raced))), "raced"),
        (
            Answer::Call(Called::Try(Err(TryPutError::Overtaken))),
            "overtaken",
        ),
        (Answer::Freeze(Err(FreezeError::Worn(Worn))), "worn"),
        (
            Answer::Reclaim(Err(ReclaimError::Pinned(Pinned(63)))),
            "pinned 63",
        ),
    ] {
        let text = format!(in rt.alloc(); "{answer}")?;
        assert_eq!(rt; text.as_str(), shown);
    }
    let text = format!(in rt.alloc(); "{}", Failure::Memory)?;
    assert_eq!(rt; text.as_str(), "no memory");
    assert_eq!(rt; Failure::Memory.status(), 3);
    Ok(())
}
