//! How command lines end where their input, their output or their faults fail them.
use super::device::{Failing, Keyboard, NEVER, Played, SOUND, play};
use std::alloc::Global;
use std::io::ErrorKind;
use std::process::Abort;
use std::rt::Clock;
use std::sync::Wait;
use std::test::Fail;
use std::thread::Threads;

const SCRIPT: &[&str] = &["clsm", "script"];

const NO_CELLS: &[&str] = &["clsm", "script", "--cells", "3"];

const AUDIT: &[&str] = &["clsm", "audit"];

const RUN: &[&str] = &["clsm", "run", "--threads", "2", "--ops", "5"];

const RUN_OF_NO_CELLS: &[&str] = &["clsm", "run", "--ops", "5", "--cells", "3"];

const EXPLORE: &[&str] = &["clsm", "explore", "get 1"];

const TWO_LINES: &str = "put 7 70\nget 7\n";

const TWO_RECORDS: &str = "0 0 put 7 70\n0 1 get 7 70\n";

/// A command line, its input, and what it prints where nothing fails.
type Case = (&'static [&'static str], &'static str, &'static str);

const PLAYED: Case = (SCRIPT, TWO_LINES, "@0\n70 @1\n");

const AUDITED: Case = (AUDIT, TWO_RECORDS, "audit ok\n");

const RAN: Case = (RUN, "", "calls 10\naudit ok\n");

const EXPLORED: Case = (EXPLORE, "", "explore ok\n");

/// So many bytes of what the case prints are shown, and the status is 0, or 1 for a device.
fn expect_shown(rt: &impl Abort, played: &Played, case: &Case, shown: usize, status: u8) {
    let (_, _, text) = *case;
    let output = text.get(..shown).unwrap_or("");
    let faults = if status == 0 { "" } else { "device\n" };
    played.expect(rt, output, faults, status);
}

/// The fewest and the most calls after which an input fails, how it fails, how many bytes are
/// shown, and the status.
type End = (u32, u32, &'static [ErrorKind], usize, u8);

const FAILURES: &[ErrorKind] = &[
    ErrorKind::Other,
    ErrorKind::OutOfMemory,
    ErrorKind::UnexpectedEof,
];

const INTERRUPTED: &[ErrorKind] = &[ErrorKind::Interrupted];

/// What is played, how many bytes of its input come a call, and how that ends. The script takes 15
/// reads and one that finds the end, the records seven and one.
const READS: &[(Case, usize, &[End])] = &[
    (
        PLAYED,
        1,
        &[
            // a line is answered before the next one is read
            (0, 8, FAILURES, 0, 1),
            (9, 14, FAILURES, 3, 1),
            (15, 15, FAILURES, 9, 1),
            (16, 18, FAILURES, 9, 0),
            // an interrupted read is made again
            (0, 16, INTERRUPTED, 9, 0),
        ],
    ),
    // all that is at hand is answered before more is read
    (PLAYED, 12, &[(1, 1, FAILURES, 3, 1)]),
    (PLAYED, 15, &[(1, 1, FAILURES, 9, 1)]),
    (
        AUDITED,
        4,
        &[
            (0, 7, &[ErrorKind::Other], 0, 1),
            (8, 9, FAILURES, 9, 0),
            (0, 8, INTERRUPTED, 9, 0),
        ],
    ),
];

/// Plays the case to this end, once for each kind and number of calls.
fn check_end<R: Abort + Threads + Sync + Clock + Wait>(
    rt: &R,
    alloc: Global,
    case: &Case,
    step: usize,
    end: &End,
) -> Result<(), Fail> {
    let (words, input, _) = *case;
    let (fewest, most, kinds, shown, status) = *end;
    for fails_after in fewest..=most {
        for kind in kinds {
            let keyboard = Keyboard {
                left: input.as_bytes(),
                step,
                fails_after,
                kind: *kind,
            };
            let played = play(rt, alloc, words, keyboard, &SOUND)?;
            expect_shown(rt, &played, case, shown, status);
        }
    }
    Ok(())
}

#[test]
fn reads_that_fail(rt: HostRuntime) -> Result<(), Fail> {
    for (case, step, ends) in READS {
        for end in *ends {
            check_end(&rt, rt.alloc(), case, *step, end)?;
        }
    }
    Ok(())
}

/// What is played, how many bytes the screens take a call, after how many calls of the output the
/// input is read on, and after how many the output fails, with the bytes that are then shown. The
/// last is the number of all calls, after which it does not fail.
type Written = (Case, usize, u32, &'static [u32], &'static [usize]);

const WRITES: &[Written] = &[
    // an answer is written and flushed before the next line is read
    (PLAYED, 256, 2, &[0, 1, 2, 3, 4], &[0, 3, 3, 9, 9]),
    (
        PLAYED,
        1,
        4,
        &[0, 1, 2, 3, 4, 5, 6, 7, 8, 9, 10, 11],
        &[0, 1, 2, 3, 3, 4, 5, 6, 7, 8, 9, 9],
    ),
    (AUDITED, 4, 0, &[0, 1, 2, 3, 4], &[0, 4, 8, 9, 9]),
    (RAN, 1, 0, &[0, 7, 17, 18, 19], &[0, 7, 17, 18, 18]),
    (EXPLORED, 1, 0, &[0, 8, 10, 11, 12], &[0, 8, 10, 11, 11]),
];

/// Plays what is written to screens that fail after so many calls. The second line of a script is
/// left where the input is not read on.
fn check_written<R: Abort + Threads + Sync + Clock + Wait>(
    rt: &R,
    alloc: Global,
    written: &Written,
    calls: u32,
    shown: usize,
) -> Result<(), Fail> {
    let (case, step, reads_on, all, _) = written;
    let all = all.last().copied().unwrap_or(0);
    let (words, input, _) = *case;
    let mut keyboard = Keyboard {
        left: input.as_bytes(),
        step: 1,
        fails_after: NEVER,
        kind: ErrorKind::Other,
    };
    let failing = Failing {
        step: *step,
        output: calls,
        faults: NEVER,
    };
    let played = play(rt, alloc, words, &mut keyboard, &failing)?;
    let status = if calls < all { 1 } else { 0 };
    let left = if calls < *reads_on { 6 } else { 0 };
    expect_shown(rt, &played, case, shown, status);
    assert_eq!(rt; keyboard.left.len(), left, "after {calls} calls");
    Ok(())
}

/// A status stays where the faults are lost.
const STATUSES: &[(&[&str], &str, u8)] = &[
    (SCRIPT, "get 7\n", 0),
    (SCRIPT, "frob\n", 1),
    (NO_CELLS, "get 7\n", 3),
    (RUN_OF_NO_CELLS, "", 3),
    (AUDIT, "frob\n", 1),
    (&["clsm", "explore", "frob"], "", 1),
    (&["clsm", "frob"], "", 1),
];

/// Plays the command line to faults that fail after so many calls: the status is this one.
fn check_status<R: Abort + Threads + Sync + Clock + Wait>(
    rt: &R,
    alloc: Global,
    words: &[&str],
    input: &str,
    status: u8,
) -> Result<(), Fail> {
    for faults in 0..8 {
        let failing = Failing {
            step: 4,
            output: NEVER,
            faults,
        };
        let played = play(rt, alloc, words, input.as_bytes(), &failing)?;
        assert_eq!(rt; played.status, status);
    }
    Ok(())
}

#[test]
fn writes_that_fail(rt: HostRuntime) -> Result<(), Fail> {
    for written in WRITES {
        for (calls, shown) in written.3.iter().zip(written.4) {
            check_written(&rt, rt.alloc(), written, *calls, *shown)?;
        }
    }
    for (words, input, status) in STATUSES {
        check_status(&rt, rt.alloc(), words, input, *status)?;
    }
    Ok(())
}
