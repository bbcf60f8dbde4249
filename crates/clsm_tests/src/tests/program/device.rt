//! Readers and writers that fail once, and what a command line prints on the latter.
use clsm_command::{Ended, command};
use clsm_text::Streams;
use std::alloc::{AllocError, Global};
use std::io::{self, ErrorKind, Read, Write};
use std::process::Abort;
use std::rt::Clock;
use std::sync::Wait;
use std::test::Fail;
use std::thread::Threads;

pub(super) const NEVER: u32 = u32::MAX;

/// A reader that gives so many bytes a call, and fails once after so many calls.
#[derive(Clone, Copy)]
pub(super) struct Keyboard<'a> {
    pub(super) left: &'a [u8],
    pub(super) step: usize,
    pub(super) fails_after: u32,
    pub(super) kind: ErrorKind,
}

/// A writer that takes so many bytes a call, and fails once after so many calls.
#[derive(Drop)]
pub(super) struct Screen {
    shown: Vec<u8>,
    step: usize,
    fails_after: u32,
}

impl Screen {
    /// An empty screen that never fails.
    pub(super) fn sound(alloc: Global) -> Screen {
        Screen {
            shown: Vec::new(alloc),
            step: SOUND.step,
            fails_after: NEVER,
        }
    }

    /// An empty screen with room for 256 bytes, which takes so many of them a call, and fails after
    /// so many calls.
    fn failing(alloc: Global, step: usize, fails_after: u32) -> Result<Screen, AllocError> {
        Ok(Screen {
            shown: Vec::with_capacity(alloc, 256)?,
            step,
            fails_after,
        })
    }
}

/// Counts a call, and fails if it is the last of those that are counted.
fn count_call(fails_after: &mut u32, kind: ErrorKind) -> io::Result<()> {
    if *fails_after == 0 {
        *fails_after = NEVER;
        return Err(io::Error::from(kind));
    }
    *fails_after -= 1;
    Ok(())
}

impl Read for Keyboard<'_> {
    fn read(&mut self, buf: &mut [u8]) -> io::Result<usize> {
        count_call(&mut self.fails_after, self.kind)?;
        let count = self.left.len().min(buf.len()).min(self.step);
        let (given, left) = self.left.split_at(count);
        buf[..count].copy_from_slice(given);
        self.left = left;
        Ok(count)
    }
}

impl Write for Screen {
    fn write(&mut self, buf: &[u8]) -> io::Result<usize> {
        count_call(&mut self.fails_after, ErrorKind::Other)?;
        let taken = buf.len().min(self.step);
        self.shown.extend_from_slice(&buf[..taken])?;
        Ok(taken)
    }

    fn flush(&mut self) -> io::Result<()> {
        count_call(&mut self.fails_after, ErrorKind::Other)
    }
}

/// How many bytes the screens take a call, and after how many calls the output and the faults fail.
#[derive(Clone, Copy)]
pub(super) struct Failing {
    pub(super) step: usize,
    pub(super) output: u32,
    pub(super) faults: u32,
}

pub(super) const SOUND: Failing = Failing {
    step: 256,
    output: NEVER,
    faults: NEVER,
};

/// What a command line printed, and its status.
#[derive(Drop)]
pub(super) struct Played {
    pub(super) output: String,
    pub(super) faults: String,
    pub(super) status: u8,
}

/// Plays a command line.
pub(super) fn play<T: Threads + Sync + Clock + Wait, R: Read + Drop>(
    rt: &T,
    alloc: Global,
    words: &[&str],
    input: R,
    failing: &Failing,
) -> Result<Played, Fail> {
    let output = Screen::failing(alloc, failing.step, failing.output)?;
    let mut faults = Screen::failing(alloc, failing.step, failing.faults)?;
    let streams = Streams {
        input,
        output,
        faults: &mut faults,
    };
    let Ended { status, output } = command(rt, alloc, words, streams);
    Ok(Played {
        output: String::from_utf8(output.shown)?,
        faults: String::from_utf8(faults.shown)?,
        status,
    })
}

impl Played {
    /// These were printed, and this is the status.
    pub(super) fn expect(&self, rt: &impl Abort, output: &str, faults: &str, status: u8) {
        assert_eq!(rt; self.output.as_str(), output);
        assert_eq!(rt; self.faults.as_str(), faults);
        assert_eq!(rt; self.status, status);
    }
}
