//! One more caller and the merger, which fill a store and then go on beside the calls.
use crate::batches::filled_members;
use crate::calls::put_filled;
use crate::draws::{Call, Puts, Series};
use crate::failure::Failure;
use crate::lines::Beside;
use crate::sweeper::{Command, Sweeper};
use crate::target::Target;
use clsm_model::Change;
use clsm_store::Caller;
use clsm_words::Free;
use std::alloc::Global;
use std::sync::Wait;
use std::sync::atomic::AtomicBool;
use std::sync::atomic::Ordering::SeqCst;

#[derive(Drop)]
pub struct Extra<'a> {
    pub caller: Caller<'a, Free>,
    pub sweeper: Sweeper<'a>,
}

impl Extra<'_> {
    /// Puts at the filled keys, where they are to be found: for a run of level 1 epoch after epoch,
    /// of which each is merged, as many as end with a merge into level 1, which is each fourth.
    pub fn fill<R: Wait>(&mut self, rt: &R, alloc: Global, series: &Series) -> Result<(), Failure> {
        let Puts {
            merges,
            frozen,
            last,
        } = series.puts();
        for epoch in 0..merges {
            self.fill_epoch(rt, alloc, series, epoch)?;
        }
        if frozen > 0 {
            put_filled(rt, alloc, &mut self.caller, 0..frozen, series.keys)?;
            self.sweeper.run(rt, Command::Freeze);
        }
        put_filled(rt, alloc, &mut self.caller, 0..last, series.keys)
    }

    /// Puts at the keys of the epoch with this number, and merges it.
    fn fill_epoch<R: Wait>(
        &mut self,
        rt: &R,
        alloc: Global,
        series: &Series,
        epoch: u32,
    ) -> Result<(), Failure> {
        let first = epoch.saturating_mul(series.cells).min(series.keys);
        let end = first.saturating_add(series.cells).min(series.keys);
        put_filled(rt, alloc, &mut self.caller, first..end, series.keys)?;
        if self.sweeper.run(rt, Command::Sweep) {
            Ok(())
        } else {
            Err(Failure::Unanswered)
        }
    }

    /// Does what is to go on beside the calls, until it is told to stop.
    pub fn disturb<R: Wait>(
        &mut self,
        rt: &R,
        alloc: Global,
        beside: &Beside,
        keys: u32,
        stop: &AtomicBool,
    ) -> Result<(), Failure> {
        let members = filled_members(alloc, keys)?;
        for _ in 0..u32::MAX {
            if stop.load(SeqCst) {
                return Ok(());
            }
            match beside {
                Beside::Nothing | Beside::Session => return Ok(()),
                Beside::Merger => {
                    self.sweeper.run(rt, Command::Sweep);
                }
                Beside::Batcher => self.write(rt, &members),
                Beside::Scanner => self.scan(rt, alloc, keys),
            }
        }
        Err(Failure::Unanswered)
    }

    /// Writes the batch, or makes room for one.
    fn write<R: Wait>(&mut self, rt: &R, members: &[(u64, Change)]) {
        if !self.caller.write_all(rt, members) {
            self.sweeper.run(rt, Command::Sweep);
        }
    }

    /// Scans all keys, of which there are so many.
    fn scan<R: Wait>(&mut self, rt: &R, alloc: Global, keys: u32) {
        let all = Call::Scan {
            lo: 0,
            hi: u64::MAX,
            rows: keys as usize,
        };
        let _ = self.caller.make(rt, alloc, &all);
    }
}
