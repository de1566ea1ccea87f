//! How long something takes.
use crate::works::TIMES;
use std::io;
use std::io::Eprint;
use std::time::{Clock, CpuClock, Duration, Instant};

/// The clock, and the processor time of all threads, where it began.
#[derive(Drop)]
pub(crate) struct Watch {
    clock: Instant,
    processor: Duration,
}

impl Watch {
    pub(crate) fn start<R: Clock + CpuClock>(rt: &R) -> io::Result<Watch> {
        let processor = rt.process_cpu_time()?;
        Ok(Watch {
            clock: Instant::now(rt)?,
            processor,
        })
    }

    /// Writes on standard error how often a second so many threads did it, and the processor time that it took each time.
    pub(crate) fn report<R: Clock + CpuClock + Eprint>(
        &self,
        rt: &R,
        what: &str,
        threads: u32,
    ) -> io::Result<()> {
        let clock = self.clock.elapsed(rt)?.as_nanos();
        let processor = rt.process_cpu_time()?.saturating_sub(self.processor);
        let (rate, each) = rates(clock, processor.as_nanos(), threads);
        eprintln!(rt;
            "{what}, {threads} at once: {rate} thousand a second, {each} ns of processor time each"
        )
    }
}

// How many thousands a second, and the nanoseconds of processor time of each.
fn rates(clock: u128, processor: u128, threads: u32) -> (u128, u128) {
    let times = TIMES as u128 * threads.max(1) as u128;
    (times * 1_000_000 / clock.max(1), processor / times)
}
