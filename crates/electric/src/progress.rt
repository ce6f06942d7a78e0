//! A gate that tells a terminal how far a long run is.

use et_base::{NoMemory, Text, push_decimal};
use outside::Gate;
use std::io::{IsTerminal, Write};
use std::sync::atomic::{AtomicU64, Ordering};
use std::time::{Clock, Duration};

/// Counts the tests that workers begin, and tells standard error how many they are, 2 seconds after it was made and then whenever
/// twice as many have passed, as a test begins. Where standard error is no terminal, or the clock fails, it tells nothing.
#[derive(Drop)]
pub struct Progress<'a> {
    rt: &'a HostRuntime,
    start: Option<Duration>,
    begun: AtomicU64,
    due: AtomicU64,
}

impl<'a> Progress<'a> {
    /// Counts from 0, and from now on.
    pub fn new(rt: &'a HostRuntime) -> Progress<'a> {
        Progress {
            rt,
            start: if rt.stderr().is_terminal() {
                rt.monotonic().ok()
            } else {
                None
            },
            begun: AtomicU64::new(0),
            due: AtomicU64::new(2),
        }
    }

    // The seconds that passed where it is time to tell of them; of several threads one gets them. That this and `tell` stand
    // apart puts the machine's loop, which the program has behind them, where few of its jumps cross 32 bytes.
    #[inline(never)]
    fn due_seconds(&self) -> Option<u64> {
        let start = self.start?;
        let passed = self.rt.monotonic().ok()?.saturating_sub(start).as_secs();
        let due = self.due.load(Ordering::SeqCst);
        // no clock passes 2^63 seconds
        let next = passed.wrapping_mul(2);
        let is_due = due <= passed
            && self
                .due
                .compare_exchange(due, next, Ordering::SeqCst, Ordering::SeqCst)
                .is_ok();
        if is_due { Some(passed) } else { None }
    }

    #[inline(never)]
    fn tell(&self, begun: u64, seconds: u64) -> Result<(), NoMemory> {
        let mut line = Text::new(self.rt.alloc());
        line.extend_from_slice(b"electric: ")?;
        push_decimal(&mut line, begun)?;
        line.extend_from_slice(b" tests begun in ")?;
        push_decimal(&mut line, seconds)?;
        line.extend_from_slice(b" s\n")?;
        let _told = self.rt.stderr().write_all(line.as_slice());
        Ok(())
    }
}

impl<'a> Gate for Progress<'a> {
    fn enter(&self, _worker: u32, _test: u32) {
        let begun = self.begun.fetch_add(1, Ordering::SeqCst).wrapping_add(1);
        if let Some(seconds) = self.due_seconds() {
            let _told = self.tell(begun, seconds);
        }
    }
}
