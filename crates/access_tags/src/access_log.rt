//! What the running test touched, in the order of first touch.

ghost use Rattle.std.specs.Prelude.{◌≡◌, ◌≤◌, ◌<◌, ◌++◌, ◌∷◌, [], length, get_or, true, false, OnOk, OnErr};
ghost use Rattle.access_tags.specs.Intervals.{AreOrdered, parts, parts_of};

use crate::conflict::Touched;
use crate::interval::Interval;
use cell_region::{Mark, Region};
use et_base::NoMemory;
use std::alloc::Global;

/// The parts that a test touched, in the order of first touch. A part takes 20 bytes, and none where it is the one after
/// the part before it.
#[derive(Drop)]
pub struct AccessLog {
    intervals: Region<Interval>,
    ghost ordered: { AreOrdered intervals },
}

impl AccessLog {
    ghost use Rattle.access_tags.specs.AccessLogs.{touched_in};

    /// Nothing is touched. It takes no memory.
    pub fn new(alloc: Global) -> AccessLog
        ensures { touched_in result ≡ [] }
    {
        AccessLog {
            intervals: Region::new(alloc),
        }
    }

    /// How many intervals there are. Takes no memory.
    pub fn len(&self) -> u64
        ensures { result ≡ length self.now.intervals }
    {
        self.intervals.len()
    }

    /// An interval by its place. Takes no memory.
    pub fn get(&self, i: u64) -> Interval
        requires { i < length self.now.intervals }
        ensures is { result ≡ get_or self.now.intervals i result }
        ensures order { result.first ≤ result.end }
    {
        self.intervals.get(i)
    }

    /// One more part. There is no memory where its object, its number or the index after it is past 32 bits. After a
    /// refusal the parts are as before.
    #[inline(always)]
    pub fn push(&mut self, part: Touched) -> Result<(), NoMemory>
        ensures pushed { OnOk result (touched_in self.new ≡ touched_in self.old ++ part ∷ []) }
        ensures kept { OnErr result (touched_in self.new ≡ touched_in self.old) }
    {
        if self.lengthen(part) {
            return Ok(());
        }
        let Some(interval) = Interval::of(part) else {
            return Err(NoMemory {});
        };
        self.intervals.push(interval)?;
        Ok(())
    }

    /// The parts of one more interval. After a refusal the parts are as before.
    pub fn push_interval(&mut self, interval: Interval) -> Result<(), NoMemory>
        requires { interval.first ≤ interval.end }
        ensures pushed { OnOk result (touched_in self.new ≡ touched_in self.old ++ parts_of interval) }
        ensures kept { OnErr result (touched_in self.new ≡ touched_in self.old) }
    {
        self.intervals.push(interval)?;
        Ok(())
    }

    /// Adds a part to the last interval, where it is the next one of it. Answers whether it is.
    #[inline(always)]
    fn lengthen(&mut self, part: Touched) -> bool
        ensures longer { result ≡ true → touched_in self.new ≡ touched_in self.old ++ part ∷ [] }
        ensures kept { result ≡ false → self.new ≡ self.old }
    {
        let len = self.intervals.len();
        if len == 0 {
            return false;
        }
        let Some(longer) = self.intervals.get(len - 1).with(part) else {
            return false;
        };
        self.intervals.set(len - 1, longer);
        true
    }

    /// Nothing is touched any more. The memory is kept for what is touched next.
    pub fn clear(&mut self)
        ensures { touched_in self.new ≡ [] }
    {
        self.intervals.release(Mark { len: 0 });
    }
}
