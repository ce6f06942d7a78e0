//! Handler tables (JVMS 4.7.3).

ghost use Rattle.std.specs.Prelude.{◌≡◌};
ghost use Rattle.class_pool.specs.{declared.fault.Fault.TheVariants.BadTarget, Reading.Gives};
ghost use Rattle.code_decode.specs.Targets.{Marks};
ghost use Rattle.class_reader.specs.Handlers.{begins_at, ends_at, is_caught, range_at, catch_at, handler_at, handlers_at};

use crate::parts::RawHandler;
use crate::reading::{Reads, counted};
use class_pool::fault::wants;
use class_pool::fields::u16_at;
use class_pool::lookup::names_class;
use class_pool::{Fault, Pool, ReadError};
use code_decode::{Code, Starts};
use et_base::Items;
use std::alloc::Global;

fn is_caught(pool: &Pool, index: u16) -> bool
    ensures { result ≡ is_caught pool.now index }
{
    index == 0 || names_class(pool.slots(), index)
}

#[tactic(auto, unfolding(crate::specs::Handlers::catch_at))]
fn catch_of<'a>(pool: &Pool, bytes: &'a [u8]) -> Result<(u16, &'a [u8]), ReadError>
    ensures { Gives (λ x. (x.0, x.1.now)) result (catch_at pool.now bytes.now) }
{
    let (index, rest) = u16_at(bytes)?;
    wants(is_caught(pool, index), Fault::BadIndex(bytes.len()))?;
    Ok((index, rest))
}

// What reads the rows of a code's table, in the method of this number.
#[derive(Drop)]
struct Rows<'c> {
    method: u32,
    pool: &'c Pool,
    code: &'c Code,
    starts: &'c Starts,
    ghost marked: { Marks starts.now code.now.ops code.now.length },
}

impl<'c> Rows<'c> {
    fn begins_at(&self, pc: u16) -> bool
        ensures { result ≡ begins_at self.now.code.now pc }
    {
        (pc as u32) < self.code.length && self.starts.is_start(pc as u32)
    }

    fn ends_at(&self, pc: u16) -> bool
        ensures { result ≡ ends_at self.now.code.now pc }
    {
        self.begins_at(pc) || pc as u32 == self.code.length
    }

    fn bad_target(&self, pc: u16) -> Fault
        ensures { result ≡ BadTarget self.now.method pc }
    {
        Fault::BadTarget {
            method: self.method,
            pc: pc as u32,
        }
    }

    #[tactic(auto, unfolding(crate::specs::Handlers::range_at))]
    fn range_of<'a>(&self, bytes: &'a [u8]) -> Result<((u16, u16), &'a [u8]), ReadError>
        ensures { Gives (λ x. ((x.0.0, x.0.1), x.1.now)) result (range_at self.now.method self.now.code.now bytes.now) }
    {
        let (from, rest) = u16_at(bytes)?;
        wants(self.begins_at(from), self.bad_target(from))?;
        let (to, rest) = u16_at(rest)?;
        wants(self.ends_at(to), self.bad_target(to))?;
        wants(from < to, self.bad_target(from))?;
        Ok(((from, to), rest))
    }
}

impl<'c> Reads for Rows<'c> {
    type Part = RawHandler;

    ghost reads = { λ rows. handler_at rows.method rows.pool.now rows.code.now };

    #[tactic(auto, unfolding(crate::specs::Handlers::handler_at))]
    fn read<'a>(&self, bytes: &'a [u8]) -> Result<(RawHandler, &'a [u8]), ReadError> {
        let ((from, to), rest) = self.range_of(bytes)?;
        let (at, rest) = u16_at(rest)?;
        wants(self.begins_at(at), self.bad_target(at))?;
        let (catch_class, rest) = catch_of(self.pool, rest)?;
        Ok((
            RawHandler {
                from,
                to,
                at,
                catch_class,
            },
            rest,
        ))
    }
}

/// The handler table of a code, in the method of this number.
#[tactic(auto, unfolding(crate::specs::Handlers::handlers_at))]
pub fn handlers_of<'a>(
    alloc: Global,
    method: u32,
    pool: &Pool,
    code: &Code,
    starts: &Starts,
    bytes: &'a [u8],
) -> Result<(Items<RawHandler>, &'a [u8]), ReadError>
    requires { Marks starts.now code.now.ops code.now.length }
    ensures { Gives (λ x. (x.0, x.1.now)) result (handlers_at method pool.now code.now bytes.now) }
{
    let (count, rest) = u16_at(bytes)?;
    let rows = Rows {
        method,
        pool,
        code,
        starts,
    };
    counted(alloc, &rows, count, rest)
}
