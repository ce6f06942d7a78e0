//! Instructions one after the other.

ghost use Rattle.std.specs.Prelude.{◌≡◌, ◌<◌, ◌^◌, length, Option};
ghost use Rattle.std.specs.Int.{w8, w16};
ghost use Rattle.class_pool.specs.Reading.{Gives};
ghost use Rattle.code_decode.specs.Instructions.{args_at, shaped_at, wide_args_at, wide_at, op_at, spot_at, ops_at};

use crate::args::Args;
use crate::opcodes::{Shape, shape_of, takes_local};
use crate::operands::{
    branch_of, byte_of, constant_of, dimensions_of, entry_of, far_branch_of, increment_of,
    interface_of, kind_of, local_of, near_constant_of, short_of, wide_increment_of, wide_local_of,
};
use crate::place::Spot;
use crate::switches::{lookup_of, table_of};
use class_pool::fields::u8_or;
use class_pool::{Pool, ReadError};
use et_base::Items;
use std::alloc::Global;

/// An instruction with its pc and its operands.
#[derive(Drop)]
pub struct RawOp {
    /// Where it begins, in bytes from the code's start.
    pub pc: u32,
    /// Its opcode; behind wide the opcode that wide stands before.
    pub opcode: u8,
    /// Whether wide stands before it (JVMS 6.5, wide).
    pub wide: bool,
    /// Its operands in the order of JVMS 6.5, without padding and without the zero of invokeinterface. Places in
    /// the code are pcs. tableswitch has its default, low, high and the places; lookupswitch its
    /// default, then keys and places in turn.
    pub args: Args,
}

#[tactic(auto, unfolding(crate::specs::Instructions::args_at))]
#[inline(always)]
fn args_of<'a>(
    alloc: Global,
    pool: &Pool,
    spot: &Spot,
    opcode: u8,
    shape: Shape,
    bytes: &'a [u8],
) -> Result<(Args, &'a [u8]), ReadError>
    ensures { Gives (λ x. (x.0, x.1.now)) result (args_at pool.now spot.now opcode shape bytes.now) }
{
    match shape {
        Shape::Plain => Ok((Args::none(), bytes)),
        Shape::Byte => byte_of(spot, bytes),
        Shape::Short => short_of(spot, bytes),
        Shape::Local => local_of(spot, bytes),
        Shape::Increment => increment_of(spot, bytes),
        Shape::Near(constant) => near_constant_of(pool, spot, opcode, constant, bytes),
        Shape::Far(constant) => constant_of(pool, spot, opcode, constant, bytes),
        Shape::Entry(named) => entry_of(pool, spot, opcode, named, bytes),
        Shape::Interface => interface_of(pool, spot, bytes),
        Shape::Kind => kind_of(spot, opcode, bytes),
        Shape::Dimensions => dimensions_of(pool, spot, bytes),
        Shape::Branch => branch_of(spot, bytes),
        Shape::FarBranch => far_branch_of(spot, bytes),
        Shape::Table => table_of(alloc, spot, bytes),
        Shape::Lookup => lookup_of(alloc, spot, bytes),
    }
}

#[tactic(auto, unfolding(crate::specs::Instructions::shaped_at))]
#[inline(always)]
fn shaped_of<'a>(
    alloc: Global,
    pool: &Pool,
    spot: &Spot,
    opcode: u8,
    shape: Option<Shape>,
    bytes: &'a [u8],
) -> Result<(RawOp, &'a [u8]), ReadError>
    ensures { Gives (λ x. (x.0, x.1.now)) result (shaped_at pool.now spot.now opcode shape bytes.now) }
{
    match shape {
        None => Err(ReadError::Fault(spot.foreign(opcode))),
        Some(shape) => {
            let (args, rest) = args_of(alloc, pool, spot, opcode, shape, bytes)?;
            Ok((
                RawOp {
                    pc: spot.pc as u32,
                    opcode,
                    wide: false,
                    args,
                },
                rest,
            ))
        }
    }
}

#[tactic(auto, unfolding(crate::specs::Instructions::wide_args_at))]
fn wide_args_of<'a>(spot: &Spot, opcode: u8, bytes: &'a [u8]) -> Result<(Args, &'a [u8]), ReadError>
    ensures { Gives (λ x. (x.0, x.1.now)) result (wide_args_at spot.now opcode bytes.now) }
{
    if takes_local(opcode) {
        wide_local_of(spot, bytes)
    } else if opcode == 132 {
        wide_increment_of(spot, bytes)
    } else {
        Err(ReadError::Fault(spot.foreign(196)))
    }
}

// An instruction behind wide.
#[tactic(auto, unfolding(crate::specs::Instructions::wide_at))]
fn wide_of<'a>(spot: &Spot, bytes: &'a [u8]) -> Result<(RawOp, &'a [u8]), ReadError>
    ensures { Gives (λ x. (x.0, x.1.now)) result (wide_at spot.now bytes.now) }
{
    let (opcode, rest) = u8_or(spot.cut(), bytes)?;
    let (args, rest) = wide_args_of(spot, opcode, rest)?;
    Ok((
        RawOp {
            pc: spot.pc as u32,
            opcode,
            wide: true,
            args,
        },
        rest,
    ))
}

// The instruction at a spot, where these bytes begin.
#[tactic(auto, unfolding(crate::specs::Instructions::op_at))]
#[inline(always)]
fn op_of<'a>(
    alloc: Global,
    pool: &Pool,
    spot: &Spot,
    bytes: &'a [u8],
) -> Result<(RawOp, &'a [u8]), ReadError>
    ensures { Gives (λ x. (x.0, x.1.now)) result (op_at pool.now spot.now bytes.now) }
{
    let (opcode, rest) = u8_or(spot.cut(), bytes)?;
    if opcode == 196 {
        wide_of(spot, rest)
    } else {
        shaped_of(alloc, pool, spot, opcode, shape_of(opcode), rest)
    }
}

// The same instructions, without room for more.
fn without_room(ops: Items<RawOp>) -> Items<RawOp>
    ensures { result ≡ ops }
{
    let mut ops = ops.into_vec();
    ops.shrink_to_fit();
    Items::from_vec(ops)
}

// All instructions of a code. By itself the loop has the registers that it needs.
#[inline(never)]
#[tactic(auto, unfolding(crate::specs::Instructions::ops_at))]
pub fn ops_of(
    alloc: Global,
    method: u32,
    pool: &Pool,
    bytes: &[u8],
) -> Result<Items<RawOp>, ReadError>
    requires { length bytes.now < 65536 }
    ensures { Gives (λ x. x) result (ops_at method pool.now bytes.now) }
{
    let total = bytes.len() as u16;
    // Room for the most that there can be, of which what is left over is given back.
    let mut ops = Items::with_capacity(alloc, bytes.len())?;
    let mut rest = bytes;
    for _ in 0..bytes.len() {
        if rest.is_empty() {
            break;
        }
        let spot = spot_at(method, total, rest);
        let (op, next) = op_of(alloc, pool, &spot, rest)?;
        ops.push(op)?;
        rest = next;
    }
    Ok(without_room(ops))
}

// Where an instruction stands, by what is left of the code.
fn spot_at(method: u32, total: u16, rest: &[u8]) -> Spot
    ensures { result ≡ spot_at method total rest.now }
{
    Spot {
        method,
        total,
        pc: (total as usize).saturating_sub(rest.len()) as u16,
    }
}
