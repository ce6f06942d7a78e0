//! The operands of an instruction, by their form.

ghost use Rattle.std.specs.Prelude.{pos};
ghost use Rattle.std.specs.Int.{w8, w16, w32, cast_signed};
ghost use Rattle.class_pool.specs.{Reading.Gives, Pool.entry_of};
ghost use Rattle.code_decode.specs.{Judging.named_fit, Judging.constant_fit, Judging.kind_fit, Place.target};
ghost use Rattle.code_decode.specs.Operands.{one_at, signed_at, local_at, branch_at, increment_at, fitting_at, interface_at, dimensions_at};

use crate::args::Args;
use crate::judging::{
    class_name, constant_fit, counts_units, dimensions, interface_units, judge, kind_fit, named_fit,
};
use crate::opcodes::{Constant, Named};
use crate::place::Spot;
use class_pool::fault::wants;
use class_pool::fields::{u8_or, u16_or, u32_or};
use class_pool::{Pool, ReadError};

// A signed byte.
#[tactic(auto, unfolding(crate::specs::Operands::one_at))]
pub fn byte_of<'a>(spot: &Spot, bytes: &'a [u8]) -> Result<(Args, &'a [u8]), ReadError>
    ensures { Gives (λ x. (x.0, x.1.now)) result (signed_at w8 spot.now bytes.now) }
{
    let (number, rest) = u8_or(spot.cut(), bytes)?;
    Ok((Args::one(number.cast_signed() as i32), rest))
}

// A signed number of two bytes.
#[tactic(auto, unfolding(crate::specs::Operands::one_at))]
pub fn short_of<'a>(spot: &Spot, bytes: &'a [u8]) -> Result<(Args, &'a [u8]), ReadError>
    ensures { Gives (λ x. (x.0, x.1.now)) result (signed_at w16 spot.now bytes.now) }
{
    let (number, rest) = u16_or(spot.cut(), bytes)?;
    Ok((Args::one(number.cast_signed() as i32), rest))
}

// A local variable, by one byte.
#[tactic(auto, unfolding(crate::specs::Operands::one_at))]
pub fn local_of<'a>(spot: &Spot, bytes: &'a [u8]) -> Result<(Args, &'a [u8]), ReadError>
    ensures { Gives (λ x. (x.0, x.1.now)) result (local_at w8 spot.now bytes.now) }
{
    let (number, rest) = u8_or(spot.cut(), bytes)?;
    Ok((Args::one(number as i32), rest))
}

// A local variable, by two bytes.
#[tactic(auto, unfolding(crate::specs::Operands::one_at))]
pub fn wide_local_of<'a>(spot: &Spot, bytes: &'a [u8]) -> Result<(Args, &'a [u8]), ReadError>
    ensures { Gives (λ x. (x.0, x.1.now)) result (local_at w16 spot.now bytes.now) }
{
    let (number, rest) = u16_or(spot.cut(), bytes)?;
    Ok((Args::one(number as i32), rest))
}

// A branch by two bytes.
#[tactic(auto, unfolding(crate::specs::Operands::one_at))]
pub fn branch_of<'a>(spot: &Spot, bytes: &'a [u8]) -> Result<(Args, &'a [u8]), ReadError>
    ensures { Gives (λ x. (x.0, x.1.now)) result (branch_at w16 spot.now bytes.now) }
{
    let (number, rest) = u16_or(spot.cut(), bytes)?;
    Ok((Args::one(spot.target(number.cast_signed() as i32)), rest))
}

// A branch by four bytes.
#[tactic(auto, unfolding(crate::specs::Operands::one_at))]
pub fn far_branch_of<'a>(spot: &Spot, bytes: &'a [u8]) -> Result<(Args, &'a [u8]), ReadError>
    ensures { Gives (λ x. (x.0, x.1.now)) result (branch_at w32 spot.now bytes.now) }
{
    let (number, rest) = u32_or(spot.cut(), bytes)?;
    Ok((Args::one(spot.target(number.cast_signed())), rest))
}

// A local variable and a signed byte.
#[tactic(auto, unfolding(crate::specs::Operands::increment_at))]
pub fn increment_of<'a>(spot: &Spot, bytes: &'a [u8]) -> Result<(Args, &'a [u8]), ReadError>
    ensures { Gives (λ x. (x.0, x.1.now)) result (increment_at w8 spot.now bytes.now) }
{
    let (local, rest) = u8_or(spot.cut(), bytes)?;
    let (by, rest) = u8_or(spot.cut(), rest)?;
    Ok((Args::two(local as i32, by.cast_signed() as i32), rest))
}

// A local variable and a signed number, by two bytes each.
#[tactic(auto, unfolding(crate::specs::Operands::increment_at))]
pub fn wide_increment_of<'a>(spot: &Spot, bytes: &'a [u8]) -> Result<(Args, &'a [u8]), ReadError>
    ensures { Gives (λ x. (x.0, x.1.now)) result (increment_at w16 spot.now bytes.now) }
{
    let (local, rest) = u16_or(spot.cut(), bytes)?;
    let (by, rest) = u16_or(spot.cut(), rest)?;
    Ok((Args::two(local as i32, by.cast_signed() as i32), rest))
}

// A constant, by one byte.
#[tactic(auto, unfolding(crate::specs::Operands::fitting_at))]
pub fn near_constant_of<'a>(
    pool: &Pool,
    spot: &Spot,
    opcode: u8,
    constant: Constant,
    bytes: &'a [u8],
) -> Result<(Args, &'a [u8]), ReadError>
    ensures { Gives (λ x. (x.0, x.1.now)) result (fitting_at w8 (λ n. constant_fit constant (entry_of pool.now n)) spot.now opcode bytes.now) }
{
    let (index, rest) = u8_or(spot.cut(), bytes)?;
    judge(spot, opcode, constant_fit(constant, pool, index as u16))?;
    Ok((Args::one(index as i32), rest))
}

// A constant, by two bytes.
#[tactic(auto, unfolding(crate::specs::Operands::fitting_at))]
pub fn constant_of<'a>(
    pool: &Pool,
    spot: &Spot,
    opcode: u8,
    constant: Constant,
    bytes: &'a [u8],
) -> Result<(Args, &'a [u8]), ReadError>
    ensures { Gives (λ x. (x.0, x.1.now)) result (fitting_at w16 (λ n. constant_fit constant (entry_of pool.now n)) spot.now opcode bytes.now) }
{
    let (index, rest) = u16_or(spot.cut(), bytes)?;
    judge(spot, opcode, constant_fit(constant, pool, index))?;
    Ok((Args::one(index as i32), rest))
}

// An entry, by two bytes.
#[tactic(auto, unfolding(crate::specs::Operands::fitting_at))]
pub fn entry_of<'a>(
    pool: &Pool,
    spot: &Spot,
    opcode: u8,
    named: Named,
    bytes: &'a [u8],
) -> Result<(Args, &'a [u8]), ReadError>
    ensures { Gives (λ x. (x.0, x.1.now)) result (fitting_at w16 (λ n. named_fit named pool.now (entry_of pool.now n)) spot.now opcode bytes.now) }
{
    let (index, rest) = u16_or(spot.cut(), bytes)?;
    judge(spot, opcode, named_fit(named, pool, index))?;
    Ok((Args::one(index as i32), rest))
}

// The kind of an array of numbers.
#[tactic(auto, unfolding(crate::specs::Operands::fitting_at))]
pub fn kind_of<'a>(spot: &Spot, opcode: u8, bytes: &'a [u8]) -> Result<(Args, &'a [u8]), ReadError>
    ensures { Gives (λ x. (x.0, x.1.now)) result (fitting_at w8 kind_fit spot.now opcode bytes.now) }
{
    let (kind, rest) = u8_or(spot.cut(), bytes)?;
    judge(spot, opcode, kind_fit(kind))?;
    Ok((Args::one(kind as i32), rest))
}

// An interface's method, a count and a zero.
#[tactic(auto, unfolding(crate::specs::Operands::interface_at))]
pub fn interface_of<'a>(
    pool: &Pool,
    spot: &Spot,
    bytes: &'a [u8],
) -> Result<(Args, &'a [u8]), ReadError>
    ensures { Gives (λ x. (x.0, x.1.now)) result (interface_at pool.now spot.now bytes.now) }
{
    let (index, rest) = u16_or(spot.cut(), bytes)?;
    let (count, rest) = u8_or(spot.cut(), rest)?;
    let (zero, rest) = u8_or(spot.cut(), rest)?;
    judge(spot, 185, named_fit(Named::Interface, pool, index))?;
    wants(
        counts_units(interface_units(pool, index), count) && zero == 0,
        spot.wrong(),
    )?;
    Ok((Args::two(index as i32, count as i32), rest))
}

// An array class and a number of its dimensions.
#[tactic(auto, unfolding(crate::specs::Operands::dimensions_at))]
pub fn dimensions_of<'a>(
    pool: &Pool,
    spot: &Spot,
    bytes: &'a [u8],
) -> Result<(Args, &'a [u8]), ReadError>
    ensures { Gives (λ x. (x.0, x.1.now)) result (dimensions_at pool.now spot.now bytes.now) }
{
    let (index, rest) = u16_or(spot.cut(), bytes)?;
    let (count, rest) = u8_or(spot.cut(), rest)?;
    judge(spot, 197, named_fit(Named::Nested, pool, index))?;
    wants(
        0 < count && count as usize <= dimensions(class_name(pool, index)),
        spot.wrong(),
    )?;
    Ok((Args::two(index as i32, count as i32), rest))
}
