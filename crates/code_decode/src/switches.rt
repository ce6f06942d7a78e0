//! The operands of tableswitch and lookupswitch.

ghost use Rattle.std.specs.Prelude.{◌≡◌, ℤ, pos, ◌+◌, ◌-◌, ◌-ℤ◌, int_le, nat_abs, List, [], ◌∷◌, ◌++◌, OnOk, IfOk, IfErr};
ghost use Rattle.class_pool.specs.{declared.fault.ReadError.TheVariants.Memory, Reading.Gives, Loops.counted, Loops.folded};
ghost use Rattle.code_decode.specs.Switches.{padding, word_at, place_at, other_at, ends_at, span, rows_at, table_at, count_at, pairs_at, pair_at, keys_rise, lookup_at};

use crate::args::Args;
use crate::place::Spot;
use class_pool::ReadError;
use class_pool::fault::wants;
use class_pool::fields::{run_or, u32_or};
use et_base::Items;
use std::alloc::Global;

fn word_of<'a>(spot: &Spot, bytes: &'a [u8]) -> Result<(i32, &'a [u8]), ReadError>
    ensures { Gives (λ x. (x.0, x.1.now)) result (word_at spot.now bytes.now) }
{
    let (number, rest) = u32_or(spot.cut(), bytes)?;
    Ok((number.cast_signed(), rest))
}

fn place_of<'a>(spot: &Spot, bytes: &'a [u8]) -> Result<(i32, &'a [u8]), ReadError>
    ensures { Gives (λ x. (x.0, x.1.now)) result (place_at spot.now bytes.now) }
{
    let (number, rest) = u32_or(spot.cut(), bytes)?;
    Ok((spot.target(number.cast_signed()), rest))
}

#[tactic(auto, unfolding(crate::specs::Switches::other_at))]
fn other_of<'a>(spot: &Spot, bytes: &'a [u8]) -> Result<(i32, &'a [u8]), ReadError>
    ensures { Gives (λ x. (x.0, x.1.now)) result (other_at spot.now bytes.now) }
{
    let (_pad, rest) = run_or(spot.cut(), 3 - spot.pc as usize % 4, bytes)?;
    place_of(spot, rest)
}

fn in_order(low: i32, high: i32) -> bool
    ensures { result ≡ int_le low high }
{
    low <= high
}

// How many numbers there are from low to high.
fn span(low: i32, high: i32) -> u64
    ensures { result ≡ span low high }
{
    (high as i64 - low as i64).unsigned_abs() + 1
}

#[tactic(auto, unfolding(crate::specs::Switches::ends_at))]
fn ends_of<'a>(spot: &Spot, bytes: &'a [u8]) -> Result<((i32, i32), &'a [u8]), ReadError>
    ensures { Gives (λ x. (x.0, x.1.now)) result (ends_at spot.now bytes.now) }
{
    let (low, rest) = word_of(spot, bytes)?;
    let (high, rest) = word_of(spot, rest)?;
    wants(in_order(low, high), spot.wrong())?;
    Ok(((low, high), rest))
}

fn add(args: &mut Items<i32>, arg: i32) -> Result<(), ReadError>
    ensures gives { OnOk result (args.new ≡ args.old ++ arg ∷ []) }
    ensures err { IfErr result (λ e. e ≡ Memory) }
{
    args.push(arg)?;
    Ok(())
}

fn add_two(args: &mut Items<i32>, first: i32, second: i32) -> Result<(), ReadError>
    ensures gives { OnOk result (args.new ≡ args.old ++ first ∷ second ∷ []) }
    ensures err { IfErr result (λ e. e ≡ Memory) }
{
    args.push(first)?;
    args.push(second)?;
    Ok(())
}

fn one(alloc: Global, arg: i32) -> Result<Items<i32>, ReadError>
    ensures gives { IfOk result (λ v. v ≡ arg ∷ []) }
    ensures err { IfErr result (λ e. e ≡ Memory) }
{
    let mut args = Items::new(alloc);
    args.push(arg)?;
    Ok(args)
}

fn three(alloc: Global, first: i32, second: i32, third: i32) -> Result<Items<i32>, ReadError>
    ensures gives { IfOk result (λ v. v ≡ first ∷ second ∷ third ∷ []) }
    ensures err { IfErr result (λ e. e ≡ Memory) }
{
    let mut args = Items::new(alloc);
    args.push(first)?;
    args.push(second)?;
    args.push(third)?;
    Ok(args)
}

// So many places behind the operands so far.
fn places_of<'a>(
    spot: &Spot,
    args: Items<i32>,
    count: u64,
    bytes: &'a [u8],
) -> Result<(Items<i32>, &'a [u8]), ReadError>
    ensures { Gives (λ x. (x.0, x.1.now)) result (counted (λ _ _ b. place_at spot.now b) args count bytes.now) }
{
    let mut args = args;
    let mut rest = bytes;
    for i in 0..count {
        let (to, next) = place_of(spot, rest)?;
        add(&mut args, to)?;
        rest = next;
    }
    Ok((args, rest))
}

#[tactic(auto, unfolding(crate::specs::Switches::rows_at))]
fn rows_of<'a>(
    alloc: Global,
    spot: &Spot,
    other: i32,
    low: i32,
    high: i32,
    bytes: &'a [u8],
) -> Result<(Items<i32>, &'a [u8]), ReadError>
    ensures { Gives (λ x. (x.0, x.1.now)) result (rows_at spot.now other low high bytes.now) }
{
    let args = three(alloc, other, low, high)?;
    places_of(spot, args, span(low, high), bytes)
}

// The operands of tableswitch.
#[tactic(auto, unfolding(crate::specs::Switches::table_at))]
pub fn table_of<'a>(
    alloc: Global,
    spot: &Spot,
    bytes: &'a [u8],
) -> Result<(Args, &'a [u8]), ReadError>
    ensures { Gives (λ x. (x.0, x.1.now)) result (table_at spot.now bytes.now) }
{
    let (other, rest) = other_of(spot, bytes)?;
    let ((low, high), rest) = ends_of(spot, rest)?;
    let (args, rest) = rows_of(alloc, spot, other, low, high, rest)?;
    Ok((Args::many(alloc, args)?, rest))
}

#[tactic(auto, unfolding(crate::specs::Switches::count_at))]
fn pair_count_of<'a>(spot: &Spot, bytes: &'a [u8]) -> Result<(u32, &'a [u8]), ReadError>
    ensures { Gives (λ x. (x.0, x.1.now)) result (count_at spot.now bytes.now) }
{
    let (count, rest) = u32_or(spot.cut(), bytes)?;
    wants(count < 0x8000_0000, spot.wrong())?;
    Ok((count, rest))
}

// One more key and its place.
#[tactic(auto, unfolding(crate::specs::Switches::pair_at))]
fn pair_of<'a>(
    spot: &Spot,
    args: Items<i32>,
    bytes: &'a [u8],
) -> Result<(Items<i32>, &'a [u8]), ReadError>
    ensures { Gives (λ x. (x.0, x.1.now)) result (pair_at spot.now args bytes.now) }
{
    let (key, rest) = word_of(spot, bytes)?;
    let (to, rest) = place_of(spot, rest)?;
    let mut args = args;
    add_two(&mut args, key, to)?;
    Ok((args, rest))
}

// So many keys and places behind the operands so far.
fn all_pairs_of<'a>(
    spot: &Spot,
    args: Items<i32>,
    count: u32,
    bytes: &'a [u8],
) -> Result<(Items<i32>, &'a [u8]), ReadError>
    ensures { Gives (λ x. (x.0, x.1.now)) result (folded (λ now b. pair_at spot.now now b) args count bytes.now) }
{
    let mut args = args;
    let mut rest = bytes;
    for i in 0..count {
        let (now, next) = pair_of(spot, args, rest)?;
        args = now;
        rest = next;
    }
    Ok((args, rest))
}

fn keys_rise(args: &[i32]) -> bool
    ensures { result ≡ keys_rise args.now }
{
    args.iter()
        .enumerate()
        .all(|(i, key)| i < 3 || i % 2 == 0 || args[i - 2] < *key)
}

#[tactic(auto, unfolding(crate::specs::Switches::pairs_at))]
fn pairs_of<'a>(
    alloc: Global,
    spot: &Spot,
    other: i32,
    bytes: &'a [u8],
) -> Result<(Items<i32>, &'a [u8]), ReadError>
    ensures { Gives (λ x. (x.0, x.1.now)) result (pairs_at spot.now other bytes.now) }
{
    let args = one(alloc, other)?;
    let (count, rest) = pair_count_of(spot, bytes)?;
    all_pairs_of(spot, args, count, rest)
}

// The operands of lookupswitch.
#[tactic(auto, unfolding(crate::specs::Switches::lookup_at))]
pub fn lookup_of<'a>(
    alloc: Global,
    spot: &Spot,
    bytes: &'a [u8],
) -> Result<(Args, &'a [u8]), ReadError>
    ensures { Gives (λ x. (x.0, x.1.now)) result (lookup_at spot.now bytes.now) }
{
    let (other, rest) = other_of(spot, bytes)?;
    let (args, rest) = pairs_of(alloc, spot, other, rest)?;
    wants(keys_rise(args.as_slice()), spot.wrong())?;
    Ok((Args::many(alloc, args)?, rest))
}
