//! The operands of instructions (JVMS 6.5).

ghost use Rattle.std.specs.Prelude.{◌≡◌, ℤ, List, ◌++◌, replicate, OnOk};
ghost use Rattle.std.specs.{List.flat_map, Int.w32};
ghost use Rattle.code_decode.specs.Switches.{padding};
ghost use Rattle.code_decode.specs.Spelling.{offset_bytes, pair_bytes, one_bytes, two_bytes, table_bytes, lookup_bytes, args_bytes, wide_args_bytes};
ghost use Rattle.class_write.specs.Forms.{form_bytes};

use crate::numbers::{complement, put_byte, put_short, put_word};
use code_decode::{Shape, takes_local};
use et_base::NoMemory;

/// How one operand is written.
#[derive(Clone, Copy)]
pub enum Form {
    /// A number of one byte.
    Byte,
    /// A number of two bytes.
    Short,
    /// A signed number of one byte.
    SignedByte,
    /// A signed number of two bytes.
    SignedShort,
    /// A signed number of four bytes.
    SignedWord,
    /// A place, by its offset of two bytes from this pc.
    Near(u32),
    /// A place, by its offset of four bytes from this pc.
    Far(u32),
    /// A number of one byte and a zero.
    Counted,
}

fn put_operand(out: &mut Vec<u8>, form: Form, z: i32) -> Result<(), NoMemory>
    ensures { OnOk result (out.new.items ≡ out.old.items ++ form_bytes form z) }
{
    let signed = z as i64;
    match form {
        Form::Byte => put_byte(out, signed.unsigned_abs()),
        Form::Short => put_short(out, signed.unsigned_abs()),
        Form::SignedByte => put_byte(out, complement(signed, 1 << 8)),
        Form::SignedShort => put_short(out, complement(signed, 1 << 16)),
        Form::SignedWord => put_word(out, complement(signed, 1 << 32)),
        Form::Near(pc) => put_short(out, complement(signed - pc as i64, 1 << 16)),
        Form::Far(pc) => put_word(out, complement(signed - pc as i64, 1 << 32)),
        Form::Counted => {
            put_byte(out, signed.unsigned_abs())?;
            put_byte(out, 0)
        }
    }
}

fn put_one(out: &mut Vec<u8>, form: Form, args: &[i32]) -> Result<(), NoMemory>
    ensures { OnOk result (out.new.items ≡ out.old.items ++ one_bytes (form_bytes form) args.now) }
{
    match args {
        [z] => put_operand(out, form, *z),
        _ => Ok(()),
    }
}

fn put_two(out: &mut Vec<u8>, first: Form, second: Form, args: &[i32]) -> Result<(), NoMemory>
    ensures { OnOk result (out.new.items ≡ out.old.items ++ two_bytes (form_bytes first) (form_bytes second) args.now) }
{
    match args {
        [a, b] => {
            put_operand(out, first, *a)?;
            put_operand(out, second, *b)
        }
        _ => Ok(()),
    }
}

// The padding of a switch at a pc.
fn put_padding(out: &mut Vec<u8>, pc: u32) -> Result<(), NoMemory>
    ensures { OnOk result (out.new.items ≡ out.old.items ++ replicate (padding pc) 0) }
{
    let zeros = [0u8; 3];
    out.extend_from_slice(&zeros[pc as usize % 4..])?;
    Ok(())
}

// The padding, and the place for every other number.
fn put_other(out: &mut Vec<u8>, pc: u32, other: i32) -> Result<(), NoMemory>
    ensures { OnOk result (out.new.items ≡ out.old.items ++ (replicate (padding pc) 0 ++ offset_bytes w32 pc other)) }
{
    put_padding(out, pc)?;
    put_operand(out, Form::Far(pc), other)
}

fn put_places(out: &mut Vec<u8>, pc: u32, places: &[i32]) -> Result<(), NoMemory>
    ensures { OnOk result (out.new.items ≡ out.old.items ++ flat_map (offset_bytes w32 pc) places.now) }
{
    for place in places {
        put_operand(out, Form::Far(pc), *place)?;
    }
    Ok(())
}

fn put_table(out: &mut Vec<u8>, pc: u32, args: &[i32]) -> Result<(), NoMemory>
    ensures { OnOk result (out.new.items ≡ out.old.items ++ table_bytes pc args.now) }
{
    match args {
        [other, low, high, places @ ..] => {
            put_other(out, pc, *other)?;
            put_operand(out, Form::SignedWord, *low)?;
            put_operand(out, Form::SignedWord, *high)?;
            put_places(out, pc, places)
        }
        _ => Ok(()),
    }
}

// Keys and places in turn.
fn put_pairs(out: &mut Vec<u8>, pc: u32, pairs: &[i32]) -> Result<(), NoMemory>
    ensures { OnOk result (out.new.items ≡ out.old.items ++ pair_bytes pc pairs.now) }
{
    for i in 0..pairs.len() / 2 {
        put_operand(out, Form::SignedWord, pairs[2 * i])?;
        put_operand(out, Form::Far(pc), pairs[2 * i + 1])?;
    }
    Ok(())
}

fn put_lookup(out: &mut Vec<u8>, pc: u32, args: &[i32]) -> Result<(), NoMemory>
    ensures { OnOk result (out.new.items ≡ out.old.items ++ lookup_bytes pc args.now) }
{
    match args {
        [other, pairs @ ..] => {
            put_other(out, pc, *other)?;
            put_word(out, pairs.len() as u64 / 2)?;
            put_pairs(out, pc, pairs)
        }
        [] => Ok(()),
    }
}

/// Appends the operands of an instruction at a pc, in this form.
pub fn put_args(out: &mut Vec<u8>, pc: u32, shape: Shape, args: &[i32]) -> Result<(), NoMemory>
    ensures { OnOk result (out.new.items ≡ out.old.items ++ args_bytes pc shape args.now) }
{
    match shape {
        Shape::Plain => Ok(()),
        Shape::Byte => put_one(out, Form::SignedByte, args),
        Shape::Short => put_one(out, Form::SignedShort, args),
        Shape::Local => put_one(out, Form::Byte, args),
        Shape::Increment => put_two(out, Form::Byte, Form::SignedByte, args),
        Shape::Near(_) => put_one(out, Form::Byte, args),
        Shape::Far(_) => put_one(out, Form::Short, args),
        Shape::Entry(_) => put_one(out, Form::Short, args),
        Shape::Interface => put_two(out, Form::Short, Form::Counted, args),
        Shape::Kind => put_one(out, Form::Byte, args),
        Shape::Dimensions => put_two(out, Form::Short, Form::Byte, args),
        Shape::Branch => put_one(out, Form::Near(pc), args),
        Shape::FarBranch => put_one(out, Form::Far(pc), args),
        Shape::Table => put_table(out, pc, args),
        Shape::Lookup => put_lookup(out, pc, args),
    }
}

/// Appends the operands of an instruction behind wide.
pub fn put_wide_args(out: &mut Vec<u8>, opcode: u8, args: &[i32]) -> Result<(), NoMemory>
    ensures { OnOk result (out.new.items ≡ out.old.items ++ wide_args_bytes opcode args.now) }
{
    if takes_local(opcode) {
        put_one(out, Form::Short, args)
    } else {
        put_two(out, Form::Short, Form::SignedShort, args)
    }
}
