//! Numbers, high byte first, and entries of a constant pool (JVMS 4.4).

ghost use Rattle.std.specs.Prelude.{◌≡◌, ◌++◌, OnOk};
ghost use Rattle.std.specs.Int.{w32, to_be_bytes};
ghost use Rattle.suite_gen.specs.Bytes.{short, twin, name_bytes};

use et_base::{NoMemory, Text, push_decimal};
use std::alloc::Global;

/// Appends the low two bytes of a number.
pub fn push_short(out: &mut Text, n: u64) -> Result<(), NoMemory>
    ensures { OnOk result (out.new ≡ out.old ++ short n) }
{
    out.extend_from_slice(&n.to_be_bytes()[6..])
}

/// Appends the four bytes of a number.
pub fn push_word(out: &mut Text, n: u32) -> Result<(), NoMemory>
    ensures { OnOk result (out.new ≡ out.old ++ to_be_bytes w32 n) }
{
    out.extend_from_slice(&n.to_be_bytes())
}

/// Appends a tag and two indices.
pub fn push_twin(out: &mut Text, tag: u8, first: u64, second: u64) -> Result<(), NoMemory>
    ensures { OnOk result (out.new ≡ out.old ++ twin tag first second) }
{
    out.push(tag)?;
    push_short(out, first)?;
    push_short(out, second)
}

/// Appends the entry of a name: a letter, and a number behind it.
pub fn push_name(alloc: Global, out: &mut Text, letter: u8, number: u64) -> Result<(), NoMemory>
    ensures { OnOk result (out.new ≡ out.old ++ name_bytes letter number) }
{
    let mut name = Text::new(alloc);
    name.push(letter)?;
    push_decimal(&mut name, number)?;
    out.push(1)?;
    push_short(out, name.len() as u64)?;
    out.extend_from_slice(name.as_slice())
}
