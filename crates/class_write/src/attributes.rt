//! Attributes (JVMS 4.7).

ghost use Rattle.std.specs.Prelude.{◌≡◌, ◌++◌, OnOk, IfOk};
ghost use Rattle.std.specs.List.{flat_map};
ghost use Rattle.class_write.specs.Spelling.{short_bytes, listed_bytes, sized_bytes, attribute_bytes, map_bytes, handler_bytes, part_bytes};

use crate::instructions::put_code;
use crate::maps::put_map;
use crate::names::Names;
use crate::numbers::{put_short, put_word};
use class_reader::{CodePart, MapPart, RawHandler};
use et_base::NoMemory;
use std::alloc::Global;

// One attribute, of this name and content.
fn put_attribute(out: &mut Vec<u8>, name: u16, content: &[u8]) -> Result<(), NoMemory>
    ensures { OnOk result (out.new.items ≡ out.old.items ++ (short_bytes 1 ++ (short_bytes name ++ sized_bytes content.now))) }
{
    put_short(out, 1)?;
    put_short(out, name as u64)?;
    put_word(out, content.len() as u64)?;
    out.extend_from_slice(content)?;
    Ok(())
}

/// Appends the attributes of a field: its ConstantValue, if it has one.
pub fn put_constant(out: &mut Vec<u8>, names: Names, constant: Option<u16>) -> Result<(), NoMemory>
    ensures { OnOk result (out.new.items ≡ out.old.items ++ attribute_bytes names.constant_value short_bytes constant) }
{
    match constant {
        None => put_short(out, 0),
        Some(index) => put_attribute(out, names.constant_value, &index.to_be_bytes()),
    }
}

fn map_content(alloc: Global, map: &MapPart) -> Result<Vec<u8>, NoMemory>
    ensures { IfOk result (λ v. v.items ≡ map_bytes map.now) }
{
    let mut content = Vec::new(alloc);
    put_map(&mut content, map)?;
    Ok(content)
}

fn put_stack_map(
    alloc: Global,
    out: &mut Vec<u8>,
    names: Names,
    map: &Option<MapPart>,
) -> Result<(), NoMemory>
    ensures { OnOk result (out.new.items ≡ out.old.items ++ attribute_bytes names.stack_map map_bytes map.now) }
{
    match map {
        None => put_short(out, 0),
        Some(map) => {
            let content = map_content(alloc, map)?;
            put_attribute(out, names.stack_map, content.as_slice())
        }
    }
}

fn put_handler(out: &mut Vec<u8>, handler: &RawHandler) -> Result<(), NoMemory>
    ensures { OnOk result (out.new.items ≡ out.old.items ++ handler_bytes handler.now) }
{
    put_short(out, handler.from as u64)?;
    put_short(out, handler.to as u64)?;
    put_short(out, handler.at as u64)?;
    put_short(out, handler.catch_class as u64)
}

fn put_handlers(out: &mut Vec<u8>, handlers: &[RawHandler]) -> Result<(), NoMemory>
    ensures { OnOk result (out.new.items ≡ out.old.items ++ listed_bytes handler_bytes handlers.now) }
{
    put_short(out, handlers.len() as u64)?;
    for handler in handlers {
        put_handler(out, handler)?;
    }
    Ok(())
}

fn part_content(alloc: Global, names: Names, part: &CodePart) -> Result<Vec<u8>, NoMemory>
    ensures { IfOk result (λ v. v.items ≡ part_bytes names part.now) }
{
    let mut content = Vec::new(alloc);
    put_short(&mut content, part.max_stack as u64)?;
    put_short(&mut content, part.max_locals as u64)?;
    put_code(&mut content, &part.code)?;
    put_handlers(&mut content, part.handlers.as_slice())?;
    put_stack_map(alloc, &mut content, names, &part.map)?;
    Ok(content)
}

/// Appends the attributes of a method: its Code, if it has one.
pub fn put_code_part(
    alloc: Global,
    out: &mut Vec<u8>,
    names: Names,
    part: &Option<CodePart>,
) -> Result<(), NoMemory>
    ensures { OnOk result (out.new.items ≡ out.old.items ++ attribute_bytes names.code (part_bytes names) part.now) }
{
    match part {
        None => put_short(out, 0),
        Some(part) => {
            let content = part_content(alloc, names, part)?;
            put_attribute(out, names.code, content.as_slice())
        }
    }
}
