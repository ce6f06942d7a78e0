//! Stack maps (JVMS 4.7.4).

ghost use Rattle.std.specs.Prelude.{◌≡◌, ◌++◌, OnOk};
ghost use Rattle.std.specs.List.{flat_map};
ghost use Rattle.class_write.specs.Spelling.{type_bytes, types_bytes, frame_bytes, map_bytes};

use crate::numbers::{put_byte, put_short};
use class_reader::{MapFrame, MapPart, MapType};
use et_base::NoMemory;

// An index stands behind Object, 7, and an offset behind Uninitialized, 8.
fn put_type(out: &mut Vec<u8>, one: &MapType) -> Result<(), NoMemory>
    ensures { OnOk result (out.new.items ≡ out.old.items ++ type_bytes one.now) }
{
    put_byte(out, one.tag as u64)?;
    if one.tag == 7 || one.tag == 8 {
        put_short(out, one.arg as u64)?;
    }
    Ok(())
}

fn put_all_types(out: &mut Vec<u8>, types: &[MapType]) -> Result<(), NoMemory>
    ensures { OnOk result (out.new.items ≡ out.old.items ++ flat_map type_bytes types.now) }
{
    for one in types {
        put_type(out, one)?;
    }
    Ok(())
}

// Only full_frame, 255, tells how many types there are.
fn put_types(out: &mut Vec<u8>, tag: u8, types: &[MapType]) -> Result<(), NoMemory>
    ensures { OnOk result (out.new.items ≡ out.old.items ++ types_bytes tag types.now) }
{
    if tag == 255 {
        put_short(out, types.len() as u64)?;
    }
    put_all_types(out, types)
}

fn put_frame(out: &mut Vec<u8>, frame: &MapFrame) -> Result<(), NoMemory>
    ensures { OnOk result (out.new.items ≡ out.old.items ++ frame_bytes frame.now) }
{
    put_byte(out, frame.tag as u64)?;
    if 127 < frame.tag {
        put_short(out, frame.delta as u64)?;
    }
    put_types(out, frame.tag, frame.locals.as_slice())?;
    put_types(out, frame.tag, frame.stack.as_slice())
}

fn put_frames(out: &mut Vec<u8>, frames: &[MapFrame]) -> Result<(), NoMemory>
    ensures { OnOk result (out.new.items ≡ out.old.items ++ flat_map frame_bytes frames.now) }
{
    for frame in frames {
        put_frame(out, frame)?;
    }
    Ok(())
}

/// Appends the content of a StackMapTable.
pub fn put_map(out: &mut Vec<u8>, map: &MapPart) -> Result<(), NoMemory>
    ensures { OnOk result (out.new.items ≡ out.old.items ++ map_bytes map.now) }
{
    put_short(out, map.count as u64)?;
    put_frames(out, map.frames.as_slice())?;
    out.extend_from_slice(map.rest.as_slice())?;
    Ok(())
}
