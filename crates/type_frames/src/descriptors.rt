//! The types that a descriptor names (JVMS 4.3).

ghost use Rattle.std.specs.Prelude.{◌≡◌, ◌++◌, OnOk, flat_map};
ghost use Rattle.type_frames.specs.Descriptors.{class_name, types_of};

use crate::vtype::VType;
use et_base::letters::{ARRAY, CLASS, DOUBLE, FLOAT, LONG, VOID};
use et_base::{Items, NoMemory, Units};
use std::alloc::Global;

/// A class's name, from what follows the L of its text.
pub fn class_name(text: &[u16]) -> &[u16]
    ensures { result.now ≡ class_name text.now }
{
    if text.is_empty() {
        return text;
    }
    &text[..text.len() - 1]
}

/// Appends the type that a text says, if it says one. After a refusal part of it may stand there.
pub fn push_types(alloc: Global, types: &mut Items<VType>, text: &[u16]) -> Result<(), NoMemory>
    ensures { OnOk result (types.new ≡ types.old ++ types_of text.now) }
{
    let Some((u, rest)) = text.split_first() else {
        return Ok(());
    };
    if *u == LONG {
        return types.push(VType::Long);
    }
    if *u == CLASS {
        return types.push(VType::Object(Items::from_slice(alloc, class_name(rest))?));
    }
    if *u == ARRAY {
        return types.push(VType::Object(Items::from_slice(alloc, text)?));
    }
    if *u == VOID {
        return Ok(());
    }
    if *u == FLOAT {
        return types.push(VType::Top);
    }
    if *u == DOUBLE {
        types.push(VType::Top)?;
        return types.push(VType::Top);
    }
    types.push(VType::Int)
}

/// Appends the types that texts say. After a refusal part of them may stand there.
pub(crate) fn push_all_types(
    alloc: Global,
    types: &mut Items<VType>,
    texts: &[Units],
) -> Result<(), NoMemory>
    ensures { OnOk result (types.new ≡ types.old ++ flat_map types_of texts.now) }
{
    for text in texts {
        push_types(alloc, types, text.as_slice())?;
    }
    Ok(())
}
