//! Needs and types, put together.

ghost use Rattle.std.specs.Prelude.{◌≡◌, ◌∷◌, ◌++◌, [], IfOk, OnOk, flat_map, map, MatchOption, replicate, reverse, cond, length, slice_index_or};
ghost use Rattle.jvm_model.specs.declared.values.Base.TheVariants as jvm;
ghost use Rattle.type_frames.specs.declared.vtype.VType.TheVariants as types;
ghost use Rattle.type_frames.specs.declared.stack_effect.OperandConstraint.TheVariants as wants;
ghost use Rattle.type_frames.specs.{Frames.same, Descriptors.base_text, Descriptors.kind_name, Descriptors.types_of};
ghost use Rattle.type_frames.specs.StackEffect.{argument_needs, int_need, is_raw, int_type, long_need, long_type, needs_of, number_need, number_type, objects_text, on_stack, place_of, plain, two};

use crate::frame_type::FrameType;
use et_base::letters::{
    ARRAY, BOOLEAN, BYTE, CHAR, CLASS, DOUBLE, FLOAT, INT, LONG, SEMICOLON, SHORT, VOID,
};
use et_base::{Items, NoMemory, Units};
use jvm_model::{Base, Kind, OBJECT, Program, parameters};
use std::alloc::Global;
use type_frames::{
    OperandConstraint, StackEffect, Substitution, VType, class_name, copy_type, push_types, same,
    spread,
};

/// The sides of what takes and gives nothing; what an instruction takes and gives is added to them.
pub(crate) fn nothing(alloc: Global) -> StackEffect
    ensures { result ≡ plain [] [] }
{
    StackEffect {
        takes: Items::new(alloc),
        gives: Items::new(alloc),
        reads: Items::new(alloc),
        sets: Items::new(alloc),
        turn: Substitution::Keep,
        falls: true,
        returns_well: true,
        starts_well: true,
        calls_well: true,
    }
}

/// Appends the need of an int.
pub(crate) fn push_int(needs: &mut Items<OperandConstraint>) -> Result<(), NoMemory>
    ensures { OnOk result (needs.new ≡ needs.old ++ int_need) }
{
    needs.push(OperandConstraint::Fits(VType::Int))
}

/// Appends the needs of a long.
pub(crate) fn push_long(needs: &mut Items<OperandConstraint>) -> Result<(), NoMemory>
    ensures { OnOk result (needs.new ≡ needs.old ++ long_need) }
{
    needs.push(OperandConstraint::Half)?;
    needs.push(OperandConstraint::Fits(VType::Long))
}

/// Appends the needs of a whole number of either width.
pub(crate) fn push_number(needs: &mut Items<OperandConstraint>, wide: bool) -> Result<(), NoMemory>
    ensures { OnOk result (needs.new ≡ needs.old ++ number_need wide) }
{
    if wide {
        push_long(needs)
    } else {
        push_int(needs)
    }
}

/// Appends the needs of two places: of a long, where the top one is the second half of one.
pub(crate) fn push_two(needs: &mut Items<OperandConstraint>, half: bool) -> Result<(), NoMemory>
    ensures { OnOk result (needs.new ≡
        needs.old ++ cond half long_need (wants.One ∷ wants.One ∷ [])) }
{
    if half {
        return push_long(needs);
    }
    needs.push(OperandConstraint::One)?;
    needs.push(OperandConstraint::One)
}

/// Appends the places of a long, top first.
pub(crate) fn push_long_type(types: &mut Items<VType>) -> Result<(), NoMemory>
    ensures { OnOk result (types.new ≡ types.old ++ long_type) }
{
    types.push(VType::Top)?;
    types.push(VType::Long)
}

/// Appends the places of a whole number of either width.
pub(crate) fn push_number_type(types: &mut Items<VType>, wide: bool) -> Result<(), NoMemory>
    ensures { OnOk result (types.new ≡ types.old ++ number_type wide) }
{
    if wide {
        push_long_type(types)
    } else {
        types.push(VType::Int)
    }
}

// The type of a place of the stack, from its top; none past its end.
#[tactic(auto, using(crate::proofs::Stacks::from_top, crate::proofs::Stacks::from_top_past))]
fn type_at(frame: &FrameType, place: usize) -> Option<&VType>
    ensures { MatchOption result (place_of frame.now place ≡ types.Top)
        (λ t. t.now ≡ place_of frame.now place) }
{
    let depth = frame.stack.len();
    if place < depth {
        return Some(&frame.stack[depth - 1 - place]);
    }
    None
}

/// The type of a place of the stack, from its top.
pub(crate) fn place_of(alloc: Global, frame: &FrameType, place: usize) -> Result<VType, NoMemory>
    ensures { IfOk result (λ t. t ≡ place_of frame.now place) }
{
    match type_at(frame, place) {
        None => Ok(VType::Top),
        Some(t) => copy_type(alloc, t),
    }
}

/// Whether a place of the stack is the second half of a long.
pub(crate) fn is_half(frame: &FrameType, place: usize) -> bool
    ensures { result ≡ same (place_of frame.now place) types.Top }
{
    match type_at(frame, place) {
        None => true,
        Some(t) => same(t, &VType::Top),
    }
}

/// Whether a type is one of an uninitialised object.
pub(crate) fn is_raw(vtype: &VType) -> bool
    ensures { result ≡ is_raw vtype.now }
{
    match vtype {
        VType::UninitThis | VType::Uninit { pc: _ } => true,
        _ => false,
    }
}

/// Whether a place of the stack is one of an uninitialised object.
pub(crate) fn is_raw_at(frame: &FrameType, place: usize) -> bool
    ensures { result ≡ is_raw (place_of frame.now place) }
{
    match type_at(frame, place) {
        None => false,
        Some(t) => is_raw(t),
    }
}

/// Appends the types of these places of the stack.
pub(crate) fn push_moved(
    alloc: Global,
    types: &mut Items<VType>,
    frame: &FrameType,
    order: &[usize],
) -> Result<(), NoMemory>
    ensures { OnOk result (types.new ≡ types.old ++ map (λ n. place_of frame.now n) order.now) }
{
    for n in order {
        types.push(place_of(alloc, frame, *n)?)?;
    }
    Ok(())
}

/// The need of an object of the class of this name, or of the array of this descriptor.
pub(crate) fn object_need(alloc: Global, name: &[u16]) -> Result<OperandConstraint, NoMemory>
    ensures { IfOk result (λ n. n ≡ wants.Fits (types.Object name.now)) }
{
    Ok(OperandConstraint::Fits(VType::Object(Items::from_slice(alloc, name)?)))
}

/// Appends the need of such an object.
pub(crate) fn push_object(
    alloc: Global,
    needs: &mut Items<OperandConstraint>,
    name: &[u16],
) -> Result<(), NoMemory>
    ensures { OnOk result (needs.new ≡ needs.old ++ wants.Fits (types.Object name.now) ∷ []) }
{
    needs.push(object_need(alloc, name)?)
}

/// Appends the needs of a value of a type's text, top first.
pub(crate) fn push_needs(
    alloc: Global,
    needs: &mut Items<OperandConstraint>,
    text: &[u16],
) -> Result<(), NoMemory>
    ensures { OnOk result (needs.new ≡ needs.old ++ needs_of text.now) }
{
    let Some((u, rest)) = text.split_first() else {
        return Ok(());
    };
    if *u == LONG {
        return push_long(needs);
    }
    if *u == CLASS {
        return push_object(alloc, needs, class_name(rest));
    }
    if *u == ARRAY {
        return push_object(alloc, needs, text);
    }
    if *u == VOID {
        return Ok(());
    }
    if *u == FLOAT {
        return needs.push(OperandConstraint::Never);
    }
    if *u == DOUBLE {
        needs.push(OperandConstraint::Never)?;
        return needs.push(OperandConstraint::Never);
    }
    push_int(needs)
}

// Appends the needs of values of these texts, the last one's first.
fn push_all_needs(
    alloc: Global,
    needs: &mut Items<OperandConstraint>,
    texts: &[Units],
) -> Result<(), NoMemory>
    ensures { OnOk result (needs.new ≡ needs.old ++ flat_map needs_of (reverse texts.now)) }
{
    if let Some((text, rest)) = texts.split_last() {
        push_needs(alloc, needs, text.as_slice())?;
        push_all_needs(alloc, needs, rest)?;
    }
    Ok(())
}

/// Appends the needs of a call's arguments, top first.
pub(crate) fn push_argument_needs(
    alloc: Global,
    needs: &mut Items<OperandConstraint>,
    descriptor: &[u16],
) -> Result<(), NoMemory>
    ensures { OnOk result (needs.new ≡ needs.old ++ argument_needs descriptor.now) }
{
    let texts = parameters(alloc, descriptor)?;
    push_all_needs(alloc, needs, texts.as_slice())
}

/// The places of the type that a text says, as they stand on the stack, top first.
pub(crate) fn text_types(alloc: Global, text: &[u16]) -> Result<Items<VType>, NoMemory>
    ensures { IfOk result (λ ts. ts ≡ on_stack (types_of text.now)) }
{
    let mut types = Items::new(alloc);
    push_types(alloc, &mut types, text)?;
    let mut places = spread(alloc, types.as_slice())?.into_vec();
    places.reverse();
    Ok(Items::from_vec(places))
}

fn push_brackets(text: &mut Units, dims: u8) -> Result<(), NoMemory>
    ensures { OnOk result (text.new ≡ text.old ++ replicate dims 91) }
{
    for done in 0..dims {
        text.push(ARRAY)?;
    }
    Ok(())
}

fn push_class(program: &Program, text: &mut Units, class: u32) -> Result<(), NoMemory>
    ensures { OnOk result (text.new ≡ text.old ++ base_text program.now (jvm.Class class)) }
{
    text.push(CLASS)?;
    text.extend_from_slice(program.class_name(class))?;
    text.push(SEMICOLON)
}

fn push_base(program: &Program, text: &mut Units, base: &Base) -> Result<(), NoMemory>
    ensures { OnOk result (text.new ≡ text.old ++ base_text program.now base.now) }
{
    match base {
        Base::Boolean => text.push(BOOLEAN),
        Base::Byte => text.push(BYTE),
        Base::Char => text.push(CHAR),
        Base::Short => text.push(SHORT),
        Base::Int => text.push(INT),
        Base::Long => text.push(LONG),
        Base::Class(class) => push_class(program, text, *class),
    }
}

/// The name of a class, or the descriptor of an array.
pub(crate) fn kind_name(alloc: Global, program: &Program, kind: &Kind) -> Result<Units, NoMemory>
    ensures { IfOk result (λ name. name ≡ kind_name program.now kind.now) }
{
    match kind {
        Kind::Class(class) => Items::from_slice(alloc, program.class_name(*class)),
        Kind::Array { dims, base } => {
            let mut text = Items::new(alloc);
            push_brackets(&mut text, *dims)?;
            push_base(program, &mut text, base)?;
            Ok(text)
        }
    }
}

/// The array type of one dimension over Object.
pub(crate) fn objects_text(alloc: Global, program: &Program) -> Result<Units, NoMemory>
    ensures { IfOk result (λ text. text ≡ objects_text program.now) }
{
    let mut text = Items::new(alloc);
    text.push(ARRAY)?;
    push_class(program, &mut text, OBJECT)?;
    Ok(text)
}
