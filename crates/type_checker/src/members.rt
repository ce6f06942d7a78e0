//! The sides of branches, returns, fields, calls, objects and arrays.

ghost use Rattle.std.specs.Prelude.{◌≡◌, ◌∷◌, ◌++◌, [], IfOk, OnOk, Bool, true, false, not, ◌&&◌, ◌||◌, length, option_to_list, replicate, reverse, List};
ghost use Rattle.std.specs.List.{list_any};
ghost use Rattle.type_frames.specs.{declared.vtype.VType.VType, Frames.same, Descriptors.kind_name, Descriptors.types_of};
ghost use Rattle.jvm_model.specs.Classes.{class_at, field_at, method_at};
ghost use Rattle.type_frames.specs.declared.vtype.VType.TheVariants as types;
ghost use Rattle.type_frames.specs.declared.stack_effect.OperandConstraint.TheVariants as wants;
ghost use Rattle.type_frames.specs.declared.stack_effect.Substitution.TheVariants as turns;
ghost use Rattle.type_frames.specs.StackEffect.{argument_needs, array_need, call_sides, element_type, init_sides, int_need, int_type, is_that, is_raw, is_start, leaving, loaded, needs_of, new_sides, object_of, on_stack, owner_need, place_of, plain, put_field_sides, ref_sides, refs_sides, return_sides, return_typed, returns, special_need, special_sides, started, stored};

use crate::build::{
    is_raw_at, kind_name, object_need, objects_text, place_of, push_argument_needs, push_int,
    push_long, push_long_type, push_needs, push_object, text_types,
};
use crate::context::{Context, made_at};
use crate::frame_type::FrameType;
use et_base::letters::{ARRAY, CHAR, CLASS, INT, LONG, SHORT};
use et_base::{Items, NoMemory};
use jvm_model::{CLINIT, Cell, INIT, Kind, OBJECT, Program, Sort, THROWABLE, return_type};
use std::alloc::Global;
use type_frames::{
    OperandConstraint, StackEffect, Substitution, VType, class_name, copy_type, object_assignable,
    object_of, same,
};

pub(crate) fn reference(effect: &mut StackEffect, frame: &FrameType) -> Result<(), NoMemory>
    requires { effect.old ≡ plain [] [] }
    ensures { OnOk result (effect.new ≡ ref_sides (place_of frame.now 0)) }
{
    effect.starts_well = !is_raw_at(frame, 0);
    effect.takes.push(OperandConstraint::Ref)
}

pub(crate) fn references(effect: &mut StackEffect, frame: &FrameType) -> Result<(), NoMemory>
    requires { effect.old ≡ plain [] [] }
    ensures { OnOk result (effect.new ≡ refs_sides (place_of frame.now 0) (place_of frame.now 1)) }
{
    effect.starts_well = !is_raw_at(frame, 0) && !is_raw_at(frame, 1);
    effect.takes.push(OperandConstraint::Ref)?;
    effect.takes.push(OperandConstraint::Ref)
}

/// A jump by a table.
pub(crate) fn jump(effect: &mut StackEffect) -> Result<(), NoMemory>
    requires { effect.old ≡ plain [] [] }
    ensures { OnOk result (effect.new ≡ leaving (plain int_need [])) }
{
    effect.falls = false;
    push_int(&mut effect.takes)
}

// The needs of a return of another type than the descriptor has.
fn push_returned(needs: &mut Items<OperandConstraint>, of: &Option<Sort>) -> Result<(), NoMemory>
    ensures { OnOk result (needs.new ≡
        needs.old ++ (return_typed (types.Top ∷ []) true of.now).takes) }
{
    match of {
        None => Ok(()),
        Some(Sort::Int) => push_int(needs),
        Some(Sort::Long) => push_long(needs),
        Some(Sort::Ref) => needs.push(OperandConstraint::Ref),
    }
}

// The sides of a return, by the type that the descriptor has; a list of types is none or one of them.
fn return_typed(
    alloc: Global,
    effect: &mut StackEffect,
    types: &[VType],
    early: bool,
    of: &Option<Sort>,
) -> Result<(), NoMemory>
    requires { effect.old ≡ plain [] [] }
    ensures { OnOk result (effect.new ≡ return_typed types.now early of.now) }
{
    effect.falls = false;
    effect.returns_well = !early;
    match (types, of) {
        ([], None) => Ok(()),
        ([VType::Int], Some(Sort::Int)) => push_int(&mut effect.takes),
        ([VType::Long], Some(Sort::Long)) => push_long(&mut effect.takes),
        ([VType::Object(name)], Some(Sort::Ref)) => {
            push_object(alloc, &mut effect.takes, name.as_slice())
        }
        _ => {
            effect.returns_well = false;
            push_returned(&mut effect.takes, of)
        }
    }
}

pub(crate) fn give_back(
    alloc: Global,
    effect: &mut StackEffect,
    context: &Context,
    frame: &FrameType,
    of: &Option<Sort>,
) -> Result<(), NoMemory>
    requires { effect.old ≡ plain [] [] }
    ensures { OnOk result (effect.new ≡ return_sides context.now frame.now of.now) }
{
    return_typed(
        alloc,
        effect,
        context.result.as_slice(),
        context.starts && frame.flag,
        of,
    )
}

pub(crate) fn get_static(
    alloc: Global,
    effect: &mut StackEffect,
    program: &Program,
    field: u32,
) -> Result<(), NoMemory>
    requires { effect.old ≡ plain [] [] }
    ensures { OnOk result (effect.new ≡
        plain [] (on_stack (types_of (field_at program.now field).descriptor))) }
{
    effect.gives = text_types(alloc, program.field_descriptor(field))?;
    Ok(())
}

pub(crate) fn get_field(
    alloc: Global,
    effect: &mut StackEffect,
    program: &Program,
    named: u32,
    field: u32,
) -> Result<(), NoMemory>
    requires { effect.old ≡ plain [] [] }
    ensures { OnOk result (effect.new ≡
        plain (wants.Fits (object_of program.now named) ∷ [])
        (on_stack (types_of (field_at program.now field).descriptor))) }
{
    push_object(alloc, &mut effect.takes, program.class_name(named))?;
    effect.gives = text_types(alloc, program.field_descriptor(field))?;
    Ok(())
}

// The object of a putfield: also an uninitialised `this`, where the named and the declaring class are the current one.
fn owner_need(
    alloc: Global,
    program: &Program,
    context: &Context,
    named: u32,
    field: u32,
    vtype: &VType,
) -> Result<OperandConstraint, NoMemory>
    ensures { IfOk result (λ n.
        n ≡ owner_need program.now context.now named (field_at program.now field) vtype.now) }
{
    if same(vtype, &VType::UninitThis)
        && (named == context.class && program.field_class(field) == context.class)
    {
        return Ok(OperandConstraint::Fits(VType::UninitThis));
    }
    object_need(alloc, program.class_name(named))
}

pub(crate) fn put_field(
    alloc: Global,
    effect: &mut StackEffect,
    program: &Program,
    context: &Context,
    frame: &FrameType,
    named: u32,
    field: u32,
) -> Result<(), NoMemory>
    requires { effect.old ≡ plain [] [] }
    ensures { OnOk result (effect.new ≡
        put_field_sides program.now context.now frame.now named (field_at program.now field)) }
{
    push_needs(alloc, &mut effect.takes, program.field_descriptor(field))?;
    let t = place_of(alloc, frame, effect.takes.len())?;
    effect
        .takes
        .push(owner_need(alloc, program, context, named, field, &t)?)
}

/// A call without its receiver; `<clinit>` and `<init>` aren't called so.
pub(crate) fn call(
    alloc: Global,
    effect: &mut StackEffect,
    program: &Program,
    method: u32,
) -> Result<(), NoMemory>
    requires { effect.old ≡ plain [] [] }
    ensures { OnOk result (effect.new ≡ call_sides (method_at program.now method) []) }
{
    let descriptor = program.method_descriptor(method);
    push_argument_needs(alloc, &mut effect.takes, descriptor)?;
    effect.gives = text_types(alloc, return_type(descriptor))?;
    let name = program.method_name(method);
    effect.calls_well = !(name == CLINIT.as_slice() || name == INIT.as_slice());
    Ok(())
}

pub(crate) fn call_virtual(
    alloc: Global,
    effect: &mut StackEffect,
    program: &Program,
    named: &Kind,
    method: u32,
) -> Result<(), NoMemory>
    requires { effect.old ≡ plain [] [] }
    ensures { OnOk result (effect.new ≡
        call_sides (method_at program.now method)
        (wants.Fits (types.Object (kind_name program.now named.now)) ∷ [])) }
{
    call(alloc, effect, program, method)?;
    effect.takes.push(OperandConstraint::Fits(VType::Object(kind_name(alloc, program, named)?)))
}

pub(crate) fn call_interface(
    alloc: Global,
    effect: &mut StackEffect,
    program: &Program,
    named: u32,
    method: u32,
) -> Result<(), NoMemory>
    requires { effect.old ≡ plain [] [] }
    ensures { OnOk result (effect.new ≡
        call_sides (method_at program.now method) (wants.Fits (object_of program.now named) ∷ [])) }
{
    call(alloc, effect, program, method)?;
    push_object(alloc, &mut effect.takes, program.class_name(named))
}

// The receiver of invokespecial.
fn special_need(
    alloc: Global,
    program: &Program,
    context: &Context,
    named: &Kind,
) -> Result<OperandConstraint, NoMemory>
    ensures { IfOk result (λ n. n ≡ special_need program.now context.now named.now) }
{
    let other = VType::Object(kind_name(alloc, program, named)?);
    if object_assignable(program, program.class_name(context.class), &other) {
        return object_need(alloc, program.class_name(context.class));
    }
    Ok(OperandConstraint::Never)
}

fn is_superclass(program: &Program, context: &Context, class: u32) -> bool
    ensures { result ≡ is_that class (class_at program.now context.now.class).superclass }
{
    match program.superclass(context.class) {
        None => false,
        Some(d) => class == d,
    }
}

// Whether an `<init>` of the class may start this.
fn is_start(program: &Program, context: &Context, class: u32, vtype: &VType) -> bool
    ensures { result ≡ is_start program.now context.now class vtype.now }
{
    match vtype {
        VType::Uninit { pc } => match made_at(context, *pc) {
            None => false,
            Some(d) => class == d,
        },
        VType::UninitThis => class == context.class || is_superclass(program, context, class),
        _ => false,
    }
}

fn started(
    alloc: Global,
    program: &Program,
    context: &Context,
    class: u32,
    vtype: &VType,
) -> Result<VType, NoMemory>
    ensures { IfOk result (λ u. u ≡ started program.now context.now class vtype.now) }
{
    match vtype {
        VType::UninitThis => object_of(alloc, program, context.class),
        _ => object_of(alloc, program, class),
    }
}

// The object that an `<init>` of the class starts.
fn start(
    alloc: Global,
    effect: &mut StackEffect,
    program: &Program,
    context: &Context,
    class: u32,
    vtype: VType,
) -> Result<(), NoMemory>
    ensures { OnOk result (effect.new ≡
        record effect.old {
          turn = turns.All vtype (started program.now context.now class vtype);
          starts_well = is_start program.now context.now class vtype;
        }) }
{
    effect.starts_well = is_start(program, context, class, &vtype);
    let to = started(alloc, program, context, class, &vtype)?;
    effect.turn = Substitution::All { from: vtype, to };
    Ok(())
}

fn init(
    alloc: Global,
    effect: &mut StackEffect,
    program: &Program,
    context: &Context,
    frame: &FrameType,
    method: u32,
) -> Result<(), NoMemory>
    requires { effect.old ≡ plain [] [] }
    ensures { OnOk result (effect.new ≡
        init_sides program.now context.now frame.now (method_at program.now method)
        (place_of frame.now (length (argument_needs (method_at program.now method).descriptor)))) }
{
    let descriptor = program.method_descriptor(method);
    push_argument_needs(alloc, &mut effect.takes, descriptor)?;
    let t = place_of(alloc, frame, effect.takes.len())?;
    effect.takes.push(OperandConstraint::Raw)?;
    effect.gives = text_types(alloc, return_type(descriptor))?;
    start(
        alloc,
        effect,
        program,
        context,
        program.method_class(method),
        t,
    )
}

pub(crate) fn call_special(
    alloc: Global,
    effect: &mut StackEffect,
    program: &Program,
    context: &Context,
    frame: &FrameType,
    named: &Kind,
    method: u32,
) -> Result<(), NoMemory>
    requires { effect.old ≡ plain [] [] }
    ensures { OnOk result (effect.new ≡
        special_sides program.now context.now frame.now named.now (method_at program.now method)) }
{
    if program.method_name(method) == INIT.as_slice() {
        return init(alloc, effect, program, context, frame, method);
    }
    call(alloc, effect, program, method)?;
    effect
        .takes
        .push(special_need(alloc, program, context, named)?)
}

fn is_made(vtype: &VType, pc: u32) -> bool
    ensures { result ≡ same vtype.now (types.Uninit pc) }
{
    match vtype {
        VType::Uninit { pc: place } => *place == pc,
        _ => false,
    }
}

// Whether a place of the stack is what the `new` at this place made before.
fn holds_made(stack: &[VType], pc: u32) -> bool
    ensures { result ≡ list_any (λ t. same t (types.Uninit pc)) (reverse stack.now) }
{
    stack.iter().rev().any(|t| is_made(t, pc))
}

pub(crate) fn create(effect: &mut StackEffect, frame: &FrameType, pc: u32) -> Result<(), NoMemory>
    requires { effect.old ≡ plain [] [] }
    ensures { OnOk result (effect.new ≡ new_sides frame.now pc) }
{
    effect.turn = Substitution::All {
        from: VType::Uninit { pc },
        to: VType::Top,
    };
    effect.starts_well = !holds_made(&frame.stack, pc);
    effect.gives.push(VType::Uninit { pc })
}

// The array that a load or a store works on.
fn array_need(alloc: Global, program: &Program, of: &Cell) -> Result<OperandConstraint, NoMemory>
    ensures { IfOk result (λ n. n ≡ array_need program.now of.now) }
{
    match of {
        Cell::Int => object_need(alloc, &[ARRAY, INT]),
        Cell::Long => object_need(alloc, &[ARRAY, LONG]),
        Cell::Ref => Ok(OperandConstraint::Fits(VType::Object(objects_text(alloc, program)?))),
        Cell::Byte => Ok(OperandConstraint::Small),
        Cell::Char => object_need(alloc, &[ARRAY, CHAR]),
        Cell::Short => object_need(alloc, &[ARRAY, SHORT]),
    }
}

// The type of the elements of an array of this name.
fn element_of(alloc: Global, name: &[u16]) -> Result<VType, NoMemory>
    ensures { IfOk result (λ u. u ≡ element_type (types.Object name.now)) }
{
    match name {
        [] => Ok(VType::Top),
        [_, rest @ ..] => match rest {
            [] => Ok(VType::Top),
            [w, ws @ ..] => {
                if *w == CLASS {
                    return Ok(VType::Object(Items::from_slice(alloc, class_name(ws))?));
                }
                Ok(VType::Object(Items::from_slice(alloc, rest)?))
            }
        },
    }
}

fn element_type(alloc: Global, vtype: &VType) -> Result<VType, NoMemory>
    ensures { IfOk result (λ u. u ≡ element_type vtype.now) }
{
    match vtype {
        VType::Object(name) => element_of(alloc, name.as_slice()),
        _ => copy_type(alloc, vtype),
    }
}

// Appends what a load from an array gives.
fn push_loaded(
    alloc: Global,
    types: &mut Items<VType>,
    frame: &FrameType,
    of: &Cell,
) -> Result<(), NoMemory>
    ensures { OnOk result (types.new ≡ types.old ++ loaded frame.now of.now) }
{
    match of {
        Cell::Long => push_long_type(types),
        Cell::Ref => types.push(element_type(alloc, &place_of(alloc, frame, 1)?)?),
        Cell::Int | Cell::Byte | Cell::Char | Cell::Short => types.push(VType::Int),
    }
}

// Appends what a store into an array takes on top.
fn push_stored(
    alloc: Global,
    needs: &mut Items<OperandConstraint>,
    program: &Program,
    of: &Cell,
) -> Result<(), NoMemory>
    ensures { OnOk result (needs.new ≡ needs.old ++ stored program.now of.now) }
{
    match of {
        Cell::Long => push_long(needs),
        Cell::Ref => push_object(alloc, needs, program.class_name(OBJECT)),
        Cell::Int | Cell::Byte | Cell::Char | Cell::Short => push_int(needs),
    }
}

pub(crate) fn array_load(
    alloc: Global,
    effect: &mut StackEffect,
    program: &Program,
    frame: &FrameType,
    of: &Cell,
) -> Result<(), NoMemory>
    requires { effect.old ≡ plain [] [] }
    ensures { OnOk result (effect.new ≡
        plain (wants.Fits types.Int ∷ array_need program.now of.now ∷ [])
        (loaded frame.now of.now)) }
{
    push_int(&mut effect.takes)?;
    effect.takes.push(array_need(alloc, program, of)?)?;
    push_loaded(alloc, &mut effect.gives, frame, of)
}

pub(crate) fn array_store(
    alloc: Global,
    effect: &mut StackEffect,
    program: &Program,
    of: &Cell,
) -> Result<(), NoMemory>
    requires { effect.old ≡ plain [] [] }
    ensures { OnOk result (effect.new ≡
        plain (stored program.now of.now
        ++ (wants.Fits types.Int ∷ array_need program.now of.now ∷ [])) []) }
{
    push_stored(alloc, &mut effect.takes, program, of)?;
    push_int(&mut effect.takes)?;
    effect.takes.push(array_need(alloc, program, of)?)
}

// Appends the type of a class or an array.
fn push_kind(
    alloc: Global,
    gives: &mut Items<VType>,
    program: &Program,
    kind: &Kind,
) -> Result<(), NoMemory>
    ensures { OnOk result (gives.new ≡
        gives.old ++ types.Object (kind_name program.now kind.now) ∷ []) }
{
    gives.push(VType::Object(kind_name(alloc, program, kind)?))
}

pub(crate) fn new_array(
    alloc: Global,
    effect: &mut StackEffect,
    program: &Program,
    kind: &Kind,
) -> Result<(), NoMemory>
    requires { effect.old ≡ plain [] [] }
    ensures { OnOk result (effect.new ≡
        plain int_need (types.Object (kind_name program.now kind.now) ∷ [])) }
{
    push_int(&mut effect.takes)?;
    push_kind(alloc, &mut effect.gives, program, kind)
}

/// Appends the needs of so many ints.
pub(crate) fn push_ints(needs: &mut Items<OperandConstraint>, count: u8) -> Result<(), NoMemory>
    ensures { OnOk result (needs.new ≡ needs.old ++ replicate count (wants.Fits types.Int)) }
{
    for done in 0..count {
        push_int(needs)?;
    }
    Ok(())
}

pub(crate) fn new_arrays(
    alloc: Global,
    effect: &mut StackEffect,
    program: &Program,
    kind: &Kind,
    dims: u8,
) -> Result<(), NoMemory>
    requires { effect.old ≡ plain [] [] }
    ensures { OnOk result (effect.new ≡
        plain (replicate dims (wants.Fits types.Int))
        (types.Object (kind_name program.now kind.now) ∷ [])) }
{
    push_ints(&mut effect.takes, dims)?;
    push_kind(alloc, &mut effect.gives, program, kind)
}

pub(crate) fn array_length(effect: &mut StackEffect) -> Result<(), NoMemory>
    requires { effect.old ≡ plain [] [] }
    ensures { OnOk result (effect.new ≡ plain (wants.Array ∷ []) int_type) }
{
    effect.takes.push(OperandConstraint::Array)?;
    effect.gives.push(VType::Int)
}

pub(crate) fn throw(
    alloc: Global,
    effect: &mut StackEffect,
    program: &Program,
) -> Result<(), NoMemory>
    requires { effect.old ≡ plain [] [] }
    ensures { OnOk result (effect.new ≡
        leaving (plain (wants.Fits (object_of program.now 7) ∷ []) [])) }
{
    effect.falls = false;
    push_object(alloc, &mut effect.takes, program.class_name(THROWABLE))
}

pub(crate) fn cast(
    alloc: Global,
    effect: &mut StackEffect,
    program: &Program,
    kind: &Kind,
) -> Result<(), NoMemory>
    requires { effect.old ≡ plain [] [] }
    ensures { OnOk result (effect.new ≡
        plain (wants.Fits (object_of program.now 0) ∷ [])
        (types.Object (kind_name program.now kind.now) ∷ [])) }
{
    push_object(alloc, &mut effect.takes, program.class_name(OBJECT))?;
    push_kind(alloc, &mut effect.gives, program, kind)
}

pub(crate) fn instance_of(
    alloc: Global,
    effect: &mut StackEffect,
    program: &Program,
) -> Result<(), NoMemory>
    requires { effect.old ≡ plain [] [] }
    ensures { OnOk result (effect.new ≡
        plain (wants.Fits (object_of program.now 0) ∷ []) int_type) }
{
    push_object(alloc, &mut effect.takes, program.class_name(OBJECT))?;
    effect.gives.push(VType::Int)
}
