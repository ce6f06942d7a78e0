//! The first fault of a program, and the check.

ghost use Rattle.std.specs.Prelude.{◌≡◌, ◌+◌, IfErr, IfOk, None, Some, List};
ghost use Rattle.jvm_model.specs.Classes as classes;
ghost use Rattle.jvm_model.specs.Linked.{Linked};
ghost use Rattle.type_frames.specs.declared.fault.CheckFault.TheVariants as faults;
ghost use Rattle.type_frames.specs.Descriptors as descriptors;
ghost use Rattle.std.specs.List.{list_any};
ghost use Rattle.type_frames.specs.Typing.{IsTyped, all_frames, check_fault, class_fault, classes_fault, fields_fault, given_classes, is_native, is_unserved, members_fault, methods_fault, unsupported_field, unsupported_method};

use crate::maps::Mapped;
use et_base::letters::{ARRAY, DOUBLE, FLOAT, VOID};
use et_base::{Items, NoMemory, Units};
use jvm_model::{BUILTIN_COUNT, CLINIT, ClassRec, MethodRec, Program, parameters, return_type};
use std::alloc::Global;
use type_frames::{CheckFault, Checked, Frame};

// The letter of the innermost element type of a type.
fn element_letter(text: &[u16]) -> u16
    ensures { result ≡ descriptors.element_letter text.now }
{
    for u in text {
        if *u != ARRAY {
            return *u;
        }
    }
    VOID
}

fn is_float(text: &[u16]) -> bool
    ensures { result ≡ descriptors.is_float text.now }
{
    let letter = element_letter(text);
    letter == FLOAT || letter == DOUBLE
}

fn any_float(texts: &[Units]) -> bool
    ensures { result ≡ list_any descriptors.is_float texts.now }
{
    texts.iter().any(|text| is_float(text.as_slice()))
}

// Whether a method's descriptor names a float or a double, or an array of them.
fn has_float(alloc: Global, descriptor: &[u16]) -> Result<bool, NoMemory>
    ensures { IfOk result (λ b. b ≡ descriptors.has_float descriptor.now) }
{
    let texts = parameters(alloc, descriptor)?;
    Ok(any_float(texts.as_slice()) || is_float(return_type(descriptor)))
}

fn unsupported(alloc: Global, class: &[u16], member: &[u16]) -> Result<CheckFault, NoMemory>
    ensures { IfOk result (λ e. e ≡ faults.Unsupported class.now member.now) }
{
    Ok(CheckFault::Unsupported {
        class: Items::from_slice(alloc, class)?,
        member: Items::from_slice(alloc, member)?,
    })
}

// An interface method with code, other than `<clinit>`, that is private or of a class file of version 50 or 51.
fn is_unserved(class: &ClassRec, method: &MethodRec) -> bool
    ensures { result ≡ is_unserved class.now method.now }
{
    method.has_code()
        && (class.is_interface()
            && (method.name.as_slice() != CLINIT.as_slice()
                && (method.is_private() || class.version < 52)))
}

fn is_native(method: &MethodRec) -> bool
    ensures { result ≡ is_native method.now.flags }
{
    method.flags / 0x0100 % 2 == 1
}

fn unsupported_method(
    alloc: Global,
    class: &ClassRec,
    method: &MethodRec,
) -> Result<Option<CheckFault>, NoMemory>
    ensures { IfOk result (λ o. o ≡ unsupported_method class.now method.now) }
{
    if has_float(alloc, method.descriptor.as_slice())?
        || (is_native(method) || is_unserved(class, method))
    {
        return Ok(Some(unsupported(alloc, class.name.as_slice(), method.name.as_slice())?));
    }
    Ok(None)
}

// The fault of the field of a number, if it has one; of a member in the two functions after it.
fn field_fault(
    alloc: Global,
    program: &Program,
    class: &ClassRec,
    field: u32,
) -> Result<Option<CheckFault>, NoMemory>
    ensures { IfOk result (λ o.
        o ≡ unsupported_field class.now (classes.field_at program.now field)) }
{
    let Some(field) = program.field(field) else {
        return Ok(None);
    };
    if is_float(field.descriptor.as_slice()) {
        return Ok(Some(unsupported(alloc, class.name.as_slice(), field.name.as_slice())?));
    }
    Ok(None)
}

#[tactic(auto, unfolding(jvm_model::specs::Descriptors::parameters, jvm_model::specs::Descriptors::return_type))]
fn member_fault(
    alloc: Global,
    program: &Program,
    class: &ClassRec,
    method: u32,
) -> Result<Option<CheckFault>, NoMemory>
    ensures { IfOk result (λ o.
        o ≡ unsupported_method class.now (classes.method_at program.now method)) }
{
    match program.method(method) {
        None => Ok(None),
        Some(m) => unsupported_method(alloc, class, m),
    }
}

fn fields_fault(
    alloc: Global,
    program: &Program,
    class: &ClassRec,
) -> Result<Option<CheckFault>, NoMemory>
    ensures { IfOk result (λ o. o ≡ fields_fault program.now class.now class.now.fields) }
{
    for n in class.fields.as_slice() {
        if let Some(fault) = field_fault(alloc, program, class, *n)? {
            return Ok(Some(fault));
        }
    }
    Ok(None)
}

fn members_fault(
    alloc: Global,
    program: &Program,
    class: &ClassRec,
) -> Result<Option<CheckFault>, NoMemory>
    ensures { IfOk result (λ o. o ≡ members_fault program.now class.now class.now.methods) }
{
    for n in class.methods.as_slice() {
        if let Some(fault) = member_fault(alloc, program, class, *n)? {
            return Ok(Some(fault));
        }
    }
    Ok(None)
}

// Methods are numbered from 1. A class of more than a u32 counts is none that memory holds.
fn methods_fault(
    alloc: Global,
    mapped: &Mapped,
    class: &ClassRec,
) -> Result<Option<CheckFault>, NoMemory>
    ensures { IfOk result (λ o. o ≡ methods_fault mapped.now class.now.name 1 class.now.methods) }
{
    let mut number: u32 = 1;
    for n in class.methods.as_slice() {
        if let Some(fault) = mapped.method_fault(alloc, class.name.as_slice(), number, *n)? {
            return Ok(Some(fault));
        }
        let Some(next) = number.checked_add(1) else {
            return Err(NoMemory {});
        };
        number = next;
    }
    Ok(None)
}

#[tactic(auto, unfolding(type_frames::specs::Typing::class_fault))]
fn class_fault(
    alloc: Global,
    mapped: &Mapped,
    class: &ClassRec,
) -> Result<Option<CheckFault>, NoMemory>
    ensures { IfOk result (λ o. o ≡ class_fault mapped.now class.now) }
{
    if let Some(fault) = fields_fault(alloc, mapped.program, class)? {
        return Ok(Some(fault));
    }
    if let Some(fault) = members_fault(alloc, mapped.program, class)? {
        return Ok(Some(fault));
    }
    methods_fault(alloc, mapped, class)
}

// The classes of the suite's files.
#[tactic(auto, using(crate::proofs::Typed::given_none, crate::proofs::Typed::given_rest))]
fn given_classes(program: &Program) -> &[ClassRec]
    ensures { result.now ≡ given_classes program.now }
{
    let classes = program.classes.as_slice();
    let builtin = BUILTIN_COUNT as usize;
    if classes.len() < builtin {
        return &[];
    }
    let (_, given) = classes.split_at(builtin);
    given
}

fn classes_fault(
    alloc: Global,
    mapped: &Mapped,
    cs: &[ClassRec],
) -> Result<Option<CheckFault>, NoMemory>
    ensures { IfOk result (λ o. o ≡ classes_fault mapped.now cs.now) }
{
    for c in cs {
        if let Some(fault) = class_fault(alloc, mapped, c)? {
            return Ok(Some(fault));
        }
    }
    Ok(None)
}

#[tactic(auto, unfolding(type_frames::specs::Typing::check_fault))]
fn first_fault(alloc: Global, mapped: &Mapped) -> Result<Option<CheckFault>, NoMemory>
    ensures { IfOk result (λ o. o ≡ check_fault mapped.now) }
{
    classes_fault(alloc, mapped, given_classes(mapped.program))
}

// The given frames of all methods, where the program has no fault.
fn checked_frames(alloc: Global, program: &Program) -> Result<Items<Items<Frame>>, CheckFault>
    ensures frames { IfOk result (λ all. all ≡ all_frames program.now) }
    ensures none { IfOk result (λ _. check_fault program.now ≡ None) }
    ensures fault { IfErr result (λ e.
        (e ≡ faults.NoMemory → ⊥) → check_fault program.now ≡ Some e) }
{
    let mapped = Mapped::new(alloc, program)?;
    if let Some(fault) = first_fault(alloc, &mapped)? {
        return Err(fault);
    }
    Ok(mapped.into_frames(alloc)?)
}

/// Checks a linked program by type checking with stack maps (JVMS 4.10.1). Ok comes exactly where the program is typed;
/// otherwise the first fault is named: by class in suite order, in a class members that aren't supported first, then by
/// method and place, and at a place `NoFrame` before the lowest rule that is broken.
#[tactic(auto, using(crate::proofs::Typed::typed_none, crate::proofs::Typed::fault_untyped))]
pub fn check(alloc: Global, program: Program) -> Result<Checked, CheckFault>
    requires { Linked program }
    ensures good { IfOk result (λ c. (c ≡ program) × IsTyped program) }
    ensures untyped { IfErr result (λ e. (e ≡ faults.NoMemory → ⊥) → IsTyped program → ⊥) }
    ensures fault { IfErr result (λ e. (e ≡ faults.NoMemory → ⊥) → check_fault program ≡ Some e) }
{
    let frames = checked_frames(alloc, &program)?;
    Ok(Checked::new(program, frames))
}
