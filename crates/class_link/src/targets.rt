//! What the entries of a pool stand for (JVMS 5.4.3).

ghost use Rattle.std.specs.Prelude.{◌≡◌, IfOk, option_copied};
ghost use Rattle.class_pool.specs.Pool.{entry_of};
ghost use Rattle.jvm_model.specs.Lookup as members;
ghost use Rattle.class_link.specs.Bodies as bodies;
ghost use Rattle.class_link.specs.ClassNames.{kind_of, name_at};
ghost use Rattle.class_link.specs.References as references;

use crate::entries::{name_at, text_at};
use crate::link_environment::LinkEnvironment;
use crate::names::{ClassNames, kind_of, missing};
use class_pool::{Entry, lookup};
use code_forms::{Target, named_class};
use et_base::{Items, NoMemory, Units};
use jvm_model::{INIT, Kind, Value};
use member_lookup::{find_field, find_method};
use std::alloc::Global;

/// What the entries of a pool stand for, from index 1 on.
pub type Targets = Items<Option<Target>>;

// The name of a NameAndType entry, empty where the index names none.
fn pair_name(slots: &[Option<Entry>], pair: u16) -> &[u16]
    ensures { result.now ≡ (references.pair_of slots.now (entry_of slots.now pair)).0 }
{
    match lookup::entry_at(slots, pair) {
        Some(Entry::NameAndType { name, .. }) => text_at(slots, *name),
        _ => &[],
    }
}

// Its descriptor.
fn pair_descriptor(slots: &[Option<Entry>], pair: u16) -> &[u16]
    ensures { result.now ≡ (references.pair_of slots.now (entry_of slots.now pair)).1 }
{
    match lookup::entry_at(slots, pair) {
        Some(Entry::NameAndType { descriptor, .. }) => text_at(slots, *descriptor),
        _ => &[],
    }
}

// The field that a Fieldref names.
fn field_target(
    alloc: Global,
    setting: &LinkEnvironment,
    slots: &[Option<Entry>],
    class: u16,
    pair: u16,
) -> Result<Option<Target>, NoMemory>
    ensures { IfOk result (λ t. t ≡ references.field_target setting.now (kind_of setting.now.names (name_at slots.now class)) (references.pair_of slots.now (entry_of slots.now pair))) }
{
    let Some(kind) = kind_of(&setting.names, name_at(slots, class)) else {
        return Ok(None);
    };
    let named = named_class(kind);
    let name = pair_name(slots, pair);
    let descriptor = pair_descriptor(slots, pair);
    match find_field(alloc, &setting.program, named, name, descriptor)? {
        None => Ok(None),
        Some(field) => Ok(Some(Target::Field { named, field })),
    }
}

// An array class declares no `<init>`.
fn lacks_method(named: Kind, name: &[u16]) -> bool
    ensures { result ≡ members.lacks_method named name.now }
{
    match named {
        Kind::Class(_) => false,
        Kind::Array { .. } => name == &INIT[..],
    }
}

// The method that a Methodref or an InterfaceMethodref names.
fn method_target(
    alloc: Global,
    setting: &LinkEnvironment,
    slots: &[Option<Entry>],
    class: u16,
    pair: u16,
) -> Result<Option<Target>, NoMemory>
    ensures { IfOk result (λ t. t ≡ references.method_target setting.now (kind_of setting.now.names (name_at slots.now class)) (references.pair_of slots.now (entry_of slots.now pair))) }
{
    let Some(named) = kind_of(&setting.names, name_at(slots, class)) else {
        return Ok(None);
    };
    let name = pair_name(slots, pair);
    if lacks_method(named, name) {
        return Ok(None);
    }
    let descriptor = pair_descriptor(slots, pair);
    match find_method(
        alloc,
        &setting.program,
        named_class(named),
        name,
        descriptor,
    )? {
        None => Ok(None),
        Some(method) => Ok(Some(Target::Method { named, method })),
    }
}

// The class or array type that a Class entry names.
fn type_target(names: &ClassNames, name: &[u16]) -> Option<Target>
    ensures { result ≡ references.type_target names.now name.now }
{
    match kind_of(names, name) {
        None => None,
        Some(kind) => Some(Target::Type(kind)),
    }
}

/// What an entry stands for; none where its class or member isn't there, and for entries that code can't use.
#[tactic(auto, unfolding(crate::specs::References::target_of))]
pub(crate) fn target_of(
    alloc: Global,
    setting: &LinkEnvironment,
    slots: &[Option<Entry>],
    slot: &Option<Entry>,
) -> Result<Option<Target>, NoMemory>
    ensures { IfOk result (λ t. t ≡ references.target_of setting.now slots.now slot.now) }
{
    match slot {
        Some(Entry::Integer(n)) => Ok(Some(Target::Constant(Value::Int(*n)))),
        Some(Entry::Long(n)) => Ok(Some(Target::Constant(Value::Long(*n)))),
        Some(Entry::Str { text }) => Ok(Some(Target::Constant(Value::Lit(
            setting.texts.number(text_at(slots, *text)),
        )))),
        Some(Entry::Class { name }) => Ok(type_target(&setting.names, text_at(slots, *name))),
        Some(Entry::Field { class, pair }) => field_target(alloc, setting, slots, *class, *pair),
        Some(Entry::Method { class, pair }) => method_target(alloc, setting, slots, *class, *pair),
        Some(Entry::InterfaceMethod { class, pair }) => {
            method_target(alloc, setting, slots, *class, *pair)
        }
        _ => Ok(None),
    }
}

/// What all entries of a pool stand for, each resolved once.
pub(crate) fn targets_of(
    alloc: Global,
    setting: &LinkEnvironment,
    slots: &[Option<Entry>],
) -> Result<Targets, NoMemory>
    ensures { IfOk result (λ ts. ts ≡ bodies.targets setting.now slots.now) }
{
    let mut targets = Items::new(alloc);
    for slot in slots {
        targets.push(target_of(alloc, setting, slots, slot)?)?;
    }
    Ok(targets)
}

/// The class that an entry needs and that isn't there.
#[tactic(auto, unfolding(crate::specs::References::missing_for))]
pub(crate) fn missing_for(
    alloc: Global,
    names: &ClassNames,
    slots: &[Option<Entry>],
    slot: Option<&Entry>,
) -> Result<Option<Units>, NoMemory>
    ensures { IfOk result (λ x. x ≡ references.missing_for names.now slots.now (option_copied slot.entry)) }
{
    match slot {
        Some(Entry::Class { name }) => missing(alloc, names, text_at(slots, *name)),
        Some(Entry::Field { class, .. }) => missing(alloc, names, name_at(slots, *class)),
        Some(Entry::Method { class, .. }) => missing(alloc, names, name_at(slots, *class)),
        Some(Entry::InterfaceMethod { class, .. }) => missing(alloc, names, name_at(slots, *class)),
        _ => Ok(None),
    }
}

/// What the entry of an index stands for.
pub(crate) fn target_in(targets: &[Option<Target>], index: u16) -> Option<Target>
    ensures { result ≡ bodies.target_in targets.now index }
{
    if index == 0 {
        return None;
    }
    match targets.get(index as usize - 1) {
        None => None,
        Some(target) => *target,
    }
}
