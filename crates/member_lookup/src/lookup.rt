//! The look-up of fields and methods (JVMS 5.4.3.2 to 5.4.3.4, without access). Each superclass and superinterface is visited
//! once.

ghost use Rattle.std.specs.Prelude.{◌≡◌, ◌∷◌, ◌&&◌, [], IfOk, OnOk, cond, false, filter, find, flat_map, nat_eq, not};
ghost use Rattle.indexmap.specs.{IndexSet.insert_all, IndexMap.keys};
ghost use Rattle.std.specs.Str.{bytes_eq};
ghost use Rattle.jvm_model.specs.{Builtin.object_class, Selection.has_code, Lookup.one_or_first};
ghost use Rattle.jvm_model.specs.Classes as classes;
ghost use Rattle.jvm_model.specs.Classes.{class_at, class_bound, first_mentions, member, method_at, upwards};
ghost use Rattle.jvm_model.specs.Lookup.{field_path, find_declared, find_field, find_in_interfaces, find_in_object, find_method, is_field, is_method, superinterfaces};
ghost use Rattle.member_lookup.specs.Walks.{IsWalked, Visits, above_class, is_kept, is_open, walk};

use crate::walk::{Visited, visit, visit_all};
use et_base::NoMemory;
use indexmap::{IndexMap, IndexSet};
use jvm_model::{INIT, OBJECT, Program, class_bound};
use std::alloc::Global;

// The classes that were visited, in order.
fn visited(alloc: Global, seen: &Visited) -> Result<Vec<u32>, NoMemory>
    ensures { IfOk result (λ classes. classes.items ≡ keys seen.now) }
{
    let mut classes = Vec::new(alloc);
    for class in seen.keys() {
        classes.push(*class)?;
    }
    Ok(classes)
}

// ---- fields

fn is_field(p: &Program, field: u32, name: &[u16], descriptor: &[u16]) -> bool
    ensures { result ≡ is_field p.now name.now descriptor.now field }
{
    match p.field(field) {
        None => name.is_empty() && descriptor.is_empty(),
        Some(record) => {
            record.name.as_slice() == name && record.descriptor.as_slice() == descriptor
        }
    }
}

// The field of a name and descriptor that a class declares.
fn own_field(p: &Program, class: u32, name: &[u16], descriptor: &[u16]) -> Option<u32>
    ensures { result ≡ find (λ n. is_field p.now name.now descriptor.now n) (class_at p.now class).fields }
{
    p.class_fields(class)
        .iter()
        .copied()
        .find(|field| is_field(p, *field, name, descriptor))
}

// The first of these classes' fields of a name and descriptor.
fn field_in(p: &Program, classes: &[u32], name: &[u16], descriptor: &[u16]) -> Option<u32>
    ensures { result ≡ find (λ n. is_field p.now name.now descriptor.now n) (flat_map (λ d. (class_at p.now d).fields) classes.now) }
{
    for class in classes {
        if let Some(field) = own_field(p, *class, name, descriptor) {
            return Some(field);
        }
    }
    None
}

// The classes in which a field is looked for, each once.
fn field_path(alloc: Global, p: &Program, class: u32) -> Result<Vec<u32>, NoMemory>
    ensures { IfOk result (λ path. path.items ≡ first_mentions (field_path p.now class)) }
{
    let mut seen = IndexMap::new(alloc);
    visit(p, true, class_bound(), class, &mut seen)?;
    visited(alloc, &seen)
}

/// The field of a name and descriptor that a class has: its own, or one of a superinterface or superclass (JVMS 5.4.3.2).
pub fn find_field(
    alloc: Global,
    p: &Program,
    class: u32,
    name: &[u16],
    descriptor: &[u16],
) -> Result<Option<u32>, NoMemory>
    ensures { IfOk result (λ found. found ≡ find_field p.now class name.now descriptor.now) }
{
    if let Some(field) = own_field(p, class, name, descriptor) {
        return Ok(Some(field));
    }
    let path = field_path(alloc, p, class)?;
    Ok(field_in(p, &path, name, descriptor))
}

// ---- methods

fn is_method(p: &Program, method: u32, name: &[u16], descriptor: &[u16]) -> bool
    ensures { result ≡ is_method p.now name.now descriptor.now method }
{
    p.method_name(method) == name && p.method_descriptor(method) == descriptor
}

// The method of a name and descriptor that a class declares.
fn own_method(p: &Program, class: u32, name: &[u16], descriptor: &[u16]) -> Option<u32>
    ensures { result ≡ find (λ n. is_method p.now name.now descriptor.now n) (class_at p.now class).methods }
{
    p.class_methods(class)
        .iter()
        .copied()
        .find(|method| is_method(p, *method, name, descriptor))
}

/// The first method of a name and descriptor that a class or a superclass declares.
pub fn declared_upwards(p: &Program, class: u32, name: &[u16], descriptor: &[u16]) -> Option<u32>
    ensures { result ≡ find_declared p.now name.now descriptor.now (upwards p.now class) }
{
    let mut next = Some(class);
    let mut steps = class_bound();
    while let Some(above) = next {
        if steps == 0 {
            return None;
        }
        if let Some(method) = own_method(p, above, name, descriptor) {
            return Some(method);
        }
        next = p.superclass(above);
        steps -= 1;
    }
    None
}

fn find_in_object(p: &Program, name: &[u16], descriptor: &[u16]) -> Option<u32>
    ensures { result ≡ find_in_object p.now name.now descriptor.now }
{
    p.class_methods(OBJECT).iter().copied().find(|method| is_method(p, *method, name, descriptor)
        && !p.is_static_method(*method))
}

// ---- methods of superinterfaces

// Visits the superinterfaces of a class and of its superclasses.
fn visit_upwards(p: &Program, class: u32, seen: &mut Visited) -> Result<(), NoMemory>
    requires { IsWalked p.now false seen.old }
    ensures { OnOk result (Visits p.now false (flat_map (λ d. above_class p.now d) (upwards p.now class)) seen.old seen.new) }
{
    let mut next = Some(class);
    let mut steps = class_bound();
    while let Some(above) = next {
        if steps == 0 {
            return Ok(());
        }
        visit_all(p, false, class_bound(), p.interfaces(above), seen)?;
        next = p.superclass(above);
        steps -= 1;
    }
    Ok(())
}

// The superinterfaces of a class, each once.
fn superinterfaces(alloc: Global, p: &Program, class: u32) -> Result<Vec<u32>, NoMemory>
    ensures { IfOk result (λ found. found.items ≡ first_mentions (superinterfaces p.now class)) }
{
    let mut seen = IndexMap::new(alloc);
    visit_upwards(p, class, &mut seen)?;
    visited(alloc, &seen)
}

fn is_open(p: &Program, method: u32, name: &[u16], descriptor: &[u16]) -> bool
    ensures { result ≡ is_open p.now name.now descriptor.now method }
{
    is_method(p, method, name, descriptor)
        && (!p.is_private_method(method) && !p.is_static_method(method))
}

// Notes the methods of a name and descriptor that a class declares, neither static nor private.
fn note_open(
    p: &Program,
    class: u32,
    name: &[u16],
    descriptor: &[u16],
    found: &mut IndexSet<u32>,
) -> Result<(), NoMemory>
    ensures { OnOk result (found.new.keys ≡ insert_all nat_eq found.old.keys (filter (λ n. is_open p.now name.now descriptor.now n) (class_at p.now class).methods)) }
{
    for method in p.class_methods(class) {
        if is_open(p, *method, name, descriptor) {
            found.insert(*method)?;
        }
    }
    Ok(())
}

// These methods of several classes, each once.
fn open_methods(
    alloc: Global,
    p: &Program,
    classes: &[u32],
    name: &[u16],
    descriptor: &[u16],
) -> Result<IndexSet<u32>, NoMemory>
    ensures { IfOk result (λ found. found.keys ≡ insert_all nat_eq [] (flat_map (λ c. filter (λ n. is_open p.now name.now descriptor.now n) (class_at p.now c).methods) classes.now)) }
{
    let mut found = IndexSet::new(alloc);
    for class in classes {
        note_open(p, *class, name, descriptor, &mut found)?;
    }
    Ok(found)
}

// The superinterfaces of the classes of these methods.
fn above_methods(alloc: Global, p: &Program, methods: &[u32]) -> Result<Visited, NoMemory>
    ensures { IfOk result (λ seen. keys seen ≡ insert_all nat_eq [] (flat_map (λ m. above_class p.now (method_at p.now m).class) methods.now)) }
{
    let mut seen = IndexMap::new(alloc);
    for method in methods {
        visit_all(
            p,
            false,
            class_bound(),
            p.interfaces(p.method_class(*method)),
            &mut seen,
        )?;
    }
    Ok(seen)
}

fn contains(classes: &Visited, class: u32) -> bool
    ensures { result ≡ member class (keys classes.now) }
{
    classes.contains_key(&class)
}

// Whether a method has code and none of these interfaces declares it.
fn is_kept(p: &Program, method: u32, above: &Visited) -> bool
    ensures { result ≡ is_kept p.now (keys above.now) method }
{
    !contains(above, p.method_class(method)) && p.has_code(method)
}

// The one of the methods that is kept, else the first of all.
fn one_or_first(p: &Program, methods: &[u32], above: &Visited) -> Option<u32>
    ensures { result ≡ one_or_first (filter (λ m. is_kept p.now (keys above.now) m) methods.now) methods.now }
{
    let mut one = None;
    for method in methods {
        if is_kept(p, *method, above) {
            if one.is_some() {
                return methods.first().copied();
            }
            one = Some(*method);
        }
    }
    match one {
        None => methods.first().copied(),
        Some(method) => Some(method),
    }
}

// The method that superinterfaces of a class declare: the one of the maximally specific ones that has code, else the first.
fn find_in_interfaces(
    alloc: Global,
    p: &Program,
    class: u32,
    name: &[u16],
    descriptor: &[u16],
) -> Result<Option<u32>, NoMemory>
    ensures { IfOk result (λ found. found ≡ find_in_interfaces p.now class name.now descriptor.now) }
{
    let classes = superinterfaces(alloc, p, class)?;
    let found = open_methods(alloc, p, &classes, name, descriptor)?;
    let methods = found.as_slice();
    let above = above_methods(alloc, p, methods)?;
    Ok(one_or_first(p, methods, &above))
}

/// The method of a name and descriptor that a class or interface has (JVMS 5.4.3.3 and 5.4.3.4): one of a class is declared by
/// it or a superclass, one of an interface by it or Object, else either comes from a superinterface. `<init>` is declared
/// by the class itself.
#[tactic(auto, unfolding(jvm_model::specs::Lookup::find_method))]
pub fn find_method(
    alloc: Global,
    p: &Program,
    class: u32,
    name: &[u16],
    descriptor: &[u16],
) -> Result<Option<u32>, NoMemory>
    ensures { IfOk result (λ found. found ≡ find_method p.now class name.now descriptor.now) }
{
    if name == &INIT[..] {
        return Ok(own_method(p, class, name, descriptor));
    }
    let declared = if p.is_interface(class) {
        own_method(p, class, name, descriptor).or(find_in_object(p, name, descriptor))
    } else {
        declared_upwards(p, class, name, descriptor)
    };
    match declared {
        None => find_in_interfaces(alloc, p, class, name, descriptor),
        Some(method) => Ok(Some(method)),
    }
}
