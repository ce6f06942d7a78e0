//! The selection of methods (JVMS 5.4.6 and 6.5), by a look through the classes above.

ghost use Rattle.std.specs.Prelude.{◌≡◌, ◌++◌, [], IfOk, OnOk, filter, flat_map, nat_eq};
ghost use Rattle.indexmap.specs.IndexSet.{insert_all};
ghost use Rattle.jvm_model.specs.{Classes.class_at, Classes.upwards_in, Selection.declared_in, Selection.special_path, Selection.is_open_like};
ghost use Rattle.jvm_model.specs.Selection as selection;
ghost use Rattle.member_lookup.specs.Walks.{is_kept};
ghost use Rattle.vm_calls.specs.Choices.{above_of, declared_by, is_wanted, searched, selected_of, special_from};

use crate::choice::Choice;
use et_base::{Items, NoMemory};
use indexmap::IndexSet;
use jvm_model::{
    ABSTRACT_METHOD_ERROR, INCOMPATIBLE_CLASS_CHANGE_ERROR, OBJECT, Program, class_bound,
};
use std::alloc::Global;
use vm_tables::Tables;

/// Whether a method is an instance method of another's name and descriptor, private ones only where asked.
fn is_wanted(p: &Program, privates: bool, method: u32, other: u32) -> bool
    ensures { result ≡ is_wanted p.now privates method other }
{
    (privates || !p.is_private_method(other))
        && (!p.is_static_method(other)
            && (p.method_name(other) == p.method_name(method)
                && p.method_descriptor(other) == p.method_descriptor(method)))
}

/// The first such method that a class declares.
fn declared_by(p: &Program, privates: bool, method: u32, class: u32) -> Option<u32>
    ensures { result ≡ declared_by p.now privates method class }
{
    p.class_methods(class)
        .iter()
        .copied()
        .find(|other| is_wanted(p, privates, method, *other))
}

/// The first such method of a class and those above it, at most so many steps up.
#[tactic(auto, using(crate::proofs::Choosing::declared_here, crate::proofs::Choosing::declared_last, crate::proofs::Choosing::declared_next))]
fn declared_upwards(p: &Program, privates: bool, method: u32, steps: u32, class: u32) -> Option<u32>
    ensures { result ≡ declared_in p.now (λ n. is_wanted p.now privates method n) (upwards_in p.now steps class) }
{
    if steps == 0 {
        return None;
    }
    if let Some(found) = declared_by(p, privates, method, class) {
        return Some(found);
    }
    match p.superclass(class) {
        None => None,
        Some(above) => declared_upwards(p, privates, method, steps - 1, above),
    }
}

/// The first such method from a class upwards; from an interface, Object after it.
#[tactic(auto, using(crate::proofs::Choosing::special_both, crate::proofs::Choosing::special_up))]
fn declared_special(p: &Program, method: u32, class: u32) -> Option<u32>
    ensures { result ≡ declared_in p.now (λ n. selection.is_like p.now method n) (special_path p.now class) }
{
    if p.is_interface(class) {
        declared_by(p, true, method, class).or(declared_by(p, true, method, OBJECT))
    } else {
        declared_upwards(p, true, method, class_bound(), class)
    }
}

/// Appends the methods of another's name and descriptor that a class declares, neither static nor private.
fn push_open(p: &Program, method: u32, class: u32, found: &mut Items<u32>) -> Result<(), NoMemory>
    ensures { OnOk result (found.new ≡ found.old ++ filter (λ n. is_open_like p.now method n) (class_at p.now class).methods) }
{
    for other in p.class_methods(class) {
        if is_wanted(p, false, method, *other) {
            found.push(*other)?;
        }
    }
    Ok(())
}

/// Those that these interfaces declare.
fn open_in(
    alloc: Global,
    p: &Program,
    method: u32,
    interfaces: &[u32],
) -> Result<Items<u32>, NoMemory>
    ensures { IfOk result (λ found. found ≡ flat_map (λ i. filter (λ n. is_open_like p.now method n) (class_at p.now i).methods) interfaces.now) }
{
    let mut found = Items::new(alloc);
    for interface in interfaces {
        push_open(p, method, *interface, &mut found)?;
    }
    Ok(found)
}

/// Notes numbers that aren't noted yet.
fn note_all(noted: &mut IndexSet<u32>, numbers: &[u32]) -> Result<(), NoMemory>
    ensures { OnOk result (noted.new.keys ≡ insert_all nat_eq noted.old.keys numbers.now) }
{
    for number in numbers {
        noted.insert(*number)?;
    }
    Ok(())
}

/// The interfaces above those that declare these methods.
fn above_methods(alloc: Global, tables: &Tables, methods: &[u32]) -> Result<IndexSet<u32>, NoMemory>
    ensures { IfOk result (λ above. above.keys ≡ insert_all nat_eq [] (flat_map (λ n. above_of tables.now n) methods.now)) }
{
    let p = tables.program();
    let mut above = IndexSet::new(alloc);
    for method in methods {
        note_all(&mut above, tables.own_interfaces(p.method_class(*method)))?;
    }
    Ok(above)
}

/// Whether a method has code and none of these interfaces declares it.
fn is_kept(p: &Program, above: &IndexSet<u32>, method: u32) -> bool
    ensures { result ≡ is_kept p.now above.now.keys method }
{
    !above.contains(&p.method_class(method)) && p.has_code(method)
}

/// Of these methods those.
fn kept_among(
    alloc: Global,
    p: &Program,
    above: &IndexSet<u32>,
    methods: &[u32],
) -> Result<Items<u32>, NoMemory>
    ensures { IfOk result (λ kept. kept ≡ filter (λ n. is_kept p.now above.now.keys n) methods.now) }
{
    let mut kept = Items::new(alloc);
    for method in methods {
        if is_kept(p, above, *method) {
            kept.push(*method)?;
        }
    }
    Ok(kept)
}

/// Of these methods those with code that no interface above another of them declares.
fn kept_methods(alloc: Global, tables: &Tables, methods: &[u32]) -> Result<Items<u32>, NoMemory>
    ensures { IfOk result (λ kept. kept ≡ filter (λ n. is_kept tables.now (insert_all nat_eq [] (flat_map (λ m. above_of tables.now m) methods.now)) n) methods.now) }
{
    let above = above_methods(alloc, tables, methods)?;
    let kept = kept_among(alloc, tables.program(), &above, methods);
    drop(above);
    kept
}

/// The one of the kept methods with code.
fn one_with_code(kept: &[u32]) -> Choice
    ensures { selected_of result ≡ selection.one_with_code kept.now }
{
    match kept {
        [] => Choice::Failing {
            class: ABSTRACT_METHOD_ERROR,
        },
        [method] => Choice::Chosen { method: *method },
        [_, _, ..] => Choice::Failing {
            class: INCOMPATIBLE_CLASS_CHANGE_ERROR,
        },
    }
}

/// The rule of kept methods at a class or interface: of the methods that its superinterfaces declare, those that no
/// subinterface among them redeclares, and of these the one with code.
#[tactic(auto, using(crate::proofs::Choosing::kept_is), unfolding(jvm_model::specs::Selection::kept_method))]
fn kept_method(alloc: Global, tables: &Tables, method: u32, class: u32) -> Result<Choice, NoMemory>
    ensures { IfOk result (λ x. selected_of x ≡ selection.kept_method tables.now method class) }
{
    let found = open_in(alloc, tables.program(), method, tables.interfaces(class))?;
    let kept = kept_methods(alloc, tables, found.as_slice())?;
    Ok(one_with_code(kept.as_slice()))
}

/// This method, or the rule of kept methods.
fn or_kept(
    alloc: Global,
    tables: &Tables,
    method: u32,
    class: u32,
    found: Option<u32>,
) -> Result<Choice, NoMemory>
    ensures { IfOk result (λ x. selected_of x ≡ selection.or_kept tables.now method class found) }
{
    match found {
        None => kept_method(alloc, tables, method, class),
        Some(method) => Ok(Choice::Chosen { method }),
    }
}

/// What invokevirtual and invokeinterface select on an instance of a class.
#[tactic(auto, unfolding(jvm_model::specs::Selection::select))]
fn select(alloc: Global, tables: &Tables, method: u32, class: u32) -> Result<Choice, NoMemory>
    ensures { IfOk result (λ x. selected_of x ≡ selection.select tables.now method class) }
{
    let p = tables.program();
    let found = declared_upwards(p, false, method, class_bound(), class);
    or_kept(alloc, tables, method, class, found)
}

/// What invokespecial selects that starts at a class.
fn select_from(alloc: Global, tables: &Tables, method: u32, class: u32) -> Result<Choice, NoMemory>
    ensures { IfOk result (λ x. selected_of x ≡ special_from tables.now method class) }
{
    if tables.is_initialiser(method) {
        return Ok(Choice::Chosen { method });
    }
    let found = declared_special(tables.program(), method, class);
    or_kept(alloc, tables, method, class, found)
}

/// What a call of a method selects at a class: invokespecial, or else invokevirtual and invokeinterface.
pub(crate) fn search(
    alloc: Global,
    tables: &Tables,
    special: bool,
    method: u32,
    class: u32,
) -> Result<Choice, NoMemory>
    ensures { IfOk result (λ x. selected_of x ≡ searched tables.now special method class) }
{
    if special {
        select_from(alloc, tables, method, class)
    } else {
        select(alloc, tables, method, class)
    }
}
