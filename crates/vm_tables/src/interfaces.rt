//! The default interfaces of classes. Each superinterface of a class is visited once, however many ways lead to it.

ghost use Rattle.std.specs.Prelude.{◌≡◌, ◌&&◌, All, IfOk, OnOk, filter, flat_map, is_some, not};
ghost use Rattle.std.specs.List.{list_any};
ghost use Rattle.jvm_model.specs.Classes as classes;
ghost use Rattle.jvm_model.specs.{Classes.class_at, Classes.method_at, Linked.Linked, Linked.IsClass};
ghost use Rattle.vm_tables.specs.Interfaces.{lineage, IsClosed, Gathers};

use et_base::{Items, NoMemory};
use indexmap::IndexSet;
use jvm_model::{CLINIT, Program};
use std::alloc::Global;
use std::marker::Model;
use std::snapshot::Snapshot;

/// The default interfaces of each class. Contracts see the program.
#[derive(Drop)]
pub(crate) struct DefaultInterfaces {
    table: Items<Items<u32>>,
    program: Snapshot<Program>,
}

impl Model for DefaultInterfaces {
    ghost use Rattle.jvm_model.specs.declared.program.Program.{Program as Numbered};
    ghost use Rattle.vm_tables.specs.Interfaces.{AreDefaults};

    ghost Value = { Numbered };

    ghost view = { λ t. t.program.value };

    ghost invariant = { λ t. AreDefaults t.program.value t.table };
}

impl DefaultInterfaces {
    /// The default interfaces of a linked program's classes.
    pub(crate) fn of(alloc: Global, p: &Program) -> Result<DefaultInterfaces, NoMemory>
        requires { Linked p.now }
        ensures { IfOk result (λ defaults. defaults ≡ p.now) }
    {
        let mut table = Items::new(alloc);
        for class in 0..p.classes.len() as u32 {
            table.push(default_interfaces(alloc, p, class)?)?;
        }
        Ok(DefaultInterfaces {
            table,
            program: Snapshot::of(p),
        })
    }

    /// The default interfaces that a class starts itself, in order (JVMS 5.5).
    pub(crate) fn get(&self, class: u32) -> &[u32]
        ensures { result.now ≡ classes.default_interfaces self.now class }
    {
        match self.table.get(class as usize) {
            None => &[],
            Some(interfaces) => interfaces.as_slice(),
        }
    }
}

/// Notes these interfaces and those above them, each behind those above itself.
#[cycle(gathering)]
fn gather_all(p: &Program, interfaces: &[u32], noted: &mut IndexSet<u32>) -> Result<(), NoMemory>
    requires linked { Linked p.now }
    requires there { All (λ i. IsClass p.now i) interfaces.now }
    requires closed { IsClosed p.now noted.old.keys }
    ensures { OnOk result (Gathers p.now (flat_map (λ i. lineage p.now i) interfaces.now) noted.old.keys noted.new.keys) }
{
    for interface in interfaces {
        gather(p, *interface, noted)?;
    }
    Ok(())
}

/// Notes an interface behind those above it.
#[cycle(gathering)]
fn gather(p: &Program, interface: u32, noted: &mut IndexSet<u32>) -> Result<(), NoMemory>
    requires linked { Linked p.now }
    requires there { IsClass p.now interface }
    requires closed { IsClosed p.now noted.old.keys }
    ensures { OnOk result (Gathers p.now (lineage p.now interface) noted.old.keys noted.new.keys) }
{
    if noted.contains(&interface) {
        return Ok(());
    }
    gather_all(p, p.interfaces(interface), noted)?;
    noted.insert(interface)?;
    Ok(())
}

/// The interfaces that a class or interface reaches by its own entries.
pub(crate) fn own_interfaces(
    alloc: Global,
    p: &Program,
    class: u32,
) -> Result<IndexSet<u32>, NoMemory>
    requires linked { Linked p.now }
    requires there { IsClass p.now class }
    ensures { IfOk result (λ found. found.keys ≡ classes.own_interfaces p.now class) }
{
    let mut noted = IndexSet::new(alloc);
    gather_all(p, p.interfaces(class), &mut noted)?;
    Ok(noted)
}

/// A method with code that isn't static and isn't named `<clinit>`.
fn is_default_method(p: &Program, method: u32) -> bool
    ensures { result ≡ classes.is_default_method (method_at p.now method) }
{
    p.has_code(method) && (!p.is_static_method(method) && p.method_name(method) != &CLINIT[..])
}

/// An interface declares such a method.
fn has_default(p: &Program, interface: u32) -> bool
    ensures { result ≡ list_any (λ m. classes.is_default_method (method_at p.now m)) (class_at p.now interface).methods }
{
    p.class_methods(interface)
        .iter()
        .any(|method| is_default_method(p, *method))
}

/// Of these interfaces those that declare such a method.
fn defaults_among(alloc: Global, p: &Program, interfaces: &[u32]) -> Result<Items<u32>, NoMemory>
    ensures { IfOk result (λ found. found ≡ filter (λ i. list_any (λ m. classes.is_default_method (method_at p.now m)) (class_at p.now i).methods) interfaces.now) }
{
    let mut found = Items::new(alloc);
    for interface in interfaces {
        if has_default(p, *interface) {
            found.push(*interface)?;
        }
    }
    Ok(found)
}

/// The default interfaces that a class starts itself, in order (JVMS 5.5).
#[tactic(auto, unfolding(jvm_model::specs::Classes::default_interfaces))]
fn default_interfaces(alloc: Global, p: &Program, class: u32) -> Result<Items<u32>, NoMemory>
    requires linked { Linked p.now }
    requires there { IsClass p.now class }
    ensures { IfOk result (λ found. found ≡ classes.default_interfaces p.now class) }
{
    let own = own_interfaces(alloc, p, class)?;
    defaults_among(alloc, p, own.as_slice())
}
