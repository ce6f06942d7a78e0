//! What is initialised before a class.

ghost use Rattle.std.specs.Prelude.{◌≡◌, ◌∷◌, [], ◌++◌, IfOk, OnOk, filter, map};
ghost use Rattle.jvm_model.specs.{Initialise.parts_of, Initialise.superclass_part, Linked.Linked};
ghost use Rattle.vm_tables.specs.Starts.{part_of, interface_part, is_started};

use crate::interfaces::DefaultInterfaces;
use crate::trivial::TrivialClasses;
use et_base::{Items, NoMemory};
use jvm_model::Program;
use std::alloc::Global;
use std::marker::Model;
use std::snapshot::Snapshot;

/// A class or interface that is initialised before another, and what it costs to look at its state.
#[derive(Clone, Copy, PartialEq, Eq)]
pub struct Part {
    /// Its number.
    pub class: u32,
    /// Units: 1 for a default interface, 0 for the superclass.
    pub price: u64,
}

/// What is initialised before each class. Contracts see the program.
#[derive(Drop)]
pub(crate) struct InitPlan {
    table: Items<Items<Part>>,
    program: Snapshot<Program>,
}

impl Model for InitPlan {
    ghost use Rattle.jvm_model.specs.declared.program.Program.{Program as Numbered};
    ghost use Rattle.vm_tables.specs.Starts.{AreParts};

    ghost Value = { Numbered };

    ghost view = { λ t. t.program.value };

    ghost invariant = { λ t. AreParts t.program.value t.table };
}

impl InitPlan {
    /// The parts of a linked program's classes.
    pub(crate) fn of(
        alloc: Global,
        p: &Program,
        defaults: &DefaultInterfaces,
        trivial: &TrivialClasses,
    ) -> Result<InitPlan, NoMemory>
        requires linked { Linked p.now }
        requires defaults { defaults.now ≡ p.now }
        requires trivial { trivial.now ≡ p.now }
        ensures { IfOk result (λ parts. parts ≡ p.now) }
    {
        let mut table = Items::new(alloc);
        for class in 0..p.classes.len() as u32 {
            table.push(parts_before(alloc, p, defaults, trivial, class)?)?;
        }
        Ok(InitPlan {
            table,
            program: Snapshot::of(p),
        })
    }

    /// The superclass and then the default interfaces of a class, trivial ones left aside; nothing for an interface.
    pub(crate) fn get(&self, class: u32) -> &[Part]
        ensures { map part_of result.now ≡ parts_of self.now class }
    {
        match self.table.get(class as usize) {
            None => &[],
            Some(parts) => parts.as_slice(),
        }
    }
}

/// Appends a part, unless it is trivial.
fn push_part(parts: &mut Items<Part>, trivial: &TrivialClasses, part: Part) -> Result<(), NoMemory>
    ensures { OnOk result (map part_of parts.new ≡ map part_of parts.old ++ filter (λ x. is_started trivial.now x) (part_of part ∷ [])) }
{
    if !trivial.contains(part.class) {
        parts.push(part)?;
    }
    Ok(())
}

/// Appends a superclass, unless it is trivial.
fn push_superclass(
    parts: &mut Items<Part>,
    trivial: &TrivialClasses,
    superclass: Option<u32>,
) -> Result<(), NoMemory>
    ensures { OnOk result (map part_of parts.new ≡ map part_of parts.old ++ filter (λ x. is_started trivial.now x) (superclass_part superclass)) }
{
    match superclass {
        None => Ok(()),
        Some(class) => push_part(parts, trivial, Part { class, price: 0 }),
    }
}

/// Appends default interfaces, trivial ones left aside.
fn push_interfaces(
    parts: &mut Items<Part>,
    trivial: &TrivialClasses,
    interfaces: &[u32],
) -> Result<(), NoMemory>
    ensures { OnOk result (map part_of parts.new ≡ map part_of parts.old ++ filter (λ x. is_started trivial.now x) (map interface_part interfaces.now)) }
{
    for interface in interfaces {
        let part = Part {
            class: *interface,
            price: 1,
        };
        push_part(parts, trivial, part)?;
    }
    Ok(())
}

/// The parts of a class.
#[tactic(auto, using(crate::proofs::Started::all_parts), unfolding(jvm_model::specs::Initialise::parts_of))]
fn parts_before(
    alloc: Global,
    p: &Program,
    defaults: &DefaultInterfaces,
    trivial: &TrivialClasses,
    class: u32,
) -> Result<Items<Part>, NoMemory>
    requires defaults { defaults.now ≡ p.now }
    requires trivial { trivial.now ≡ p.now }
    ensures { IfOk result (λ parts. map part_of parts ≡ parts_of p.now class) }
{
    let mut parts = Items::new(alloc);
    if p.is_interface(class) {
        return Ok(parts);
    }
    push_superclass(&mut parts, trivial, p.superclass(class))?;
    push_interfaces(&mut parts, trivial, defaults.get(class))?;
    Ok(parts)
}
