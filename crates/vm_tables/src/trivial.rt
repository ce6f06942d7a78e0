//! Classes that need not be initialised.

ghost use Rattle.std.specs.Prelude.{◌≡◌, IfOk, not};
ghost use Rattle.std.specs.List.{list_all};
ghost use Rattle.jvm_model.specs.Classes as classes;
ghost use Rattle.jvm_model.specs.{Classes.upwards_in, Linked.Linked};
ghost use Rattle.vm_tables.specs.Starts.{is_silent};

use crate::interfaces::DefaultInterfaces;
use et_base::{Items, NoMemory};
use jvm_model::{Program, class_bound};
use std::alloc::Global;
use std::marker::Model;
use std::snapshot::Snapshot;

/// Which classes are trivial. Contracts see the program.
#[derive(Drop)]
pub(crate) struct TrivialClasses {
    table: Items<bool>,
    program: Snapshot<Program>,
}

impl Model for TrivialClasses {
    ghost use Rattle.jvm_model.specs.declared.program.Program.{Program as Numbered};
    ghost use Rattle.vm_tables.specs.Starts.{AreTrivial};

    ghost Value = { Numbered };

    ghost view = { λ t. t.program.value };

    ghost invariant = { λ t. AreTrivial t.program.value t.table };
}

impl TrivialClasses {
    /// The trivial classes of a linked program.
    pub(crate) fn of(
        alloc: Global,
        p: &Program,
        defaults: &DefaultInterfaces,
    ) -> Result<TrivialClasses, NoMemory>
        requires linked { Linked p.now }
        requires same { defaults.now ≡ p.now }
        ensures { IfOk result (λ trivial. trivial ≡ p.now) }
    {
        let mut table = Items::new(alloc);
        for class in 0..p.classes.len() as u32 {
            table.push(is_trivial(p, defaults, class))?;
        }
        Ok(TrivialClasses {
            table,
            program: Snapshot::of(p),
        })
    }

    /// Whether a class or interface has no initialisation state.
    pub(crate) fn contains(&self, class: u32) -> bool
        ensures { result ≡ classes.is_trivial self.now class }
    {
        match self.table.get(class as usize) {
            None => true,
            Some(trivial) => *trivial,
        }
    }
}

/// A class or interface declares `<clinit>`.
fn declares_start(p: &Program, class: u32) -> bool
    ensures { result ≡ classes.declares_start p.now class }
{
    match p.class(class) {
        None => false,
        Some(record) => record.initialiser.is_some(),
    }
}

/// None of these declares `<clinit>`.
fn none_declares(p: &Program, interfaces: &[u32]) -> bool
    ensures { result ≡ list_all (λ i. not (classes.declares_start p.now i)) interfaces.now }
{
    interfaces
        .iter()
        .all(|interface| !declares_start(p, *interface))
}

/// Neither a class nor a default interface of it declares `<clinit>`.
fn is_silent(p: &Program, defaults: &DefaultInterfaces, class: u32) -> bool
    requires { defaults.now ≡ p.now }
    ensures { result ≡ is_silent p.now class }
{
    !declares_start(p, class) && none_declares(p, defaults.get(class))
}

/// The same of a class and those above it, at most so many steps up.
fn is_silent_upwards(p: &Program, defaults: &DefaultInterfaces, steps: u32, class: u32) -> bool
    requires { defaults.now ≡ p.now }
    ensures { result ≡ list_all (λ d. is_silent p.now d) (upwards_in p.now steps class) }
{
    if steps == 0 {
        return true;
    }
    if !is_silent(p, defaults, class) {
        return false;
    }
    match p.superclass(class) {
        None => true,
        Some(above) => is_silent_upwards(p, defaults, steps - 1, above),
    }
}

/// A class or interface has no initialisation state.
#[tactic(auto, unfolding(jvm_model::specs::Classes::is_trivial))]
fn is_trivial(p: &Program, defaults: &DefaultInterfaces, class: u32) -> bool
    requires { defaults.now ≡ p.now }
    ensures { result ≡ classes.is_trivial p.now class }
{
    if p.is_interface(class) {
        !declares_start(p, class)
    } else {
        is_silent_upwards(p, defaults, class_bound(), class)
    }
}
