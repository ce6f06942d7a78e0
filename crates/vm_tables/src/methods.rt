//! What calls and returns ask of methods.

ghost use Rattle.std.specs.Prelude.{◌≡◌, IfOk};
ghost use Rattle.jvm_model.specs.Linked.{first_or};
ghost use Rattle.vm_tables.specs.Methods.{call_descriptor_in, facts_in, facts_of};

use crate::trivial::TrivialClasses;
use et_base::{Items, NoMemory};
use jvm_model::{INIT, MethodRec, Program, parameter_count, return_type};
use std::alloc::Global;
use std::marker::Model;
use std::snapshot::Snapshot;

/// What entering a method takes that has code and isn't built-in.
#[derive(Clone, Copy)]
pub struct CallDescriptor {
    /// How many units: the greatest depth of its operands, its locals, and the 1 of the step.
    pub cost: u32,
    /// How many slots its locals have.
    pub max_locals: u16,
    /// Whether its class has no initialisation state.
    pub is_trivial: bool,
}

/// What calls and returns ask of a method.
#[derive(Clone, Copy)]
pub(crate) struct MethodFacts {
    /// How many arguments its descriptor asks for, the receiver left aside.
    pub arguments: usize,
    /// What entering it takes.
    pub call_descriptor: Option<CallDescriptor>,
    /// The first unit of the type that it returns, 0 where its descriptor lacks one.
    pub return_unit: u16,
    /// Whether its name is `<init>`.
    pub is_initialiser: bool,
}

/// Those of a program's methods. Contracts see the program.
#[derive(Drop)]
pub(crate) struct MethodTable {
    table: Items<MethodFacts>,
    program: Snapshot<Program>,
}

impl Model for MethodTable {
    ghost use Rattle.jvm_model.specs.declared.program.Program.{Program as Numbered};
    ghost use Rattle.vm_tables.specs.Methods.{AreFacts};

    ghost Value = { Numbered };

    ghost view = { λ t. t.program.value };

    ghost invariant = { λ t. AreFacts t.program.value t.table };
}

impl MethodTable {
    /// The table of a program's methods.
    pub(crate) fn of(
        alloc: Global,
        p: &Program,
        trivial: &TrivialClasses,
    ) -> Result<MethodTable, NoMemory>
        requires { trivial.now ≡ p.now }
        ensures { IfOk result (λ methods. methods ≡ p.now) }
    {
        let mut table = Items::new(alloc);
        for method in p.methods.as_slice() {
            table.push(facts_of(trivial, method))?;
        }
        Ok(MethodTable {
            table,
            program: Snapshot::of(p),
        })
    }

    /// What calls and returns ask of a method.
    #[inline(always)]
    #[tactic(auto, using(crate::proofs::Places::get_some, crate::proofs::Places::get_none))]
    pub(crate) fn get(&self, method: u32) -> MethodFacts
        ensures { result ≡ facts_of self.now method }
    {
        match self.table.get(method as usize) {
            None => MethodFacts {
                arguments: 0,
                call_descriptor: None,
                return_unit: 0,
                is_initialiser: false,
            },
            Some(facts) => *facts,
        }
    }
}

/// What calls and returns ask of a method.
fn facts_of(trivial: &TrivialClasses, method: &MethodRec) -> MethodFacts
    ensures { result ≡ facts_in trivial.now method.now }
{
    MethodFacts {
        arguments: parameter_count(method.descriptor.as_slice()),
        call_descriptor: call_descriptor_of(trivial, method),
        return_unit: first_unit(return_type(method.descriptor.as_slice())),
        is_initialiser: method.name.as_slice() == &INIT[..],
    }
}

/// What entering a method takes, None of a built-in one and one without code.
fn call_descriptor_of(trivial: &TrivialClasses, method: &MethodRec) -> Option<CallDescriptor>
    ensures { result ≡ call_descriptor_in trivial.now method.now }
{
    if method.native.is_some() {
        return None;
    }
    let Some(body) = &method.body else {
        return None;
    };
    Some(CallDescriptor {
        cost: u32::from(body.max_stack) + u32::from(body.max_locals) + 1,
        max_locals: body.max_locals,
        is_trivial: trivial.contains(method.class),
    })
}

/// The first unit of a descriptor, 0 of none.
pub(crate) fn first_unit(descriptor: &[u16]) -> u16
    ensures { result ≡ first_or 0 descriptor.now }
{
    match descriptor {
        [] => 0,
        [unit, ..] => *unit,
    }
}
