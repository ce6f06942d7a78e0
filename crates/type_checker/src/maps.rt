//! What the stack maps of a program give.

ghost use Rattle.std.specs.Prelude.{◌≡◌, IfOk};
ghost use Rattle.jvm_model.specs.Classes as classes;
ghost use Rattle.type_checker.specs.Steps.{stack_maps};
ghost use Rattle.type_frames.specs.Typing as typing;
ghost use Rattle.type_frames.specs.Typing.{all_frames};

use crate::walk::method_fault;
use et_base::{Items, NoMemory};
use jvm_model::Program;
use std::alloc::Global;
use std::marker::Model;
use type_frames::{CheckFault, Frame, given_frames};

/// A program with the frames that the stack map of each method gives, none where it is malformed. Contracts see it as
/// the program.
#[derive(Drop)]
pub(crate) struct Mapped<'a> {
    pub program: &'a Program,
    given: Items<Option<Items<Frame>>>,
}

impl<'a> Model for Mapped<'a> {
    ghost use Rattle.std.specs.Prelude.{◌≡◌};
    ghost use Rattle.jvm_model.specs.declared.program.Program.{Program};
    ghost use Rattle.type_checker.specs.Steps.{stack_maps};

    ghost Value = { Program };

    ghost view = { λ mapped. mapped.program.now };

    ghost invariant = { λ mapped. mapped.given ≡ stack_maps mapped.program.now };
}

impl<'a> Mapped<'a> {
    /// Reads the stack map of each method of a program.
    pub fn new(alloc: Global, program: &'a Program) -> Result<Mapped<'a>, NoMemory>
        ensures { IfOk result (λ mapped. mapped ≡ program.now) }
    {
        let mut given = Items::new(alloc);
        for m in program.methods.as_slice() {
            given.push(given_frames(alloc, program, m)?)?;
        }
        Ok(Mapped { program, given })
    }

    /// The first fault of the method of a number, which has this other number in the class file of this class.
    #[tactic(auto, unfolding(type_frames::specs::Typing::method_fault), using(crate::proofs::StackMaps::map_of))]
    pub fn method_fault(
        &self,
        alloc: Global,
        name: &[u16],
        number: u32,
        method: u32,
    ) -> Result<Option<CheckFault>, NoMemory>
        ensures { IfOk result (λ o.
            o ≡ typing.method_fault self.now name.now number (classes.method_at self.now method)) }
    {
        let Some(m) = self.program.method(method) else {
            return Ok(None);
        };
        let Some(given) = self.given.get(method as usize) else {
            return Ok(None);
        };
        method_fault(alloc, self.program, name, number, m, given)
    }

    /// The given frames of all methods in order.
    #[tactic(auto, unfolding(type_frames::specs::Typing::all_frames), using(crate::proofs::StackMaps::frames_of_maps))]
    pub fn into_frames(self, alloc: Global) -> Result<Items<Items<Frame>>, NoMemory>
        ensures { IfOk result (λ all. all ≡ all_frames self.entry) }
    {
        let Mapped { program: _, given } = self;
        let mut all = Items::new(alloc);
        for map in given.into_vec() {
            all.push(map.unwrap_or(Items::new(alloc)))?;
        }
        Ok(all)
    }
}
