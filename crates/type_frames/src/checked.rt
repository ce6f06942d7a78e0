//! Typed programs.

ghost use Rattle.std.specs.Prelude.{◌≡◌, [], slice_index_or};
ghost use Rattle.type_frames.specs.Typing.{IsTyped, all_frames};

use crate::vtype::Frame;
use et_base::Items;
use jvm_model::Program;
use std::marker::Model;

/// A program that is typed (JVMS 4.10.1), with the frames that the stack maps of its methods give. Contracts see it as
/// the program.
#[derive(Drop)]
pub struct Checked {
    program: Program,
    frames: Items<Items<Frame>>,
}

impl Model for Checked {
    ghost use Rattle.std.specs.Prelude.{◌≡◌};
    ghost use Rattle.jvm_model.specs.declared.program.Program.{Program};
    ghost use Rattle.type_frames.specs.Typing.{IsTyped, all_frames};

    ghost Value = { Program };

    ghost view = { λ c. c.program };

    ghost invariant = { λ c. IsTyped c.program × (c.frames ≡ all_frames c.program) };
}

impl Checked {
    /// Of a program and the frames of its methods in order; it takes no memory.
    pub fn new(program: Program, frames: Items<Items<Frame>>) -> Checked
        requires typed { IsTyped program }
        requires read { frames ≡ all_frames program }
        ensures { result ≡ program }
    {
        Checked { program, frames }
    }

    /// The program.
    pub fn program(&self) -> &Program
        ensures same { result.now ≡ self.now }
        ensures typed { IsTyped self.now }
    {
        &self.program
    }

    /// The frames that the stack map of a method gives, by the method's number.
    pub fn frames(&self, method: u32) -> &[Frame]
        ensures { result.now ≡ slice_index_or (all_frames self.now) method [] }
    {
        match self.frames.as_slice().get(method as usize) {
            None => &[],
            Some(frames) => frames.as_slice(),
        }
    }

    /// The program and its frames, taken apart: what `new` puts together.
    pub fn into_parts(self) -> (Program, Items<Items<Frame>>)
        ensures program { result.0 ≡ self }
        ensures frames { result.1 ≡ all_frames self }
        ensures typed { IsTyped self }
    {
        (self.program, self.frames)
    }
}
