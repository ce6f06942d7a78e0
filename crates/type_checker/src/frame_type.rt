//! The frame before an instruction.

use std::marker::Model;
use type_frames::VType;

/// The types of the locals and of the stack, whose last one is its top; contracts see the top first.
#[derive(Drop)]
pub(crate) struct FrameType {
    pub locals: Vec<VType>,
    pub stack: Vec<VType>,
    pub flag: bool,
}

impl Model for FrameType {
    ghost use Rattle.std.specs.Prelude.{reverse};
    ghost use Rattle.type_frames.specs.Frames.{Slots};

    ghost Value = { Slots };

    ghost view = { λ f. record { locals = f.locals.items; stack = reverse f.stack.items; flag = f.flag } };
}
