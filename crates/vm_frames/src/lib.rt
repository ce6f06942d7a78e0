//! The stack of entries of a running test: frames of methods (JVMS 2.6) and initialisation entries,
//! over one list of slots.
//!
//! Begin with `jvm_model/specs/Entries.antt`, the list of entries that contracts see, and
//! `specs/Extents.antt`, how it stands in slots; then `stack.rt` and `slots.rt`.
//!
//! - `FrameStack::enter` pushes a frame with the topmost operands as its arguments, or leaves all
//!   as it was.
//! - `push_value` and `pop_value` take no memory: a push of a frame makes room for 65,535 operands.
//! - `pop_to_caller` pops the entry, and its top operand goes to the frame below.
//!
//! The calls of the hot loop are `inline(always)` and hand on no address of the stack: the loop
//! keeps it in a local variable, in registers. What grows is `#[cold]` and gets its parts, moved.
#![tactic(auto)]

mod extent;
mod fault;
mod locals;
mod slots;
mod stack;

pub use fault::PushFault;
pub use stack::FrameStack;
