//! Where the instructions of a code begin.

ghost use Rattle.std.specs.Prelude.{◌≡◌, ◌<◌, nat_lt, length, IfOk, IfErr, List, Bool, true, false, not, replicate, slice_index_or, slice_set, if◌then◌else◌};
ghost use Rattle.et_base.specs.Answers.{nothing, tested};
ghost use Rattle.class_pool.specs.{declared.fault.Fault.TheVariants.BadTarget, declared.fault.ReadError.TheVariants.Memory, Reading.Gives};
ghost use Rattle.code_decode.specs.Targets.{Marks, is_place, names_places, is_marked, leads, leads_to, targets_fit};

use crate::instructions::RawOp;
use crate::opcodes::{Shape, shape_of};
use class_pool::fault::wants;
use class_pool::{Fault, ReadError};
use std::alloc::Global;
use std::marker::Model;

/// For each place in a code whether an instruction begins there.
#[derive(Drop)]
pub struct Starts {
    marks: Vec<bool>,
}

impl Model for Starts {
    ghost Value = { List Bool };

    ghost view = { λ s. s.marks.items };
}

impl Starts {
    /// The starts of these instructions, in a code of so many bytes. It takes time for each byte and each instruction.
    pub fn of(alloc: Global, total: usize, ops: &[RawOp]) -> Result<Starts, ReadError>
        ensures starts { IfOk result (λ s. Marks s ops.now total) }
        ensures err { IfErr result (λ e. e ≡ Memory) }
    {
        let mut marks = blank(alloc, total)?;
        for op in ops {
            mark(&mut marks, op.pc as usize);
        }
        Ok(Starts { marks })
    }

    /// Whether an instruction begins at this pc; it takes constant time.
    pub fn is_start(&self, pc: u32) -> bool
        ensures { result ≡ slice_index_or self.now pc false }
    {
        self.marks.get(pc as usize) == Some(&true)
    }

    // The same of a place, which is -1 outside of the code.
    fn is_marked(&self, to: i32) -> bool
        ensures { result ≡ is_marked self.now to }
    {
        0 <= to && self.is_start(to as u32)
    }
}

fn blank(alloc: Global, total: usize) -> Result<Vec<bool>, ReadError>
    ensures blank { IfOk result (λ v. v.items ≡ replicate total false) }
    ensures err { IfErr result (λ e. e ≡ Memory) }
{
    let mut marks = Vec::new(alloc);
    marks.resize(total, false)?;
    Ok(marks)
}

fn mark(marks: &mut Vec<bool>, pc: usize)
    ensures { marks.new.items ≡ (if nat_lt pc (length marks.old.items) then slice_set marks.old.items pc true else marks.old.items) }
{
    if pc < marks.len() {
        marks[pc] = true;
    }
}

// Whether the operand at i is a place in the code.
fn is_place(shape: Option<Shape>, i: usize) -> bool
    ensures { result ≡ is_place shape i }
{
    match shape {
        Some(Shape::Branch | Shape::FarBranch) => true,
        Some(Shape::Table) => !(i == 1 || i == 2),
        Some(Shape::Lookup) => i % 2 == 0,
        _ => false,
    }
}

// Whether operands of an opcode can be places in the code.
fn names_places(opcode: u8) -> bool
    ensures { result ≡ names_places opcode }
{
    matches!(opcode, 153..=167 | 170 | 171 | 198..=200)
}

// Whether each place among operands is marked.
fn leads(shape: Option<Shape>, starts: &Starts, args: &[i32]) -> bool
    ensures { result ≡ leads shape (is_marked starts.now) args.now }
{
    args.iter()
        .enumerate()
        .all(|(i, to)| !is_place(shape, i) || starts.is_marked(*to))
}

// Whether each place that an instruction leads to is marked.
fn leads_to_starts(starts: &Starts, op: &RawOp) -> bool
    ensures { result ≡ leads_to (is_marked starts.now) op.now }
{
    !names_places(op.opcode) || leads(shape_of(op.opcode), starts, op.args.as_slice())
}

fn judge_op(method: u32, starts: &Starts, op: &RawOp) -> Result<(), ReadError>
    ensures { Gives nothing result (tested (leads_to (is_marked starts.now) op.now) (BadTarget method op.now.pc)) }
{
    wants(
        leads_to_starts(starts, op),
        Fault::BadTarget { method, pc: op.pc },
    )
}

// The first instruction that leads to a place where none begins.
pub fn judge_targets(method: u32, starts: &Starts, ops: &[RawOp]) -> Result<(), ReadError>
    ensures { Gives nothing result (targets_fit method (is_marked starts.now) ops.now) }
{
    for op in ops {
        judge_op(method, starts, op)?;
    }
    Ok(())
}
