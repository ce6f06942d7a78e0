//! How the code of a class uses the entries of its pool (JVMS 6.5 and 4.7.3).

ghost use Rattle.std.specs.Prelude.{◌≡◌, IfOk, None, flat_map, length, option_copied, replicate};
ghost use Rattle.class_pool.specs.Pool.{entry_of};
ghost use Rattle.class_link.specs.Bodies as bodies;
ghost use Rattle.class_link.specs.Marks as marking;
ghost use Rattle.class_link.specs.{Marks.noted, Marks.noted_by, References.code_uses, References.handler_use, References.op_use, References.uses};

use crate::targets::target_in;
use class_pool::{Entry, lookup};
use class_reader::{ClassParts, CodePart, MemberPart, RawHandler};
use code_decode::RawOp;
use code_forms::{Target, Use, fits, index_in, use_of};
use et_base::NoMemory;
use jvm_model::Program;
use std::alloc::Global;

/// A class whose code uses entries: the program, its number, its pool entries and what they stand for.
#[derive(Clone, Copy)]
pub struct User<'a> {
    pub program: &'a Program,
    pub class: u32,
    pub slots: &'a [Option<Entry>],
    pub targets: &'a [Option<Target>],
}

// The use fits what the entry stands for; what stands for nothing is faulty by itself.
fn fits_target(
    p: &Program,
    class: u32,
    entry: Option<&Entry>,
    target: Option<Target>,
    used: Use,
) -> bool
    ensures { result ≡ marking.fits_target p.now class (option_copied entry.entry) target used }
{
    match target {
        None => true,
        Some(target) => fits(p, class, entry, target, used),
    }
}

fn marked_with(mark: Option<bool>, fits: bool) -> Option<bool>
    ensures { result ≡ marking.marked_with mark fits }
{
    match mark {
        None => Some(fits),
        Some(others) => Some(others && fits),
    }
}

// Notes whether a use of an entry fits.
fn note_fit(marks: &mut Vec<Option<bool>>, index: u16, fits: bool)
    ensures { marks.new.items ≡ noted marks.old.items index fits }
{
    if index == 0 {
        return;
    }
    let place = index as usize - 1;
    if place < marks.len() {
        marks[place] = marked_with(marks[place], fits);
    }
}

// Notes a use of an entry.
fn note(user: &User, marks: &mut Vec<Option<bool>>, index: u16, used: Use)
    ensures { marks.new.items ≡ noted marks.old.items index (marking.fits_target user.now.program.now user.now.class (entry_of user.now.slots.now index) (bodies.target_in user.now.targets.now index) used) }
{
    let entry = lookup::entry_at(user.slots, index);
    let target = target_in(user.targets, index);
    let fits = fits_target(user.program, user.class, entry, target, used);
    note_fit(marks, index, fits);
}

fn note_op(user: &User, marks: &mut Vec<Option<bool>>, op: &RawOp)
    ensures { marks.new.items ≡ noted_by user.now marks.old.items (op_use op.now) }
{
    match use_of(op.opcode) {
        None => {}
        Some(used) => note(user, marks, index_in(op), used),
    }
}

fn note_handler(user: &User, marks: &mut Vec<Option<bool>>, handler: &RawHandler)
    ensures { marks.new.items ≡ noted_by user.now marks.old.items (handler_use handler.now) }
{
    if handler.catch_class != 0 {
        note(user, marks, handler.catch_class, Use::Caught);
    }
}

fn note_ops(user: &User, marks: &mut Vec<Option<bool>>, ops: &[RawOp])
    ensures { marks.new.items ≡ noted_by user.now marks.old.items (flat_map op_use ops.now) }
{
    for op in ops {
        note_op(user, marks, op);
    }
}

fn note_handlers(user: &User, marks: &mut Vec<Option<bool>>, handlers: &[RawHandler])
    ensures { marks.new.items ≡ noted_by user.now marks.old.items (flat_map handler_use handlers.now) }
{
    for handler in handlers {
        note_handler(user, marks, handler);
    }
}

fn note_code(user: &User, marks: &mut Vec<Option<bool>>, code: &Option<CodePart>)
    ensures { marks.new.items ≡ noted_by user.now marks.old.items (code_uses code.now) }
{
    if let Some(part) = code {
        note_ops(user, marks, part.code.ops.as_slice());
        note_handlers(user, marks, part.handlers.as_slice());
    }
}

fn note_methods(user: &User, marks: &mut Vec<Option<bool>>, methods: &[MemberPart])
    ensures { marks.new.items ≡ noted_by user.now marks.old.items (flat_map (λ m. code_uses m.code) methods.now) }
{
    for method in methods {
        note_code(user, marks, &method.code);
    }
}

// So many marks of entries that aren't used.
fn unused(alloc: Global, count: usize) -> Result<Vec<Option<bool>>, NoMemory>
    ensures { IfOk result (λ marks. marks.items ≡ replicate count None) }
{
    let mut marks = Vec::with_capacity(alloc, count)?;
    for place in 0..count {
        marks.push(None)?;
    }
    Ok(marks)
}

/// The marks of the entries of a class, from index 1 on: none where its code doesn't use the entry, else whether all its
/// uses fit. It takes one pass over the code.
#[tactic(auto, unfolding(crate::specs::References::uses))]
pub(crate) fn marks_of(
    alloc: Global,
    user: &User,
    class: &ClassParts,
) -> Result<Vec<Option<bool>>, NoMemory>
    ensures { IfOk result (λ marks. marks.items ≡ noted_by user.now (replicate (length user.now.slots.now) None) (uses class.now)) }
{
    let mut marks = unused(alloc, user.slots.len())?;
    note_methods(user, &mut marks, class.methods.as_slice());
    Ok(marks)
}
