//! Which class initialisers only set constants: the code of each by itself.

ghost use Rattle.std.specs.Prelude.{◌≡◌, ◌||◌, IfOk, MatchOption, Some, false, length, map};
ghost use Rattle.std.specs.List.{list_all, range_with_len};
ghost use Rattle.jvm_model.specs.Linked.{Linked};
ghost use Rattle.quiet_init.specs.Quiet as quiet;
ghost use Rattle.quiet_init.specs.Starts.{IsStart};

use et_base::{Items, NoMemory};
use jvm_model::{Body, Instr, Op, Placed, Program};
use std::alloc::Global;

// Whether an instruction goes on at the next one and touches nothing: nop, a constant, a move of operands, or a form over
// ints and longs that divides by nothing (JVMS 6.5).
fn is_calm(form: &Instr) -> bool
    ensures { result ≡ quiet.is_calm form.now }
{
    match form {
        Instr::Nop
        | Instr::Const(_)
        | Instr::Pop
        | Instr::Pop2
        | Instr::Dup
        | Instr::DupX1
        | Instr::DupX2
        | Instr::Dup2
        | Instr::Dup2X1
        | Instr::Dup2X2
        | Instr::Swap
        | Instr::Neg { .. }
        | Instr::Convert { .. }
        | Instr::Compare => true,
        Instr::Binary { op, .. } => !matches!(op, Op::Div | Op::Rem),
        _ => false,
    }
}

// Whether an instruction reads or sets a static that the class itself declares.
fn is_own(p: &Program, class: u32, form: &Instr) -> bool
    ensures { result ≡ quiet.is_own p.now class form.now }
{
    match form {
        Instr::GetStatic { field } | Instr::PutStatic { field } => p.field_class(*field) == class,
        _ => false,
    }
}

// Whether an instruction is the `return` of a method without a value.
fn is_end(form: &Instr) -> bool
    ensures { result ≡ quiet.is_end form.now }
{
    matches!(form, Instr::Return { of: None })
}

// Whether each of these instructions is calm or the class's own.
fn are_still(p: &Program, class: u32, code: &[Placed]) -> bool
    ensures { result ≡ list_all (λ x. quiet.is_calm x.form || quiet.is_own p.now class x.form) code.now }
{
    code.iter()
        .all(|x| is_calm(&x.form) || is_own(p, class, &x.form))
}

// Whether code has such instructions alone, and the return at its end.
fn is_still(p: &Program, class: u32, code: &[Placed]) -> bool
    ensures { result ≡ quiet.is_still p.now class code.now }
{
    let Some((last, before)) = code.split_last() else {
        return false;
    };
    is_end(&last.form) && are_still(p, class, before)
}

// Whether a body has still code and no handler.
fn is_still_body(p: &Program, class: u32, body: &Body) -> bool
    ensures { result ≡ quiet.is_still_body p.now class (Some body.now) }
{
    body.handlers.is_empty() && is_still(p, class, body.code.as_slice())
}

/// The method and the body of a class's or interface's `<clinit>`, where it declares one with code.
pub(crate) fn start_of(p: &Program, class: u32) -> Option<(u32, &Body)>
    ensures { MatchOption result (quiet.is_still_start p.now class ≡ false)
        (λ x. IsStart p.now class x.0 x.1.now) }
{
    let method = p.class(class)?.initialiser?;
    let body = p.method(method)?.body.as_ref()?;
    Some((method, body))
}

/// Whether a class or interface declares `<clinit>` with such code.
fn is_still_start(p: &Program, class: u32) -> bool
    ensures { result ≡ quiet.is_still_start p.now class }
{
    match start_of(p, class) {
        None => false,
        Some((_method, body)) => is_still_body(p, class, body),
    }
}

/// Whether each class or interface, by its number, declares `<clinit>` with such code. The only error is want of memory.
pub(crate) fn still_starts(alloc: Global, p: &Program) -> Result<Items<bool>, NoMemory>
    requires linked { Linked p.now }
    ensures { IfOk result (λ starts. starts ≡ map (quiet.is_still_start p.now) (range_with_len 0 (length p.now.classes))) }
{
    let mut starts = Items::new(alloc);
    for class in 0..p.classes.len() as u32 {
        starts.push(is_still_start(p, class))?;
    }
    Ok(starts)
}
