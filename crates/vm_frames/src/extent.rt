//! Where an entry stands in the slots.

ghost use Rattle.std.specs.Prelude.{◌≡◌, ◌++◌, ◌∷◌, [], OnOk, OnErr, false};
ghost use Rattle.vm_frames.specs.Extents.{saved_by, IsTaken};

use et_base::NoMemory;
use jvm_model::EntryKind;
use std::mem;

/// An entry's kind, number and place in the code, and its extent in the slots: its locals stand from `base` up to
/// `first`, its operands from there up to `top`.
#[derive(Clone, Copy, PartialEq, Eq)]
pub struct Extent {
    pub kind: EntryKind,
    pub number: u32,
    pub pc: u32,
    pub base: usize,
    pub first: usize,
    pub top: usize,
}

impl Extent {
    /// No entry.
    pub const NONE: Extent = Extent {
        kind: EntryKind::Absent,
        number: 0,
        pc: 0,
        base: 0,
        first: 0,
        top: 0,
    };

    /// The frame of a method with its locals from `base` up to `first`, at the start of its code and without operands.
    pub fn frame(method: u32, base: usize, first: usize) -> Extent
        ensures { result ≡ record {
          kind = EntryKind.InMethod;
          number = method;
          pc = 0;
          base = base;
          first = first;
          top = first;
        } }
    {
        Extent {
            kind: EntryKind::InMethod,
            number: method,
            pc: 0,
            base,
            first,
            top: first,
        }
    }

    /// The initialisation entry of a class.
    pub fn init(class: u32, base: usize) -> Extent
        ensures { result ≡ record {
          kind = EntryKind.InClass false;
          number = class;
          pc = 0;
          base = base;
          first = base;
          top = base;
        } }
    {
        Extent {
            kind: EntryKind::InClass { entered: false },
            number: class,
            pc: 0,
            base,
            first: base,
            top: base,
        }
    }
}

/// Puts an extent on those that are saved, unless it is no entry. After a refusal they are as before. Where there is room
/// for it, the address of the list isn't handed on.
#[inline(always)]
pub fn save(saved: &mut Vec<Extent>, below: Extent) -> Result<(), NoMemory>
    ensures saved { OnOk result (saved.new.items ≡ saved.old.items ++ saved_by below.kind below) }
    ensures kept { OnErr result (saved.new.items ≡ saved.old.items) }
{
    match below.kind {
        EntryKind::Absent => Ok(()),
        EntryKind::InMethod | EntryKind::InClass { .. } => push(saved, below),
    }
}

/// Takes the extent that was saved last, and no entry where none is saved.
#[inline(always)]
#[tactic(auto, using(crate::proofs::Entering::taken_some, crate::proofs::Entering::taken_none))]
pub fn take_saved(saved: &mut Vec<Extent>) -> Extent
    ensures { IsTaken saved.old.items saved.new.items result }
{
    // part by part: an extent that no address stands for can stay in registers
    match saved.pop() {
        Some(
            Extent {
                kind,
                number,
                pc,
                base,
                first,
                top,
            },
        ) => Extent {
            kind,
            number,
            pc,
            base,
            first,
            top,
        },
        None => Extent::NONE,
    }
}

/// Puts an extent on others. After a refusal they are as before.
#[inline(always)]
fn push(saved: &mut Vec<Extent>, below: Extent) -> Result<(), NoMemory>
    ensures saved { OnOk result (saved.new.items ≡ saved.old.items ++ below ∷ []) }
    ensures kept { OnErr result (saved.new.items ≡ saved.old.items) }
{
    if saved.len() < saved.capacity() {
        saved.push_reserved(below);
        return Ok(());
    }
    let alloc = *saved.allocator();
    let mut moved = mem::replace(saved, Vec::new(alloc));
    let grown = push_apart(
        &mut moved,
        below.kind,
        below.number,
        below.pc,
        below.base,
        below.first,
        below.top,
    );
    *saved = moved;
    grown
}

/// The same apart, by the parts of the extent: so its address isn't handed on either.
#[cold]
#[inline(never)]
fn push_apart(
    saved: &mut Vec<Extent>,
    kind: EntryKind,
    number: u32,
    pc: u32,
    base: usize,
    first: usize,
    top: usize,
) -> Result<(), NoMemory>
    ensures saved { OnOk result (saved.new.items ≡ saved.old.items ++ record {
      kind = kind;
      number = number;
      pc = pc;
      base = base;
      first = first;
      top = top;
    } ∷ []) }
    ensures kept { OnErr result (saved.new.items ≡ saved.old.items) }
{
    saved.push(Extent {
        kind,
        number,
        pc,
        base,
        first,
        top,
    })?;
    Ok(())
}
