//! The stack of entries.

ghost use Rattle.std.specs.Prelude.{◌≡◌, ◌≤◌, ◌<◌, ◌+◌, ◌∷◌, ◌↔◌, length, slice_get, get_or, Some, Err, OnOk, OnErr, true, false, []};
ghost use Rattle.std.specs.Option.{option_to_list};
ghost use Rattle.jvm_model.specs.declared.values.Value.TheVariants.{Int, Long, Null};
ghost use Rattle.jvm_model.specs.Entries.{no_entries, with_stack, with_place, with_entry, class_entry, popped_entry, is_full};
ghost use Rattle.jvm_model.specs.{Initialise.with_entered, RowsMoves.with_local, RowsMoves.is_long};
ghost use Rattle.vm_frames.specs.Stack.{HasRoom, HasIntOnTop, HasLongOnTop, dup_below, frame_with, called_with, stored_local};

use crate::extent::{Extent, save, take_saved};
use crate::fault::PushFault;
use crate::locals::{frame_of_operands, frame_of_receiver};
use crate::slots::Slots;
use jvm_model::{EntryKind, Value};
use std::alloc::Global;
use std::marker::Model;

/// The most entries (this project's).
const ENTRY_LIMIT: u32 = 1_024;

/// The entries of a running test. Contracts see the definition's list of entries: the top one first, operands with the
/// top first, locals by slot, a long in the first of its two.
///
/// All values stand in one list of slots. A push makes room for as many operands as a method can have, so no call on
/// the top entry takes memory.
#[derive(Drop)]
pub struct FrameStack {
    slots: Slots,
    saved: Vec<Extent>,
    current: Extent,
}

impl Model for FrameStack {
    ghost use Rattle.std.specs.Prelude.{length};
    ghost use Rattle.jvm_model.specs.Entries.{Entries};

    ghost Value = { Entries };

    ghost use Rattle.vm_frames.specs.Extents.{entries_at, IsStanding};

    ghost view = { λ f. entries_at f.slots f.current f.saved.items };

    ghost invariant = { λ f. IsStanding (length f.slots) f.current f.saved.items };
}

impl FrameStack {
    /// No entries. It takes no memory.
    pub fn new(alloc: Global) -> FrameStack
        ensures { result ≡ no_entries }
    {
        FrameStack {
            slots: Slots::new(alloc),
            saved: Vec::new(alloc),
            current: Extent::NONE,
        }
    }

    /// Takes all entries. The room that they had stays, so that the next test makes none.
    pub fn clear(&mut self)
        ensures { self.new ≡ no_entries }
    {
        self.saved.clear();
        self.current = Extent::NONE;
    }

    /// Whether as many entries stand as may: 1,024.
    pub fn is_full(&self) -> bool
        ensures { result ≡ is_full self.now }
    {
        let saved = self.saved.len() as u32;
        match self.current.kind {
            EntryKind::Absent => saved >= ENTRY_LIMIT,
            EntryKind::InMethod | EntryKind::InClass { .. } => saved + 1 >= ENTRY_LIMIT,
        }
    }

    /// What the top entry is.
    pub fn kind(&self) -> EntryKind
        ensures { result ≡ self.now.top.kind }
    {
        self.current.kind
    }

    /// What the entry below the top one is: Absent where there is none.
    #[inline(always)]
    pub fn kind_below(&self) -> EntryKind
        ensures { result ≡ (popped_entry self.now).top.kind }
    {
        match self.saved.last() {
            Some(extent) => extent.kind,
            None => EntryKind::Absent,
        }
    }

    /// The number of the top entry's method or class.
    pub fn number(&self) -> u32
        ensures { result ≡ self.now.top.number }
    {
        self.current.number
    }

    /// The byte place of the top frame in its code.
    pub fn pc(&self) -> u32
        ensures { result ≡ self.now.top.pc }
    {
        self.current.pc
    }

    /// Sets the byte place of the top frame in its code.
    pub fn set_pc(&mut self, pc: u32)
        ensures { self.new ≡ with_place self.old pc }
    {
        self.current.pc = pc;
    }

    /// The local of a slot; a long stands in the first of its two.
    #[tactic(auto, using(crate::proofs::Tops::tops))]
    #[inline(always)]
    pub fn local(&self, i: u16) -> Value
        requires { i < length self.now.top.locals }
        ensures { slice_get self.now.top.locals i ≡ Some result }
    {
        self.slots.get(self.current.base + i as usize)
    }

    /// Sets the local of a slot.
    #[tactic(auto, using(crate::proofs::Tops::tops))]
    #[inline(always)]
    pub fn set_local(&mut self, i: u16, v: Value)
        requires { i < length self.old.top.locals }
        ensures { self.new ≡ with_local self.old i v }
    {
        self.slots.set(self.current.base + i as usize, v);
    }

    /// The operand that is `k` operands below the top one.
    #[tactic(auto, using(crate::proofs::Tops::tops))]
    #[inline(always)]
    pub fn peek(&self, k: u16) -> Value
        requires { k < length self.now.top.stack }
        ensures { slice_get self.now.top.stack k ≡ Some result }
    {
        self.slots.get(self.current.top - 1 - k as usize)
    }

    /// The operand below so many others. An entry has at most 65,535.
    #[tactic(auto, using(crate::proofs::Tops::tops))]
    #[inline(always)]
    pub fn operand(&self, below: usize) -> Value
        requires { below < length self.now.top.stack }
        ensures found { slice_get self.now.top.stack below ≡ Some result }
        ensures few { below < 65535 }
    {
        self.slots.get(self.current.top - 1 - below)
    }

    /// Puts an operand on top.
    #[tactic(auto, using(crate::proofs::Tops::tops))]
    #[inline(always)]
    pub fn push_value(&mut self, v: Value)
        requires { HasRoom 1 self.old }
        ensures { self.new ≡ with_stack self.old (v ∷ self.old.top.stack) }
    {
        self.slots.set(self.current.top, v);
        self.current.top += 1;
    }

    /// Takes the top operand. There is room for one again.
    #[tactic(auto, using(crate::proofs::Tops::tops))]
    #[inline(always)]
    pub fn pop_value(&mut self) -> Value
        requires { 0 < length self.old.top.stack }
        ensures popped { self.old ≡ with_stack self.new (result ∷ self.new.top.stack) }
        ensures room { HasRoom 1 self.new }
    {
        self.current.top -= 1;
        self.slots.get(self.current.top)
    }

    /// Takes all operands.
    #[tactic(auto, using(crate::proofs::Tops::tops))]
    pub fn clear_stack(&mut self)
        ensures { self.new ≡ with_stack self.old [] }
    {
        self.current.top = self.current.first;
    }
}

impl FrameStack {
    /// Pushes the frame of a method that is entered with no argument or with one, without a caller's operands: by the
    /// driver, or for `<clinit>`. After a refusal the entries are as before.
    pub fn push(
        &mut self,
        method: u32,
        max_locals: u16,
        receiver: Option<Value>,
    ) -> Result<(), PushFault>
        ensures pushed { OnOk result
            (self.new ≡ with_entry (frame_with max_locals method (option_to_list receiver)) self.old) }
        ensures deep { (result ≡ Err PushFault.Deep) ↔ (is_full self.old ≡ true) }
        ensures kept { OnErr result (self.new ≡ self.old) }
    {
        if self.is_full() {
            return Err(PushFault::Deep);
        }
        let base = self.current.top;
        let first = frame_of_receiver(&mut self.slots, base, max_locals, receiver)?;
        save(&mut self.saved, self.current)?;
        self.current = Extent::frame(method, base, first);
        Ok(())
    }

    /// Enters a method with so many of the topmost operands as its arguments, which leave the caller's operands (JVMS
    /// 2.6.1 and 6.5). After a refusal the entries are as before.
    #[inline(always)]
    pub fn enter(&mut self, method: u32, max_locals: u16, arguments: usize) -> Result<(), PushFault>
        requires { arguments ≤ length self.old.top.stack }
        ensures entered { OnOk result (self.new ≡ called_with max_locals method arguments self.old) }
        ensures deep { (result ≡ Err PushFault.Deep) ↔ (is_full self.old ≡ true) }
        ensures kept { OnErr result (self.new ≡ self.old) }
    {
        if self.is_full() {
            return Err(PushFault::Deep);
        }
        let base = self.current.top;
        let from = base - arguments;
        let first = frame_of_operands(&mut self.slots, from, base, max_locals)?;
        save(
            &mut self.saved,
            Extent {
                top: from,
                ..self.current
            },
        )?;
        self.current = Extent::frame(method, base, first);
        Ok(())
    }

    /// Pushes the initialisation entry of a class or interface (JVMS 5.5), its `<clinit>` not entered yet. After a
    /// refusal the entries are as before.
    #[inline(always)]
    pub fn push_init(&mut self, class: u32) -> Result<(), PushFault>
        ensures pushed { OnOk result (self.new ≡ with_entry (class_entry class) self.old) }
        ensures deep { (result ≡ Err PushFault.Deep) ↔ (is_full self.old ≡ true) }
        ensures kept { OnErr result (self.new ≡ self.old) }
    {
        if self.is_full() {
            return Err(PushFault::Deep);
        }
        save(&mut self.saved, self.current)?;
        self.current = Extent::init(class, self.current.top);
        Ok(())
    }

    /// Says of the initialisation entry at the top that its `<clinit>` was entered or that there is none to enter.
    pub fn set_entered(&mut self)
        requires { self.old.top.kind ≡ EntryKind.InClass false }
        ensures { self.new ≡ with_entered self.old }
    {
        self.current.kind = EntryKind::InClass { entered: true };
    }

    /// Pops the top entry.
    #[tactic(auto, using(crate::proofs::Entering::popping))]
    #[inline(always)]
    pub fn pop(&mut self)
        ensures { self.new ≡ popped_entry self.old }
    {
        self.current = take_saved(&mut self.saved);
    }

    /// Pops the top entry, and its top operand goes to the frame below (JVMS 6.5, ireturn and the others).
    #[tactic(auto, using(crate::proofs::Entering::popping))]
    #[inline(always)]
    pub fn pop_to_caller(&mut self)
        requires operand { 0 < length self.old.top.stack }
        requires room { HasRoom 1 (popped_entry self.old) }
        ensures { self.new ≡ with_stack (popped_entry self.old)
            (get_or self.old.top.stack 0 Null ∷ (popped_entry self.old).top.stack) }
    {
        let from = self.current.top - 1;
        self.current = take_saved(&mut self.saved);
        self.slots.copy(from, self.current.top);
        self.current.top += 1;
    }
}

impl FrameStack {
    /// Puts an int on top.
    #[tactic(auto, using(crate::proofs::Tops::tops))]
    #[inline(always)]
    pub fn push_int(&mut self, n: i32)
        requires { HasRoom 1 self.old }
        ensures { self.new ≡ with_stack self.old (Int n ∷ self.old.top.stack) }
    {
        self.slots.set_int(self.current.top, n);
        self.current.top += 1;
    }

    /// Takes the int on top. There is room for one operand again.
    #[tactic(auto, using(crate::proofs::Tops::tops))]
    #[inline(always)]
    pub fn pop_int(&mut self) -> i32
        requires { HasIntOnTop self.old.top.stack }
        ensures popped { self.old ≡ with_stack self.new (Int result ∷ self.new.top.stack) }
        ensures room { HasRoom 1 self.new }
    {
        self.current.top -= 1;
        self.slots.int_at(self.current.top)
    }

    /// Puts a long on top.
    #[tactic(auto, using(crate::proofs::Tops::tops))]
    #[inline(always)]
    pub fn push_long(&mut self, n: i64)
        requires { HasRoom 1 self.old }
        ensures { self.new ≡ with_stack self.old (Long n ∷ self.old.top.stack) }
    {
        self.slots.set_long(self.current.top, n);
        self.current.top += 1;
    }

    /// Takes the long on top. There is room for one operand again.
    #[tactic(auto, using(crate::proofs::Tops::tops))]
    #[inline(always)]
    pub fn pop_long(&mut self) -> i64
        requires { HasLongOnTop self.old.top.stack }
        ensures popped { self.old ≡ with_stack self.new (Long result ∷ self.new.top.stack) }
        ensures room { HasRoom 1 self.new }
    {
        self.current.top -= 1;
        self.slots.long_at(self.current.top)
    }

    /// Whether the operand that is `k` operands below the top one is a long.
    #[tactic(auto, using(crate::proofs::Tops::tops))]
    pub fn is_long(&self, k: u16) -> bool
        requires { k < length self.now.top.stack }
        ensures { result ≡ is_long (get_or self.now.top.stack k Null) }
    {
        self.slots.is_long(self.current.top - 1 - k as usize)
    }

    /// Puts the local of a slot on top.
    #[tactic(auto, using(crate::proofs::Tops::tops))]
    #[inline(always)]
    pub fn load(&mut self, i: u16)
        requires place { i < length self.old.top.locals }
        requires room { HasRoom 1 self.old }
        ensures found { slice_get self.old.top.locals i ≡ Some (get_or self.old.top.locals i Null) }
        ensures loaded { self.new
            ≡ with_stack self.old (get_or self.old.top.locals i Null ∷ self.old.top.stack) }
    {
        self.slots
            .copy(self.current.base + i as usize, self.current.top);
        self.current.top += 1;
    }

    /// Takes the top operand into the local of a slot. There is room for one operand again.
    #[tactic(auto, using(crate::proofs::Tops::tops))]
    #[inline(always)]
    pub fn store(&mut self, i: u16)
        requires operand { 0 < length self.old.top.stack }
        requires place { i < length self.old.top.locals }
        ensures stored { self.new ≡ stored_local self.old i }
        ensures room { HasRoom 1 self.new }
    {
        self.current.top -= 1;
        self.slots
            .copy(self.current.top, self.current.base + i as usize);
    }

    /// Puts the top operand on top once more.
    #[tactic(auto, using(crate::proofs::Tops::tops))]
    #[inline(always)]
    pub fn dup(&mut self)
        requires operand { 0 < length self.old.top.stack }
        requires room { HasRoom 1 self.old }
        ensures { self.new
            ≡ with_stack self.old (get_or self.old.top.stack 0 Null ∷ self.old.top.stack) }
    {
        self.slots.copy(self.current.top - 1, self.current.top);
        self.current.top += 1;
    }

    /// Puts the operand that is `k` operands below the top one on top.
    #[tactic(auto, using(crate::proofs::Tops::tops))]
    #[inline(always)]
    pub fn push_operand(&mut self, k: u16)
        requires operand { k < length self.old.top.stack }
        requires room { HasRoom 1 self.old }
        ensures { self.new
            ≡ with_stack self.old (get_or self.old.top.stack k Null ∷ self.old.top.stack) }
    {
        self.slots
            .copy(self.current.top - 1 - k as usize, self.current.top);
        self.current.top += 1;
    }

    /// Puts the top operand below the one under it as well.
    #[inline(always)]
    pub fn dup_x1(&mut self)
        requires operands { 1 < length self.old.top.stack }
        requires room { HasRoom 1 self.old }
        ensures { self.new ≡ with_stack self.old (dup_below self.old.top.stack) }
    {
        let top = self.current.top;
        self.slots.copy(top - 1, top);
        self.slots.copy(top - 2, top - 1);
        self.slots.copy(top, top - 2);
        self.current.top += 1;
    }
}
