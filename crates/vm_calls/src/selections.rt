//! What calls selected, kept.

ghost use Rattle.std.specs.Prelude.{◌≡◌, IfOk, IfSome};
ghost use Rattle.jvm_model.specs.Selection as selection;
ghost use Rattle.vm_calls.specs.Choices.{IsKnown, dispatched, searched, selected_of};

use crate::choice::Choice;
use crate::selecting::search;
use et_base::NoMemory;
use jvm_model::{INCOMPATIBLE_CLASS_CHANGE_ERROR, Kind, OBJECT, Program};
use std::alloc::Global;
use std::marker::Model;
use std::snapshot::Snapshot;
use vm_tables::Tables;

/// How many answers are kept.
const PLACES: usize = 4_096;

/// What a call of a method selected at a class: invokespecial, or else invokevirtual and invokeinterface.
#[derive(Clone, Copy, PartialEq, Eq)]
pub(crate) struct Known {
    pub special: bool,
    pub method: u32,
    pub class: u32,
    pub choice: Choice,
}

/// Selects the methods that calls enter, and keeps some answers: a call whose answer is kept looks at no name. Contracts
/// see the program.
#[derive(Drop)]
pub struct Selections {
    places: Vec<Option<Known>>,
    program: Snapshot<Program>,
    alloc: Global,
}

impl Model for Selections {
    ghost use Rattle.jvm_model.specs.declared.program.Program.{Program as Numbered};
    ghost use Rattle.vm_calls.specs.Choices.{AreKnown};

    ghost Value = { Numbered };

    ghost view = { λ s. s.program.value };

    ghost invariant = { λ s. AreKnown s.program.value s.places.items };
}

/// The place at which the answer of a call is kept.
fn place_of(special: bool, method: u32, class: u32) -> usize {
    let place = (method as usize)
        .wrapping_mul(31)
        .wrapping_add(class as usize);
    if special {
        place.wrapping_add(PLACES / 2) % PLACES
    } else {
        place % PLACES
    }
}

impl Selections {
    /// No answer is kept.
    #[tactic(auto, using(crate::proofs::Kept::none_known))]
    pub fn new(alloc: Global, p: &Program) -> Result<Selections, NoMemory>
        ensures { IfOk result (λ selections. selections ≡ p.now) }
    {
        Ok(Selections {
            places: vec![in alloc; None; PLACES]?,
            program: Snapshot::of(p),
            alloc,
        })
    }

    /// The allocator that it was made with.
    #[inline(always)]
    pub fn alloc(&self) -> Global {
        self.alloc
    }

    /// The answer that is kept for a call.
    #[tactic(auto, using(crate::proofs::Kept::known_here))]
    fn known(&self, special: bool, method: u32, class: u32) -> Option<Choice>
        ensures { IfSome result (λ x. selected_of x ≡ searched self.now special method class) }
    {
        match self.places.get(place_of(special, method, class)) {
            Some(Some(known)) => {
                if known.special == special && known.method == method && known.class == class {
                    Some(known.choice)
                } else {
                    None
                }
            }
            _ => None,
        }
    }

    /// Keeps an answer.
    #[tactic(auto, using(crate::proofs::Kept::known_more))]
    fn keep(&mut self, known: Known)
        requires { IsKnown self.old known }
        ensures { self.new ≡ self.old }
    {
        let place = place_of(known.special, known.method, known.class);
        if place < self.places.len() {
            self.places[place] = Some(known);
        }
    }

    /// What a call of a method selects at a class.
    fn choose(
        &mut self,
        tables: &Tables,
        special: bool,
        method: u32,
        class: u32,
    ) -> Result<Choice, NoMemory>
        requires { tables.now ≡ self.old }
        ensures gives { IfOk result (λ x. selected_of x ≡ searched self.old special method class) }
        ensures kept { self.new ≡ self.old }
    {
        if let Some(choice) = self.known(special, method, class) {
            return Ok(choice);
        }
        let choice = search(self.alloc, tables, special, method, class)?;
        self.keep(Known {
            special,
            method,
            class,
            choice,
        });
        Ok(choice)
    }

    /// What invokevirtual of a method selects on an instance of a class, or invokeinterface where an interface is named
    /// (JVMS 6.5): a private method is the one that is called, and a class that doesn't implement the named interface
    /// fails with IncompatibleClassChangeError. The only error is want of memory.
    #[tactic(auto, unfolding(jvm_model::specs::Selection::select_virtual, jvm_model::specs::Selection::select_interface))]
    pub fn dispatch(
        &mut self,
        tables: &Tables,
        interface: Option<u32>,
        method: u32,
        class: u32,
    ) -> Result<Choice, NoMemory>
        requires { tables.now ≡ self.old }
        ensures gives { IfOk result (λ x. selected_of x ≡ dispatched self.old interface method class) }
        ensures kept { self.new ≡ self.old }
    {
        let p = tables.program();
        if p.is_private_method(method) {
            return Ok(Choice::Chosen { method });
        }
        if let Some(named) = interface {
            if !tables.implements(class, named) {
                return Ok(Choice::Failing {
                    class: INCOMPATIBLE_CLASS_CHANGE_ERROR,
                });
            }
        }
        self.choose(tables, false, method, class)
    }

    /// What invokespecial of a method of the named type selects in a method of the current class (JVMS 6.5). The only
    /// error is want of memory.
    #[inline(always)]
    #[tactic(auto, unfolding(jvm_model::specs::Selection::select_special))]
    pub fn dispatch_special(
        &mut self,
        tables: &Tables,
        current: u32,
        named: Kind,
        method: u32,
    ) -> Result<Choice, NoMemory>
        requires { tables.now ≡ self.old }
        ensures gives { IfOk result (λ x. selected_of x ≡ selection.select_special self.old current (selection.named_class named) method) }
        ensures kept { self.new ≡ self.old }
    {
        if tables.is_initialiser(method) {
            return Ok(Choice::Chosen { method });
        }
        let start = special_start(tables, current, named_class(named));
        self.choose(tables, true, method, start)
    }
}

/// The class that a type stands for: Object for an array.
fn named_class(named: Kind) -> u32
    ensures { result ≡ selection.named_class named }
{
    match named {
        Kind::Class(class) => class,
        Kind::Array { .. } => OBJECT,
    }
}

/// Where invokespecial starts: at the direct superclass where the named class is an ancestor class of the current one, else
/// at the named class or interface.
#[tactic(auto, unfolding(jvm_model::specs::Classes::is_below))]
fn special_start(tables: &Tables, current: u32, named: u32) -> u32
    ensures { result ≡ selection.special_start tables.now current named }
{
    if named != current && tables.is_below(current, named) {
        match tables.program().superclass(current) {
            None => named,
            Some(above) => above,
        }
    } else {
        named
    }
}
