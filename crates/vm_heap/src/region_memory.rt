ghost use Rattle.std.specs.Prelude.{◌≡◌, length, map, IfOk};
ghost use Rattle.jvm_model.specs.declared.values.InitState.TheVariants.{Idle};
ghost use Rattle.jvm_model.specs.Linked.{Linked};
ghost use Rattle.jvm_model.specs.Suite as suite;

use crate::changes::Changes;
use crate::heap::Heap;
use et_base::{NoMemory, Units};
use jvm_model::{Head, InitState, Program, Value};
use sim_store::Part;
use std::alloc::Global;
use std::marker::Model;
use vm_mem::{Memory, opening_states, opening_statics, opening_store};

/// The memory of a run that is set back to its opening without taking memory. It follows every list. No call but
/// `put_text`, `append_text`, `put_store` and `make` takes memory.
#[derive(Drop)]
pub struct RegionMemory {
    heap: Heap,
    statics: Vec<Value>,
    states: Vec<InitState>,
    store: Changes,
    opening_statics: Vec<Value>,
    opening_states: Vec<InitState>,
}

impl Model for RegionMemory {
    ghost use Rattle.vm_mem.specs.Kept.{Kept};
    ghost use Rattle.vm_heap.specs.Opened.{IsOpened};

    ghost Value = { Kept };

    ghost view = { λ m. record { program = m.heap.program; world = record { objects = m.heap.objects; statics = m.statics.items; states = m.states.items; files = m.store.now.files; props = m.store.now.props } } };

    ghost invariant = { λ m. IsOpened m.heap.program m.statics.items m.states.items m.store.opening m.opening_statics.items m.opening_states.items };
}

impl RegionMemory {
    /// The memory of a linked program before its first test.
    #[tactic(auto, unfolding(jvm_model::specs::Suite::opening))]
    pub fn opening(alloc: Global, p: &Program) -> Result<RegionMemory, NoMemory>
        requires { Linked p.now }
        ensures program { IfOk result (λ m. m.program ≡ p.now) }
        ensures world { IfOk result (λ m. m.world ≡ suite.opening p.now) }
    {
        let (statics, states) = opening_cells(alloc, p)?;
        let (kept_statics, kept_states) = opening_cells(alloc, p)?;
        let store = opening_store(alloc, p)?;
        let heap = Heap::new(alloc, p)?;
        Ok(RegionMemory {
            heap,
            statics,
            states,
            store: Changes::of(alloc, store),
            opening_statics: kept_statics,
            opening_states: kept_states,
        })
    }

    /// Sets all back to the opening world. It takes no memory.
    #[tactic(auto, unfolding(jvm_model::specs::Suite::opening))]
    pub fn reset(&mut self)
        ensures program { self.new.program ≡ self.old.program }
        ensures world { self.new.world ≡ suite.opening self.old.program }
    {
        self.heap.clear();
        self.store.reset();
        set_back(&mut self.statics, &self.opening_statics);
        set_back(&mut self.states, &self.opening_states);
    }
}

/// The opening values of all fields and the opening states of all classes.
fn opening_cells(alloc: Global, p: &Program) -> Result<(Vec<Value>, Vec<InitState>), NoMemory>
    ensures statics { IfOk result (λ x. x.0.items ≡ map (λ f. f.opening) p.now.fields) }
    ensures states { IfOk result (λ x. x.1.items ≡ map (λ c. Idle) p.now.classes) }
{
    let statics = opening_statics(alloc, p)?;
    let states = opening_states(alloc, p)?;
    Ok((statics, states))
}

/// Gives each place the value that it had at first.
fn set_back<T: Copy>(now: &mut Vec<T>, opening: &Vec<T>)
    requires { length now.old.items ≡ length opening.now.items }
    ensures { now.new.items ≡ opening.now.items }
{
    now.as_mut_slice().copy_from_slice(opening.as_slice());
}

impl Memory for RegionMemory {
    ghost program = { λ m. m.program };

    ghost world = { λ m. m.world };

    ghost follows = { λ m h ts. Unit {0} };

    fn begin_test(&mut self, _test: u32) -> Result<(), NoMemory> {
        Ok(())
    }

    fn get_static(&mut self, field: u32) -> Result<Value, NoMemory> {
        Ok(self.statics[field as usize])
    }

    #[tactic(auto, using(jvm_model::proofs::Ranges::put_at_is_set))]
    fn put_static(&mut self, field: u32, v: Value) -> Result<(), NoMemory> {
        self.statics[field as usize] = v;
        Ok(())
    }

    fn get_init(&mut self, class: u32) -> Result<InitState, NoMemory> {
        Ok(self.states[class as usize])
    }

    #[tactic(auto, using(jvm_model::proofs::Ranges::put_at_is_set))]
    fn put_init(&mut self, class: u32, s: InitState) -> Result<(), NoMemory> {
        self.states[class as usize] = s;
        Ok(())
    }

    fn head(&mut self, object: u64) -> Result<Head, NoMemory> {
        Ok(self.heap.head(object))
    }

    fn get_field(&mut self, object: u64, field: u32) -> Result<Value, NoMemory> {
        Ok(self.heap.field(object, field))
    }

    fn put_field(&mut self, object: u64, field: u32, v: Value) -> Result<(), NoMemory> {
        self.heap.set_field(object, field, v);
        Ok(())
    }

    fn get_elem(&mut self, object: u64, index: u32) -> Result<Value, NoMemory> {
        Ok(self.heap.elem(object, index))
    }

    fn put_elem(&mut self, object: u64, index: u32, v: Value) -> Result<(), NoMemory> {
        self.heap.set_elem(object, index, v);
        Ok(())
    }

    fn get_text(&mut self, object: u64) -> Result<&Units, NoMemory> {
        Ok(self.heap.text(object))
    }

    fn put_text(&mut self, object: u64, u: Units) -> Result<(), NoMemory> {
        self.heap.set_text(object, u)
    }

    fn append_text(&mut self, object: u64, more: &[u16]) -> Result<(), NoMemory> {
        self.heap.append_text(object, more)
    }

    fn get_store(&mut self, part: Part, name: &Units) -> Result<Option<&Units>, NoMemory> {
        Ok(self.store.get(part, name))
    }

    fn put_store(
        &mut self,
        part: Part,
        name: Units,
        content: Option<Units>,
    ) -> Result<(), NoMemory> {
        self.store.put(part, name, content)
    }

    #[inline(always)]
    fn make(&mut self, head: Head) -> Result<u64, NoMemory> {
        self.heap.make(head)
    }
}
