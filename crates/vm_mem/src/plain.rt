ghost use Rattle.std.specs.Prelude.{◌≡◌, ◌<◌, [], map, IfOk, Some};
ghost use Rattle.jvm_model.specs.{declared.values.InitState.TheVariants.Idle, Linked.Linked, Linked.IsDistinct, World.object_at, World.size};
ghost use Rattle.jvm_model.specs.Suite as suite;

use crate::layouts::Layouts;
use crate::memory::Memory;
use crate::object::Object;
use et_base::{NoMemory, Units};
use jvm_model::{Head, InitState, Program, Value};
use sim_store::{Part, Store};
use std::alloc::Global;
use std::marker::Model;

/// The world as it is, in lists and maps. It follows every list. No call but `put_text`, `append_text`, `put_store` and
/// `make` takes memory.
#[derive(Drop)]
pub struct PlainMemory {
    objects: Vec<Object>,
    statics: Vec<Value>,
    states: Vec<InitState>,
    store: Store,
    layouts: Layouts,
}

impl Model for PlainMemory {
    ghost use Rattle.vm_mem.specs.Kept.{Kept};

    ghost Value = { Kept };

    ghost view = { λ m. record { program = m.layouts; world = record { objects = m.objects.items; statics = m.statics.items; states = m.states.items; files = m.store.files; props = m.store.props } } };
}

impl PlainMemory {
    /// The memory of a linked program before its first test. It follows every list.
    #[tactic(auto, unfolding(jvm_model::specs::Suite::opening))]
    pub fn opening(alloc: Global, p: &Program) -> Result<PlainMemory, NoMemory>
        requires { Linked p.now }
        ensures program { IfOk result (λ m. m.program ≡ p.now) }
        ensures world { IfOk result (λ m. m.world ≡ suite.opening p.now) }
    {
        Ok(PlainMemory {
            objects: Vec::new(alloc),
            statics: opening_statics(alloc, p)?,
            states: opening_states(alloc, p)?,
            store: opening_store(alloc, p)?,
            layouts: Layouts::of(alloc, p)?,
        })
    }

    /// The object at a place.
    pub(crate) fn object(&self, place: u64) -> &Object
        requires { place < size self.now.world }
        ensures { result.now ≡ object_at self.now.world place }
    {
        &self.objects[place as usize]
    }
}

/// The opening values of all fields.
pub fn opening_statics(alloc: Global, p: &Program) -> Result<Vec<Value>, NoMemory>
    ensures { IfOk result (λ v. v.items ≡ map (λ f. f.opening) p.now.fields) }
{
    let mut statics = Vec::new(alloc);
    for field in p.fields.as_slice() {
        statics.push(field.opening)?;
    }
    Ok(statics)
}

/// No class is initialised.
pub fn opening_states(alloc: Global, p: &Program) -> Result<Vec<InitState>, NoMemory>
    ensures { IfOk result (λ v. v.items ≡ map (λ c. Idle) p.now.classes) }
{
    let mut states = Vec::new(alloc);
    for _class in p.classes.as_slice() {
        states.push(InitState::Idle)?;
    }
    Ok(states)
}

/// The suite's files, and no properties.
pub fn opening_store(alloc: Global, p: &Program) -> Result<Store, NoMemory>
    requires { IsDistinct p.now }
    ensures { IfOk result (λ s. s ≡ record { files = map (λ x. (x.0, Some x.1)) p.now.files; props = [] }) }
{
    let mut store = Store::new(alloc);
    for (name, text) in p.files.as_slice() {
        let name = Units::from_slice(alloc, name.as_slice())?;
        let text = Units::from_slice(alloc, text.as_slice())?;
        store.put(Part::File, name, Some(text))?;
    }
    Ok(store)
}

impl Memory for PlainMemory {
    ghost program = { λ m. m.program };

    ghost world = { λ m. m.world };

    ghost follows = { λ m h ts. Unit {0} };

    fn begin_test(&mut self, _test: u32) -> Result<(), NoMemory> {
        Ok(())
    }

    fn get_static(&mut self, field: u32) -> Result<Value, NoMemory> {
        Ok(self.statics[field as usize])
    }

    #[tactic(auto, using(jvm_model::proofs::Ranges::put_at_is_set))]
    fn put_static(&mut self, field: u32, v: Value) -> Result<(), NoMemory> {
        self.statics[field as usize] = v;
        Ok(())
    }

    fn get_init(&mut self, class: u32) -> Result<InitState, NoMemory> {
        Ok(self.states[class as usize])
    }

    #[tactic(auto, using(jvm_model::proofs::Ranges::put_at_is_set))]
    fn put_init(&mut self, class: u32, s: InitState) -> Result<(), NoMemory> {
        self.states[class as usize] = s;
        Ok(())
    }

    fn head(&mut self, object: u64) -> Result<Head, NoMemory> {
        Ok(self.objects[object as usize].head())
    }

    fn get_field(&mut self, object: u64, field: u32) -> Result<Value, NoMemory> {
        Ok(self.objects[object as usize].field(field))
    }

    fn put_field(&mut self, object: u64, field: u32, v: Value) -> Result<(), NoMemory> {
        self.objects[object as usize].set_field(field, v);
        Ok(())
    }

    fn get_elem(&mut self, object: u64, index: u32) -> Result<Value, NoMemory> {
        Ok(self.objects[object as usize].elem(index))
    }

    fn put_elem(&mut self, object: u64, index: u32, v: Value) -> Result<(), NoMemory> {
        self.objects[object as usize].set_elem(index, v);
        Ok(())
    }

    fn get_text(&mut self, object: u64) -> Result<&Units, NoMemory> {
        Ok(self.objects[object as usize].text())
    }

    fn put_text(&mut self, object: u64, u: Units) -> Result<(), NoMemory> {
        self.objects[object as usize].set_text(u);
        Ok(())
    }

    fn append_text(&mut self, object: u64, more: &[u16]) -> Result<(), NoMemory> {
        self.objects[object as usize].append_text(more)
    }

    fn get_store(&mut self, part: Part, name: &Units) -> Result<Option<&Units>, NoMemory> {
        Ok(self.store.get(part, name))
    }

    fn put_store(
        &mut self,
        part: Part,
        name: Units,
        content: Option<Units>,
    ) -> Result<(), NoMemory> {
        self.store.put(part, name, content)
    }

    fn make(&mut self, head: Head) -> Result<u64, NoMemory> {
        let place = self.objects.len() as u64;
        let object = self.layouts.blank(head)?;
        self.objects.push(object)?;
        Ok(place)
    }
}
