ghost use Rattle.std.specs.Prelude.{◌≡◌, ◌≤◌, List, [], ◌∷◌, ◌++◌, length, map, true, None, IfOk, OnOk};
ghost use Rattle.jvm_model.specs.{declared.values.Touch.Touch, Access.made, Access.fields_made, Access.elems_made, Linked.Linked};
ghost use Rattle.jvm_model.specs.Suite as suite;
ghost use Rattle.vm_mem.specs.{Trace.Trace, Trace.empty_trace, Noting.noted_by, Noting.all_noted};
ghost use Rattle.vm_mem.specs.Stores as stores;

use crate::memory::Memory;
use crate::noted::Noted;
use crate::object::Object;
use crate::plain::PlainMemory;
use et_base::{Items, NoMemory, Units};
use jvm_model::{Head, InitState, Location, Program, Touch, Value};
use sim_store::Part;
use std::alloc::Global;

/// The world, and every touch with its test, oldest first. It follows what it noted, and nothing else.
#[derive(Drop)]
pub struct TraceMemory {
    plain: PlainMemory,
    noted: Items<Noted>,
    test: u32,
    alloc: Global,
}

impl TraceMemory {
    /// The memory of a linked program before its first test, with no touches.
    pub fn opening(alloc: Global, p: &Program) -> Result<TraceMemory, NoMemory>
        requires { Linked p.now }
        ensures program { IfOk result (λ m. ⟦<TraceMemory as Memory>⟧.program m ≡ p.now) }
        ensures world { IfOk result (λ m. ⟦<TraceMemory as Memory>⟧.world m ≡ suite.opening p.now) }
        ensures follows { IfOk result (λ m. ⟦<TraceMemory as Memory>⟧.follows m empty_trace []) }
    {
        Ok(TraceMemory {
            plain: PlainMemory::opening(alloc, p)?,
            noted: Items::new(alloc),
            test: 0,
            alloc,
        })
    }

    /// The touches so far, each with its test. It takes no memory.
    pub fn touches(&self) -> &[Noted]
        ensures { (h : Trace) (ts : List Touch) → ⟦<TraceMemory as Memory>⟧.follows self.now h ts → result.now ≡ all_noted h ts }
    {
        self.noted.as_slice()
    }

    fn note(&mut self, write: bool, location: Location, gave: Option<u64>) -> Result<(), NoMemory>
        ensures plain { self.new.plain ≡ self.old.plain }
        ensures test { self.new.test ≡ self.old.test }
        ensures noted { OnOk result (self.new.noted ≡ self.old.noted ++ noted_by self.old.test (record { write = write; location = location; gave = gave }) ∷ []) }
    {
        note(
            &mut self.noted,
            self.test,
            Touch {
                write,
                location,
                gave,
            },
        )
    }

    fn place_in(&self, part: Part, name: &Units) -> Result<Location, NoMemory>
        ensures { IfOk result (λ l. l ≡ stores.place_in part name.now) }
    {
        let name = Units::from_slice(self.alloc, name.as_slice())?;
        match part {
            Part::File => Ok(Location::File { name }),
            Part::Prop => Ok(Location::Prop { name }),
        }
    }
}

/// Notes a touch of a test.
fn note(noted: &mut Items<Noted>, test: u32, touch: Touch) -> Result<(), NoMemory>
    ensures { OnOk result (noted.new ≡ noted.old ++ noted_by test touch ∷ []) }
{
    noted.push(Noted { test, touch })
}

fn note_write(noted: &mut Items<Noted>, test: u32, location: Location) -> Result<(), NoMemory>
    ensures { OnOk result (noted.new ≡ noted.old ++ noted_by test (record { write = true; location = location; gave = None }) ∷ []) }
{
    let touch = Touch {
        write: true,
        location,
        gave: None,
    };
    note(noted, test, touch)
}

/// Notes that the fields of a new object are written.
fn note_fields(
    noted: &mut Items<Noted>,
    test: u32,
    object: u64,
    fields: &[(u32, Value)],
) -> Result<(), NoMemory>
    ensures { OnOk result (noted.new ≡ noted.old ++ map (noted_by test) (fields_made object fields.now)) }
{
    for (field, _) in fields {
        let field = *field;
        note_write(noted, test, Location::Field { object, field })?;
    }
    Ok(())
}

/// Notes that the elements of a new array are written, of which there are no more than `most`.
fn note_elems(
    noted: &mut Items<Noted>,
    test: u32,
    object: u64,
    elems: &[Value],
    most: u32,
) -> Result<(), NoMemory>
    requires { length elems.now ≤ most }
    ensures { OnOk result (noted.new ≡ noted.old ++ map (noted_by test) (elems_made object 0 elems.now)) }
{
    for index in 0..elems.len() as u32 {
        note_write(noted, test, Location::Elem { object, index })?;
    }
    Ok(())
}

/// Notes what making an object without a text writes.
fn note_made(noted: &mut Items<Noted>, test: u32, object: u64, new: &Object) -> Result<(), NoMemory>
    requires text { new.now.text ≡ None }
    requires few { length new.now.elems ≤ new.now.head.length }
    ensures { OnOk result (noted.new ≡ noted.old ++ map (noted_by test) (made object new.now)) }
{
    note_write(noted, test, Location::Head { object })?;
    note_fields(noted, test, object, new.fields())?;
    note_elems(noted, test, object, new.elems(), new.head().length)
}

impl Memory for TraceMemory {
    ghost program = { λ m. m.plain.program };

    ghost world = { λ m. m.plain.world };

    ghost follows = { λ m h ts. (m.noted ≡ all_noted h ts) × (m.test ≡ h.test) };

    fn begin_test(&mut self, test: u32) -> Result<(), NoMemory> {
        self.test = test;
        Ok(())
    }

    fn get_static(&mut self, field: u32) -> Result<Value, NoMemory> {
        let v = self.plain.get_static(field)?;
        self.note(false, Location::Static { field }, v.object())?;
        Ok(v)
    }

    fn put_static(&mut self, field: u32, v: Value) -> Result<(), NoMemory> {
        self.plain.put_static(field, v)?;
        self.note(true, Location::Static { field }, None)
    }

    fn get_init(&mut self, class: u32) -> Result<InitState, NoMemory> {
        let s = self.plain.get_init(class)?;
        self.note(false, Location::Init { class }, None)?;
        Ok(s)
    }

    fn put_init(&mut self, class: u32, s: InitState) -> Result<(), NoMemory> {
        self.plain.put_init(class, s)?;
        self.note(true, Location::Init { class }, None)
    }

    fn head(&mut self, object: u64) -> Result<Head, NoMemory> {
        let head = self.plain.head(object)?;
        self.note(false, Location::Head { object }, None)?;
        Ok(head)
    }

    fn get_field(&mut self, object: u64, field: u32) -> Result<Value, NoMemory> {
        let v = self.plain.get_field(object, field)?;
        self.note(false, Location::Field { object, field }, v.object())?;
        Ok(v)
    }

    fn put_field(&mut self, object: u64, field: u32, v: Value) -> Result<(), NoMemory> {
        self.plain.put_field(object, field, v)?;
        self.note(true, Location::Field { object, field }, None)
    }

    fn get_elem(&mut self, object: u64, index: u32) -> Result<Value, NoMemory> {
        let v = self.plain.get_elem(object, index)?;
        self.note(false, Location::Elem { object, index }, v.object())?;
        Ok(v)
    }

    fn put_elem(&mut self, object: u64, index: u32, v: Value) -> Result<(), NoMemory> {
        self.plain.put_elem(object, index, v)?;
        self.note(true, Location::Elem { object, index }, None)
    }

    fn get_text(&mut self, object: u64) -> Result<&Units, NoMemory> {
        self.note(false, Location::Text { object }, None)?;
        self.plain.get_text(object)
    }

    fn put_text(&mut self, object: u64, u: Units) -> Result<(), NoMemory> {
        self.plain.put_text(object, u)?;
        self.note(true, Location::Text { object }, None)
    }

    fn append_text(&mut self, object: u64, more: &[u16]) -> Result<(), NoMemory> {
        self.plain.append_text(object, more)?;
        self.note(true, Location::Text { object }, None)
    }

    fn get_store(&mut self, part: Part, name: &Units) -> Result<Option<&Units>, NoMemory> {
        let location = self.place_in(part, name)?;
        self.note(false, location, None)?;
        self.plain.get_store(part, name)
    }

    fn put_store(
        &mut self,
        part: Part,
        name: Units,
        content: Option<Units>,
    ) -> Result<(), NoMemory> {
        let location = self.place_in(part, &name)?;
        self.plain.put_store(part, name, content)?;
        self.note(true, location, None)
    }

    fn make(&mut self, head: Head) -> Result<u64, NoMemory> {
        let object = self.plain.make(head)?;
        note_made(
            &mut self.noted,
            self.test,
            object,
            self.plain.object(object),
        )?;
        Ok(object)
    }
}
