ghost use Rattle.std.specs.Prelude.{◌≡◌, IfOk};
ghost use Rattle.jvm_model.specs.{declared.values.Kind.TheVariants.Class, Classes.blank, Classes.fields_of, Linked.Linked};
ghost use Rattle.jvm_model.specs.Classes as classes;

use crate::object::Object;
use et_base::{Items, NoMemory};
use jvm_model::{Base, Head, Kind, Program, Value, default_of};
use std::alloc::Global;
use std::marker::Model;
use std::snapshot::Snapshot;

/// The fields of each class's instances with their default values, in the order of the layout. Contracts see the
/// program.
#[derive(Drop)]
pub struct Layouts {
    fields: Items<Items<(u32, Value)>>,
    program: Snapshot<Program>,
    alloc: Global,
}

impl Model for Layouts {
    ghost use Rattle.std.specs.Prelude.{◌≡◌, ℕ, [], get_or};
    ghost use Rattle.jvm_model.specs.declared.program.Program.{Program as Linked};
    ghost use Rattle.jvm_model.specs.declared.values.Kind.TheVariants.{Class};
    ghost use Rattle.jvm_model.specs.Classes.{fields_of};

    ghost Value = { Linked };

    ghost view = { λ x. x.program.value };

    ghost invariant = { λ x. (c : ℕ) → get_or x.fields c [] ≡ fields_of x.program.value (Class c) };
}

impl Layouts {
    /// The layouts of a linked program's classes.
    pub fn of(alloc: Global, p: &Program) -> Result<Layouts, NoMemory>
        requires { Linked p.now }
        ensures { IfOk result (λ x. x ≡ p.now) }
    {
        let mut fields = Items::new(alloc);
        for class in 0..p.classes.len() as u32 {
            fields.push(layout(alloc, p, class)?)?;
        }
        Ok(Layouts {
            fields,
            program: Snapshot::of(p),
            alloc,
        })
    }

    /// The fields of a class's new instances by number, with their default values. It takes no memory.
    pub fn fields(&self, class: u32) -> &[(u32, Value)]
        ensures { result.now ≡ fields_of self.now (Class class) }
    {
        match self.fields.get(class as usize) {
            Some(fields) => fields.as_slice(),
            None => &[],
        }
    }

    /// A new object of a head, with default cells and no text.
    #[tactic(auto, unfolding(jvm_model::specs::Classes::blank))]
    pub(crate) fn blank(&self, head: Head) -> Result<Object, NoMemory>
        ensures { IfOk result (λ x. x ≡ blank self.now head) }
    {
        match head.kind {
            Kind::Class(class) => {
                let fields = Vec::from_slice(self.alloc, self.fields(class))?;
                Ok(Object::new(self.alloc, head, fields, Vec::new(self.alloc)))
            }
            Kind::Array { dims, base } => {
                let mut elems = Vec::new(self.alloc);
                elems.resize(head.length as usize, element_default(dims, base))?;
                Ok(Object::new(self.alloc, head, Vec::new(self.alloc), elems))
            }
        }
    }
}

/// The fields of a class's instances with their default values.
fn layout(alloc: Global, p: &Program, class: u32) -> Result<Items<(u32, Value)>, NoMemory>
    ensures { IfOk result (λ v. v ≡ fields_of p.now (Class class)) }
{
    let numbers = p.layout(alloc, class)?;
    let mut fields = Items::new(alloc);
    for field in numbers.as_slice() {
        fields.push((*field, default_of(p.field_descriptor(*field))))?;
    }
    Ok(fields)
}

/// The default value of an array's elements (JVMS 2.3 and 2.4).
pub fn element_default(dims: u8, base: Base) -> Value
    ensures { result ≡ classes.element_default dims base }
{
    if dims != 1 {
        return Value::Null;
    }
    match base {
        Base::Boolean | Base::Byte | Base::Char | Base::Short | Base::Int => Value::Int(0),
        Base::Long => Value::Long(0),
        Base::Class(_) => Value::Null,
    }
}
