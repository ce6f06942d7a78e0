//! What can be asked of a program, of its classes, fields and methods, of values and of kinds of objects. Only `layout` takes memory.

ghost use Rattle.std.specs.Prelude.{◌≡◌, ◌++◌, IfOk, OnOk, ◌<◌, ◌∷◌, [], flat_map, get_or, is_some, slice_get, option_copied, unwrap_or};
ghost use Rattle.jvm_model.specs.Classes as classes;
ghost use Rattle.jvm_model.specs.Classes.{layout_in, plain_fields, class_at, field_at, method_at, no_class, no_field, no_method, literal_at, member, upwards_in};
ghost use Rattle.jvm_model.specs.Kinds as kinds;
ghost use Rattle.jvm_model.specs.{Selection.has_code, Access.given_by, Rows.constant_kind};

use crate::builtin::{OBJECT, PRINT_STREAM, STRING};
use crate::program::{ClassRec, FieldRec, MethodRec, Program};
use crate::values::{Base, Kind, Value};
use et_base::{Items, NoMemory};
use std::alloc::Global;

// Whether an access flag, a power of two, is set.
fn has_flag(flag: u16, flags: u16) -> bool
    requires { 0 < flag }
    ensures { result ≡ classes.has_flag flag flags }
{
    flags / flag % 2 == 1
}

/// The length that no chain of superclasses and superinterfaces passes.
#[tactic(auto, unfolding(crate::specs::Classes::class_bound))]
pub fn class_bound() -> u32
    ensures { result ≡ classes.class_bound }
{
    1200
}

impl ClassRec {
    /// Whether it is an interface (JVMS table 4.1-B).
    pub fn is_interface(&self) -> bool
        ensures { result ≡ classes.is_interface self.now.flags }
    {
        has_flag(0x0200, self.flags)
    }

    /// Whether it is abstract (JVMS table 4.1-B); an interface is.
    pub fn is_abstract(&self) -> bool
        ensures { result ≡ classes.is_abstract self.now.flags }
    {
        has_flag(0x0400, self.flags)
    }
}

impl FieldRec {
    /// Whether it is a static field (JVMS table 4.5-A).
    pub fn is_static(&self) -> bool
        ensures { result ≡ classes.is_static self.now.flags }
    {
        has_flag(0x0008, self.flags)
    }
}

impl MethodRec {
    /// Whether it is private (JVMS table 4.6-A).
    pub fn is_private(&self) -> bool
        ensures { result ≡ classes.is_private self.now.flags }
    {
        has_flag(0x0002, self.flags)
    }

    /// Whether it is static (JVMS table 4.6-A).
    pub fn is_static(&self) -> bool
        ensures { result ≡ classes.is_static self.now.flags }
    {
        has_flag(0x0008, self.flags)
    }

    /// Whether it has code; a built-in method has none.
    pub fn has_code(&self) -> bool
        ensures { result ≡ is_some self.now.body }
    {
        self.body.is_some()
    }
}

impl Program {
    /// The class or interface of a number.
    pub fn class(&self, class: u32) -> Option<&ClassRec>
        ensures item { option_copied result ≡ slice_get self.now.classes class }
        ensures record { unwrap_or (option_copied result) no_class ≡ class_at self.now class }
    {
        self.classes.as_slice().get(class as usize)
    }

    /// The field of a number.
    pub fn field(&self, field: u32) -> Option<&FieldRec>
        ensures item { option_copied result ≡ slice_get self.now.fields field }
        ensures record { unwrap_or (option_copied result) no_field ≡ field_at self.now field }
    {
        self.fields.as_slice().get(field as usize)
    }

    /// The method of a number.
    pub fn method(&self, method: u32) -> Option<&MethodRec>
        ensures item { option_copied result ≡ slice_get self.now.methods method }
        ensures record { unwrap_or (option_copied result) no_method ≡ method_at self.now method }
    {
        self.methods.as_slice().get(method as usize)
    }

    /// The string constant of a number from 1; 0 is the stream, which has no text.
    pub fn literal(&self, number: u32) -> &[u16]
        ensures { result.now ≡ literal_at self.now number }
    {
        if number == 0 {
            return &[];
        }
        match self.literals.as_slice().get((number - 1) as usize) {
            None => &[],
            Some(text) => text.as_slice(),
        }
    }

    /// The superclass of a class; an interface has Object (JVMS 4.1).
    pub fn superclass(&self, class: u32) -> Option<u32>
        ensures { result ≡ (class_at self.now class).superclass }
    {
        match self.class(class) {
            None => None,
            Some(record) => record.superclass,
        }
    }

    /// The direct superinterfaces of a class or interface, in the order of its file.
    pub fn interfaces(&self, class: u32) -> &[u32]
        ensures { result.now ≡ (class_at self.now class).interfaces }
    {
        match self.class(class) {
            None => &[],
            Some(record) => record.interfaces.as_slice(),
        }
    }

    /// Whether a number is that of an interface.
    pub fn is_interface(&self, class: u32) -> bool
        ensures { result ≡ classes.is_interface (class_at self.now class).flags }
    {
        match self.class(class) {
            None => false,
            Some(record) => record.is_interface(),
        }
    }

    /// Whether a number is that of an abstract class or interface.
    pub fn is_abstract(&self, class: u32) -> bool
        ensures { result ≡ classes.is_abstract (class_at self.now class).flags }
    {
        match self.class(class) {
            None => false,
            Some(record) => record.is_abstract(),
        }
    }

    /// The name of a class or interface, as `java/lang/Object`.
    pub fn class_name(&self, class: u32) -> &[u16]
        ensures { result.now ≡ (class_at self.now class).name }
    {
        match self.class(class) {
            None => &[],
            Some(record) => record.name.as_slice(),
        }
    }

    /// The major version of a class's file, from 50 to 52 (JVMS 4.1); a built-in class has 52.
    pub fn version(&self, class: u32) -> u16
        ensures { result ≡ (class_at self.now class).version }
    {
        match self.class(class) {
            None => 0,
            Some(record) => record.version,
        }
    }

    /// The fields that a class declares, in the order of its file.
    pub fn class_fields(&self, class: u32) -> &[u32]
        ensures { result.now ≡ (class_at self.now class).fields }
    {
        match self.class(class) {
            None => &[],
            Some(record) => record.fields.as_slice(),
        }
    }

    /// The methods that a class declares, in the order of its file.
    pub fn class_methods(&self, class: u32) -> &[u32]
        ensures { result.now ≡ (class_at self.now class).methods }
    {
        match self.class(class) {
            None => &[],
            Some(record) => record.methods.as_slice(),
        }
    }

    /// The class that declares a field.
    pub fn field_class(&self, field: u32) -> u32
        ensures { result ≡ (field_at self.now field).class }
    {
        match self.field(field) {
            None => 0,
            Some(record) => record.class,
        }
    }

    /// The descriptor of a field (JVMS 4.3.2).
    pub fn field_descriptor(&self, field: u32) -> &[u16]
        ensures { result.now ≡ (field_at self.now field).descriptor }
    {
        match self.field(field) {
            None => &[],
            Some(record) => record.descriptor.as_slice(),
        }
    }

    /// Whether a number is that of a static field.
    pub fn is_static_field(&self, field: u32) -> bool
        ensures { result ≡ classes.is_static (field_at self.now field).flags }
    {
        match self.field(field) {
            None => false,
            Some(record) => record.is_static(),
        }
    }

    /// The class that declares a method.
    pub fn method_class(&self, method: u32) -> u32
        ensures { result ≡ (method_at self.now method).class }
    {
        match self.method(method) {
            None => 0,
            Some(record) => record.class,
        }
    }

    /// The name of a method.
    pub fn method_name(&self, method: u32) -> &[u16]
        ensures { result.now ≡ (method_at self.now method).name }
    {
        match self.method(method) {
            None => &[],
            Some(record) => record.name.as_slice(),
        }
    }

    /// The descriptor of a method (JVMS 4.3.3).
    pub fn method_descriptor(&self, method: u32) -> &[u16]
        ensures { result.now ≡ (method_at self.now method).descriptor }
    {
        match self.method(method) {
            None => &[],
            Some(record) => record.descriptor.as_slice(),
        }
    }

    /// Whether a number is that of a private method.
    pub fn is_private_method(&self, method: u32) -> bool
        ensures { result ≡ classes.is_private (method_at self.now method).flags }
    {
        match self.method(method) {
            None => false,
            Some(record) => record.is_private(),
        }
    }

    /// Whether a number is that of a static method.
    pub fn is_static_method(&self, method: u32) -> bool
        ensures { result ≡ classes.is_static (method_at self.now method).flags }
    {
        match self.method(method) {
            None => false,
            Some(record) => record.is_static(),
        }
    }

    /// Whether a number is that of a method with code.
    pub fn has_code(&self, method: u32) -> bool
        ensures { result ≡ has_code self.now method }
    {
        match self.method(method) {
            None => false,
            Some(record) => record.has_code(),
        }
    }

    // A class is another one or below it, at most so many steps up.
    fn is_below_in(&self, steps: u32, class: usize, above: usize) -> bool
        ensures { result ≡ member above (upwards_in self.now steps class) }
    {
        if steps == 0 {
            return false;
        }
        if above == class {
            return true;
        }
        match self.classes.as_slice().get(class) {
            None => false,
            Some(record) => match record.superclass {
                None => false,
                Some(next) => self.is_below_in(steps - 1, next as usize, above),
            },
        }
    }

    /// Whether a class is another one or below it (JVMS 4.10.1.2).
    pub fn is_below(&self, class: u32, above: u32) -> bool
        ensures { result ≡ classes.is_below self.now class above }
    {
        self.is_place_below(class as usize, above as usize)
    }

    /// The same of classes by their places in `classes`.
    #[tactic(auto, unfolding(crate::specs::Classes::is_below))]
    pub fn is_place_below(&self, class: usize, above: usize) -> bool
        ensures { result ≡ classes.is_below self.now class above }
    {
        self.is_below_in(class_bound(), class, above)
    }

    // Appends the instance fields that a class declares.
    fn push_plain_fields(&self, class: u32, fields: &mut Items<u32>) -> Result<(), NoMemory>
        ensures { OnOk result (fields.new ≡ fields.old ++ plain_fields self.now class) }
    {
        for field in self.class_fields(class) {
            if !self.is_static_field(*field) {
                fields.push(*field)?;
            }
        }
        Ok(())
    }

    // Appends the instance fields of a class and of those above it, at most so many steps up.
    fn push_layout(&self, steps: u32, class: u32, fields: &mut Items<u32>) -> Result<(), NoMemory>
        ensures { OnOk result (fields.new ≡ fields.old ++ layout_in self.now (upwards_in self.now steps class)) }
    {
        if steps == 0 {
            return Ok(());
        }
        match self.superclass(class) {
            None => self.push_plain_fields(class, fields),
            Some(above) => {
                self.push_layout(steps - 1, above, fields)?;
                self.push_plain_fields(class, fields)
            }
        }
    }

    /// The instance fields of a class's objects, those of superclasses first (this project's order).
    #[tactic(auto, unfolding(crate::specs::Classes::layout))]
    pub fn layout(&self, alloc: Global, class: u32) -> Result<Items<u32>, NoMemory>
        ensures { IfOk result (λ fields. fields ≡ classes.layout self.now class) }
    {
        let mut fields = Items::new(alloc);
        self.push_layout(class_bound(), class, &mut fields)?;
        Ok(fields)
    }
}

impl Value {
    /// The object that a value refers to, if it does.
    pub fn object(self) -> Option<u64>
        ensures { result ≡ given_by self }
    {
        match self {
            Value::Obj(object) => Some(object),
            _ => None,
        }
    }
}

impl Kind {
    /// What a constant object is an instance of: the stream is one of PrintStream, the others are strings.
    pub fn of_constant(literal: u32) -> Kind
        ensures { result ≡ constant_kind literal }
    {
        if literal == 0 {
            Kind::Class(PRINT_STREAM)
        } else {
            Kind::Class(STRING)
        }
    }

    /// The class of an object of this kind; an array is of class Object (JVMS 6.5, invokevirtual).
    pub fn class(self) -> u32
        ensures { result ≡ kinds.class_of self }
    {
        match self {
            Kind::Class(class) => class,
            Kind::Array { .. } => OBJECT,
        }
    }

    /// The type of an array's elements that are references. An array of numbers has none, and stands for itself here.
    pub fn element(self) -> Kind
        ensures { result ≡ kinds.element_kind self }
    {
        match self {
            Kind::Class(class) => Kind::Class(class),
            Kind::Array {
                dims: 1,
                base: Base::Class(class),
            } => Kind::Class(class),
            Kind::Array { dims, base } => Kind::Array {
                dims: dims.saturating_sub(1),
                base,
            },
        }
    }
}
