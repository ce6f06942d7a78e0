//! The parts of a class file.

ghost use Rattle.std.specs.Prelude.{◌≡◌};

use class_pool::Pool;
use code_decode::Code;
use et_base::Items;
use std::marker::Model;

/// A row of a handler table (JVMS 4.7.3).
#[derive(Clone, Copy)]
pub struct RawHandler {
    /// Where its range begins.
    pub from: u16,
    /// Where its range has ended.
    pub to: u16,
    /// Where the handler is.
    pub at: u16,
    /// The pool index of the class that it catches, or 0 for any.
    pub catch_class: u16,
}

/// A verification type of a stack map (JVMS 4.7.4).
#[derive(Clone, Copy)]
pub struct MapType {
    /// Its tag, 0 to 8.
    pub tag: u8,
    /// The pool index or offset behind the tags 7 and 8, else 0.
    pub arg: u16,
}

/// An entry of a stack map (JVMS 4.7.4).
#[derive(Drop)]
pub struct MapFrame {
    /// Its tag.
    pub tag: u8,
    /// Its offset delta, also where the tag gives it.
    pub delta: u16,
    /// The locals that it names.
    pub locals: Items<MapType>,
    /// The stack that it names.
    pub stack: Items<MapType>,
}

/// A stack map (JVMS 4.7.4).
#[derive(Drop)]
pub struct MapPart {
    /// The number of entries that it says.
    pub count: u16,
    /// Its entries up to the first with a tag that is none.
    pub frames: Items<MapFrame>,
    /// The bytes from that entry on.
    pub rest: Items<u8>,
}

/// A Code attribute (JVMS 4.7.3).
#[derive(Drop)]
pub struct CodePart {
    /// The depth that the operand stack may have.
    pub max_stack: u16,
    /// The number of local variables.
    pub max_locals: u16,
    /// The instructions.
    pub code: Code,
    /// The handler table.
    pub handlers: Items<RawHandler>,
    /// The stack map, where there is one.
    pub map: Option<MapPart>,
}

/// A field or method (JVMS 4.5 and 4.6).
#[derive(Drop)]
pub struct MemberPart {
    /// Its access flags.
    pub flags: u16,
    /// The pool index of its name.
    pub name: u16,
    /// The pool index of its descriptor.
    pub descriptor: u16,
    /// The pool index of a field's constant value, where there is one.
    pub constant: Option<u16>,
    /// A method's code, where there is one.
    pub code: Option<CodePart>,
}

/// A class file without the attributes that are skipped (JVMS 4.1).
#[derive(Drop)]
pub struct ClassParts {
    /// The minor version.
    pub minor: u16,
    /// The major version, 50 to 52.
    pub major: u16,
    /// The constant pool.
    pub pool: Pool,
    /// Its access flags.
    pub flags: u16,
    /// The pool index of this class.
    pub this_class: u16,
    /// The pool index of its superclass.
    pub super_class: u16,
    /// The pool indices of its interfaces.
    pub interfaces: Items<u16>,
    /// Its fields.
    pub fields: Items<MemberPart>,
    /// Its methods.
    pub methods: Items<MemberPart>,
}

/// A class file that some bytes spell. Contracts see it as its parts.
#[derive(Drop)]
pub struct ClassFile {
    parts: ClassParts,
}

impl Model for ClassFile {
    ghost use Rattle.class_reader.specs.declared.parts.ClassParts.{ClassParts};
    ghost use Rattle.class_reader.specs.ClassGrammar.{IsClass};

    ghost Value = { ClassParts };

    ghost view = { λ c. c.parts };

    ghost invariant = { λ c. IsClass c.parts };
}

impl ClassFile {
    ghost use Rattle.class_reader.specs.ClassGrammar.{IsClass};

    /// The class file of these parts.
    pub fn new(parts: ClassParts) -> ClassFile
        requires { IsClass parts }
        ensures { result ≡ parts }
    {
        ClassFile { parts }
    }

    /// Its parts.
    pub fn parts(&self) -> &ClassParts
        ensures gives { result.now ≡ self.now }
        ensures kept { IsClass self.now }
    {
        &self.parts
    }
}
