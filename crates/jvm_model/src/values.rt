//! Values, kinds of objects and the locations of the world.

use et_base::Units;

/// A value in a stack place, a local, a field, an array cell or a static (JVMS 2.2).
///
/// Small whole numbers, chars and booleans are `Int` (JVMS 2.11.1). A reference is `Null`, a constant object of the
/// program (`Lit(0)` is the stream of `System.out`, `Lit(n)` the string constant n), or the place of an object.
#[derive(Clone, Copy, PartialEq, Eq)]
pub enum Value {
    Int(i32),
    Long(i64),
    Null,
    Lit(u32),
    Obj(u64),
}

/// The innermost element type of an array (JVMS 4.3.2).
#[derive(Clone, Copy, PartialEq, Eq)]
pub enum Base {
    Boolean,
    Byte,
    Char,
    Short,
    Int,
    Long,
    Class(u32),
}

/// What an object is an instance of: a class, or an array type of `dims` dimensions.
#[derive(Clone, Copy, PartialEq, Eq)]
pub enum Kind {
    Class(u32),
    Array { dims: u8, base: Base },
}

/// What stands at the head of an object: its kind and, for an array, its number of elements.
#[derive(Clone, Copy, PartialEq, Eq)]
pub struct Head {
    pub kind: Kind,
    pub length: u32,
}

/// How far a class or interface is initialised (JVMS 5.5).
#[derive(Clone, Copy, PartialEq, Eq)]
pub enum InitState {
    Idle,
    Running,
    Done,
    Erroneous,
}

/// A part of the world that a step reads or writes (this project's list).
#[derive(Drop)]
pub enum Location {
    Static { field: u32 },
    Init { class: u32 },
    Head { object: u64 },
    Field { object: u64, field: u32 },
    Elem { object: u64, index: u32 },
    Text { object: u64 },
    File { name: Units },
    Prop { name: Units },
}

/// One read or write of a location. `gave` is the object whose reference a read of a static, a field or an
/// array cell gave, and `None` for every other touch.
#[derive(Drop)]
pub struct Touch {
    pub write: bool,
    pub location: Location,
    pub gave: Option<u64>,
}
