//! How code uses entries of the pool, and what they stand for.

ghost use Rattle.std.specs.Prelude.{◌≡◌};
ghost use Rattle.jvm_model.specs.Selection as selection;

use jvm_model::{Kind, OBJECT, Value};

/// How an instruction or a handler uses an entry of the pool (JVMS 6.5 and 4.7.3).
#[derive(Clone, Copy)]
pub enum Use {
    /// getstatic and putstatic.
    StaticField,
    /// getfield and putfield.
    InstanceField,
    Virtual,
    Special,
    StaticCall,
    Interface,
    /// The type of new, anewarray, checkcast, instanceof and multianewarray.
    Type,
    /// The class that a handler catches.
    Caught,
}

/// What an entry of the pool stands for in the program.
#[derive(Clone, Copy)]
pub enum Target {
    Constant(Value),
    Type(Kind),
    Field { named: u32, field: u32 },
    Method { named: Kind, method: u32 },
}

/// The class in which the members of a class or array are looked up; for an array that is Object (JVMS 10.7).
pub fn named_class(kind: Kind) -> u32
    ensures { result ≡ selection.named_class kind }
{
    match kind {
        Kind::Class(class) => class,
        Kind::Array { .. } => OBJECT,
    }
}
