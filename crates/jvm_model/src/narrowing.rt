//! Values of a type: its default, and what is kept of a value that is stored into it.

ghost use Rattle.std.specs.Prelude.{◌≡◌};
ghost use Rattle.jvm_model.specs.Narrow as narrowing;
ghost use Rattle.jvm_model.specs.Classes as classes;

use crate::values::Value;
use et_base::letters::{BOOLEAN, BYTE, CHAR, INT, LONG, SHORT};
use et_base::{i2b, i2c, i2s};

/// The default value of a type, by its descriptor (JVMS 2.3 and 2.4).
pub fn default_of(descriptor: &[u16]) -> Value
    ensures { result ≡ classes.default_of descriptor.now }
{
    match descriptor {
        [BYTE | CHAR | INT | SHORT | BOOLEAN, ..] => Value::Int(0),
        [LONG, ..] => Value::Long(0),
        _ => Value::Null,
    }
}

/// A whole number narrowed to a type, by the first unit of its descriptor: a boolean keeps the lowest bit, a byte, a
/// char and a short the low bits as `i2b`, `i2c` and `i2s` do (this project's).
#[inline(always)]
pub fn narrow_int(unit: u16, n: i32) -> i32
    ensures { result ≡ narrowing.narrow_int unit n }
{
    match unit {
        BOOLEAN => n.rem_euclid(2),
        BYTE => i2b(n),
        CHAR => i2c(n),
        SHORT => i2s(n),
        _ => n,
    }
}

impl Value {
    /// The value narrowed to a type, by the first unit of its descriptor; only an int may change.
    #[inline(always)]
    #[tactic(auto, unfolding(crate::specs::Narrow::narrow))]
    pub fn narrow(self, unit: u16) -> Value
        ensures { result ≡ narrowing.narrow unit self }
    {
        // Most are ints, and what the value is isn't asked for then.
        if unit == INT {
            return self;
        }
        match self {
            Value::Int(n) => Value::Int(narrow_int(unit, n)),
            Value::Long(_) | Value::Null | Value::Lit(_) | Value::Obj(_) => self,
        }
    }

    /// The value narrowed to a type, by its descriptor.
    #[inline(always)]
    pub fn narrowed(self, descriptor: &[u16]) -> Value
        ensures { result ≡ narrowing.narrowed descriptor.now self }
    {
        match descriptor {
            [] => self,
            [unit, ..] => self.narrow(*unit),
        }
    }
}
