//! References as values.

ghost use Rattle.std.specs.Prelude.{◌≡◌};
ghost use Rattle.jvm_model.specs.RowsBranches as branches;

use jvm_model::Value;

/// Whether two references are the same.
pub fn same_reference(value: Value, other: Value) -> bool
    ensures { result ≡ branches.same_reference value other }
{
    match (value, other) {
        (Value::Null, Value::Null) => true,
        (Value::Lit(a), Value::Lit(b)) => a == b,
        (Value::Obj(a), Value::Obj(b)) => a == b,
        _ => false,
    }
}
