//! The limit of operand stacks.

ghost use Rattle.std.specs.Prelude.{◌≡◌, IfSome};
ghost use Rattle.check_sound.specs.ReachLaw.{HasStackLimits};

use jvm_model::{MethodRec, Program};

/// Says that no method of a program asks for more than 65,535 places for its operands: the number has 16 bits (JVMS 4.7.3).
pub fn stack_limits(p: &Program)
    ensures { HasStackLimits p.now }
{
    for method in p.methods.as_slice() {
        places_of(method);
    }
}

/// How many places a method has for its operands, 0 where it has no code.
fn places_of(method: &MethodRec) -> u16
    ensures { IfSome method.now.body (λ b. b.max_stack ≡ result) }
{
    match &method.body {
        None => 0,
        Some(body) => body.max_stack,
    }
}
