//! The methods of electric.Env.

ghost use Rattle.std.specs.Prelude.{◌≡◌};
ghost use Rattle.jvm_model.specs.{declared.library.Native.Native, World.World};
ghost use Rattle.jvm_model.specs.NativesOutside as natives;
ghost use Rattle.vm_frames.specs.Stack.{HasRoom};
ghost use Rattle.vm_mem.specs.Refines.{IsNext, Refines};
ghost use Rattle.vm_natives.specs.Rows.{with_own, env_row};

use crate::working::answer;
use jvm_model::{Next, Own, Program, Value};
use vm_frames::FrameStack;

/// `random()`: the random word steps, and its upper half is answered. It counts 1. Over, with nothing done, where no unit
/// is left.
#[tactic(auto, unfolding(jvm_model::specs::NativesOutside::native_env))]
pub fn random(stack: &mut FrameStack, p: &Program, own: &mut Own, next: u32, left: &mut u64) -> Next
    requires place { IsNext p.now stack.old next }
    requires room { HasRoom 1 stack.old }
    ensures { (w : World) → Refines (env_row Native.EnvRandom)
        p.now w (with_own stack.old own.old) left.old result (with_own stack.new own.new) w left.new }
{
    if *left == 0 {
        return Next::Over;
    }
    own.random = stepped(own.random);
    answer(stack, p, upper_int(own.random), next, left)
}

/// The random word after this one.
fn stepped(word: u64) -> u64
    ensures { result ≡ natives.stepped word }
{
    word.wrapping_mul(6_364_136_223_846_793_005)
        .wrapping_add(1_442_695_040_888_963_407)
}

/// The upper 32 bits of a word as an int.
fn upper_int(word: u64) -> Value
    ensures { result ≡ natives.upper_int word }
{
    Value::Int(((word / (1 << 32)) as u32).cast_signed())
}
