//! The methods of java.lang.System.

ghost use Rattle.std.specs.Prelude.{Some};
ghost use Rattle.jvm_model.specs.{declared.library.Native.Native, NativesOutside.changes_property, Working.operands, World.World};
ghost use Rattle.vm_frames.specs.Stack.{HasRoom};
ghost use Rattle.vm_mem.specs.Refines.{IsReady, IsNext, Refines, Makes};
ghost use Rattle.vm_natives.specs.{Rows.with_own, Rows.system_row, Named.property_row, Named.property_change_row};

use crate::working::{answer, answer_costly, answer_text};
use et_base::{NoMemory, Units, add64};
use jvm_model::{Head, Kind, Next, Own, Program, STRING, Value};
use sim_store::Part;
use std::alloc::Global;
use vm_frames::FrameStack;
use vm_mem::Memory;

/// `currentTimeMillis()` and `nanoTime()`: the clock's next answer, after which it is one more, wrapped. It counts 1. Over,
/// with nothing done, where no unit is left.
#[tactic(auto, unfolding(jvm_model::specs::NativesOutside::native_system))]
pub fn clock(stack: &mut FrameStack, p: &Program, own: &mut Own, next: u32, left: &mut u64) -> Next
    requires place { IsNext p.now stack.old next }
    requires room { HasRoom 1 stack.old }
    ensures { (w : World) → Refines (system_row Native.SystemClock)
        p.now w (with_own stack.old own.old) left.old result (with_own stack.new own.new) w left.new }
{
    if *left == 0 {
        return Next::Over;
    }
    let time = own.clock;
    own.clock = add64(time, 1);
    answer(stack, p, Value::Long(time), next, left)
}

/// `getProperty(String)`: a new String of the property's text, or null where it isn't set. It counts 1, a unit for each of
/// the name, and for a new String 1 and a unit for each of its text. Over, with nothing made, where fewer units are left.
pub fn property_at<M: Memory>(
    alloc: Global,
    stack: &mut FrameStack,
    memory: &mut M,
    p: &Program,
    own: &Own,
    name: &Units,
    next: u32,
    left: &mut u64,
) -> Result<Next, NoMemory>
    requires place { IsNext p.now stack.old next }
    requires room { HasRoom 1 stack.old }
    requires row { IsReady (property_row name.now) p.now M.program M.world memory.old
        (with_own stack.old own.now) }
    ensures made { Makes (property_row name.now) M.program M.world M.follows memory.old memory.new
        (with_own stack.old own.now) left.old result (with_own stack.new own.now) left.new }
{
    let cost = name.as_slice().len() as u64;
    match memory.get_store(Part::Prop, name)? {
        None => Ok(answer_costly(stack, p, Value::Null, cost, next, left)),
        Some(text) => {
            let text = Units::from_slice(alloc, text.as_slice())?;
            answer_text(stack, memory, p, own, text, cost, next, left)
        }
    }
}

/// `setProperty(String, String)`, and without a text `clearProperty(String)`: the property has this text, or is taken away,
/// and its old one is answered as `getProperty` does. It counts so many units for what is written besides. Over, with nothing
/// written, where fewer units are left.
pub fn change_property<M: Memory>(
    alloc: Global,
    stack: &mut FrameStack,
    memory: &mut M,
    p: &Program,
    own: &Own,
    name: Units,
    text: Option<Units>,
    units: u64,
    next: u32,
    left: &mut u64,
) -> Result<Next, NoMemory>
    requires place { IsNext p.now stack.old next }
    requires room { HasRoom 1 stack.old }
    requires row { IsReady (property_change_row name text units) p.now M.program M.world memory.old
        (with_own stack.old own.now) }
    ensures made { Makes (property_change_row name text units) M.program M.world M.follows
        memory.old memory.new (with_own stack.old own.now) left.old result
        (with_own stack.new own.now) left.new }
{
    let cost = name.as_slice().len() as u64;
    match memory.get_store(Part::Prop, &name)? {
        None => {
            if *left <= cost || *left - cost <= units {
                return Ok(Next::Over);
            }
            memory.put_store(Part::Prop, name, text)?;
            *left = *left - cost - units;
            Ok(answer(stack, p, Value::Null, next, left))
        }
        Some(old) => {
            let old = Units::from_slice(alloc, old.as_slice())?;
            replace_property(stack, memory, p, own, name, text, old, units, next, left)
        }
    }
}

/// The property has this text, or is taken away, and its former one is answered. It counts and answers Over as above.
fn replace_property<M: Memory>(
    stack: &mut FrameStack,
    memory: &mut M,
    p: &Program,
    own: &Own,
    name: Units,
    text: Option<Units>,
    former: Units,
    units: u64,
    next: u32,
    left: &mut u64,
) -> Result<Next, NoMemory>
    requires place { IsNext p.now stack.old next }
    requires room { HasRoom 1 stack.old }
    requires row { IsReady (λ q s. changes_property q s (operands s) name units text (Some former))
        p.now M.program M.world memory.old (with_own stack.old own.now) }
    ensures made { Makes (λ q s. changes_property q s (operands s) name units text (Some former))
        M.program M.world M.follows memory.old memory.new (with_own stack.old own.now) left.old
        result (with_own stack.new own.now) left.new }
{
    let cost = name.as_slice().len() as u64;
    let made = former.as_slice().len() as u64 + 1;
    if *left <= cost || *left - cost <= units || *left - cost - units <= made {
        return Ok(Next::Over);
    }
    memory.put_store(Part::Prop, name, text)?;
    let object = memory.make(Head {
        kind: Kind::Class(STRING),
        length: 0,
    })?;
    memory.put_text(object, former)?;
    *left = *left - cost - units - made;
    Ok(answer(stack, p, Value::Obj(object), next, left))
}
