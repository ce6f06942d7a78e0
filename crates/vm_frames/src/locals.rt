//! Writes of a frame's locals into the slots.

ghost use Rattle.std.specs.Prelude.{◌≡◌, ◌<◌, ◌≤◌, ◌+◌, ◌-◌, ◌*◌, ◌^◌, ◌++◌, ◌∷◌, [], length, take, drop, get_or, replicate, IfOk, OnErr};
ghost use Rattle.std.specs.Option.{option_to_list};
ghost use Rattle.jvm_model.specs.{declared.values.Value.TheVariants.Null, Entries.slots_of, Entries.filled};
ghost use Rattle.vm_frames.specs.Extents.{HasFrame};

use crate::slots::Slots;
use et_base::NoMemory;
use jvm_model::Value;

/// How many operands a frame may have: the greatest `max_stack` that a class file can say (JVMS 4.7.3).
const OPERAND_LIMIT: usize = 65_535;

/// Writes an argument as a local at the place `to`: a long takes two slots (JVMS 2.6.1). Answers the place after it.
#[tactic(auto, using(crate::proofs::Frames::put_one, crate::proofs::Frames::put_two_slots))]
fn put_argument(slots: &mut Slots, to: usize, v: Value) -> usize
    requires room { to + 1 < length slots.old }
    requires few { length slots.old < 2 ^ 63 }
    ensures written { take result slots.new ≡ take to slots.old ++ slots_of (v ∷ []) }
    ensures end { result ≡ to + length (slots_of (v ∷ [])) }
    ensures most { result ≤ to + 2 }
    ensures kept { length slots.new ≡ length slots.old }
{
    slots.set(to, v);
    match v {
        Value::Long(_) => {
            slots.set(to + 1, Value::Null);
            to + 2
        }
        Value::Int(_) | Value::Null | Value::Lit(_) | Value::Obj(_) => to + 1,
    }
}

/// Writes the value of a place as a local at the place `to` above it. Answers the place after it.
#[inline(always)]
#[tactic(auto, using(crate::proofs::Frames::put_one, crate::proofs::Frames::put_two_slots, crate::proofs::Frames::slots_of_one))]
fn copy_argument(slots: &mut Slots, from: usize, to: usize) -> usize
    requires order { from < to }
    requires room { to + 1 < length slots.old }
    requires few { length slots.old < 2 ^ 63 }
    ensures written { take result slots.new
        ≡ take to slots.old ++ slots_of (get_or slots.old from Null ∷ []) }
    ensures end { result ≡ to + length (slots_of (get_or slots.old from Null ∷ [])) }
    ensures most { result ≤ to + 2 }
    ensures kept { length slots.new ≡ length slots.old }
{
    slots.copy(from, to);
    if slots.is_long(from) {
        slots.set(to + 1, Value::Null);
        to + 2
    } else {
        to + 1
    }
}

/// Writes the values from the place `from` up to `base` as locals from `base` on. Answers the place after them.
#[inline(always)]
fn copy_arguments(slots: &mut Slots, from: usize, base: usize) -> usize
    requires order { from ≤ base }
    requires room { base + 2 * (base - from) ≤ length slots.old }
    requires few { length slots.old < 2 ^ 63 }
    ensures written { take result slots.new
        ≡ take base slots.old ++ slots_of (drop from (take base slots.old)) }
    ensures start { base ≤ result }
    ensures most { result ≤ base + 2 * (base - from) }
    ensures kept { length slots.new ≡ length slots.old }
{
    let mut to = base;
    for place in from..base {
        to = copy_argument(slots, place, to);
    }
    to
}

/// Fills the slots from `from` up to `to` with null.
#[inline(always)]
#[tactic(auto, using(crate::proofs::Frames::clear_more))]
fn clear(slots: &mut Slots, from: usize, to: usize)
    requires order { from ≤ to }
    requires room { to ≤ length slots.old }
    ensures filled { take to slots.new ≡ take from slots.old ++ replicate (to - from) Null }
    ensures kept { length slots.new ≡ length slots.old }
{
    for place in from..to {
        slots.set(place, Value::Null);
    }
}

/// Writes the locals of a frame whose arguments stand from the place `from` up to `base`, from `base` on. Answers the
/// place after them.
#[inline(always)]
#[tactic(auto, using(crate::proofs::Frames::frame_made))]
fn locals_of_operands(slots: &mut Slots, from: usize, base: usize, max_locals: u16) -> usize
    requires order { from ≤ base }
    requires limit { base ≤ from + 65535 }
    requires room { base + max_locals + 2 * (base - from) + 65535 ≤ length slots.old }
    requires few { length slots.old < 2 ^ 63 }
    ensures { HasFrame slots.old slots.new base max_locals (drop from (take base slots.old)) result }
{
    let to = copy_arguments(slots, from, base);
    let first = to.max(base + max_locals as usize);
    clear(slots, to, first);
    first
}

/// Writes the locals of a frame with no argument or one from `base` on. Answers the place after them.
#[tactic(auto, using(crate::proofs::Frames::frame_made))]
fn locals_of_receiver(
    slots: &mut Slots,
    base: usize,
    max_locals: u16,
    receiver: Option<Value>,
) -> usize
    requires room { base + max_locals + 2 + 65535 ≤ length slots.old }
    requires few { length slots.old < 2 ^ 63 }
    ensures { HasFrame slots.old slots.new base max_locals (option_to_list receiver) result }
{
    let to = match receiver {
        Some(v) => put_argument(slots, base, v),
        None => base,
    };
    let first = to.max(base + max_locals as usize);
    clear(slots, to, first);
    first
}

/// The frame of a method whose arguments stand from the place `from` up to `base`: its locals are written from `base` on,
/// and there is room for its operands. Answers the place after the locals. After a refusal the slots are as before.
#[inline(always)]
#[tactic(auto, using(crate::proofs::Frames::frame_grown))]
pub fn frame_of_operands(
    slots: &mut Slots,
    from: usize,
    base: usize,
    max_locals: u16,
) -> Result<usize, NoMemory>
    requires order { from ≤ base }
    requires limit { base ≤ from + 65535 }
    requires within { base ≤ length slots.old }
    requires few { length slots.old < 2 ^ 63 }
    ensures made { IfOk result (λ first.
        HasFrame slots.old slots.new base max_locals
        (drop from (take base slots.old)) first) }
    ensures kept { OnErr result (slots.new ≡ slots.old) }
{
    let wanted = base + max_locals as usize + 2 * (base - from) + OPERAND_LIMIT;
    slots.grow(wanted)?;
    Ok(locals_of_operands(slots, from, base, max_locals))
}

/// The same of a frame with no argument or one.
#[tactic(auto, using(crate::proofs::Frames::frame_grown))]
pub fn frame_of_receiver(
    slots: &mut Slots,
    base: usize,
    max_locals: u16,
    receiver: Option<Value>,
) -> Result<usize, NoMemory>
    requires within { base ≤ length slots.old }
    requires few { length slots.old < 2 ^ 63 }
    ensures made { IfOk result (λ first.
        HasFrame slots.old slots.new base max_locals (option_to_list receiver) first) }
    ensures kept { OnErr result (slots.new ≡ slots.old) }
{
    let wanted = base + max_locals as usize + 2 + OPERAND_LIMIT;
    slots.grow(wanted)?;
    Ok(locals_of_receiver(slots, base, max_locals, receiver))
}
