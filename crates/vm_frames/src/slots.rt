//! Values by place, each kept as its tag and its bits.

ghost use Rattle.std.specs.Prelude.{◌≡◌, ◌<◌, ◌-◌, ◌^◌, ◌++◌, [], length, set, get_or, replicate, IfOk, OnErr};
ghost use Rattle.jvm_model.specs.declared.values.Value.TheVariants.{Int, Long, Null};
ghost use Rattle.jvm_model.specs.RowsMoves.{is_long};
ghost use Rattle.vm_frames.specs.{declared.slots.Tag.TheVariants.OfNull, Slots.IsInt, Slots.IsLong, Slots.Fit, Slots.value_of};

use et_base::NoMemory;
use jvm_model::Value;
use std::alloc::Global;
use std::marker::Model;
use std::mem;

/// Which of the values the bits of a place are.
#[derive(Clone, Copy)]
pub enum Tag {
    OfInt,
    OfLong,
    OfNull,
    OfLit,
    OfObj,
}

/// Values by place. Contracts see the list of them.
///
/// A place takes nine bytes where a `Value` takes sixteen, and a typed read or write makes and matches none. After a
/// refusal there may be more bits than tags; the list ends with the tags.
#[derive(Drop)]
pub struct Slots {
    tags: Vec<Tag>,
    bits: Vec<u64>,
}

impl Model for Slots {
    ghost use Rattle.std.specs.Prelude.{◌≤◌, length};
    ghost use Rattle.vm_frames.specs.Slots.{Values, values, AreFit};

    ghost Value = { Values };

    ghost view = { λ s. values s.tags.items s.bits.items };

    ghost invariant = { λ s. (length s.tags.items ≤ length s.bits.items)
        × AreFit s.tags.items s.bits.items };
}

#[tactic(auto, using(crate::proofs::Kept::kept))]
impl Slots {
    /// No place. It takes no memory.
    pub fn new(alloc: Global) -> Slots
        ensures { result ≡ [] }
    {
        Slots {
            tags: Vec::new(alloc),
            bits: Vec::new(alloc),
        }
    }

    /// Makes at least so many places, the new ones with null. After a refusal there are as many as before. There are never
    /// as many as 2^63. Where they are there already, the address of the slots isn't handed on.
    #[inline(always)]
    pub fn grow(&mut self, wanted: usize) -> Result<(), NoMemory>
        ensures grown { IfOk result (λ _.
            self.new ≡ self.old ++ replicate (wanted - length self.old) Null) }
        ensures kept { OnErr result (self.new ≡ self.old) }
        ensures few { length self.new < 2 ^ 63 }
    {
        if wanted <= self.tags.len() {
            return Ok(());
        }
        let alloc = *self.tags.allocator();
        let mut moved = mem::replace(self, Slots::new(alloc));
        let grown = moved.grow_apart(wanted);
        *self = moved;
        grown
    }

    /// The same, apart.
    #[cold]
    #[inline(never)]
    fn grow_apart(&mut self, wanted: usize) -> Result<(), NoMemory>
        ensures grown { IfOk result (λ _.
            self.new ≡ self.old ++ replicate (wanted - length self.old) Null) }
        ensures kept { OnErr result (self.new ≡ self.old) }
        ensures few { length self.new < 2 ^ 63 }
    {
        grow_bits(&mut self.bits, wanted)?;
        grow_tags(&mut self.tags, wanted)?;
        Ok(())
    }

    /// The value of a place.
    #[inline(always)]
    pub fn get(&self, i: usize) -> Value
        requires { i < length self.now }
        ensures { result ≡ get_or self.now i Null }
    {
        let bits = self.bits[i];
        match self.tags[i] {
            Tag::OfInt => Value::Int((bits as u32).cast_signed()),
            Tag::OfLong => Value::Long(bits.cast_signed()),
            Tag::OfNull => Value::Null,
            Tag::OfLit => Value::Lit(bits as u32),
            Tag::OfObj => Value::Obj(bits),
        }
    }

    /// Writes a value at a place.
    #[inline(always)]
    pub fn set(&mut self, i: usize, v: Value)
        requires { i < length self.old }
        ensures { self.new ≡ set self.old i v }
    {
        match v {
            Value::Int(n) => self.set_int(i, n),
            Value::Long(n) => self.set_long(i, n),
            Value::Null => self.put(i, Tag::OfNull, 0),
            Value::Lit(n) => self.put(i, Tag::OfLit, u64::from(n)),
            Value::Obj(o) => self.put(i, Tag::OfObj, o),
        }
    }

    /// Whether the value of a place is a long.
    #[inline(always)]
    pub fn is_long(&self, i: usize) -> bool
        requires { i < length self.now }
        ensures { result ≡ is_long (get_or self.now i Null) }
    {
        matches!(self.tags[i], Tag::OfLong)
    }

    /// The int of a place.
    #[inline(always)]
    pub fn int_at(&self, i: usize) -> i32
        requires place { i < length self.now }
        requires int { IsInt (get_or self.now i Null) }
        ensures { get_or self.now i Null ≡ Int result }
    {
        (self.bits[i] as u32).cast_signed()
    }

    /// Writes an int at a place.
    #[inline(always)]
    pub fn set_int(&mut self, i: usize, n: i32)
        requires { i < length self.old }
        ensures { self.new ≡ set self.old i (Int n) }
    {
        self.put(i, Tag::OfInt, u64::from(n.cast_unsigned()));
    }

    /// The long of a place.
    #[inline(always)]
    pub fn long_at(&self, i: usize) -> i64
        requires place { i < length self.now }
        requires long { IsLong (get_or self.now i Null) }
        ensures { get_or self.now i Null ≡ Long result }
    {
        self.bits[i].cast_signed()
    }

    /// Writes a long at a place.
    #[inline(always)]
    pub fn set_long(&mut self, i: usize, n: i64)
        requires { i < length self.old }
        ensures { self.new ≡ set self.old i (Long n) }
    {
        self.put(i, Tag::OfLong, n.cast_unsigned());
    }

    /// Writes the value of a place at another.
    #[inline(always)]
    pub fn copy(&mut self, from: usize, to: usize)
        requires from { from < length self.old }
        requires to { to < length self.old }
        ensures { self.new ≡ set self.old to (get_or self.old from Null) }
    {
        let bits = self.bits[from];
        let tag = self.tags[from];
        self.put(to, tag, bits);
    }

    /// Writes a tag and bits that fit it at a place.
    #[inline(always)]
    fn put(&mut self, i: usize, tag: Tag, bits: u64)
        requires place { i < length self.old }
        requires fit { Fit tag bits }
        ensures { self.new ≡ set self.old i (value_of tag bits) }
    {
        self.tags[i] = tag;
        self.bits[i] = bits;
    }
}

/// Makes at least so many bits. After a refusal there are as many as before.
fn grow_bits(bits: &mut Vec<u64>, wanted: usize) -> Result<(), NoMemory>
    ensures grown { IfOk result (λ _.
        bits.new.items ≡ bits.old.items ++ replicate (wanted - length bits.old.items) 0) }
    ensures kept { OnErr result (bits.new.items ≡ bits.old.items) }
    ensures few { length bits.new.items < 2 ^ 63 }
{
    if bits.len() < wanted {
        bits.resize(wanted, 0)?;
    }
    Ok(())
}

/// Makes at least so many tags, the new ones of null. After a refusal there are as many as before.
fn grow_tags(tags: &mut Vec<Tag>, wanted: usize) -> Result<(), NoMemory>
    ensures grown { IfOk result (λ _.
        tags.new.items ≡ tags.old.items ++ replicate (wanted - length tags.old.items) OfNull) }
    ensures kept { OnErr result (tags.new.items ≡ tags.old.items) }
{
    if tags.len() < wanted {
        tags.resize(wanted, Tag::OfNull)?;
    }
    Ok(())
}
