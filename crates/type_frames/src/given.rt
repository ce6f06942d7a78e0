//! The frames that a method's stack map gives (JVMS 4.7.4 and 4.10.1.5).

ghost use Rattle.std.specs.Prelude.{◌≡◌, ℕ, List, ◌∷◌, ◌++◌, length, ◌+◌, ◌<◌, ◌^◌, replicate, map, IfOk, IfErr, OnOk, IfSome, MatchOption, Some, None};
ghost use Rattle.jvm_model.specs.declared.program.FrameRec.{FrameRec};
ghost use Rattle.jvm_model.specs.Classes as classes;
ghost use Rattle.type_frames.specs.declared.fault.FrameFault.TheVariants as faults;
ghost use Rattle.type_frames.specs.declared.vtype.VType.TheVariants as types;
ghost use Rattle.type_frames.specs.Frames.{holds_this, padded, places_of, spread, index_of};
ghost use Rattle.type_frames.specs.Given.{all_types, appended, body_frames, chopped, entry_types, frame_at, frames_from, given_frames, is_constructor, locals_after, places, plain_type, this_types, type_of};
ghost use Rattle.type_frames.specs.MapReading.{prefixed, IsTaken};

use crate::assign::same;
use crate::descriptors::push_all_types;
use crate::fault::FrameFault;
use crate::places::Places;
use crate::vtype::{Frame, VType};
use et_base::{Items, NoMemory};
use jvm_model::{Body, FrameRec, INIT, MethodRec, Placed, Program, TypeRec, parameters};
use std::alloc::Global;

/// The same type.
pub fn copy_type(alloc: Global, t: &VType) -> Result<VType, NoMemory>
    ensures { IfOk result (λ copy. copy ≡ t.now) }
{
    Ok(match t {
        VType::Top => VType::Top,
        VType::Int => VType::Int,
        VType::Long => VType::Long,
        VType::Null => VType::Null,
        VType::Object(name) => VType::Object(Items::from_slice(alloc, name.as_slice())?),
        VType::UninitThis => VType::UninitThis,
        VType::Uninit { pc } => VType::Uninit { pc: *pc },
    })
}

// Appends the places of a type.
fn push_places(alloc: Global, places: &mut Items<VType>, t: &VType) -> Result<(), NoMemory>
    ensures { OnOk result (places.new ≡ places.old ++ places_of t.now) }
{
    places.push(copy_type(alloc, t)?)?;
    if let VType::Long = t {
        places.push(VType::Top)?;
    }
    Ok(())
}

/// Types by place: a long is followed by `Top`.
pub fn spread(alloc: Global, types: &[VType]) -> Result<Items<VType>, NoMemory>
    ensures { IfOk result (λ places. places ≡ spread types.now) }
{
    let mut places = Items::new(alloc);
    for t in types {
        push_places(alloc, &mut places, t)?;
    }
    Ok(places)
}

/// At least so many places, those past the list unknown.
#[tactic(auto, using(crate::proofs::MapLemmas::padded_push, crate::proofs::MapLemmas::padded_full))]
pub fn padded(places: Items<VType>, count: u16) -> Result<Items<VType>, NoMemory>
    ensures { IfOk result (λ ts. ts ≡ padded count places) }
{
    let mut ts = places;
    while ts.len() < count as usize {
        ts.push(VType::Top)?;
    }
    Ok(ts)
}

/// Whether a method is an instance method `<init>`; a static one is an ordinary method.
pub fn is_constructor(m: &MethodRec) -> bool
    ensures { result ≡ is_constructor m.now }
{
    !m.is_static() && m.name.as_slice() == INIT.as_slice()
}

// The types that stand for `this`, if there is one.
fn this_types(alloc: Global, p: &Program, m: &MethodRec) -> Result<Items<VType>, NoMemory>
    ensures { IfOk result (λ ts. ts ≡ this_types p.now m.now) }
{
    let mut types = Items::new(alloc);
    if m.is_static() {
        return Ok(types);
    }
    if is_constructor(m) {
        types.push(VType::UninitThis)?;
        return Ok(types);
    }
    types.push(object_of(alloc, p, m.class)?)?;
    Ok(types)
}

/// The reference type of a class by its number.
pub fn object_of(alloc: Global, p: &Program, class: u32) -> Result<VType, NoMemory>
    ensures { IfOk result (λ t. t ≡ types.Object (classes.class_at p.now class).name) }
{
    Ok(VType::Object(Items::from_slice(alloc, p.class_name(class))?))
}

/// The types with which a method is entered, a long as one (JVMS 4.10.1.6).
pub fn entry_types(alloc: Global, p: &Program, m: &MethodRec) -> Result<Items<VType>, NoMemory>
    ensures { IfOk result (λ ts. ts ≡ entry_types p.now m.now) }
{
    let mut types = this_types(alloc, p, m)?;
    let texts = parameters(alloc, m.descriptor.as_slice())?;
    push_all_types(alloc, &mut types, texts.as_slice())?;
    Ok(types)
}

// A type of a stack map entry; none for float, double and tags past the last.
fn type_of(alloc: Global, t: &TypeRec) -> Result<Option<VType>, NoMemory>
    ensures { IfOk result (λ o. o ≡ type_of t.now) }
{
    match t {
        TypeRec::Plain { tag } => Ok(plain_type(*tag)),
        TypeRec::Object { name } => Ok(Some(VType::Object(Items::from_slice(
            alloc,
            name.as_slice(),
        )?))),
        TypeRec::Uninit { pc } => Ok(Some(VType::Uninit { pc: u32::from(*pc) })),
    }
}

fn plain_type(tag: u8) -> Option<VType>
    ensures { result ≡ plain_type tag }
{
    if tag == 0 {
        return Some(VType::Top);
    }
    if tag == 1 {
        return Some(VType::Int);
    }
    if tag == 4 {
        return Some(VType::Long);
    }
    if tag == 5 {
        return Some(VType::Null);
    }
    if tag == 6 {
        return Some(VType::UninitThis);
    }
    None
}

// The types with those of a list of entries behind them.
fn with_types(
    alloc: Global,
    types: Items<VType>,
    entries: &[TypeRec],
) -> Result<Option<Items<VType>>, NoMemory>
    ensures { IfOk result (λ o. o ≡ prefixed types (all_types entries.now)) }
{
    let mut all = types;
    for entry in entries {
        match type_of(alloc, entry)? {
            None => return Ok(None),
            Some(t) => all.push(t)?,
        }
    }
    Ok(Some(all))
}

#[tactic(auto, using(crate::proofs::MapLemmas::prefixed_nothing))]
fn all_types(alloc: Global, entries: &[TypeRec]) -> Result<Option<Items<VType>>, NoMemory>
    ensures { IfOk result (λ o. o ≡ all_types entries.now) }
{
    with_types(alloc, Items::new(alloc), entries)
}

// Without the last ones, if there are so many.
fn chopped(types: Items<VType>, count: usize) -> Option<Items<VType>>
    ensures { result ≡ chopped types count }
{
    let mut types = types.into_vec();
    if count > types.len() {
        return None;
    }
    types.truncate(types.len() - count);
    Some(Items::from_vec(types))
}

// With further ones, if they stay within the locals.
fn appended(
    alloc: Global,
    most: u16,
    types: Items<VType>,
    entries: &[TypeRec],
) -> Result<Option<Items<VType>>, NoMemory>
    ensures { IfOk result (λ o. o ≡ appended most types (all_types entries.now)) }
{
    let Some(all) = with_types(alloc, types, entries)? else {
        return Ok(None);
    };
    if spread(alloc, all.as_slice())?.len() <= most as usize {
        return Ok(Some(all));
    }
    Ok(None)
}

// The locals of an entry after those of the entry before it.
#[tactic(auto, unfolding(crate::specs::Given::locals_after))]
fn locals_after(
    alloc: Global,
    most: u16,
    types: Items<VType>,
    f: &FrameRec,
) -> Result<Option<Items<VType>>, NoMemory>
    ensures { IfOk result (λ o. o ≡ locals_after most types f.now) }
{
    if f.tag < 128 || (f.tag == 247 || f.tag == 251) {
        return Ok(Some(types));
    }
    if f.tag < 247 {
        return Ok(None);
    }
    if f.tag < 251 {
        return Ok(chopped(types, (251 - f.tag) as usize));
    }
    if f.tag < 255 {
        return appended(alloc, most, types, f.locals.as_slice());
    }
    all_types(alloc, f.locals.as_slice())
}

// What a stack map entry gives, and the locals from which the next one goes on.
#[derive(Drop)]
struct NextFrame {
    frame: Frame,
    locals: Items<VType>,
}

fn holds_this(types: &[VType]) -> bool
    ensures { result ≡ holds_this types.now }
{
    types.iter().any(|t| same(t, &VType::UninitThis))
}

fn frame_at(
    alloc: Global,
    most: u16,
    pc: u32,
    locals: &[VType],
    stack: &[VType],
) -> Result<Frame, NoMemory>
    ensures { IfOk result (λ g. g ≡ frame_at most pc locals.now stack.now) }
{
    Ok(Frame {
        pc,
        locals: padded(spread(alloc, locals)?, most)?,
        stack: spread(alloc, stack)?,
        flag: holds_this(locals),
    })
}

// The frame of an entry whose offset delta leads from a least place on.
fn read_entry(
    alloc: Global,
    b: &Body,
    code: &Places,
    least: u64,
    locals: Items<VType>,
    f: &FrameRec,
) -> Result<Option<NextFrame>, NoMemory>
    requires places { code.now ≡ places b.now.code }
    requires small { least < 2 ^ 33 }
    ensures { IfOk result (IsTaken b.now least locals f.now) }
{
    let Some(next) = locals_after(alloc, b.max_locals, locals, f)? else {
        return Ok(None);
    };
    let Some(stack) = all_types(alloc, f.stack.as_slice())? else {
        return Ok(None);
    };
    let Some(pc) = code.number_at(least + u64::from(f.delta)) else {
        return Ok(None);
    };
    let frame = frame_at(alloc, b.max_locals, pc, next.as_slice(), stack.as_slice())?;
    Ok(Some(NextFrame {
        frame,
        locals: next,
    }))
}

/// The places of the instructions of a method's code.
pub fn code_places(alloc: Global, code: &[Placed]) -> Result<Vec<u32>, NoMemory>
    ensures { IfOk result (λ v. v.items ≡ places code.now) }
{
    let mut places = Vec::new(alloc);
    for x in code {
        places.push(x.pc)?;
    }
    Ok(places)
}

fn frames_in(
    alloc: Global,
    b: &Body,
    code: &Places,
    types: Items<VType>,
) -> Result<Option<Items<Frame>>, NoMemory>
    requires { code.now ≡ places b.now.code }
    ensures { IfOk result (λ o. o ≡ frames_from b.now 0 types b.now.frames) }
{
    let mut frames = Items::new(alloc);
    let mut least = 0;
    let mut locals = types;
    for entry in b.frames.as_slice() {
        let Some(next) = read_entry(alloc, b, code, least, locals, entry)? else {
            return Ok(None);
        };
        let NextFrame {
            frame,
            locals: after,
        } = next;
        least = u64::from(frame.pc) + 1;
        locals = after;
        frames.push(frame)?;
    }
    Ok(Some(frames))
}

#[tactic(auto, unfolding(crate::specs::Given::body_frames))]
fn body_frames(
    alloc: Global,
    b: &Body,
    types: Items<VType>,
) -> Result<Option<Items<Frame>>, NoMemory>
    ensures { IfOk result (λ o. o ≡ body_frames b.now types) }
{
    if b.malformed {
        return Ok(None);
    }
    let code = Places::new(
        alloc,
        b.length as usize,
        code_places(alloc, b.code.as_slice())?,
    )?;
    frames_in(alloc, b, &code, types)
}

/// The frames that a method's stack map gives; `None` where it is malformed. A method without code has none.
#[tactic(auto, unfolding(crate::specs::Given::given_frames))]
pub fn given_frames(
    alloc: Global,
    p: &Program,
    m: &MethodRec,
) -> Result<Option<Items<Frame>>, NoMemory>
    ensures { IfOk result (λ o. o ≡ given_frames p.now m.now) }
{
    match &m.body {
        None => Ok(Some(Items::new(alloc))),
        Some(b) => body_frames(alloc, b, entry_types(alloc, p, m)?),
    }
}

/// The frames that the stack map of a method gives, by the method's number (JVMS 4.7.4 and 4.10.1.5). The error `Rule8`
/// comes exactly where the map is malformed: a frame tag 128 to 246, a type tag above 8, a float or double, an offset
/// at no instruction, a chop or an append past the locals.
#[tactic(auto, unfolding(crate::specs::Given::given_frames))]
pub fn read_frames(alloc: Global, p: &Program, method: u32) -> Result<Items<Frame>, FrameFault>
    ensures read { IfOk result (λ gs.
        given_frames p.now (classes.method_at p.now method) ≡ Some gs) }
    ensures malformed { IfErr result (λ e.
        (pc : ℕ) → e ≡ faults.Rule8 pc →
        (pc ≡ 0) × (given_frames p.now (classes.method_at p.now method) ≡ None)) }
{
    let Some(m) = p.method(method) else {
        return Ok(Items::new(alloc));
    };
    match given_frames(alloc, p, m)? {
        None => Err(FrameFault::Rule8 { pc: 0 }),
        Some(frames) => Ok(frames),
    }
}
