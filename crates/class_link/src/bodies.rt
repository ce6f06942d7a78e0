//! The code of a method, its references resolved (JVMS 4.7.3 and 4.7.4).

ghost use Rattle.std.specs.Prelude.{◌≡◌, ◌++◌, [], get_or, map, option_map, IfOk, OnOk};
ghost use Rattle.code_forms.specs.Operands as operands;
ghost use Rattle.class_link.specs.Bodies as bodies;
ghost use Rattle.class_link.specs.Assembly.{bodies_of};

use crate::entries::name_at;
use crate::link_environment::LinkEnvironment;
use crate::names::ClassNames;
use crate::targets::{Targets, target_in};
use class_pool::Entry;
use class_reader::{ClassFile, CodePart, MapFrame, MapPart, MapType, MemberPart, RawHandler};
use code_decode::RawOp;
use code_forms::{Target, form_of, index_in};
use et_base::{Items, NoMemory};
use jvm_model::{Body, FrameRec, Handler, Placed, TypeRec};
use std::alloc::Global;

fn placed(alloc: Global, targets: &[Option<Target>], op: &RawOp) -> Result<Placed, NoMemory>
    ensures { IfOk result (λ x. x ≡ bodies.placed_by (bodies.target_in targets.now (operands.index_in op.now)) op.now) }
{
    let form = form_of(alloc, target_in(targets, index_in(op)), op)?;
    Ok(Placed { pc: op.pc, form })
}

fn code_of(
    alloc: Global,
    targets: &[Option<Target>],
    ops: &[RawOp],
) -> Result<Items<Placed>, NoMemory>
    ensures { IfOk result (λ xs. xs ≡ map (λ o. bodies.placed_by (bodies.target_in targets.now (operands.index_in o)) o) ops.now) }
{
    let mut code = Items::new(alloc);
    for op in ops {
        code.push(placed(alloc, targets, op)?)?;
    }
    Ok(code)
}

fn caught(names: &ClassNames, slots: &[Option<Entry>], index: u16) -> Option<u32>
    ensures { result ≡ bodies.caught names.now slots.now index }
{
    if index == 0 {
        None
    } else {
        Some(names.number_or_first(name_at(slots, index)))
    }
}

fn handler_rec(names: &ClassNames, slots: &[Option<Entry>], handler: &RawHandler) -> Handler
    ensures { result ≡ bodies.handler_rec names.now slots.now handler.now }
{
    Handler {
        from: handler.from as u32,
        to: handler.to as u32,
        at: handler.at as u32,
        catches: caught(names, slots, handler.catch_class),
    }
}

fn handlers_of(
    alloc: Global,
    names: &ClassNames,
    slots: &[Option<Entry>],
    handlers: &[RawHandler],
) -> Result<Items<Handler>, NoMemory>
    ensures { IfOk result (λ xs. xs ≡ map (bodies.handler_rec names.now slots.now) handlers.now) }
{
    let mut rows = Items::new(alloc);
    for handler in handlers {
        rows.push(handler_rec(names, slots, handler))?;
    }
    Ok(rows)
}

fn type_rec(alloc: Global, slots: &[Option<Entry>], kind: &MapType) -> Result<TypeRec, NoMemory>
    ensures { IfOk result (λ x. x ≡ bodies.type_rec slots.now kind.now) }
{
    Ok(match kind.tag {
        7 => TypeRec::Object {
            name: Items::from_slice(alloc, name_at(slots, kind.arg))?,
        },
        8 => TypeRec::Uninit { pc: kind.arg },
        tag => TypeRec::Plain { tag },
    })
}

fn types_of(
    alloc: Global,
    slots: &[Option<Entry>],
    kinds: &[MapType],
) -> Result<Items<TypeRec>, NoMemory>
    ensures { IfOk result (λ xs. xs ≡ map (bodies.type_rec slots.now) kinds.now) }
{
    let mut types = Items::new(alloc);
    for kind in kinds {
        types.push(type_rec(alloc, slots, kind)?)?;
    }
    Ok(types)
}

fn frame_rec(alloc: Global, slots: &[Option<Entry>], frame: &MapFrame) -> Result<FrameRec, NoMemory>
    ensures { IfOk result (λ x. x ≡ bodies.frame_rec slots.now frame.now) }
{
    let locals = types_of(alloc, slots, frame.locals.as_slice())?;
    let stack = types_of(alloc, slots, frame.stack.as_slice())?;
    Ok(FrameRec {
        tag: frame.tag,
        delta: frame.delta,
        locals,
        stack,
    })
}

fn frames_of(
    alloc: Global,
    slots: &[Option<Entry>],
    frames: &[MapFrame],
) -> Result<Items<FrameRec>, NoMemory>
    ensures { IfOk result (λ xs. xs ≡ map (bodies.frame_rec slots.now) frames.now) }
{
    let mut rows = Items::new(alloc);
    for frame in frames {
        rows.push(frame_rec(alloc, slots, frame)?)?;
    }
    Ok(rows)
}

fn frame_recs(
    alloc: Global,
    slots: &[Option<Entry>],
    map: &Option<MapPart>,
) -> Result<Items<FrameRec>, NoMemory>
    ensures { IfOk result (λ xs. xs ≡ bodies.frame_recs slots.now map.now) }
{
    match map {
        None => Ok(Items::new(alloc)),
        Some(part) => frames_of(alloc, slots, part.frames.as_slice()),
    }
}

// An entry of the stack map was kept unread.
fn is_cut(map: &Option<MapPart>) -> bool
    ensures { result ≡ bodies.is_cut map.now }
{
    match map {
        None => false,
        Some(part) => part.frames.len() < part.count as usize,
    }
}

/// The body of a method of a class with these pool entries, which stand for these targets.
pub(crate) fn linked_body(
    alloc: Global,
    setting: &LinkEnvironment,
    slots: &[Option<Entry>],
    targets: &[Option<Target>],
    code: &CodePart,
) -> Result<Body, NoMemory>
    requires { targets.now ≡ bodies.targets setting.now slots.now }
    ensures { IfOk result (λ body. body ≡ bodies.linked_body setting.now slots.now code.now) }
{
    let placed = code_of(alloc, targets, code.code.ops.as_slice())?;
    let handlers = handlers_of(alloc, &setting.names, slots, code.handlers.as_slice())?;
    let frames = frame_recs(alloc, slots, &code.map)?;
    Ok(Body {
        max_stack: code.max_stack,
        max_locals: code.max_locals,
        length: code.code.length,
        code: placed,
        handlers,
        frames,
        malformed: is_cut(&code.map),
    })
}

fn method_body(
    alloc: Global,
    setting: &LinkEnvironment,
    slots: &[Option<Entry>],
    targets: &[Option<Target>],
    method: &MemberPart,
) -> Result<Option<Body>, NoMemory>
    requires { targets.now ≡ bodies.targets setting.now slots.now }
    ensures { IfOk result (λ body. body ≡ option_map (bodies.linked_body setting.now slots.now) method.now.code) }
{
    match &method.code {
        None => Ok(None),
        Some(code) => Ok(Some(linked_body(alloc, setting, slots, targets, code)?)),
    }
}

// Adds the bodies of methods of a class with these pool entries, which stand for these targets.
fn push_bodies(
    alloc: Global,
    setting: &LinkEnvironment,
    slots: &[Option<Entry>],
    targets: &[Option<Target>],
    methods: &[MemberPart],
    made: &mut Items<Option<Body>>,
) -> Result<(), NoMemory>
    requires { targets.now ≡ bodies.targets setting.now slots.now }
    ensures { OnOk result (made.new ≡ made.old ++ map (λ m. option_map (bodies.linked_body setting.now slots.now) m.code) methods.now) }
{
    for method in methods {
        made.push(method_body(alloc, setting, slots, targets, method)?)?;
    }
    Ok(())
}

// Adds the bodies of a class's methods.
fn push_class(
    alloc: Global,
    setting: &LinkEnvironment,
    targets: &[Option<Target>],
    class: &ClassFile,
    made: &mut Items<Option<Body>>,
) -> Result<(), NoMemory>
    requires { targets.now ≡ bodies.targets setting.now class.now.pool }
    ensures { OnOk result (made.new ≡ made.old ++ map (λ m. option_map (bodies.linked_body setting.now class.now.pool) m.code) class.now.methods) }
{
    let parts = class.parts();
    push_bodies(
        alloc,
        setting,
        parts.pool.slots(),
        targets,
        parts.methods.as_slice(),
        made,
    )
}

// The targets at a place; none where there is no such place.
fn targets_at(targets: &[Targets], place: usize) -> &[Option<Target>]
    ensures { result.now ≡ get_or targets.now place [] }
{
    match targets.get(place) {
        None => &[],
        Some(targets) => targets.as_slice(),
    }
}

/// The bodies of the methods of class files whose pool entries stand for these targets, in the methods' order.
pub(crate) fn bodies_of(
    alloc: Global,
    setting: &LinkEnvironment,
    targets: &[Targets],
    classes: &[ClassFile],
) -> Result<Items<Option<Body>>, NoMemory>
    requires { targets.now ≡ map (λ c. bodies.targets setting.now c.pool) classes.now }
    ensures { IfOk result (λ made. made ≡ bodies_of (λ c code. bodies.linked_body setting.now c.pool code) classes.now) }
{
    let mut made = Items::new(alloc);
    let mut place = 0;
    for class in classes {
        push_class(alloc, setting, targets_at(targets, place), class, &mut made)?;
        place += 1;
    }
    Ok(made)
}
