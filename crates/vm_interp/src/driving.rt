//! The driver: what a test calls, in order.

ghost use Rattle.std.specs.Prelude.{◌≡◌};
ghost use Rattle.jvm_model.specs.Entries.{no_entries};
ghost use Rattle.vm_interp.specs.Turns.{IsFit, MakesPart};
ghost use Rattle.vm_interp.specs.Driving.{call_part, make_part, static_part, object_part, first_part, init_part, method_part, set_up_part, tear_down_part, drive_part};

use crate::judging::judge;
use crate::lookup::{plain_method_in, plain_method_of};
use crate::raising::throw_new;
use crate::state::{State, test_entry};
use crate::step_outcome::StepOutcome;
use class_init::{Use, begin_use};
use et_base::NoMemory;
use jvm_model::{ABSTRACT_METHOD_ERROR, Head, Kind, Stage, Value};
use std::alloc::Global;
use vm_frames::PushFault;
use vm_mem::Memory;
use vm_tables::Tables;

/// Calls a method with a receiver or with no argument, as one without a caller; this stage comes after it. It counts 1
/// and the cost of its frame. Over, with nothing done, where fewer units are left. One without code throws
/// AbstractMethodError.
#[tactic(auto, unfolding(jvm_model::specs::Driver::drives))]
fn call_method<M: Memory>(
    state: &mut State,
    memory: &mut M,
    tables: &Tables,
    method: u32,
    receiver: Option<Value>,
    after: Stage,
    left: &mut u64,
) -> Result<StepOutcome, NoMemory>
    requires tables { tables.now ≡ M.program memory.old }
    requires empty { state.old.frames ≡ no_entries }
    ensures made { MakesPart (call_part method receiver after) M.program M.world M.follows
        memory.old memory.new state.old left.old result state.new left.new }
{
    let Some(record) = tables.program().method(method) else {
        state.stage = after;
        return throw_new(state, memory, ABSTRACT_METHOD_ERROR, left);
    };
    let Some(body) = &record.body else {
        state.stage = after;
        return throw_new(state, memory, ABSTRACT_METHOD_ERROR, left);
    };
    let cost = u64::from(body.max_stack) + u64::from(body.max_locals) + 1;
    if *left < cost {
        return Ok(StepOutcome::OutOfBudget);
    }
    match state.frames.push(method, body.max_locals, receiver) {
        Ok(()) => {}
        Err(PushFault::Deep) => unreachable!(),
        Err(PushFault::NoMemory) => return Err(NoMemory {}),
    }
    state.stage = after;
    *left -= cost;
    Ok(StepOutcome::Running)
}

/// Makes an object of the test's class, as `new` does. It counts 2 and 1 for each cell. Over, with nothing made, where
/// fewer units are left.
fn make_object<M: Memory>(
    state: &mut State,
    memory: &mut M,
    tables: &Tables,
    class: u32,
    left: &mut u64,
) -> Result<StepOutcome, NoMemory>
    requires tables { tables.now ≡ M.program memory.old }
    ensures made { MakesPart (make_part class) M.program M.world M.follows
        memory.old memory.new state.old left.old result state.new left.new }
{
    let cells = tables.cells(class) as u64;
    if *left < 2 || *left - 2 < cells {
        return Ok(StepOutcome::OutOfBudget);
    }
    let object = memory.make(Head {
        kind: Kind::Class(class),
        length: 0,
    })?;
    *left -= 2;
    *left -= cells;
    state.stage = Stage::Made { object };
    Ok(StepOutcome::Running)
}

/// Calls a static method alone, once its class may be used (JVMS 5.5).
fn first_static<M: Memory>(
    state: &mut State,
    memory: &mut M,
    tables: &Tables,
    class: u32,
    method: u32,
    left: &mut u64,
) -> Result<StepOutcome, NoMemory>
    requires empty { state.old.frames ≡ no_entries }
    requires fit { IsFit (static_part class method)
        tables.now M.program M.world memory.old state.old }
    ensures made { MakesPart (static_part class method) M.program M.world M.follows
        memory.old memory.new state.old left.old result state.new left.new }
{
    match begin_use(&mut state.frames, memory, tables, class, left)? {
        Use::Ready => {
            let after = Stage::Last { thrown: None };
            call_method(state, memory, tables, method, None, after, left)
        }
        Use::Begun => {
            state.raised = None;
            Ok(StepOutcome::Running)
        }
        Use::Fault { class } => throw_new(state, memory, class, left),
        Use::Over => Ok(StepOutcome::OutOfBudget),
    }
}

/// Makes an object of the test's class, once it may be used (JVMS 5.5).
fn first_object<M: Memory>(
    state: &mut State,
    memory: &mut M,
    tables: &Tables,
    class: u32,
    left: &mut u64,
) -> Result<StepOutcome, NoMemory>
    requires fit { IsFit (object_part class) tables.now M.program M.world memory.old state.old }
    ensures made { MakesPart (object_part class) M.program M.world M.follows
        memory.old memory.new state.old left.old result state.new left.new }
{
    match begin_use(&mut state.frames, memory, tables, class, left)? {
        Use::Ready => make_object(state, memory, tables, class, left),
        Use::Begun => {
            state.raised = None;
            Ok(StepOutcome::Running)
        }
        Use::Fault { class } => throw_new(state, memory, class, left),
        Use::Over => Ok(StepOutcome::OutOfBudget),
    }
}

/// The first step: a static method is called alone, else the object is made.
#[tactic(auto, unfolding(jvm_model::specs::Driver::drive_first))]
fn drive_first<M: Memory>(
    state: &mut State,
    memory: &mut M,
    tables: &Tables,
    left: &mut u64,
) -> Result<StepOutcome, NoMemory>
    requires empty { state.old.frames ≡ no_entries }
    requires fit { IsFit first_part tables.now M.program M.world memory.old state.old }
    ensures made { MakesPart first_part M.program M.world M.follows
        memory.old memory.new state.old left.old result state.new left.new }
{
    let p = tables.program();
    let test = test_entry(p, state.test);
    if p.is_static_method(test.method) {
        let class = p.method_class(test.method);
        first_static(state, memory, tables, class, test.method, left)
    } else {
        first_object(state, memory, tables, test.class, left)
    }
}

/// Calls the `<init>` without arguments that the test's class declares.
#[tactic(auto, unfolding(jvm_model::specs::Driver::drive_init))]
fn drive_init<M: Memory>(
    state: &mut State,
    memory: &mut M,
    tables: &Tables,
    object: u64,
    left: &mut u64,
) -> Result<StepOutcome, NoMemory>
    requires empty { state.old.frames ≡ no_entries }
    requires fit { IsFit (init_part object) tables.now M.program M.world memory.old state.old }
    ensures made { MakesPart (init_part object) M.program M.world M.follows
        memory.old memory.new state.old left.old result state.new left.new }
{
    let p = tables.program();
    let class = test_entry(p, state.test).class;
    match plain_method_in(p, b"<init>", p.class_methods(class)) {
        None => unreachable!(),
        Some(method) => {
            let after = Stage::Built { object };
            call_method(
                state,
                memory,
                tables,
                method,
                Some(Value::Obj(object)),
                after,
                left,
            )
        }
    }
}

/// Calls the test's method.
#[tactic(auto, unfolding(jvm_model::specs::Driver::drive_method))]
fn drive_method<M: Memory>(
    state: &mut State,
    memory: &mut M,
    tables: &Tables,
    object: u64,
    left: &mut u64,
) -> Result<StepOutcome, NoMemory>
    requires tables { tables.now ≡ M.program memory.old }
    requires empty { state.old.frames ≡ no_entries }
    ensures made { MakesPart (method_part object) M.program M.world M.follows
        memory.old memory.new state.old left.old result state.new left.new }
{
    let method = test_entry(tables.program(), state.test).method;
    let after = Stage::Called {
        object,
        thrown: None,
    };
    call_method(
        state,
        memory,
        tables,
        method,
        Some(Value::Obj(object)),
        after,
        left,
    )
}

/// Calls `setUp`, or the test's method where there is none.
#[tactic(auto, unfolding(jvm_model::specs::Driver::drive_set_up))]
fn drive_set_up<M: Memory>(
    state: &mut State,
    memory: &mut M,
    tables: &Tables,
    object: u64,
    left: &mut u64,
) -> Result<StepOutcome, NoMemory>
    requires tables { tables.now ≡ M.program memory.old }
    requires empty { state.old.frames ≡ no_entries }
    ensures made { MakesPart (set_up_part object) M.program M.world M.follows
        memory.old memory.new state.old left.old result state.new left.new }
{
    let p = tables.program();
    let class = test_entry(p, state.test).class;
    match plain_method_of(p, b"setUp", class) {
        None => drive_method(state, memory, tables, object, left),
        Some(method) => {
            let after = Stage::SetUp { object };
            call_method(
                state,
                memory,
                tables,
                method,
                Some(Value::Obj(object)),
                after,
                left,
            )
        }
    }
}

/// Calls `tearDown`, or judges the test where there is none.
#[tactic(auto, unfolding(jvm_model::specs::Driver::drive_tear_down))]
fn drive_tear_down<M: Memory>(
    alloc: Global,
    state: &mut State,
    memory: &mut M,
    tables: &Tables,
    object: u64,
    thrown: Option<Value>,
    left: &mut u64,
) -> Result<StepOutcome, NoMemory>
    requires empty { state.old.frames ≡ no_entries }
    requires fit { IsFit (tear_down_part object thrown)
        tables.now M.program M.world memory.old state.old }
    ensures made { MakesPart (tear_down_part object thrown) M.program M.world M.follows
        memory.old memory.new state.old left.old result state.new left.new }
{
    let p = tables.program();
    let class = test_entry(p, state.test).class;
    match plain_method_of(p, b"tearDown", class) {
        None => judge(alloc, state, memory, tables, thrown, left),
        Some(method) => {
            let after = Stage::Last { thrown };
            call_method(
                state,
                memory,
                tables,
                method,
                Some(Value::Obj(object)),
                after,
                left,
            )
        }
    }
}

/// Makes a step of the driver, where no entry is left: a static method is called alone; else the object is made, and then
/// its `<init>`, `setUp` where there is one, the method, and `tearDown` where there is one are called in order. At the end
/// the test is judged by the first throwable that came out. It counts 1 and what the step's part does.
#[tactic(auto, unfolding(jvm_model::specs::Driver::drive))]
pub fn drive<M: Memory>(
    alloc: Global,
    state: &mut State,
    memory: &mut M,
    tables: &Tables,
    left: &mut u64,
) -> Result<StepOutcome, NoMemory>
    requires empty { state.old.frames ≡ no_entries }
    requires fit { IsFit drive_part tables.now M.program M.world memory.old state.old }
    ensures made { MakesPart drive_part M.program M.world M.follows
        memory.old memory.new state.old left.old result state.new left.new }
{
    match state.stage {
        Stage::First => drive_first(state, memory, tables, left),
        Stage::Made { object } => drive_init(state, memory, tables, object, left),
        Stage::Built { object } => drive_set_up(state, memory, tables, object, left),
        Stage::SetUp { object } => drive_method(state, memory, tables, object, left),
        Stage::Called { object, thrown } => {
            drive_tear_down(alloc, state, memory, tables, object, thrown, left)
        }
        Stage::Last { thrown } => judge(alloc, state, memory, tables, thrown, left),
    }
}
