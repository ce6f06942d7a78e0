use et_base::{Items, NoMemory, Units};
use jvm_model::{ClassRec, MethodRec, Program};
use member_lookup::{find_field, find_method};
use std::alloc::Global;

// How many levels of interfaces there are; the paths up through them are 2^40.
const LEVELS: u32 = 40;

const NAME: [u16; 1] = [109];

const DESCRIPTOR: [u16; 3] = [40, 41, 86];

fn push_class(
    alloc: Global,
    classes: &mut Items<ClassRec>,
    interfaces: &[u32],
    methods: &[u32],
) -> Result<(), NoMemory> {
    let interfaces = Items::from_slice(alloc, interfaces)?;
    let methods = Items::from_slice(alloc, methods)?;
    classes.push(ClassRec {
        name: Units::new(alloc),
        version: 52,
        flags: 0x0601,
        superclass: None,
        interfaces,
        fields: Items::new(alloc),
        methods,
        initialiser: None,
        mentions: Items::new(alloc),
    })
}

fn method(alloc: Global, class: u32) -> Result<MethodRec, NoMemory> {
    let name = Units::from_slice(alloc, &NAME)?;
    let descriptor = Units::from_slice(alloc, &DESCRIPTOR)?;
    Ok(MethodRec {
        class,
        name,
        descriptor,
        flags: 0x0401,
        native: None,
        body: None,
    })
}

// One interface, then two on each level, both below both of the level before, and one below the last two. The second one
// declares a method.
fn push_interfaces(alloc: Global, classes: &mut Items<ClassRec>) -> Result<(), NoMemory> {
    push_class(alloc, classes, &[], &[])?;
    push_class(alloc, classes, &[], &[0])?;
    push_class(alloc, classes, &[], &[])?;
    for level in 1..LEVELS {
        let above = [2 * level - 1, 2 * level];
        push_class(alloc, classes, &above, &[])?;
        push_class(alloc, classes, &above, &[])?;
    }
    push_class(alloc, classes, &[2 * LEVELS - 1, 2 * LEVELS], &[])
}

fn diamonds(alloc: Global) -> Result<Program, NoMemory> {
    let method = method(alloc, 1)?;
    let mut methods = Items::new(alloc);
    methods.push(method)?;
    let mut classes = Items::new(alloc);
    push_interfaces(alloc, &mut classes)?;
    Ok(Program {
        classes,
        fields: Items::new(alloc),
        methods,
        literals: Items::new(alloc),
        tests: Items::new(alloc),
        files: Items::new(alloc),
    })
}

// Whether the last interface has the method, and no field of that name.
fn has_the_method(alloc: Global, program: &Program) -> Result<bool, NoMemory> {
    let last = 2 * LEVELS + 1;
    let method = find_method(alloc, program, last, &NAME, &DESCRIPTOR)?;
    let field = find_field(alloc, program, last, &NAME, &DESCRIPTOR)?;
    Ok(method == Some(0) && field.is_none())
}

fn ends_soon(alloc: Global) -> Result<bool, NoMemory> {
    let program = diamonds(alloc)?;
    has_the_method(alloc, &program)
}

#[test]
fn visits_each_interface_once(rt: HostRuntime) {
    assert!(rt; ends_soon(rt.alloc()).unwrap_or(false));
}
