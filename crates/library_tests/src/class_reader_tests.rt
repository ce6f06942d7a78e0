use class_reader::{ClassFault, ClassParts, read_class};
use std::alloc::Global;

// Class T with itself as an interface, an int field x with the constant 5, an int field U with another
// attribute, a method t whose code has a handler and a stack map of two entries, and an attribute of its own.
const PARTS: [u8; 211] = [
    202, 254, 186, 190, 0, 0, 0, 50, 0, 14, 1, 0, 1, 84, 7, 0, 1, 1, 0, 16, 106, 97, 118, 97, 47,
    108, 97, 110, 103, 47, 79, 98, 106, 101, 99, 116, 7, 0, 3, 1, 0, 1, 120, 1, 0, 1, 73, 1, 0, 13,
    67, 111, 110, 115, 116, 97, 110, 116, 86, 97, 108, 117, 101, 3, 0, 0, 0, 5, 1, 0, 1, 116, 1, 0,
    3, 40, 41, 86, 1, 0, 4, 67, 111, 100, 101, 1, 0, 13, 83, 116, 97, 99, 107, 77, 97, 112, 84, 97,
    98, 108, 101, 1, 0, 1, 85, 0, 33, 0, 2, 0, 4, 0, 1, 0, 2, 0, 2, 0, 9, 0, 5, 0, 6, 0, 1, 0, 7,
    0, 0, 0, 2, 0, 8, 0, 8, 0, 13, 0, 6, 0, 1, 0, 11, 0, 0, 0, 1, 9, 0, 1, 0, 9, 0, 9, 0, 10, 0, 1,
    0, 11, 0, 0, 0, 37, 0, 1, 0, 1, 0, 0, 0, 2, 0, 177, 0, 1, 0, 0, 0, 1, 0, 1, 0, 4, 0, 1, 0, 12,
    0, 0, 0, 9, 0, 2, 65, 7, 0, 4, 251, 0, 0, 0, 1, 0, 13, 0, 0, 0, 2, 0, 0,
];

// Each a byte of it and what that is set to.
const FAULTS: [(usize, u8, ClassFault); 4] = [
    (0, 1, ClassFault::BadMagic),
    (120, 3, ClassFault::BadDescriptor { at: 119 }),
    (136, 5, ClassFault::Repeated { at: 137 }),
    (177, 2, ClassFault::BadTarget { method: 1, pc: 2 }),
];

fn has_each_part(parts: &ClassParts) -> bool {
    parts.major == 50
        && parts.this_class == 2
        && parts.fields.len() == 2
        && parts.methods.len() == 1
}

fn is_read(alloc: Global) -> Result<bool, ClassFault> {
    let class = read_class(alloc, &PARTS)?;
    Ok(has_each_part(class.parts()))
}

#[test]
fn reads_each_part(rt: HostRuntime) {
    assert!(rt; is_read(rt.alloc()).unwrap_or(false));
}

// The fault of these bytes with one of them set to another value.
fn fault_with(alloc: Global, i: usize, value: u8) -> Option<ClassFault> {
    let mut bytes = PARTS;
    if i < 211 {
        bytes[i] = value;
    }
    read_class(alloc, &bytes).err()
}

#[test]
fn names_the_first_fault(rt: HostRuntime) {
    for (i, value, fault) in FAULTS {
        assert!(rt; fault_with(rt.alloc(), i, value) == Some(fault));
    }
}
