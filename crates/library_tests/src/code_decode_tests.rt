use class_pool::{Pool, pool_at};
use code_decode::{Code, CodeFault, code_at, decode};
use std::alloc::Global;

// 2 class A, 4 class [[I, 6 class [F, 7 an int, 8 a long, 12 an interface's method (IJ)V, 13 a class's,
// 16 an int field, 17 a method of [F, 18 a float.
const POOL: [u8; 87] = [
    0, 19, 1, 0, 1, 65, 7, 0, 1, 1, 0, 3, 91, 91, 73, 7, 0, 3, 1, 0, 2, 91, 70, 7, 0, 5, 3, 0, 0,
    0, 1, 5, 0, 0, 0, 0, 0, 0, 0, 1, 1, 0, 5, 40, 73, 74, 41, 86, 12, 0, 1, 0, 10, 11, 0, 2, 0, 11,
    10, 0, 2, 0, 11, 1, 0, 1, 73, 12, 0, 1, 0, 14, 9, 0, 2, 0, 15, 10, 0, 6, 0, 11, 4, 63, 128, 0,
    0,
];

fn decoded(alloc: Global, code: &[u8], pool: &Pool) -> Result<Code, CodeFault> {
    if code.is_empty() || code.len() > 65535 {
        return Err(CodeFault::NoMemory);
    }
    decode(alloc, code, pool)
}

// Each with the operands of its last instruction.
const FORMS: [(&[u8], &[i32]); 5] = [
    (&[132, 200, 255], &[200, -1]),
    (&[0, 167, 255, 255], &[0]),
    (&[185, 0, 12, 4, 0], &[12, 4]),
    (
        &[
            0, 170, 9, 9, 255, 255, 255, 255, 0, 0, 0, 5, 0, 0, 0, 6, 255, 255, 255, 255, 0, 0, 0,
            0,
        ],
        &[0, 5, 6, 0, 1],
    ),
    (
        &[
            171, 0, 0, 0, 0, 0, 0, 0, 0, 0, 0, 2, 255, 255, 255, 255, 0, 0, 0, 0, 0, 0, 0, 7, 0, 0,
            0, 0,
        ],
        &[0, -1, 0, 7, 0],
    ),
];

const FAULTS: [(&[u8], CodeFault); 4] = [
    (&[0, 16], CodeFault::CutCode { pc: 1 }),
    (&[188, 6], CodeFault::Unsupported { pc: 0, opcode: 188 }),
    (&[185, 0, 12, 3, 0], CodeFault::BadOperand { pc: 0 }),
    (&[0, 167, 0, 1], CodeFault::BadTarget { pc: 1 }),
];

fn ends_with(code: &Code, args: &[i32]) -> bool {
    match code.ops.as_slice().last() {
        Some(op) => op.args.as_slice() == args,
        None => false,
    }
}

// Whether these bytes are decoded, and the last instruction has these operands.
fn has_operands(alloc: Global, bytes: &[u8], pool: &Pool, args: &[i32]) -> bool {
    match decoded(alloc, bytes, pool) {
        Ok(code) => ends_with(&code, args),
        Err(_) => false,
    }
}

#[test]
fn takes_each_form(rt: HostRuntime) {
    let (pool, _rest) = pool_at(rt.alloc(), &POOL).expect(&rt, "a pool");
    for (bytes, args) in FORMS {
        assert!(rt; has_operands(rt.alloc(), bytes, &pool, args));
    }
}

#[test]
fn names_the_first_fault(rt: HostRuntime) {
    let (pool, _rest) = pool_at(rt.alloc(), &POOL).expect(&rt, "a pool");
    for (bytes, fault) in FAULTS {
        assert!(rt; decoded(rt.alloc(), bytes, &pool).err() == Some(fault));
    }
}

fn begins_at_one(alloc: Global, pool: &Pool) -> bool {
    match code_at(alloc, 1, pool, &[0, 16, 1, 177]) {
        Ok((code, starts)) => code.length == 4 && starts.is_start(1) && !starts.is_start(2),
        Err(_) => false,
    }
}

#[test]
fn tells_where_instructions_begin(rt: HostRuntime) {
    let (pool, _rest) = pool_at(rt.alloc(), &POOL).expect(&rt, "a pool");
    assert!(rt; begins_at_one(rt.alloc(), &pool));
}
