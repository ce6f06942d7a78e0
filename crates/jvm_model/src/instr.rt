//! The forms of instructions over the opcodes of JVMS chapter 6 that this project serves.

use crate::values::{Kind, Value};
use et_base::Items;

/// The three sorts of values of loads, stores and returns.
#[derive(Clone, Copy, PartialEq, Eq)]
pub enum Sort {
    Int,
    Long,
    Ref,
}

/// The sorts of array cells; `Byte` serves boolean arrays too (JVMS 2.11.1).
#[derive(Clone, Copy, PartialEq, Eq)]
pub enum Cell {
    Int,
    Long,
    Ref,
    Byte,
    Char,
    Short,
}

/// The two-operand forms of whole-number arithmetic, shifts and logic.
#[derive(Clone, Copy, PartialEq, Eq)]
pub enum Op {
    Add,
    Sub,
    Mul,
    Div,
    Rem,
    Shl,
    Shr,
    Ushr,
    And,
    Or,
    Xor,
}

/// The conversions.
#[derive(Clone, Copy, PartialEq, Eq)]
pub enum Conv {
    I2l,
    L2i,
    I2b,
    I2c,
    I2s,
}

/// The tests of conditional branches.
#[derive(Clone, Copy, PartialEq, Eq)]
pub enum IfTest {
    Eq,
    Ne,
    Lt,
    Ge,
    Gt,
    Le,
}

/// One instruction with its operands resolved. Targets are byte places in the code; classes, fields and methods are
/// the numbers of the program. `wide` says that the form works on longs.
#[derive(Drop)]
pub enum Instr {
    Nop,
    Const(Value),
    Load {
        of: Sort,
        local: u16,
    },
    Store {
        of: Sort,
        local: u16,
    },
    ArrayLoad {
        of: Cell,
    },
    ArrayStore {
        of: Cell,
    },
    Pop,
    Pop2,
    Dup,
    DupX1,
    DupX2,
    Dup2,
    Dup2X1,
    Dup2X2,
    Swap,
    Binary {
        op: Op,
        wide: bool,
    },
    Neg {
        wide: bool,
    },
    Inc {
        local: u16,
        by: i32,
    },
    Convert {
        to: Conv,
    },
    Compare,
    IfZero {
        test: IfTest,
        to: u32,
    },
    IfInts {
        test: IfTest,
        to: u32,
    },
    IfRefs {
        same: bool,
        to: u32,
    },
    IfNull {
        null: bool,
        to: u32,
    },
    Goto {
        to: u32,
    },
    Table {
        low: i32,
        targets: Items<u32>,
        other: u32,
    },
    Lookup {
        pairs: Items<(i32, u32)>,
        other: u32,
    },
    Return {
        of: Option<Sort>,
    },
    GetStatic {
        field: u32,
    },
    PutStatic {
        field: u32,
    },
    GetField {
        named: u32,
        field: u32,
    },
    PutField {
        named: u32,
        field: u32,
    },
    InvokeVirtual {
        named: Kind,
        method: u32,
    },
    InvokeSpecial {
        named: Kind,
        method: u32,
    },
    InvokeStatic {
        method: u32,
    },
    InvokeInterface {
        named: u32,
        method: u32,
    },
    New {
        class: u32,
    },
    NewArray {
        kind: Kind,
    },
    MultiNewArray {
        kind: Kind,
        dims: u8,
    },
    ArrayLength,
    Throw,
    CheckCast {
        kind: Kind,
    },
    InstanceOf {
        kind: Kind,
    },
    Monitor,
}
