//! The form of each instruction, its references resolved (JVMS 6.5).

ghost use Rattle.std.specs.Prelude.{◌≡◌, ◌++◌, drop, IfOk, OnOk};
ghost use Rattle.code_forms.specs.Forms as forms;

use crate::operands::{number_in, operand};
use crate::references::{Target, named_class};
use code_decode::RawOp;
use et_base::{Items, NoMemory};
use jvm_model::{Base, Cell, Conv, IfTest, Instr, Kind, Op, Sort, Value};
use std::alloc::Global;

fn local_in(op: &RawOp) -> u16
    ensures { result ≡ forms.local_in op.now }
{
    (number_in(op, 0) % 65536) as u16
}

fn constant_form(target: Option<Target>) -> Instr
    ensures { result ≡ forms.constant_form target }
{
    match target {
        Some(Target::Constant(value)) => Instr::Const(value),
        _ => Instr::Nop,
    }
}

// 0 to 20: constants.
#[tactic(auto, unfolding(crate::specs::Forms::constants))]
fn constants(target: Option<Target>, op: &RawOp) -> Instr
    ensures { result ≡ forms.constants target op.now }
{
    match op.opcode {
        1 => Instr::Const(Value::Null),
        2..=8 => Instr::Const(Value::Int(op.opcode as i32 - 3)),
        9 | 10 => Instr::Const(Value::Long(op.opcode as i64 - 9)),
        16 | 17 => Instr::Const(Value::Int(operand(op, 0))),
        18..=20 => constant_form(target),
        _ => Instr::Nop,
    }
}

fn load(of: Sort, local: u16) -> Instr
    ensures { result ≡ forms.load of local }
{
    Instr::Load { of, local }
}

fn store(of: Sort, local: u16) -> Instr
    ensures { result ≡ forms.store of local }
{
    Instr::Store { of, local }
}

// 21 to 53: loads of locals and of array cells.
#[tactic(auto, unfolding(crate::specs::Forms::loads))]
fn loads(op: &RawOp) -> Instr
    ensures { result ≡ forms.loads op.now }
{
    match op.opcode {
        21 => load(Sort::Int, local_in(op)),
        22 => load(Sort::Long, local_in(op)),
        25 => load(Sort::Ref, local_in(op)),
        26..=29 => load(Sort::Int, (op.opcode - 26) as u16),
        30..=33 => load(Sort::Long, (op.opcode - 30) as u16),
        42..=45 => load(Sort::Ref, (op.opcode - 42) as u16),
        46 => Instr::ArrayLoad { of: Cell::Int },
        47 => Instr::ArrayLoad { of: Cell::Long },
        50 => Instr::ArrayLoad { of: Cell::Ref },
        51 => Instr::ArrayLoad { of: Cell::Byte },
        52 => Instr::ArrayLoad { of: Cell::Char },
        53 => Instr::ArrayLoad { of: Cell::Short },
        _ => Instr::Nop,
    }
}

// 54 to 86: stores to locals and to array cells.
#[tactic(auto, unfolding(crate::specs::Forms::stores))]
fn stores(op: &RawOp) -> Instr
    ensures { result ≡ forms.stores op.now }
{
    match op.opcode {
        54 => store(Sort::Int, local_in(op)),
        55 => store(Sort::Long, local_in(op)),
        58 => store(Sort::Ref, local_in(op)),
        59..=62 => store(Sort::Int, (op.opcode - 59) as u16),
        63..=66 => store(Sort::Long, (op.opcode - 63) as u16),
        75..=78 => store(Sort::Ref, (op.opcode - 75) as u16),
        79 => Instr::ArrayStore { of: Cell::Int },
        80 => Instr::ArrayStore { of: Cell::Long },
        83 => Instr::ArrayStore { of: Cell::Ref },
        84 => Instr::ArrayStore { of: Cell::Byte },
        85 => Instr::ArrayStore { of: Cell::Char },
        86 => Instr::ArrayStore { of: Cell::Short },
        _ => Instr::Nop,
    }
}

// 87 to 95: stack moves.
#[tactic(auto, unfolding(crate::specs::Forms::moves))]
fn moves(opcode: u8) -> Instr
    ensures { result ≡ forms.moves opcode }
{
    match opcode {
        87 => Instr::Pop,
        88 => Instr::Pop2,
        89 => Instr::Dup,
        90 => Instr::DupX1,
        91 => Instr::DupX2,
        92 => Instr::Dup2,
        93 => Instr::Dup2X1,
        94 => Instr::Dup2X2,
        95 => Instr::Swap,
        _ => Instr::Nop,
    }
}

fn is_wide(opcode: u8) -> bool
    ensures { result ≡ forms.is_wide opcode }
{
    opcode % 2 == 1
}

fn binary(op: Op, opcode: u8) -> Instr
    ensures { result ≡ forms.binary op opcode }
{
    Instr::Binary {
        op,
        wide: is_wide(opcode),
    }
}

// 96 to 132: arithmetic, shifts, logic and iinc.
#[tactic(auto, unfolding(crate::specs::Forms::numbers))]
fn numbers(op: &RawOp) -> Instr
    ensures { result ≡ forms.numbers op.now }
{
    let opcode = op.opcode;
    match opcode {
        96 | 97 => binary(Op::Add, opcode),
        100 | 101 => binary(Op::Sub, opcode),
        104 | 105 => binary(Op::Mul, opcode),
        108 | 109 => binary(Op::Div, opcode),
        112 | 113 => binary(Op::Rem, opcode),
        116 | 117 => Instr::Neg {
            wide: is_wide(opcode),
        },
        120 | 121 => binary(Op::Shl, opcode),
        122 | 123 => binary(Op::Shr, opcode),
        124 | 125 => binary(Op::Ushr, opcode),
        126 | 127 => binary(Op::And, opcode),
        128 | 129 => binary(Op::Or, opcode),
        130 | 131 => binary(Op::Xor, opcode),
        132 => Instr::Inc {
            local: local_in(op),
            by: operand(op, 1),
        },
        _ => Instr::Nop,
    }
}

// 133 to 148: conversions and lcmp.
#[tactic(auto, unfolding(crate::specs::Forms::conversions))]
fn conversions(opcode: u8) -> Instr
    ensures { result ≡ forms.conversions opcode }
{
    match opcode {
        133 => Instr::Convert { to: Conv::I2l },
        136 => Instr::Convert { to: Conv::L2i },
        145 => Instr::Convert { to: Conv::I2b },
        146 => Instr::Convert { to: Conv::I2c },
        147 => Instr::Convert { to: Conv::I2s },
        148 => Instr::Compare,
        _ => Instr::Nop,
    }
}

// The tests in the order of their opcodes.
#[tactic(auto, unfolding(crate::specs::Forms::test_of))]
fn test_of(number: u8) -> IfTest
    ensures { result ≡ forms.test_of number }
{
    match number {
        0 => IfTest::Eq,
        1 => IfTest::Ne,
        2 => IfTest::Lt,
        3 => IfTest::Ge,
        4 => IfTest::Gt,
        _ => IfTest::Le,
    }
}

fn places(alloc: Global, args: &[i32]) -> Result<Items<u32>, NoMemory>
    ensures { IfOk result (λ places. places ≡ forms.places args.now) }
{
    let mut places = Items::new(alloc);
    for arg in args {
        places.push(arg.cast_unsigned())?;
    }
    Ok(places)
}

// Adds the keys and places that stand in turn.
fn push_pairs(pairs: &mut Items<(i32, u32)>, args: &[i32]) -> Result<(), NoMemory>
    ensures { OnOk result (pairs.new ≡ pairs.old ++ forms.pairs args.now) }
{
    let mut rest = args;
    while let Some((key, behind)) = rest.split_first() {
        let Some((to, others)) = behind.split_first() else {
            break;
        };
        pairs.push((*key, to.cast_unsigned()))?;
        rest = others;
    }
    Ok(())
}

// The operands behind so many.
fn behind(args: &[i32], count: usize) -> &[i32]
    ensures { result.now ≡ drop count args.now }
{
    args.get(count..).unwrap_or(&[])
}

fn table(alloc: Global, op: &RawOp) -> Result<Instr, NoMemory>
    ensures { IfOk result (λ form. form ≡ forms.table op.now) }
{
    let targets = places(alloc, behind(op.args.as_slice(), 3))?;
    Ok(Instr::Table {
        low: operand(op, 1),
        targets,
        other: number_in(op, 0),
    })
}

fn look_up(alloc: Global, op: &RawOp) -> Result<Instr, NoMemory>
    ensures { IfOk result (λ form. form ≡ forms.look_up op.now) }
{
    let mut pairs = Items::new(alloc);
    push_pairs(&mut pairs, behind(op.args.as_slice(), 1))?;
    Ok(Instr::Lookup {
        pairs,
        other: number_in(op, 0),
    })
}

// 153 to 177: branches, switches and returns.
#[tactic(auto, unfolding(crate::specs::Forms::branches))]
fn branches(alloc: Global, op: &RawOp) -> Result<Instr, NoMemory>
    ensures { IfOk result (λ form. form ≡ forms.branches op.now) }
{
    let to = number_in(op, 0);
    Ok(match op.opcode {
        153..=158 => Instr::IfZero {
            test: test_of(op.opcode - 153),
            to,
        },
        159..=164 => Instr::IfInts {
            test: test_of(op.opcode - 159),
            to,
        },
        165 | 166 => Instr::IfRefs {
            same: op.opcode == 165,
            to,
        },
        167 => Instr::Goto { to },
        170 => table(alloc, op)?,
        171 => look_up(alloc, op)?,
        172 => Instr::Return {
            of: Some(Sort::Int),
        },
        173 => Instr::Return {
            of: Some(Sort::Long),
        },
        176 => Instr::Return {
            of: Some(Sort::Ref),
        },
        177 => Instr::Return { of: None },
        _ => Instr::Nop,
    })
}

fn field_form(opcode: u8, named: u32, field: u32) -> Instr
    ensures { result ≡ forms.field_form opcode named field }
{
    match opcode {
        178 => Instr::GetStatic { field },
        179 => Instr::PutStatic { field },
        180 => Instr::GetField { named, field },
        _ => Instr::PutField { named, field },
    }
}

fn method_form(opcode: u8, named: Kind, method: u32) -> Instr
    ensures { result ≡ forms.method_form opcode named method }
{
    match opcode {
        182 => Instr::InvokeVirtual { named, method },
        183 => Instr::InvokeSpecial { named, method },
        184 => Instr::InvokeStatic { method },
        _ => Instr::InvokeInterface {
            named: named_class(named),
            method,
        },
    }
}

// 178 to 185: fields and calls.
#[tactic(auto, unfolding(crate::specs::Forms::members))]
fn members(target: Option<Target>, opcode: u8) -> Instr
    ensures { result ≡ forms.members target opcode }
{
    match target {
        Some(Target::Field { named, field }) => field_form(opcode, named, field),
        Some(Target::Method { named, method }) => method_form(opcode, named, method),
        _ => Instr::Nop,
    }
}

// The array type of elements of a kind.
fn array_of(element: Kind) -> Kind
    ensures { result ≡ forms.array_of element }
{
    match element {
        Kind::Class(class) => Kind::Array {
            dims: 1,
            base: Base::Class(class),
        },
        Kind::Array { dims, base } => Kind::Array {
            dims: dims.saturating_add(1),
            base,
        },
    }
}

// The array type of a newarray (JVMS table 6.5.newarray-A).
fn number_array(number: u32) -> Kind
    ensures { result ≡ forms.number_array number }
{
    let base = match number {
        4 => Base::Boolean,
        5 => Base::Char,
        8 => Base::Byte,
        9 => Base::Short,
        10 => Base::Int,
        _ => Base::Long,
    };
    Kind::Array { dims: 1, base }
}

fn type_form(op: &RawOp, kind: Kind) -> Instr
    ensures { result ≡ forms.type_form op.now kind }
{
    match op.opcode {
        187 => Instr::New {
            class: named_class(kind),
        },
        189 => Instr::NewArray {
            kind: array_of(kind),
        },
        192 => Instr::CheckCast { kind },
        193 => Instr::InstanceOf { kind },
        _ => Instr::MultiNewArray {
            kind,
            dims: (number_in(op, 1) % 256) as u8,
        },
    }
}

// 187, 189, 192, 193 and 197: types.
#[tactic(auto, unfolding(crate::specs::Forms::types))]
fn types(target: Option<Target>, op: &RawOp) -> Instr
    ensures { result ≡ forms.types target op.now }
{
    match target {
        Some(Target::Type(kind)) => type_form(op, kind),
        _ => Instr::Nop,
    }
}

// 188 and above: newarray, arraylength, athrow, monitors, ifnull, ifnonnull and goto_w, and types.
#[tactic(auto, unfolding(crate::specs::Forms::others))]
fn others(target: Option<Target>, op: &RawOp) -> Instr
    ensures { result ≡ forms.others target op.now }
{
    match op.opcode {
        188 => Instr::NewArray {
            kind: number_array(number_in(op, 0)),
        },
        190 => Instr::ArrayLength,
        191 => Instr::Throw,
        194 | 195 => Instr::Monitor,
        198 | 199 => Instr::IfNull {
            null: op.opcode == 198,
            to: number_in(op, 0),
        },
        200 => Instr::Goto {
            to: number_in(op, 0),
        },
        _ => types(target, op),
    }
}

/// The form of an instruction whose pool entry, if it names one, stands for this target.
#[tactic(auto, unfolding(crate::specs::Forms::form_of))]
pub fn form_of(alloc: Global, target: Option<Target>, op: &RawOp) -> Result<Instr, NoMemory>
    ensures { IfOk result (λ form. form ≡ forms.form_of target op.now) }
{
    Ok(match op.opcode {
        0..=20 => constants(target, op),
        21..=53 => loads(op),
        54..=86 => stores(op),
        87..=95 => moves(op.opcode),
        96..=132 => numbers(op),
        133..=148 => conversions(op.opcode),
        149..=177 => branches(alloc, op)?,
        178..=185 => members(target, op.opcode),
        _ => others(target, op),
    })
}
