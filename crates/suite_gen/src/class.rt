//! The class file (JVMS 4.1).

ghost use Rattle.std.specs.Prelude.{◌≡◌, ◌++◌, ◌≤◌, OnOk, IfOk};
ghost use Rattle.class_write.specs.Spelling.{class_spelling};
ghost use Rattle.suite_gen.specs.Bytes as bytes;
ghost use Rattle.suite_gen.specs.Generated.{group_count, generated_class};

use crate::bytes::{push_name, push_short, push_twin};
use crate::code::push_code;
use et_base::{NoMemory, Text};
use std::alloc::Global;

/// The flags of a public static member.
const PUBLIC_STATIC: u64 = 9;

/// The pool index of the text Code.
const CODE: u64 = 5;

/// The pool index of an int's descriptor.
const INT: u64 = 6;

/// The pool index of the descriptor of a method that takes and returns nothing.
const NOTHING: u64 = 7;

/// The entries of the pool that each generated suite has: the class and its superclass, the texts Code, I and ()V, and the
/// method print of electric/Env.
const COMMON: &[u8] =
    b"\x01\0\x03Gen\x07\0\x01\x01\0\x10java/lang/Object\x07\0\x03\x01\0\x04Code\x01\0\x01I\x01\0\x03()V\x01\0\x0celectric/Env\x07\0\x08\x01\0\x05print\x01\0\x04(I)V\x0c\0\x0a\0\x0b\x0a\0\x09\0\x0c";

// How many groups of four so many tests begin.
fn groups_of(k: u64) -> u64
    requires { k ≤ 1024 }
    ensures { result ≡ group_count k }
{
    (k + 3) / 4
}

// Appends the entries of a group's field: its name, its name and type, and itself.
fn push_group(alloc: Global, out: &mut Text, group: u64) -> Result<(), NoMemory>
    requires { group ≤ 256 }
    ensures { OnOk result (out.new ≡ out.old ++ bytes.group_bytes group) }
{
    push_name(alloc, out, b'f', group)?;
    push_twin(out, 12, 14 + 3 * group, INT)?;
    push_twin(out, 9, 2, 15 + 3 * group)
}

fn push_groups(alloc: Global, out: &mut Text, groups: u64) -> Result<(), NoMemory>
    requires { groups ≤ 256 }
    ensures { OnOk result (out.new ≡ out.old ++ bytes.groups_bytes groups) }
{
    for group in 0..groups {
        push_group(alloc, out, group)?;
    }
    Ok(())
}

// Appends the tests' names.
fn push_tests(alloc: Global, out: &mut Text, k: u64) -> Result<(), NoMemory>
    ensures { OnOk result (out.new ≡ out.old ++ bytes.tests_bytes k) }
{
    for index in 0..k {
        push_name(alloc, out, b't', index + 1)?;
    }
    Ok(())
}

// Appends the constant pool.
fn push_pool(alloc: Global, out: &mut Text, k: u64) -> Result<(), NoMemory>
    requires { k ≤ 1024 }
    ensures { OnOk result (out.new ≡ out.old ++ bytes.pool_bytes k) }
{
    let groups = groups_of(k);
    push_short(out, 14 + 3 * groups + k)?;
    out.extend_from_slice(COMMON)?;
    push_groups(alloc, out, groups)?;
    push_tests(alloc, out, k)
}

// Appends the static of a group.
fn push_field(out: &mut Text, group: u64) -> Result<(), NoMemory>
    requires { group ≤ 256 }
    ensures { OnOk result (out.new ≡ out.old ++ bytes.field_bytes group) }
{
    push_short(out, PUBLIC_STATIC)?;
    push_short(out, 14 + 3 * group)?;
    push_short(out, INT)?;
    push_short(out, 0)
}

fn push_fields(out: &mut Text, groups: u64) -> Result<(), NoMemory>
    requires { groups ≤ 256 }
    ensures { OnOk result (out.new ≡ out.old ++ bytes.fields_bytes groups) }
{
    push_short(out, groups)?;
    for group in 0..groups {
        push_field(out, group)?;
    }
    Ok(())
}

// Appends the method of a test.
fn push_method(out: &mut Text, k: u64, test: u64) -> Result<(), NoMemory>
    requires { (1 ≤ test) × (test ≤ 1024) × (k ≤ 1024) }
    ensures { OnOk result (out.new ≡ out.old ++ bytes.method_bytes k test) }
{
    push_short(out, PUBLIC_STATIC)?;
    push_short(out, 13 + 3 * groups_of(k) + test)?;
    push_short(out, NOTHING)?;
    push_short(out, 1)?;
    push_short(out, CODE)?;
    push_code(out, test)
}

fn push_methods(out: &mut Text, k: u64) -> Result<(), NoMemory>
    requires { k ≤ 1024 }
    ensures { OnOk result (out.new ≡ out.old ++ bytes.methods_bytes k) }
{
    push_short(out, k)?;
    for index in 0..k {
        push_method(out, k, index + 1)?;
    }
    Ok(())
}

// The bytes in their order.
#[tactic(auto, unfolding(crate::specs::Bytes::written_class))]
fn written(alloc: Global, k: u64) -> Result<Text, NoMemory>
    requires { k ≤ 1024 }
    ensures { IfOk result (λ class. class ≡ bytes.written_class k) }
{
    let mut out = Text::new(alloc);
    out.extend_from_slice(&[0xCA, 0xFE, 0xBA, 0xBE, 0, 0, 0, 52])?;
    push_pool(alloc, &mut out, k)?;
    // Public, itself, its superclass, and no interfaces.
    out.extend_from_slice(&[0, 33, 0, 2, 0, 4, 0, 0])?;
    push_fields(&mut out, groups_of(k))?;
    push_methods(&mut out, k)?;
    push_short(&mut out, 0)?;
    Ok(out)
}

/// The bytes of the generated class of k tests.
#[tactic(auto, using(crate::proofs::Spelled::spelled))]
pub fn class_bytes(alloc: Global, k: u64) -> Result<Text, NoMemory>
    requires { k ≤ 1024 }
    ensures { IfOk result (λ class. class ≡ class_spelling (generated_class k)) }
{
    written(alloc, k)
}
