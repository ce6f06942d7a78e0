//! What may stand where a type is asked (JVMS 4.10.1.2).

ghost use Rattle.std.specs.Prelude.{◌≡◌, Some, None};
ghost use Rattle.jvm_model.specs.Classes as classes;
ghost use Rattle.jvm_model.specs.Classes.{class_at};
ghost use Rattle.type_frames.specs.Assign.{assignable, class_fits, class_named, element_fits, extends, is_array, object_fits, takes_any};
ghost use Rattle.type_frames.specs.Frames.{same};
ghost use Rattle.type_frames.specs.declared.vtype.VType.TheVariants as types;

use crate::descriptors::class_name;
use crate::vtype::VType;
use et_base::letters::{ARRAY, CLASS};
use jvm_model::{OBJECT, Program};

/// Whether two types are one.
pub fn same(a: &VType, b: &VType) -> bool
    ensures { result ≡ same a.now b.now }
{
    match (a, b) {
        (VType::Top, VType::Top) => true,
        (VType::Int, VType::Int) => true,
        (VType::Long, VType::Long) => true,
        (VType::Null, VType::Null) => true,
        (VType::Object(x), VType::Object(y)) => x.as_slice() == y.as_slice(),
        (VType::UninitThis, VType::UninitThis) => true,
        (VType::Uninit { pc: x }, VType::Uninit { pc: y }) => *x == *y,
        _ => false,
    }
}

// The number of the class of a name.
fn class_named(p: &Program, name: &[u16]) -> Option<usize>
    ensures { result ≡ class_named p.now name.now }
{
    p.classes.iter().position(|c| c.name.as_slice() == name)
}

// A class of the program is another one or below it.
#[tactic(auto, unfolding(crate::specs::Assign::extends))]
fn extends(p: &Program, a: &[u16], b: &[u16]) -> bool
    ensures { result ≡ extends p.now a.now b.now }
{
    match class_named(p, a) {
        None => false,
        Some(c) => match class_named(p, b) {
            None => false,
            Some(d) => p.is_place_below(c, d),
        },
    }
}

// Whether the class at a place is an interface.
fn is_interface(p: &Program, class: usize) -> bool
    ensures { result ≡ classes.is_interface (class_at p.now class).flags }
{
    match p.classes.as_slice().get(class) {
        None => false,
        Some(c) => c.is_interface(),
    }
}

// The class is Object or an interface, which take any reference.
#[tactic(auto, unfolding(crate::specs::Assign::takes_any))]
fn takes_any(p: &Program, b: &[u16]) -> bool
    ensures { result ≡ takes_any p.now b.now }
{
    match class_named(p, b) {
        None => false,
        Some(d) => d == OBJECT as usize || is_interface(p, d),
    }
}

#[tactic(auto, unfolding(crate::specs::Assign::class_fits))]
fn class_fits(p: &Program, a: &[u16], b: &[u16]) -> bool
    ensures { result ≡ class_fits p.now a.now b.now }
{
    a == b || (takes_any(p, b) || extends(p, a, b))
}

fn element_fits(p: &Program, a: &[u16], b: &[u16]) -> bool
    ensures { result ≡ element_fits p.now a.now b.now }
{
    let Some((u, us)) = a.split_first() else {
        return false;
    };
    let Some((w, ws)) = b.split_first() else {
        return false;
    };
    if *w == CLASS {
        if *u == CLASS {
            return class_fits(p, class_name(us), class_name(ws));
        }
        return *u == ARRAY && takes_any(p, class_name(ws));
    }
    if *w == ARRAY {
        return *u == ARRAY && element_fits(p, us, ws);
    }
    *u == *w
}

fn is_array(name: &[u16]) -> bool
    ensures { result ≡ is_array name.now }
{
    match name.first() {
        None => false,
        Some(u) => *u == ARRAY,
    }
}

#[tactic(auto, unfolding(crate::specs::Assign::object_fits))]
fn object_fits(p: &Program, a: &[u16], b: &[u16]) -> bool
    ensures { result ≡ object_fits p.now a.now b.now }
{
    if is_array(a) {
        if is_array(b) {
            return element_fits(p, &a[1..], &b[1..]);
        }
        return takes_any(p, b);
    }
    !is_array(b) && class_fits(p, a, b)
}

/// Whether a value of one type may stand where another type is asked (JVMS 4.10.1.2). An interface takes every
/// reference, and a class that the program lacks counts as one below Object (this project's).
pub fn assignable(p: &Program, from: &VType, to: &VType) -> bool
    ensures { result ≡ assignable p.now from.now to.now }
{
    match (from, to) {
        (_, VType::Top) => true,
        (VType::Int, VType::Int) => true,
        (VType::Long, VType::Long) => true,
        (VType::Null, VType::Null) => true,
        (VType::Null, VType::Object(_)) => true,
        (VType::Object(a), VType::Object(b)) => object_fits(p, a.as_slice(), b.as_slice()),
        (VType::UninitThis, VType::UninitThis) => true,
        (VType::Uninit { pc: a }, VType::Uninit { pc: b }) => *a == *b,
        _ => false,
    }
}

/// Whether an object of a class or array by its name may stand where a type is asked.
pub fn object_assignable(p: &Program, name: &[u16], to: &VType) -> bool
    ensures { result ≡ assignable p.now (types.Object name.now) to.now }
{
    match to {
        VType::Top => true,
        VType::Object(b) => object_fits(p, name, b.as_slice()),
        _ => false,
    }
}
