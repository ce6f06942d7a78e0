//! The built-in classes, with ample memory.

use builtin_lib::builtins;
use et_base::{NoMemory, Units, is_ascii_text};
use jvm_model::ClassDef;
use std::alloc::Global;

fn is_named(name: &Option<Units>, text: &[u8]) -> bool {
    match name {
        None => false,
        Some(name) => is_ascii_text(name.as_slice(), text),
    }
}

// Whether a class of this name is among them, directly below this superclass.
fn is_below(classes: &[ClassDef], name: &[u8], superclass: &[u8]) -> bool {
    classes.iter().any(|class| {
        is_ascii_text(class.name.as_slice(), name) && is_named(&class.superclass, superclass)
    })
}

// Whether the class of this name is among them and has no superclass.
fn is_root(classes: &[ClassDef], name: &[u8]) -> bool {
    classes.iter().any(|class| {
        is_ascii_text(class.name.as_slice(), name) && class.superclass.is_none()
    })
}

fn are_in_place(classes: &[ClassDef]) -> bool {
    is_root(classes, b"java/lang/Object")
        && is_below(classes, b"java/lang/Throwable", b"java/lang/Object")
        && is_below(
            classes,
            b"java/lang/StackOverflowError",
            b"java/lang/VirtualMachineError",
        )
}

fn are_built(alloc: Global) -> Result<bool, NoMemory> {
    let classes = builtins(alloc)?;
    Ok(are_in_place(classes.as_slice()))
}

#[test]
fn built_in_classes_have_their_superclasses(rt: HostRuntime) {
    assert!(rt; are_built(rt.alloc()).unwrap_or(false));
}
