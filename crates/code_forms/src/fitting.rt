//! Whether code may use an entry as it does (JVMS 6.5 and 5.4.3).

ghost use Rattle.std.specs.Prelude.{◌≡◌, option_copied};
ghost use Rattle.jvm_model.specs.Classes.{member};
ghost use Rattle.code_forms.specs.Uses as uses;

use crate::references::{Target, Use, named_class};
use class_pool::Entry;
use jvm_model::{Kind, Program, THROWABLE};

// The major version from whose class files on interfaces may be named by invokespecial and invokestatic (JVMS 4.9.1).
const WITH_INTERFACES: u16 = 52;

// Whether a number is among these.
fn member(number: u32, numbers: &[u32]) -> bool
    ensures { result ≡ member number numbers.now }
{
    numbers.iter().any(|other| number == *other)
}

// The class's file is of a version in which interfaces may be named.
fn names_interfaces(p: &Program, class: u32) -> bool
    ensures { result ≡ uses.names_interfaces p.now class }
{
    WITH_INTERFACES <= p.version(class)
}

// The entry is an InterfaceMethodref exactly where the class is an interface.
fn fits_sort(p: &Program, entry: Option<&Entry>, kind: Kind) -> bool
    ensures { result ≡ uses.fits_sort p.now (option_copied entry.entry) kind }
{
    match entry {
        Some(Entry::InterfaceMethod { .. }) => p.is_interface(named_class(kind)),
        _ => !p.is_interface(named_class(kind)),
    }
}

// An interface that a class may name in invokespecial: the current one or a direct superinterface.
fn is_near(p: &Program, class: u32, named: u32) -> bool
    ensures { result ≡ uses.is_near p.now class named }
{
    names_interfaces(p, class) && (named == class || member(named, p.interfaces(class)))
}

// What invokespecial names is a class, or an interface that is near.
fn special_fits(p: &Program, class: u32, named: u32) -> bool
    ensures { result ≡ uses.special_fits p.now class named }
{
    !p.is_interface(named) || is_near(p, class, named)
}

// What invokestatic names is a class or, from version 52 on, an interface.
fn static_fits(p: &Program, class: u32, named: u32) -> bool
    ensures { result ≡ uses.static_fits p.now class named }
{
    !p.is_interface(named) || names_interfaces(p, class)
}

fn method_fits(
    p: &Program,
    class: u32,
    entry: Option<&Entry>,
    used: Use,
    kind: Kind,
    method: u32,
) -> bool
    ensures { result ≡ uses.method_fits p.now class (option_copied entry.entry) used kind method }
{
    let sort = fits_sort(p, entry, kind);
    let fixed = p.is_static_method(method);
    match used {
        Use::Virtual => !fixed && sort,
        Use::Interface => !fixed && sort,
        Use::Special => !fixed && (sort && special_fits(p, class, named_class(kind))),
        Use::StaticCall => fixed && (sort && static_fits(p, class, named_class(kind))),
        _ => false,
    }
}

fn field_fits(p: &Program, used: Use, field: u32) -> bool
    ensures { result ≡ uses.field_fits p.now used field }
{
    match used {
        Use::StaticField => p.is_static_field(field),
        Use::InstanceField => { !p.is_static_field(field) && !p.is_interface(p.field_class(field)) }
        _ => false,
    }
}

fn type_fits(p: &Program, used: Use, kind: Kind) -> bool
    ensures { result ≡ uses.type_fits p.now used kind }
{
    match (used, kind) {
        (Use::Type, _) => true,
        (Use::Caught, Kind::Class(class)) => p.is_below(class, THROWABLE),
        _ => false,
    }
}

/// Whether a class may use an entry, which stands for the target, in this way: a field or method is static or not as the use
/// asks (JVMS 5.4.3.2 and 5.4.3.3), and of a class or an interface as the sort of the entry says; a handler catches a
/// throwable (JVMS 4.7.3). No use fits a constant.
#[tactic(auto, unfolding(crate::specs::Uses::fits))]
pub fn fits(p: &Program, class: u32, entry: Option<&Entry>, target: Target, used: Use) -> bool
    ensures { result ≡ uses.fits p.now class (option_copied entry.entry) target used }
{
    match target {
        Target::Constant(_) => false,
        Target::Type(kind) => type_fits(p, used, kind),
        Target::Field { field, .. } => field_fits(p, used, field),
        Target::Method { named, method } => method_fits(p, class, entry, used, named, method),
    }
}
