//! The methods that the driver calls by their names.

ghost use Rattle.std.specs.Prelude.{◌≡◌, ◌&&◌, not};
ghost use Rattle.std.specs.Str.{bytes_eq};
ghost use Rattle.jvm_model.specs.Classes.{is_static, method_at, upwards_in, upwards};
ghost use Rattle.jvm_model.specs.Driver as driver;

use et_base::is_ascii_text;
use jvm_model::{Program, class_bound};

/// The first instance method of a name, without arguments or result, in a list of methods.
pub fn plain_method_in(p: &Program, name: &[u8], methods: &[u32]) -> Option<u32>
    ensures { result ≡ driver.plain_method_in p.now name.now methods.now }
{
    for method in methods {
        if is_plain(p, name, *method) {
            return Some(*method);
        }
    }
    None
}

/// Whether a method is an instance method of this name, without arguments or result.
fn is_plain(p: &Program, name: &[u8], method: u32) -> bool
    ensures { result ≡ (not (is_static (method_at p.now method).flags)
        && (bytes_eq (method_at p.now method).name name.now
        && bytes_eq (method_at p.now method).descriptor driver.no_arguments)) }
{
    !p.is_static_method(method)
        && is_ascii_text(p.method_name(method), name)
        && is_ascii_text(p.method_descriptor(method), b"()V")
}

/// The first such method that a class declares, or the nearest class above it that does.
pub fn plain_method_of(p: &Program, name: &[u8], class: u32) -> Option<u32>
    ensures { result ≡ driver.plain_method_of p.now name.now (upwards p.now class) }
{
    plain_method_up(p, name, class_bound(), class)
}

/// The same at most so many steps up.
fn plain_method_up(p: &Program, name: &[u8], steps: u32, class: u32) -> Option<u32>
    ensures { result ≡ driver.plain_method_of p.now name.now (upwards_in p.now steps class) }
{
    if steps == 0 {
        return None;
    }
    match plain_method_in(p, name, p.class_methods(class)) {
        Some(method) => Some(method),
        None => match p.superclass(class) {
            None => None,
            Some(above) => plain_method_up(p, name, steps - 1, above),
        },
    }
}
