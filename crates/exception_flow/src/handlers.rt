//! Which handler of a method catches a throwable.

ghost use Rattle.std.specs.Prelude.{◌≡◌};
ghost use Rattle.jvm_model.specs.Raising as raising;

use jvm_model::{Handler, Program};

/// The place of the first handler of a method whose range holds a place of the code, its end left out, and which catches
/// throwables of a class; None where there is none (JVMS 2.10 and 4.7.3).
#[tactic(auto, unfolding(jvm_model::specs::Raising::handler_for))]
pub fn handler_of(p: &Program, method: u32, pc: u32, class: u32) -> Option<u32>
    ensures { result ≡ raising.handler_for p.now method pc class }
{
    match p.method(method) {
        None => None,
        Some(record) => match &record.body {
            None => None,
            Some(body) => handler_in(p, body.handlers.as_slice(), pc, class),
        },
    }
}

/// The place of the first of these handlers that does so.
fn handler_in(p: &Program, handlers: &[Handler], pc: u32, class: u32) -> Option<u32>
    ensures { result ≡ raising.handler_in p.now handlers.now pc class }
{
    for handler in handlers {
        if handler.from <= pc && pc < handler.to && catches(p, handler.catches, class) {
            return Some(handler.at);
        }
    }
    None
}

/// Whether a handler for a class, or for all, catches throwables of a class.
fn catches(p: &Program, caught: Option<u32>, class: u32) -> bool
    ensures { result ≡ raising.catches p.now caught class }
{
    match caught {
        None => true,
        Some(above) => p.is_below(class, above),
    }
}
