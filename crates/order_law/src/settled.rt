//! Whether the code of a program puts the static `System.out`.

ghost use Rattle.std.specs.Prelude.{◌≡◌};
ghost use Rattle.std.specs.List.{list_any};
ghost use Rattle.order_law.specs.Reach as reach;

use jvm_model::{Body, Instr, Placed, Program};

/// The number of the static `System.out`.
pub const OUT: u32 = 0;

/// Whether some code of the program puts the static `System.out`. Takes no memory.
#[tactic(auto, using(std::proofs::lemmas::List::Folds::list_any_more))]
pub fn puts_out(p: &Program) -> bool
    ensures { result ≡ reach.puts_out_somewhere p.now }
{
    let mut found = false;
    for method in p.methods.as_slice() {
        let here = body_puts_out(&method.body);
        found = found || here;
    }
    found
}

fn body_puts_out(body: &Option<Body>) -> bool
    ensures { result ≡ reach.body_puts_out body.now }
{
    match body {
        None => false,
        Some(body) => code_puts_out(body.code.as_slice()),
    }
}

#[tactic(auto, using(std::proofs::lemmas::List::Folds::list_any_more))]
fn code_puts_out(code: &[Placed]) -> bool
    ensures { result ≡ list_any (λ x. reach.puts_out x.form) code.now }
{
    let mut found = false;
    for placed in code {
        let here = form_puts_out(&placed.form);
        found = found || here;
    }
    found
}

fn form_puts_out(form: &Instr) -> bool
    ensures { result ≡ reach.puts_out form.now }
{
    match form {
        Instr::PutStatic { field } => *field == OUT,
        _ => false,
    }
}
