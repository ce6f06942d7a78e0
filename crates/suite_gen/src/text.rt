//! The suite text.

ghost use Rattle.std.specs.Prelude.{◌≡◌, ◌++◌, OnOk, IfOk};
ghost use Rattle.std.specs.List.{flat_map, range_with_len};
ghost use Rattle.suite_gen.specs.Generated.{suite_text, test_line};

use et_base::{NoMemory, Text, push_decimal};
use std::alloc::Global;

fn push_test_line(out: &mut Text, test: u64) -> Result<(), NoMemory>
    ensures { OnOk result (out.new ≡ out.old ++ test_line test) }
{
    out.extend_from_slice(b"test Gen.t")?;
    push_decimal(out, test)?;
    out.push(b'\n')
}

fn push_test_lines(out: &mut Text, k: u64) -> Result<(), NoMemory>
    ensures { OnOk result (out.new ≡ out.old ++ flat_map test_line (range_with_len 1 k)) }
{
    for index in 0..k {
        push_test_line(out, index + 1)?;
    }
    Ok(())
}

/// The text of the generated suite of k tests.
#[tactic(auto, unfolding(crate::specs::Generated::suite_text))]
pub fn text_of(alloc: Global, k: u64) -> Result<Text, NoMemory>
    ensures { IfOk result (λ text. text ≡ suite_text k) }
{
    let mut out = Text::new(alloc);
    out.extend_from_slice(b"electric-suite 1\nclass Gen.class\n")?;
    push_test_lines(&mut out, k)?;
    out.extend_from_slice(b"end\n")?;
    Ok(out)
}
