//! What a test line says.

ghost use Rattle.std.specs.Prelude.{◌≡◌, ◌+◌, ◌==◌, ◌≤◌, length, map, not, IfOk};
ghost use Rattle.std.specs.List.{suffix_len};
ghost use Rattle.suite_load.specs.SuiteForm as form;

use crate::suite_text::TestLine;
use et_base::{Items, NoMemory, Text, Units};
use std::alloc::Global;

// A name as code units, with `/` for each dot.
fn slashed(alloc: Global, bytes: &[u8]) -> Result<Units, NoMemory>
    ensures { IfOk result (λ units. units ≡ map form.slash_for_dot bytes.now) }
{
    let mut units = Items::new(alloc);
    for b in bytes {
        units.push(slash_for_dot(*b))?;
    }
    Ok(units)
}

fn slash_for_dot(b: u8) -> u16
    ensures { result ≡ form.slash_for_dot b }
{
    if b == b'.' {
        u16::from(b'/')
    } else {
        u16::from(b)
    }
}

// The place after the last dot; 0 where there is none.
fn after_last_dot(name: &[u8]) -> usize
    ensures { result + suffix_len (λ b. not (b == 46)) name.now ≡ length name.now }
{
    let mut n = name.len();
    while n > 0 && name[n - 1] != b'.' {
        n -= 1;
    }
    n
}

/// The test of a name, with its class by internal name (JVMS 4.2.1) and its method.
pub fn test_from(
    alloc: Global,
    line: u32,
    name: &[u8],
    clock: i64,
    seed: u64,
) -> Result<TestLine, NoMemory>
    ensures { IfOk result (λ test. test ≡ form.test_from line name.now clock seed) }
{
    let n = after_last_dot(name);
    let class = slashed(alloc, &name[..n.saturating_sub(1)])?;
    let method = Units::from_ascii(alloc, &name[n..])?;
    let name = Text::from_slice(alloc, name)?;
    Ok(TestLine {
        line,
        name,
        class,
        method,
        clock,
        seed,
    })
}
