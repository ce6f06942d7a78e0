//! Generated suites: their text, and the class file of their tests.
//!
//! Begin with `specs/Generated.antt`, the suite of k tests and the parts of its class, and
//! `specs/Bytes.antt`, the class byte by byte (JVMS 4); then `class.rt` and `text.rt`.
//!
//! - `generate` gives the suite text and the class file of the suite of k tests, for k from 1 to
//!   1,024: static methods in groups of four that share a static int.
//!
//! The class is defined by its parts, as `class_write` spells them, and written byte by byte: a
//! pool that is built piece by piece would have to be shown in form before it could be written. A
//! law says that the bytes are the spelling. What all such classes have in common stands first in
//! the pool, as one constant.
#![tactic(auto)]

ghost use Rattle.std.specs.Prelude.{◌≡◌, ◌≤◌, IfOk};
ghost use Rattle.class_write.specs.Spelling.{class_spelling};
ghost use Rattle.suite_gen.specs.Generated.{suite_text, generated_class};

mod bytes;
mod class;
mod code;
mod text;

use class::class_bytes;
use et_base::{NoMemory, Text};
use std::alloc::Global;
use text::text_of;

/// The suite text and the class file of the generated suite of k tests: static methods t1 to tk of the class Gen, in groups
/// of four that share a static int.
///
/// k is from 1 to 1,024. The only error is want of memory.
pub fn generate(alloc: Global, k: u32) -> Result<(Text, Vec<u8>), NoMemory>
    requires some { 1 ≤ k }
    requires few { k ≤ 1024 }
    ensures text { IfOk result (λ s. s.0 ≡ suite_text k) }
    ensures class { IfOk result (λ s. s.1.items ≡ class_spelling (generated_class k)) }
{
    let text = text_of(alloc, k as u64)?;
    let class = class_bytes(alloc, k as u64)?;
    Ok((text, class.into_vec()))
}
