//! What the tests of a program reach.

ghost use Rattle.std.specs.Prelude.{◌≡◌, ◌<◌, ◌≤◌, ◌+◌, ℕ, List, not, ◌&&◌, length, get_or, false, IfOk};
ghost use Rattle.jvm_model.specs.declared.values.{Kind.Kind as KindOf, Touch.Touch};
ghost use Rattle.order_law.specs.Histories.{Touches};
ghost use Rattle.access_tags.specs.{HeadMarks.touches_so_far, HeadsStand.HeadsStand, Settled.AreReaches, Settled.reads_out_alone};

use crate::heads::Heads;
use et_base::{Items, NoMemory};
use jvm_model::Program;
use order_law::{Reach, puts_out};
use std::alloc::Global;

/// What each test of a program reaches, by the heads that the tests touched and by whether the exposed reads of each are of
/// the static `System.out` alone.
pub fn reaches_of(
    alloc: Global,
    p: &Program,
    heads: &Heads,
    alone: &[bool],
) -> Result<Items<Reach>, NoMemory>
    requires few { length p.now.tests ≤ 1024 }
    ensures each { IfOk result (λ rs. length rs ≡ length p.now.tests) }
    ensures reach { IfOk result (λ rs. (kinds : ℕ → ℕ → KindOf) (T S : Touches) (t : ℕ) (ts : List Touch) → heads.now.classes ≡ length p.now.classes → HeadsStand kinds T t ts heads.now
        → ((i : ℕ) → i < length p.now.tests → touches_so_far T t ts (i + 1) ≡ S (i + 1)) → ((i : ℕ) → i < length p.now.tests → get_or alone.now i false ≡ reads_out_alone S (i + 1))
        → AreReaches p.now S kinds rs) }
{
    let puts = puts_out(p);
    let mut reaches = Items::new(alloc);
    for i in 0..p.tests.len() {
        let settled = is_settled(alone, i, puts);
        reaches.push(heads.reach(alloc, p, i as u32 + 1, settled)?)?;
    }
    Ok(reaches)
}

/// Whether the test at a place reads `System.out` alone, and no code puts that.
fn is_settled(alone: &[bool], at: usize, puts: bool) -> bool
    ensures { result ≡ (get_or alone.now at false && not puts) }
{
    at < alone.len() && alone[at] && !puts
}
