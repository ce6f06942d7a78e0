//! Which classes are quiet.

ghost use Rattle.std.specs.Prelude.{◌≡◌, ◌<◌, ◌^◌, [], ◌∷◌, ◌++◌, IfOk, OnOk, cond, false, filter, get_or, length, map};
ghost use Rattle.std.specs.List.{list_all, range_with_len};
ghost use Rattle.jvm_model.specs.{Classes.upwards_in, Linked.Linked};
ghost use Rattle.quiet_init.specs.Quiet as quiet;
ghost use Rattle.quiet_init.specs.Starts.{AreStill, passes_interface, passes};

use crate::starts::still_starts;
use et_base::{Items, NoMemory};
use jvm_model::{Program, class_bound};
use std::alloc::Global;
use type_frames::Checked;
use vm_tables::Tables;

// Whether a class or interface declares `<clinit>` with still code, by the list of these.
fn is_still_start(starts: &[bool], class: u32) -> bool
    ensures { result ≡ get_or starts.now class false }
{
    match starts.get(class as usize) {
        None => false,
        Some(still) => *still,
    }
}

// Whether an interface is trivial or starts so.
fn passes_interface(tables: &Tables, starts: &[bool], interface: u32) -> bool
    requires starts { AreStill tables.now starts.now }
    ensures { result ≡ passes_interface tables.now interface }
{
    tables.is_trivial(interface) || is_still_start(starts, interface)
}

// Whether each of these interfaces is trivial or starts so.
fn all_pass(tables: &Tables, starts: &[bool], interfaces: &[u32]) -> bool
    requires starts { AreStill tables.now starts.now }
    ensures { result ≡ list_all (λ i. passes_interface tables.now i) interfaces.now }
{
    interfaces
        .iter()
        .all(|interface| passes_interface(tables, starts, *interface))
}

// Whether a class is trivial, or starts so itself and each of its default interfaces passes.
fn passes(tables: &Tables, starts: &[bool], class: u32) -> bool
    requires starts { AreStill tables.now starts.now }
    ensures { result ≡ passes tables.now class }
{
    tables.is_trivial(class)
        || (is_still_start(starts, class)
            && all_pass(tables, starts, tables.default_interfaces(class)))
}

// The same of a class and those above it, at most so many steps up.
fn pass_upwards(p: &Program, tables: &Tables, starts: &[bool], steps: u32, class: u32) -> bool
    requires tables { tables.now ≡ p.now }
    requires starts { AreStill p.now starts.now }
    ensures { result ≡ list_all (λ d. passes p.now d) (upwards_in p.now steps class) }
{
    if steps == 0 {
        return true;
    }
    if !passes(tables, starts, class) {
        return false;
    }
    match p.superclass(class) {
        None => true,
        Some(above) => pass_upwards(p, tables, starts, steps - 1, above),
    }
}

// Whether a class or interface is quiet.
#[tactic(auto, unfolding(crate::specs::Quiet::is_quiet))]
fn is_quiet(p: &Program, tables: &Tables, starts: &[bool], class: u32) -> bool
    requires tables { tables.now ≡ p.now }
    requires starts { AreStill p.now starts.now }
    ensures { result ≡ quiet.is_quiet p.now class }
{
    is_still_start(starts, class)
        && (p.is_interface(class) || pass_upwards(p, tables, starts, class_bound(), class))
}

/// Whether each class or interface, by its number, is quiet. The only error is want of memory.
pub(crate) fn quiet_flags(
    alloc: Global,
    p: &Program,
    tables: &Tables,
) -> Result<Items<bool>, NoMemory>
    requires linked { Linked p.now }
    requires tables { tables.now ≡ p.now }
    ensures { IfOk result (λ flags. flags ≡ map (quiet.is_quiet p.now) (range_with_len 0 (length p.now.classes))) }
{
    let starts = still_starts(alloc, p)?;
    let mut flags = Items::new(alloc);
    for class in 0..p.classes.len() as u32 {
        flags.push(is_quiet(p, tables, starts.as_slice(), class))?;
    }
    Ok(flags)
}

// Appends a class's number where its flag is set.
fn push_flagged(classes: &mut Items<u32>, class: u32, flag: bool) -> Result<(), NoMemory>
    ensures { OnOk result (classes.new ≡ classes.old ++ cond flag (class ∷ []) []) }
{
    if flag { classes.push(class) } else { Ok(()) }
}

/// The numbers of the classes with this flag, ascending. The only error is want of memory.
pub(crate) fn flagged(alloc: Global, flags: &[bool]) -> Result<Items<u32>, NoMemory>
    requires few { length flags.now < 2 ^ 32 }
    ensures { IfOk result (λ classes. classes ≡ filter (λ c. get_or flags.now c false) (range_with_len 0 (length flags.now))) }
{
    let mut classes = Items::new(alloc);
    for class in 0..flags.len() as u32 {
        push_flagged(&mut classes, class, flags[class as usize])?;
    }
    Ok(classes)
}

/// The quiet classes of a program, ascending: those that `quiet` takes the initialisers of. The only error is want of memory.
pub fn quiet_classes(alloc: Global, p: &Checked) -> Result<Items<u32>, NoMemory>
    ensures { IfOk result (λ classes. classes ≡ quiet.quiet_classes p.now) }
{
    let flags = flags_of(alloc, p.program())?;
    flagged(alloc, flags.as_slice())
}

// The same as `quiet_flags`, by tables of its own.
fn flags_of(alloc: Global, p: &Program) -> Result<Items<bool>, NoMemory>
    requires linked { Linked p.now }
    ensures { IfOk result (λ flags. flags ≡ map (quiet.is_quiet p.now) (range_with_len 0 (length p.now.classes))) }
{
    let tables = Tables::of(alloc, p)?;
    let flags = quiet_flags(alloc, p, &tables);
    drop(tables);
    flags
}
