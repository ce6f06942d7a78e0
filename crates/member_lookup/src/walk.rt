//! Walks over the classes above a class, each of which is visited once.

ghost use Rattle.std.specs.Prelude.{◌≡◌, ◌-◌, OnOk, IfOk, [], cond, flat_map, nat_eq};
ghost use Rattle.indexmap.specs.IndexMap.{get};
ghost use Rattle.jvm_model.specs.Classes.{class_at};
ghost use Rattle.std.specs.Option.{option_to_list};
ghost use Rattle.member_lookup.specs.Walks.{IsWalked, Visits, is_walked, nexts, walk};

use et_base::NoMemory;
use indexmap::IndexMap;
use jvm_model::Program;

/// Classes in the order in which they were visited, each with the number of steps up to which those above it are among
/// them.
pub(crate) type Visited = IndexMap<u32, u32>;

// The classes so many steps above this one were visited.
fn is_walked(seen: &Visited, class: u32, steps: u32) -> bool
    ensures { result ≡ is_walked steps (get nat_eq seen.now class) }
{
    match seen.get(&class) {
        None => false,
        Some(walked) => steps <= *walked,
    }
}

/// Visits classes and those above them, each before those above itself, at most so many steps up.
#[cycle(walking)]
pub(crate) fn visit_all(
    p: &Program,
    supers: bool,
    steps: u32,
    classes: &[u32],
    seen: &mut Visited,
) -> Result<(), NoMemory>
    requires { IsWalked p.now supers seen.old }
    ensures { OnOk result (Visits p.now supers (flat_map (λ c. walk p.now supers steps c) classes.now) seen.old seen.new) }
{
    for class in classes {
        visit(p, supers, steps, *class, seen)?;
    }
    Ok(())
}

// Visits the superclass of a class, if asked to, and those above it.
#[cycle(walking)]
fn visit_superclass(
    p: &Program,
    supers: bool,
    steps: u32,
    class: u32,
    seen: &mut Visited,
) -> Result<(), NoMemory>
    requires { IsWalked p.now supers seen.old }
    ensures { OnOk result (Visits p.now supers (flat_map (λ c. walk p.now supers steps c) (cond supers (option_to_list (class_at p.now class).superclass) [])) seen.old seen.new) }
{
    if !supers {
        return Ok(());
    }
    match p.superclass(class) {
        None => Ok(()),
        Some(above) => visit(p, supers, steps, above, seen),
    }
}

// Visits the classes just above a class, and those above them.
#[cycle(walking)]
fn visit_nexts(
    p: &Program,
    supers: bool,
    steps: u32,
    class: u32,
    seen: &mut Visited,
) -> Result<(), NoMemory>
    requires { IsWalked p.now supers seen.old }
    ensures { OnOk result (Visits p.now supers (flat_map (λ c. walk p.now supers steps c) (nexts p.now supers class)) seen.old seen.new) }
{
    visit_all(p, supers, steps, p.interfaces(class), seen)?;
    visit_superclass(p, supers, steps, class, seen)?;
    Ok(())
}

/// Visits a class and those above it.
#[cycle(walking)]
pub(crate) fn visit(
    p: &Program,
    supers: bool,
    steps: u32,
    class: u32,
    seen: &mut Visited,
) -> Result<(), NoMemory>
    requires { IsWalked p.now supers seen.old }
    ensures { OnOk result (Visits p.now supers (walk p.now supers steps class) seen.old seen.new) }
{
    if steps == 0 {
        return Ok(());
    }
    if is_walked(seen, class, steps) {
        return Ok(());
    }
    seen.insert(class, 0)?;
    visit_nexts(p, supers, steps - 1, class, seen)?;
    seen.insert(class, steps)?;
    Ok(())
}
