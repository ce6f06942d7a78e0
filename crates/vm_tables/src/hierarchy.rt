//! What stands above each class: superclasses and superinterfaces. Each superinterface of a class is visited once, however
//! many ways lead to it.

ghost use Rattle.std.specs.Prelude.{◌≡◌, ℕ, ◌<◌, ◌++◌, [], All, IfOk, OnOk, false, flat_map, get_or, length, nat_eq};
ghost use Rattle.indexmap.specs.IndexSet.{insert_all};
ghost use Rattle.jvm_model.specs.Classes as classes;
ghost use Rattle.jvm_model.specs.Classes.{member, upwards_in, upwards};
ghost use Rattle.jvm_model.specs.Kinds as kinds;
ghost use Rattle.jvm_model.specs.{Selection.all_interfaces, Linked.Linked, Linked.IsClass};
ghost use Rattle.vm_tables.specs.Hierarchy.{AreBelow, AreImplemented, AreInterfaces, AreOwn};

use crate::interfaces::own_interfaces;
use et_base::{Items, NoMemory};
use indexmap::IndexSet;
use jvm_model::{Base, Kind, OBJECT, Program, class_bound};
use std::alloc::Global;
use std::marker::Model;
use std::snapshot::Snapshot;

/// The superclasses and superinterfaces of each class. Contracts see the program.
#[derive(Drop)]
pub(crate) struct Hierarchy {
    own: Items<Items<u32>>,
    interfaces: Items<Items<u32>>,
    implemented: Items<Items<bool>>,
    below: Items<Items<bool>>,
    program: Snapshot<Program>,
}

impl Model for Hierarchy {
    ghost use Rattle.jvm_model.specs.declared.program.Program.{Program as Numbered};
    ghost use Rattle.vm_tables.specs.Hierarchy.{AreAbove};

    ghost Value = { Numbered };

    ghost view = { λ t. t.program.value };

    ghost invariant = { λ t. AreAbove t.program.value t.own t.interfaces t.implemented t.below };
}

impl Hierarchy {
    /// What stands above a linked program's classes.
    pub(crate) fn of(alloc: Global, p: &Program) -> Result<Hierarchy, NoMemory>
        requires { Linked p.now }
        ensures { IfOk result (λ above. above ≡ p.now) }
    {
        let own = all_own(alloc, p)?;
        let interfaces = all_interfaces(alloc, p, &own)?;
        let implemented = all_implemented(alloc, p, &interfaces)?;
        let below = all_below(alloc, p)?;
        Ok(Hierarchy {
            own,
            interfaces,
            implemented,
            below,
            program: Snapshot::of(p),
        })
    }

    /// The interfaces that a class or interface reaches by its own entries, in order.
    pub(crate) fn own_interfaces(&self, class: u32) -> &[u32]
        ensures { result.now ≡ classes.own_interfaces self.now class }
    {
        listed(&self.own, class)
    }

    /// The superinterfaces of a class or interface, those of its superclasses among them, in order.
    pub(crate) fn interfaces(&self, class: u32) -> &[u32]
        ensures { result.now ≡ all_interfaces self.now class }
    {
        listed(&self.interfaces, class)
    }

    /// Whether a class or one above it implements an interface.
    pub(crate) fn implements(&self, class: u32, interface: u32) -> bool
        ensures { result ≡ classes.implements self.now class interface }
    {
        flag_at(&self.implemented, class, interface)
    }

    /// Whether a class is another one or below it.
    pub(crate) fn is_below(&self, class: u32, above: u32) -> bool
        ensures { result ≡ classes.is_below self.now class above }
    {
        class == above || flag_at(&self.below, class, above)
    }

    /// Whether an instance of a class or interface is one of another.
    #[tactic(auto, unfolding(jvm_model::specs::Kinds::class_fits))]
    pub(crate) fn class_fits(&self, class: u32, other: u32) -> bool
        ensures { result ≡ kinds.class_fits self.now class other }
    {
        self.is_below(class, other) || self.implements(class, other)
    }

    /// Innermost element types of arrays of as many dimensions.
    fn base_fits(&self, base: Base, other: Base) -> bool
        ensures { result ≡ kinds.base_fits self.now base other }
    {
        match (base, other) {
            (Base::Class(class), Base::Class(above)) => self.class_fits(class, above),
            (Base::Class(_), _) => false,
            (_, Base::Class(_)) => false,
            _ => base == other,
        }
    }

    /// Whether an object of one kind is an instance of another.
    #[tactic(auto, unfolding(jvm_model::specs::Kinds::kind_fits))]
    pub(crate) fn kind_fits(&self, kind: Kind, other: Kind) -> bool
        ensures { result ≡ kinds.kind_fits self.now kind other }
    {
        match (kind, other) {
            (Kind::Class(class), Kind::Class(above)) => self.class_fits(class, above),
            (Kind::Class(_), Kind::Array { .. }) => false,
            (Kind::Array { .. }, Kind::Class(above)) => above == OBJECT,
            (
                Kind::Array { dims, base },
                Kind::Array {
                    dims: fewer,
                    base: above,
                },
            ) => {
                if dims == fewer {
                    self.base_fits(base, above)
                } else {
                    fewer < dims && is_object(above)
                }
            }
        }
    }
}

/// The innermost element type is Object.
fn is_object(base: Base) -> bool
    ensures { result ≡ kinds.is_object base }
{
    match base {
        Base::Class(class) => class == OBJECT,
        _ => false,
    }
}

/// The numbers that a table has for one, none where it has no entry.
#[tactic(auto, using(crate::proofs::Places::get_some, crate::proofs::Places::get_none))]
fn listed(table: &Items<Items<u32>>, number: u32) -> &[u32]
    ensures { result.now ≡ get_or table.now number [] }
{
    match table.get(number as usize) {
        None => &[],
        Some(numbers) => numbers.as_slice(),
    }
}

/// The flag of two numbers, false where there is none.
#[tactic(auto, using(crate::proofs::Places::get_some, crate::proofs::Places::get_none))]
fn flag_at(flags: &Items<Items<bool>>, row: u32, place: u32) -> bool
    ensures { result ≡ get_or (get_or flags.now row []) place false }
{
    match flags.get(row as usize) {
        None => false,
        Some(flags) => match flags.get(place as usize) {
            None => false,
            Some(flag) => *flag,
        },
    }
}

/// The flags of these numbers, which are below a count.
#[tactic(auto, using(crate::proofs::Ancestors::none_set, crate::proofs::Ancestors::one_set))]
fn flags_of(alloc: Global, count: usize, numbers: &[u32]) -> Result<Items<bool>, NoMemory>
    requires { All (λ n. n < count) numbers.now }
    ensures { IfOk result (λ flags. (n : ℕ) → get_or flags n false ≡ member n numbers.now) }
{
    let mut flags = vec![in alloc; false; count]?;
    for number in numbers {
        flags[*number as usize] = true;
    }
    Ok(Items::from_vec(flags))
}

/// The interfaces that each class reaches by its own entries.
fn all_own(alloc: Global, p: &Program) -> Result<Items<Items<u32>>, NoMemory>
    requires { Linked p.now }
    ensures { IfOk result (λ table. AreOwn p.now table) }
{
    let mut table = Items::new(alloc);
    for class in 0..p.classes.len() as u32 {
        table.push(own_of(alloc, p, class)?)?;
    }
    Ok(table)
}

/// The interfaces that a class or interface reaches by its own entries.
fn own_of(alloc: Global, p: &Program, class: u32) -> Result<Items<u32>, NoMemory>
    requires linked { Linked p.now }
    requires there { IsClass p.now class }
    ensures { IfOk result (λ own. own ≡ classes.own_interfaces p.now class) }
{
    let own = own_interfaces(alloc, p, class)?;
    Items::from_slice(alloc, own.as_slice())
}

/// Appends a class and those above it, at most so many steps up.
fn push_upwards(p: &Program, steps: u32, class: u32, chain: &mut Items<u32>) -> Result<(), NoMemory>
    ensures { OnOk result (chain.new ≡ chain.old ++ upwards_in p.now steps class) }
{
    if steps == 0 {
        return Ok(());
    }
    chain.push(class)?;
    match p.superclass(class) {
        None => Ok(()),
        Some(above) => push_upwards(p, steps - 1, above, chain),
    }
}

/// A class and those above it.
fn chain_of(alloc: Global, p: &Program, class: u32) -> Result<Items<u32>, NoMemory>
    ensures { IfOk result (λ chain. chain ≡ upwards p.now class) }
{
    let mut chain = Items::new(alloc);
    push_upwards(p, class_bound(), class, &mut chain)?;
    Ok(chain)
}

/// Notes numbers that aren't noted yet.
fn note_all(noted: &mut IndexSet<u32>, numbers: &[u32]) -> Result<(), NoMemory>
    ensures { OnOk result (noted.new.keys ≡ insert_all nat_eq noted.old.keys numbers.now) }
{
    for number in numbers {
        noted.insert(*number)?;
    }
    Ok(())
}

/// What these classes reach by their own entries.
fn note_own(
    alloc: Global,
    p: &Program,
    own: &Items<Items<u32>>,
    chain: &[u32],
) -> Result<IndexSet<u32>, NoMemory>
    requires { AreOwn p.now own.now }
    ensures { IfOk result (λ noted. noted.keys
        ≡ insert_all nat_eq [] (flat_map (λ d. classes.own_interfaces p.now d) chain.now)) }
{
    let mut noted = IndexSet::new(alloc);
    for class in chain {
        note_all(&mut noted, listed(own, *class))?;
    }
    Ok(noted)
}

/// The superinterfaces of a class.
#[tactic(auto, using(member_lookup::proofs::MentionFacts::first_is))]
fn interfaces_of(
    alloc: Global,
    p: &Program,
    own: &Items<Items<u32>>,
    class: u32,
) -> Result<Items<u32>, NoMemory>
    requires { AreOwn p.now own.now }
    ensures { IfOk result (λ found. found ≡ all_interfaces p.now class) }
{
    let chain = chain_of(alloc, p, class)?;
    let noted = note_own(alloc, p, own, chain.as_slice())?;
    Items::from_slice(alloc, noted.as_slice())
}

/// The superinterfaces of each class.
fn all_interfaces(
    alloc: Global,
    p: &Program,
    own: &Items<Items<u32>>,
) -> Result<Items<Items<u32>>, NoMemory>
    requires linked { Linked p.now }
    requires own { AreOwn p.now own.now }
    ensures { IfOk result (λ table. AreInterfaces p.now table) }
{
    let mut table = Items::new(alloc);
    for class in 0..p.classes.len() as u32 {
        table.push(interfaces_of(alloc, p, own, class)?)?;
    }
    Ok(table)
}

/// Which interfaces a class implements.
#[tactic(auto, using(crate::proofs::Ancestors::interfaces_there, crate::proofs::Ancestors::implemented_is))]
fn implemented_by(
    alloc: Global,
    p: &Program,
    interfaces: &Items<Items<u32>>,
    class: u32,
) -> Result<Items<bool>, NoMemory>
    requires linked { Linked p.now }
    requires there { IsClass p.now class }
    requires interfaces { AreInterfaces p.now interfaces.now }
    ensures { IfOk result (λ flags. (i : ℕ) → get_or flags i false ≡ classes.implements p.now class i) }
{
    flags_of(alloc, p.classes.len(), listed(interfaces, class))
}

/// Which interfaces each class implements.
fn all_implemented(
    alloc: Global,
    p: &Program,
    interfaces: &Items<Items<u32>>,
) -> Result<Items<Items<bool>>, NoMemory>
    requires linked { Linked p.now }
    requires interfaces { AreInterfaces p.now interfaces.now }
    ensures { IfOk result (λ table. AreImplemented p.now table) }
{
    let mut table = Items::new(alloc);
    for class in 0..p.classes.len() as u32 {
        table.push(implemented_by(alloc, p, interfaces, class)?)?;
    }
    Ok(table)
}

/// Which classes a class is below.
#[tactic(auto, using(crate::proofs::Ancestors::upwards_there), unfolding(jvm_model::specs::Classes::is_below))]
fn above_of(alloc: Global, p: &Program, class: u32) -> Result<Items<bool>, NoMemory>
    requires linked { Linked p.now }
    requires there { IsClass p.now class }
    ensures { IfOk result (λ flags. (d : ℕ) → get_or flags d false ≡ classes.is_below p.now class d) }
{
    let chain = chain_of(alloc, p, class)?;
    flags_of(alloc, p.classes.len(), chain.as_slice())
}

/// Which classes each class is below.
fn all_below(alloc: Global, p: &Program) -> Result<Items<Items<bool>>, NoMemory>
    requires { Linked p.now }
    ensures { IfOk result (λ table. AreBelow p.now table) }
{
    let mut table = Items::new(alloc);
    for class in 0..p.classes.len() as u32 {
        table.push(above_of(alloc, p, class)?)?;
    }
    Ok(table)
}
