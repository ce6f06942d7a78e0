//! A program with its tables.

ghost use Rattle.std.specs.Prelude.{◌≡◌, ◌<◌, IfOk, IfSome, IsSome, length, map, get_or, option_copied, []};
ghost use Rattle.std.specs.Str.{bytes_eq};
ghost use Rattle.jvm_model.specs.Classes as classes;
ghost use Rattle.jvm_model.specs.Classes.{found_of, method_at, layout};
ghost use Rattle.jvm_model.specs.{Initialise.parts_of, RowsCalls.argument_count, Linked.IsBody, Linked.Linked, Selection.all_interfaces};
ghost use Rattle.jvm_model.specs.Kinds as kinds;
ghost use Rattle.vm_tables.specs.{FieldUnits.field_unit, FieldUnits.AreUnits, Methods.call_descriptor_of, Methods.return_unit, Starts.part_of};
ghost use Rattle.vm_tables.specs.Numbers.{code_of, instruction_of, no_placed, AllNexts, AreCells, AreNexts, AreNumbers, ArePlaces};

use crate::hierarchy::Hierarchy;
use crate::init_plan::{InitPlan, Part};
use crate::interfaces::DefaultInterfaces;
use crate::methods::{CallDescriptor, MethodTable, first_unit};
use crate::numbers::{nexts_of, numbers_of};
use crate::trivial::TrivialClasses;
use et_base::{Items, NoMemory};
use jvm_model::{Instr, Kind, MethodRec, Program};
use std::alloc::Global;
use std::marker::Model;

/// A program with what a step asks of it, made once: instructions by byte place, what calls ask of methods, counts of
/// cells, the first units of fields' descriptors, and what starts with a class. Contracts see the program.
#[derive(Drop)]
pub struct Tables<'p> {
    program: &'p Program,
    numbers: Items<Items<u16>>,
    nexts: Items<Items<u16>>,
    cells: Items<usize>,
    units: Items<u16>,
    methods: MethodTable,
    defaults: DefaultInterfaces,
    trivial: TrivialClasses,
    parts: InitPlan,
    hierarchy: Hierarchy,
}

/// The numbers of instructions, the places after them, counts of cells, first units, and what calls ask of methods.
type MemberTables = (
    Items<Items<u16>>,
    Items<Items<u16>>,
    Items<usize>,
    Items<u16>,
    MethodTable,
);

impl<'p> Model for Tables<'p> {
    ghost use Rattle.jvm_model.specs.declared.program.Program.{Program as Numbered};
    ghost use Rattle.vm_tables.specs.Numbers.{AreTables};

    ghost Value = { Numbered };

    ghost view = { λ t. t.program.now };

    ghost invariant = { λ t. AreTables t.program.now t.numbers t.nexts t.cells t.units t.methods t.defaults t.trivial t.parts t.hierarchy };
}

impl<'p> Tables<'p> {
    /// A linked program with its tables. The only error is want of memory.
    pub fn of(alloc: Global, p: &'p Program) -> Result<Tables<'p>, NoMemory>
        requires { Linked p.now }
        ensures { IfOk result (λ tables. tables ≡ p.now) }
    {
        let defaults = DefaultInterfaces::of(alloc, p)?;
        let trivial = TrivialClasses::of(alloc, p, &defaults)?;
        let parts = InitPlan::of(alloc, p, &defaults, &trivial)?;
        let hierarchy = Hierarchy::of(alloc, p)?;
        let (numbers, nexts, cells, units, methods) = member_tables(alloc, p, &trivial)?;
        Ok(Tables {
            program: p,
            numbers,
            nexts,
            cells,
            units,
            methods,
            defaults,
            trivial,
            parts,
            hierarchy,
        })
    }

    /// The program.
    #[inline(always)]
    pub fn program(&self) -> &'p Program
        ensures { result.now ≡ self.now }
    {
        self.program
    }

    /// How many arguments a method's descriptor asks for, the receiver left aside: a long is one.
    #[inline(always)]
    #[tactic(auto, unfolding(jvm_model::specs::RowsCalls::argument_count))]
    pub fn arguments(&self, method: u32) -> usize
        ensures { result ≡ argument_count self.now method }
    {
        self.methods.get(method).arguments
    }

    /// The first unit of the type that a method returns (JVMS 4.3.3), to which a returned value is narrowed; 0 where its
    /// descriptor lacks one.
    #[inline(always)]
    pub fn return_unit(&self, method: u32) -> u16
        ensures { result ≡ return_unit self.now method }
    {
        self.methods.get(method).return_unit
    }

    /// Whether a method's name is `<init>` (JVMS 2.9.1).
    #[inline(always)]
    pub fn is_initialiser(&self, method: u32) -> bool
        ensures { result ≡ bytes_eq (method_at self.now method).name classes.init_name }
    {
        self.methods.get(method).is_initialiser
    }

    /// What entering a method takes, None of a built-in one and one without code.
    #[inline(always)]
    pub fn call_descriptor(&self, method: u32) -> Option<CallDescriptor>
        ensures { result ≡ call_descriptor_of self.now method }
    {
        self.methods.get(method).call_descriptor
    }

    /// How many cells an instance of a class has: one for each instance field, those of superclasses too.
    #[tactic(auto, using(crate::proofs::Places::cells_found, crate::proofs::Places::get_some, crate::proofs::Places::get_none))]
    pub fn cells(&self, class: u32) -> usize
        ensures { result ≡ length (layout self.now class) }
    {
        match self.cells.get(class as usize) {
            None => 0,
            Some(count) => *count,
        }
    }

    /// The first unit of a field's descriptor (JVMS 4.3.2), to which a value that it gets is narrowed; 0 where the program
    /// lacks the field or its descriptor a unit.
    #[inline(always)]
    #[tactic(auto, using(crate::proofs::FieldUnits::unit_found, crate::proofs::Places::get_some, crate::proofs::Places::get_none))]
    pub fn field_unit(&self, field: u32) -> u16
        ensures { result ≡ field_unit self.now field }
    {
        match self.units.get(field as usize) {
            None => 0,
            Some(unit) => *unit,
        }
    }

    /// Whether a class or interface has no initialisation state, so that its use starts nothing.
    pub fn is_trivial(&self, class: u32) -> bool
        ensures { result ≡ classes.is_trivial self.now class }
    {
        self.trivial.contains(class)
    }

    /// The default interfaces that a class starts itself, in order (JVMS 5.5).
    pub fn default_interfaces(&self, class: u32) -> &[u32]
        ensures { result.now ≡ classes.default_interfaces self.now class }
    {
        self.defaults.get(class)
    }

    /// What is initialised before a class, in order: its superclass and then its default interfaces, trivial ones left
    /// aside; nothing for an interface (JVMS 5.5).
    pub fn parts(&self, class: u32) -> &[Part]
        ensures { map part_of result.now ≡ parts_of self.now class }
    {
        self.parts.get(class)
    }

    /// The interfaces that a class or interface reaches by its own entries, each behind its own superinterfaces (this
    /// project's order).
    pub fn own_interfaces(&self, class: u32) -> &[u32]
        ensures { result.now ≡ classes.own_interfaces self.now class }
    {
        self.hierarchy.own_interfaces(class)
    }

    /// The superinterfaces of a class or interface, those of its superclasses among them, each once.
    pub fn interfaces(&self, class: u32) -> &[u32]
        ensures { result.now ≡ all_interfaces self.now class }
    {
        self.hierarchy.interfaces(class)
    }

    /// Whether a class is another one or below it (JVMS 4.10.1.2).
    pub fn is_below(&self, class: u32, above: u32) -> bool
        ensures { result ≡ classes.is_below self.now class above }
    {
        self.hierarchy.is_below(class, above)
    }

    /// Whether a class or one above it implements an interface (JVMS 6.5, instanceof).
    pub fn implements(&self, class: u32, interface: u32) -> bool
        ensures { result ≡ classes.implements self.now class interface }
    {
        self.hierarchy.implements(class, interface)
    }

    /// Whether an object of one kind is an instance of another (JVMS 6.5, instanceof and aastore). At run time an array
    /// implements no interface.
    pub fn kind_fits(&self, kind: Kind, other: Kind) -> bool
        ensures { result ≡ kinds.kind_fits self.now kind other }
    {
        self.hierarchy.kind_fits(kind, other)
    }

    /// The number of the instruction at a byte place of a method's code, from 0. With `instruction_of` of the program's
    /// body it is the instruction that the definition finds there, and the place of the one after it.
    pub fn number(&self, method: u32, pc: u32) -> Option<u32>
        ensures found { found_of (method_at self.now method).body pc
            ≡ instruction_of (method_at self.now method).body result }
        ensures within { IfSome result (λ i. i < length (code_of (method_at self.now method).body)) }
    {
        match entry_at(&self.numbers, method, pc) {
            0 => None,
            next => Some(u32::from(next) - 1),
        }
    }

    /// The number of the instruction that begins at a byte place of a method's code, from 0, where one does.
    #[inline(always)]
    pub fn index(&self, method: u32, pc: u32) -> usize
        requires { IsSome (classes.form_at self.now method pc) }
        ensures within { result < length (code_of (method_at self.now method).body) }
        ensures there { (get_or (code_of (method_at self.now method).body) result no_placed).pc ≡ pc }
    {
        self.numbers.as_slice()[method as usize].as_slice()[pc as usize] as usize - 1
    }

    /// The form at a byte place of a method's code.
    pub fn form(&self, method: u32, pc: u32) -> Option<&'p Instr>
        ensures { option_copied result ≡ classes.form_at self.now method pc }
    {
        let number = self.number(method, pc)?;
        let body = self.program.method(method)?.body.as_ref()?;
        let placed = body.code.get(number as usize)?;
        Some(&placed.form)
    }

    /// The place of the instruction after the one at a byte place of a method's code, or the place itself where no
    /// instruction begins.
    #[tactic(auto, using(crate::proofs::Places::next_is))]
    pub fn next_place(&self, method: u32, pc: u32) -> u32
        ensures { result ≡ classes.next_place self.now method pc }
    {
        next_at(&self.nexts, method, pc)
    }
}

/// The entry of a method's table at a byte place, 0 where there is none.
#[tactic(auto, using(crate::proofs::Places::get_some, crate::proofs::Places::get_none))]
fn entry_at(numbers: &Items<Items<u16>>, method: u32, pc: u32) -> u16
    ensures { result ≡ get_or (get_or numbers.now method []) pc 0 }
{
    match numbers.get(method as usize) {
        None => 0,
        Some(places) => match places.get(pc as usize) {
            None => 0,
            Some(number) => *number,
        },
    }
}

/// The entry of a method's table at a byte place, the place itself where there is none.
#[tactic(auto, using(crate::proofs::Places::get_some, crate::proofs::Places::get_none))]
fn next_at(nexts: &Items<Items<u16>>, method: u32, pc: u32) -> u32
    ensures { result ≡ get_or (get_or nexts.now method []) pc pc }
{
    match nexts.get(method as usize) {
        None => pc,
        Some(places) => match places.get(pc as usize) {
            None => pc,
            Some(next) => u32::from(*next),
        },
    }
}

/// The tables of a program's methods and fields: instructions by byte place and the places after them, counts of cells,
/// first units of fields' descriptors, and what calls ask of methods.
fn member_tables(
    alloc: Global,
    p: &Program,
    trivial: &TrivialClasses,
) -> Result<MemberTables, NoMemory>
    requires linked { Linked p.now }
    requires same { trivial.now ≡ p.now }
    ensures numbers { IfOk result (λ tables. AreNumbers p.now tables.0) }
    ensures nexts { IfOk result (λ tables. AllNexts p.now tables.1) }
    ensures cells { IfOk result (λ tables. AreCells p.now tables.2) }
    ensures units { IfOk result (λ tables. AreUnits p.now tables.3) }
    ensures methods { IfOk result (λ tables. tables.4 ≡ p.now) }
{
    let (numbers, nexts) = all_places(alloc, p)?;
    let cells = all_cells(alloc, p)?;
    let units = all_units(alloc, p)?;
    let methods = MethodTable::of(alloc, p, trivial)?;
    Ok((numbers, nexts, cells, units, methods))
}

/// The numbers of each method's instructions by byte place, and the places after them.
fn all_places(
    alloc: Global,
    p: &Program,
) -> Result<(Items<Items<u16>>, Items<Items<u16>>), NoMemory>
    requires { Linked p.now }
    ensures numbers { IfOk result (λ tables. AreNumbers p.now tables.0) }
    ensures nexts { IfOk result (λ tables. AllNexts p.now tables.1) }
{
    let mut numbers = Items::new(alloc);
    let mut nexts = Items::new(alloc);
    for method in p.methods.as_slice() {
        let (own_numbers, own_nexts) = places_of(alloc, method)?;
        numbers.push(own_numbers)?;
        nexts.push(own_nexts)?;
    }
    Ok((numbers, nexts))
}

/// The numbers of a method's instructions by byte place, and the places after them.
fn places_of(alloc: Global, method: &MethodRec) -> Result<(Items<u16>, Items<u16>), NoMemory>
    requires { IfSome method.now.body (λ b. IsBody b) }
    ensures numbers { IfOk result (λ tables. ArePlaces method.now.body tables.0) }
    ensures nexts { IfOk result (λ tables. AreNexts method.now.body tables.1) }
{
    match &method.body {
        None => Ok((Items::new(alloc), Items::new(alloc))),
        Some(body) => {
            let numbers = numbers_of(alloc, body)?;
            let nexts = nexts_of(alloc, body, numbers.as_slice())?;
            Ok((numbers, nexts))
        }
    }
}

/// Each class's number of cells.
fn all_cells(alloc: Global, p: &Program) -> Result<Items<usize>, NoMemory>
    requires { Linked p.now }
    ensures { IfOk result (λ cells. AreCells p.now cells) }
{
    let mut cells = Items::new(alloc);
    for class in 0..p.classes.len() as u32 {
        let fields = p.layout(alloc, class)?;
        cells.push(fields.len())?;
    }
    Ok(cells)
}

/// The first unit of each field's descriptor.
fn all_units(alloc: Global, p: &Program) -> Result<Items<u16>, NoMemory>
    ensures { IfOk result (λ units. AreUnits p.now units) }
{
    let mut units = Items::new(alloc);
    for field in p.fields.as_slice() {
        units.push(first_unit(field.descriptor.as_slice()))?;
    }
    Ok(units)
}
