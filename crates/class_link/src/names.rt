//! Classes by their names: the built-in ones first, then those of the class files.

ghost use Rattle.std.specs.Prelude.{◌≡◌, ◌≤◌, ◌<◌, ◌+◌, [], ◌∷◌, ◌++◌, length, map, Some, None, cond, IfOk, OnOk, option_copied};
ghost use Rattle.std.specs.{List.list_any, Str.bytes_eq};
ghost use Rattle.et_base.specs.Names.{starts_array};
ghost use Rattle.jvm_model.specs.Library.{builtin_classes};
ghost use Rattle.class_link.specs.declared.fault.LinkFault.TheVariants.{Duplicate};
ghost use Rattle.class_link.specs.{Answers.Gives, Answers.nothing, Faults.duplicate, Faults.duplicate_fault, Link.unless, Literals.noted};
ghost use Rattle.class_link.specs.ClassNames.{all_names, own_name, class_number, number_or_first, within_type, element_class, needed_class, missing, base_of, array_kind, kind_of};

use crate::entries::name_at;
use crate::fault::LinkFault;
use crate::text_set::TextSet;
use class_reader::ClassFile;
use code_decode::dimensions;
use et_base::letters::{ARRAY, BOOLEAN, BYTE, CHAR, CLASS, INT, LONG, SHORT};
use et_base::{Items, NoMemory, Units};
use jvm_model::{Base, ClassRec, Kind};
use std::alloc::Global;
use std::marker::Model;

/// The names of all classes, which differ. Contracts see the list of them, in the order of the classes' numbers.
#[derive(Drop)]
pub struct ClassNames {
    names: TextSet,
}

impl Model for ClassNames {
    ghost use Rattle.std.specs.Prelude.{ℕ, List};

    ghost Value = { List (List ℕ) };

    ghost view = { λ n. n.names };
}

impl ClassNames {
    /// How many classes there are.
    pub(crate) fn len(&self) -> u32
        ensures { result ≡ length self.now }
    {
        self.names.len()
    }

    /// The number of the class of this name, in logarithmic time.
    pub(crate) fn number(&self, name: &[u16]) -> Option<u32>
        ensures { result ≡ class_number self.now name.now }
    {
        self.names.place(name)
    }

    /// The same, 0 where there is none.
    pub(crate) fn number_or_first(&self, name: &[u16]) -> u32
        ensures { result ≡ number_or_first self.now name.now }
    {
        self.number(name).unwrap_or(0)
    }
}

/// Whether a name is that of an array type.
pub(crate) fn starts_array(name: &[u16]) -> bool
    ensures { result ≡ starts_array name.now }
{
    match name {
        [] => false,
        [unit, ..] => *unit == ARRAY,
    }
}

// A name without its last unit.
fn within_type(units: &[u16]) -> &[u16]
    ensures { result.now ≡ within_type units.now }
{
    &units[..units.len().saturating_sub(1)]
}

fn element_class(element: &[u16]) -> Option<&[u16]>
    ensures { option_copied result ≡ element_class element.now }
{
    match element {
        [CLASS, rest @ ..] => Some(within_type(rest)),
        _ => None,
    }
}

/// The class that the name of a Class entry needs: the class itself, or the innermost element class of an array; none for
/// an array of numbers (JVMS 4.4.1).
#[tactic(auto, unfolding(crate::specs::ClassNames::needed_class))]
pub(crate) fn needed_class(name: &[u16]) -> Option<&[u16]>
    ensures { option_copied result ≡ needed_class name.now }
{
    if starts_array(name) {
        element_class(&name[dimensions(name)..])
    } else {
        Some(name)
    }
}

/// The class that such a name needs, where it isn't there.
#[tactic(auto, unfolding(crate::specs::ClassNames::missing))]
pub(crate) fn missing(
    alloc: Global,
    names: &ClassNames,
    name: &[u16],
) -> Result<Option<Units>, NoMemory>
    ensures { IfOk result (λ x. x ≡ missing names.now name.now) }
{
    match needed_class(name) {
        Some(needed) if names.number(needed).is_none() => Ok(Some(Items::from_slice(
            alloc, needed,
        )?)),
        _ => Ok(None),
    }
}

fn base_of(names: &ClassNames, element: &[u16]) -> Option<Base>
    ensures { result ≡ base_of names.now element.now }
{
    match element {
        [BOOLEAN, ..] => Some(Base::Boolean),
        [BYTE, ..] => Some(Base::Byte),
        [CHAR, ..] => Some(Base::Char),
        [SHORT, ..] => Some(Base::Short),
        [INT, ..] => Some(Base::Int),
        [LONG, ..] => Some(Base::Long),
        [CLASS, rest @ ..] => match names.number(within_type(rest)) {
            Some(class) => Some(Base::Class(class)),
            None => None,
        },
        _ => None,
    }
}

fn array_kind(names: &ClassNames, name: &[u16]) -> Option<Kind>
    ensures { result ≡ array_kind names.now name.now }
{
    let dims = dimensions(name);
    if dims > 255 {
        return None;
    }
    match base_of(names, &name[dims..]) {
        Some(base) => Some(Kind::Array {
            dims: dims as u8,
            base,
        }),
        None => None,
    }
}

/// The class or array type that a Class entry's name stands for; none where the class isn't there, and for arrays of floats
/// and doubles (JVMS 4.4.1).
#[tactic(auto, unfolding(crate::specs::ClassNames::kind_of))]
pub(crate) fn kind_of(names: &ClassNames, name: &[u16]) -> Option<Kind>
    ensures { result ≡ kind_of names.now name.now }
{
    if starts_array(name) {
        return array_kind(names, name);
    }
    match names.number(name) {
        Some(class) => Some(Kind::Class(class)),
        None => None,
    }
}

// Notes the names of classes, each once.
fn note_records(alloc: Global, names: &mut TextSet, classes: &[ClassRec]) -> Result<(), NoMemory>
    requires { length names.old + length classes.now < 4294967295 }
    ensures { OnOk result (names.new ≡ noted names.old (map (λ c. c.name) classes.now)) }
{
    for class in classes {
        names.note(alloc, class.name.as_slice())?;
    }
    Ok(())
}

// Notes the name of a class file; where it is there already, that is a fault.
fn note_class(alloc: Global, names: &mut TextSet, class: &ClassFile) -> Result<(), LinkFault>
    requires { length names.old + 1 < 4294967295 }
    ensures fault { Gives nothing result (unless (cond (list_any (bytes_eq (own_name class.now)) names.old) (Some (Duplicate (own_name class.now))) None)) }
    ensures names { OnOk result (names.new ≡ names.old ++ own_name class.now ∷ []) }
{
    let parts = class.parts();
    let name = name_at(parts.pool.slots(), parts.this_class);
    if names.note(alloc, name)? {
        Ok(())
    } else {
        Err(LinkFault::Duplicate {
            class: Items::from_slice(alloc, name)?,
        })
    }
}

// Notes the names of class files behind those that are there.
fn note_classes(alloc: Global, names: &mut TextSet, classes: &[ClassFile]) -> Result<(), LinkFault>
    requires { length names.old + length classes.now < 4294967295 }
    ensures fault { Gives nothing result (unless (duplicate names.old classes.now)) }
    ensures names { OnOk result (names.new ≡ names.old ++ map own_name classes.now) }
{
    for class in classes {
        note_class(alloc, names, class)?;
    }
    Ok(())
}

/// The names of the built-in classes, whose records these are, and of the class files behind them; or the first class file
/// whose name is that of a built-in class or of an earlier one.
#[tactic(auto, using(crate::proofs::Tables::builtins_differ), unfolding(crate::specs::ClassNames::all_names))]
pub(crate) fn names_of(
    alloc: Global,
    builtin: &[ClassRec],
    classes: &[ClassFile],
) -> Result<ClassNames, LinkFault>
    requires builtin { builtin.now ≡ builtin_classes }
    requires few { length classes.now ≤ 1024 }
    ensures fault { Gives nothing result (unless (duplicate_fault classes.now)) }
    ensures names { IfOk result (λ names. names ≡ all_names classes.now) }
{
    let mut names = TextSet::new(alloc);
    note_records(alloc, &mut names, builtin)?;
    note_classes(alloc, &mut names, classes)?;
    Ok(ClassNames { names })
}
