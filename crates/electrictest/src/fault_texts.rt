//! How faults of the input are written.

ghost use Rattle.std.specs.Prelude.{◌≡◌, ◌++◌, ◌∷◌, codes, decimal, OnOk};
ghost use Rattle.et_base.specs.Quotes.{name_of};
ghost use Rattle.electrictest.specs.FaultTexts.{why_text, class_text, link_text, check_text, two};

use class_link::LinkFault;
use class_reader::ClassFault;
use et_base::{NoMemory, Text, Units, push_decimal, push_name};
use suite_load::Why;
use type_frames::CheckFault;

// The word for what is wrong with a line of a suite text.
fn word(why: Why) -> &'static [u8]
    ensures { result.now ≡ why_text why }
{
    match why {
        Why::Header => b"header",
        Why::Form => b"form",
        Why::Order => b"order",
        Why::Name => b"name",
        Why::Number => b"number",
        Why::Twice => b"twice",
        Why::TooMany => b"too-many",
        Why::NotATest => b"not-a-test",
    }
}

/// Appends the first faulty line of a suite text, by its number from 1, and what is wrong with it.
pub fn push_suite_fault(out: &mut Text, line: u32, why: Why) -> Result<(), NoMemory>
    ensures { OnOk result
        (out.new ≡ out.old ++ (codes "suite " ++ (decimal line ++ (32 ∷ why_text why)))) }
{
    out.extend_from_slice(b"suite ")?;
    push_decimal(out, line as u64)?;
    out.push(b' ')?;
    out.extend_from_slice(word(why))
}

// Appends a word and a number.
fn push_one(out: &mut Text, word: &[u8], number: u32) -> Result<(), NoMemory>
    ensures { OnOk result (out.new ≡ out.old ++ (word.now ++ decimal number)) }
{
    out.extend_from_slice(word)?;
    push_decimal(out, number as u64)
}

// Appends two numbers.
fn push_pair(out: &mut Text, first: u32, second: u32) -> Result<(), NoMemory>
    ensures { OnOk result (out.new ≡ out.old ++ two first second) }
{
    push_decimal(out, first as u64)?;
    out.push(b' ')?;
    push_decimal(out, second as u64)
}

// Appends a word and two numbers.
fn push_two(out: &mut Text, word: &[u8], first: u32, second: u32) -> Result<(), NoMemory>
    ensures { OnOk result (out.new ≡ out.old ++ (word.now ++ two first second)) }
{
    out.extend_from_slice(word)?;
    push_pair(out, first, second)
}

// Appends a word and three numbers.
fn push_three(
    out: &mut Text,
    word: &[u8],
    first: u32,
    second: u32,
    third: u32,
) -> Result<(), NoMemory>
    ensures { OnOk result
        (out.new ≡ out.old ++ (word.now ++ (decimal first ++ (32 ∷ two second third)))) }
{
    out.extend_from_slice(word)?;
    push_decimal(out, first as u64)?;
    out.push(b' ')?;
    push_pair(out, second, third)
}

#[tactic(auto, unfolding(crate::specs::FaultTexts::class_text))]
fn push_class_text(out: &mut Text, fault: ClassFault) -> Result<(), NoMemory>
    ensures { OnOk result (out.new ≡ out.old ++ class_text fault) }
{
    match fault {
        ClassFault::BadMagic => out.extend_from_slice(b"bad-magic"),
        ClassFault::BadVersion { major } => push_one(out, b"bad-version ", major),
        ClassFault::Truncated { at } => push_one(out, b"truncated ", at),
        ClassFault::BadTag { at, tag } => push_two(out, b"bad-tag ", at, tag as u32),
        ClassFault::BadIndex { at } => push_one(out, b"bad-index ", at),
        ClassFault::BadUtf { at } => push_one(out, b"bad-utf ", at),
        ClassFault::BadLength { at } => push_one(out, b"bad-length ", at),
        ClassFault::BadDescriptor { at } => push_one(out, b"bad-descriptor ", at),
        ClassFault::Repeated { at } => push_one(out, b"repeated ", at),
        ClassFault::CodeKind { at } => push_one(out, b"code-kind ", at),
        ClassFault::CutCode { method, pc } => push_two(out, b"cut-code ", method, pc),
        ClassFault::Unsupported { method, pc, opcode } => {
            push_three(out, b"unsupported ", method, pc, opcode as u32)
        }
        ClassFault::BadOperand { method, pc } => push_two(out, b"bad-operand ", method, pc),
        ClassFault::BadTarget { method, pc } => push_two(out, b"bad-target ", method, pc),
        ClassFault::Trailing { at } => push_one(out, b"trailing ", at),
        ClassFault::NoMemory => Ok(()),
    }
}

/// Appends the first fault of the class file of this name.
pub fn push_class_fault(out: &mut Text, name: &Text, fault: ClassFault) -> Result<(), NoMemory>
    ensures { OnOk result
        (out.new ≡ out.old ++ (codes "class " ++ (name.now ++ (32 ∷ class_text fault)))) }
{
    out.extend_from_slice(b"class ")?;
    out.extend_from_slice(name.as_slice())?;
    out.push(b' ')?;
    push_class_text(out, fault)
}

// Appends a word and a name.
fn push_named(out: &mut Text, word: &[u8], name: &Units) -> Result<(), NoMemory>
    ensures { OnOk result (out.new ≡ out.old ++ (word.now ++ name_of name.now)) }
{
    out.extend_from_slice(word)?;
    push_name(out, name.as_slice())
}

// Appends a word and two names.
fn push_names(out: &mut Text, word: &[u8], first: &Units, second: &Units) -> Result<(), NoMemory>
    ensures { OnOk result
        (out.new ≡ out.old ++ (word.now ++ (name_of first.now ++ (32 ∷ name_of second.now)))) }
{
    push_named(out, word, first)?;
    out.push(b' ')?;
    push_name(out, second.as_slice())
}

// Appends a word, a class and an index of its pool.
fn push_entry(out: &mut Text, word: &[u8], class: &Units, index: u32) -> Result<(), NoMemory>
    ensures { OnOk result
        (out.new ≡ out.old ++ (word.now ++ (name_of class.now ++ (32 ∷ decimal index)))) }
{
    push_named(out, word, class)?;
    out.push(b' ')?;
    push_decimal(out, index as u64)
}

#[tactic(auto, unfolding(crate::specs::FaultTexts::link_text))]
fn push_link_text(out: &mut Text, fault: &LinkFault) -> Result<(), NoMemory>
    ensures { OnOk result (out.new ≡ out.old ++ link_text fault.now) }
{
    match fault {
        LinkFault::Duplicate { class } => push_named(out, b"duplicate ", class),
        LinkFault::Missing { class, name } => push_names(out, b"missing ", class, name),
        LinkFault::Cycle { class } => push_named(out, b"cycle ", class),
        LinkFault::NoMember { class, index } => push_entry(out, b"no-member ", class, *index),
        LinkFault::WrongKind { class, index } => push_entry(out, b"wrong-kind ", class, *index),
        LinkFault::NotATest { .. } | LinkFault::NoMemory => Ok(()),
    }
}

/// Appends the first fault of linking.
pub fn push_link_fault(out: &mut Text, fault: &LinkFault) -> Result<(), NoMemory>
    ensures { OnOk result (out.new ≡ out.old ++ (codes "link " ++ link_text fault.now)) }
{
    out.extend_from_slice(b"link ")?;
    push_link_text(out, fault)
}

// Appends a class, and a method's number and a place of its code.
fn push_place(out: &mut Text, class: &Units, method: u32, pc: u32) -> Result<(), NoMemory>
    ensures { OnOk result (out.new ≡ out.old ++ (name_of class.now ++ (32 ∷ two method pc))) }
{
    push_name(out, class.as_slice())?;
    out.push(b' ')?;
    push_pair(out, method, pc)
}

// Appends a broken rule and where it is broken.
fn push_rule(out: &mut Text, class: &Units, method: u32, pc: u32, rule: u32) -> Result<(), NoMemory>
    ensures { OnOk result
        (out.new ≡ out.old ++ (name_of class.now
        ++ (32 ∷ (two method pc ++ (codes " rule " ++ decimal rule))))) }
{
    push_place(out, class, method, pc)?;
    push_one(out, b" rule ", rule)
}

// Appends where a frame is missing.
fn push_no_frame(out: &mut Text, class: &Units, method: u32, pc: u32) -> Result<(), NoMemory>
    ensures { OnOk result
        (out.new ≡ out.old ++ (name_of class.now ++ (32 ∷ (two method pc ++ codes " no-frame")))) }
{
    push_place(out, class, method, pc)?;
    out.extend_from_slice(b" no-frame")
}

// Appends a member that isn't served.
fn push_unsupported(out: &mut Text, class: &Units, member: &Units) -> Result<(), NoMemory>
    ensures { OnOk result
        (out.new ≡ out.old ++ (name_of class.now
        ++ (32 ∷ (name_of member.now ++ codes " unsupported")))) }
{
    push_name(out, class.as_slice())?;
    push_named(out, b" ", member)?;
    out.extend_from_slice(b" unsupported")
}

#[tactic(auto, unfolding(crate::specs::FaultTexts::check_text))]
fn push_check_text(out: &mut Text, fault: &CheckFault) -> Result<(), NoMemory>
    ensures { OnOk result (out.new ≡ out.old ++ check_text fault.now) }
{
    match fault {
        CheckFault::Rule {
            class,
            method,
            pc,
            rule,
        } => push_rule(out, class, *method, *pc, *rule),
        CheckFault::NoFrame { class, method, pc } => push_no_frame(out, class, *method, *pc),
        CheckFault::Unsupported { class, member } => push_unsupported(out, class, member),
        CheckFault::NoMemory => Ok(()),
    }
}

/// Appends the first fault of the check.
pub fn push_check_fault(out: &mut Text, fault: &CheckFault) -> Result<(), NoMemory>
    ensures { OnOk result (out.new ≡ out.old ++ (codes "check " ++ check_text fault.now)) }
{
    out.extend_from_slice(b"check ")?;
    push_check_text(out, fault)
}
